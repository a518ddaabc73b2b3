// Looking a booking up among those of a list, in a few steps: they are chained by their cards, and of one card there
// are at most as many as there are shapes, for each desk.
ghost use Rattle.bookings.specs.Steps.{LookupAsked, Entered};

use crate::{desk_at, shape_at};
use words::{Card, Chain, Shape};

// Whether one of the first k bookings of the list is the desk's and of the card and the shape. Where none is, booking k
// is chained with them: `first[n]` is one more than the last booking of card n, or 0, and `next[j]` one more than the
// last before booking j of the same card, or 0. The three words of a booking come apart: the list that they stand in is
// lent too, and none is made of them.
pub fn enter_booking(
    bookings: &[u16],
    k: usize,
    desk: u16,
    card: Card,
    shape: Shape,
    first: &mut [u16],
    next: &mut [u16],
) -> bool
    requires { LookupAsked bookings.now k card.0 first.old next.old }
    ensures { Entered bookings.now k (record { desk = desk; card = card.0; shape = shape.0 })
        first.old next.old first.new next.new result }
{
    let n = usize::from(card.0);
    let last = first[n];
    for j in Chain::new(last, next) {
        if shape_at(bookings, j).0 == shape.0 && desk_at(bookings, j) == desk {
            return true;
        }
    }
    next[k] = last;
    first[n] = (k + 1) as u16;
    false
}
