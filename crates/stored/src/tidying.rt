// Writing a stored list of bookings without its repeats, as a list of both desks.
ghost use Rattle.words.specs.Wrote.{Wrote};
ghost use Rattle.stored.specs.Tidied.{tidied};
ghost use Rattle.stored.specs.Steps.{TidyAsked};

use crate::{stored_card_at, stored_shape_at};
use bookings::{card_index, desk_index, enter_booking, shape_index};
use words::{MAX_BOOKINGS, MAX_CARDS};

// Writes the first booking of each pair, in their order, each with desk 0 in front, and their count before all; answers
// how many words these are.
pub fn tidy(bookings: &[u16], count: u16, out: &mut [u16]) -> usize
    requires { TidyAsked bookings.now count out.old }
    ensures { Wrote out.old 0 (tidied bookings.now) out.new result }
{
    let mut first = [0u16; MAX_CARDS];
    let mut next = [0u16; MAX_BOOKINGS];
    let pairs = usize::from(count);
    let mut kept = 0;
    for i in 0..pairs {
        let card = stored_card_at(bookings, i);
        let shape = stored_shape_at(bookings, i);
        if !enter_booking(out, kept, 0, card, shape, &mut first, &mut next) {
            out[desk_index(kept)] = 0;
            out[card_index(kept)] = card.0;
            out[shape_index(kept)] = shape.0;
            kept += 1;
        }
    }
    out[0] = kept as u16;
    desk_index(kept)
}
