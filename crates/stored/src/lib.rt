// A stored list of bookings, of two words each, in which a pair may stand several times: its words, and reading it.
//   tidying   writing it without its repeats
#![tactic(auto)]

mod tidying;

ghost use Rattle.std.specs.Prelude.{◌≡◌};
ghost use Rattle.words.specs.Reading.{accepted};
ghost use Rattle.words.specs.Refused.{read_as};
ghost use Rattle.bookings.specs.Bookings.{read_each};
ghost use Rattle.bookings.specs.Steps.{WordsIn, ListOf};
ghost use Rattle.stored.specs.Stored.{stored_card_at, stored_shape_at, stored_rule, read_stored};

use bookings::list_count;
pub use tidying::tidy;
use words::{Card, Fault, Refusal, Shape};

// The card of booking i.
fn stored_card_at(bookings: &[u16], i: usize) -> Card
    requires { WordsIn 2 bookings.now i }
    ensures { result.0 ≡ stored_card_at bookings.now i }
{
    Card(bookings[1 + 2 * i])
}

// Its shape.
fn stored_shape_at(bookings: &[u16], i: usize) -> Shape
    requires { WordsIn 2 bookings.now i }
    ensures { result.0 ≡ stored_shape_at bookings.now i }
{
    Shape(bookings[2 + 2 * i])
}

// Reads so many bookings, one by one.
fn read_stored_pairs(cards: u16, shapes: u16, count: u16, bookings: &[u16]) -> Result<u16, Refusal>
    requires { ListOf 2 bookings.now count }
    ensures { read_as result
        ≡ read_each (stored_rule cards shapes bookings.now) count 0 (accepted count) }
{
    let pairs = usize::from(count);
    for i in 0..pairs {
        if cards <= stored_card_at(bookings, i).0 {
            return Err(Refusal(Fault::BookedCard, 1 + 2 * i));
        }
        if shapes <= stored_shape_at(bookings, i).0 {
            return Err(Refusal(Fault::BookedShape, 2 + 2 * i));
        }
    }
    Ok(count)
}

// Reads a stored list for so many cards and shapes.
pub fn read_stored(cards: u16, shapes: u16, bookings: &[u16]) -> Result<u16, Refusal>
    ensures { read_as result ≡ read_stored cards shapes bookings.now }
{
    let count = list_count(2, bookings)?;
    read_stored_pairs(cards, shapes, count, bookings)
}
