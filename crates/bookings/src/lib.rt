// A list of bookings of both desks (a pre-typing of each): its words, and reading it.
//   lookup    looking a booking up among those before it
#![tactic(auto)]

mod lookup;

ghost use Rattle.std.specs.Prelude.{◌≡◌, ◌*◌, ◌≤◌};
ghost use Rattle.words.specs.Limits.{max_cards, max_bookings};
ghost use Rattle.words.specs.Reading.{accepted};
ghost use Rattle.words.specs.Refused.{read_as};
ghost use Rattle.bookings.specs.Bookings.{desk_index, card_index, shape_index, desk_at, card_at, shape_at};
ghost use Rattle.bookings.specs.Bookings.{booking_rule, read_each, read_bookings};
ghost use Rattle.bookings.specs.Steps.{WordsIn, CountRead, PairsAsked};

pub use lookup::enter_booking;
use words::{Card, Fault, MAX_BOOKINGS, MAX_CARDS, Refusal, Shape};

// Where the desk of booking i stands in the list.
pub fn desk_index(i: usize) -> usize
    requires { i ≤ max_bookings }
    ensures { result ≡ desk_index i }
{
    1 + 3 * i
}

// Where its card stands.
pub fn card_index(i: usize) -> usize
    requires { i ≤ max_bookings }
    ensures { result ≡ card_index i }
{
    2 + 3 * i
}

// Where its shape stands.
pub fn shape_index(i: usize) -> usize
    requires { i ≤ max_bookings }
    ensures { result ≡ shape_index i }
{
    3 + 3 * i
}

// The desk of booking i.
pub fn desk_at(bookings: &[u16], i: usize) -> u16
    requires { WordsIn 3 bookings.now i }
    ensures { result ≡ desk_at bookings.now i }
{
    bookings[desk_index(i)]
}

// Its card.
pub fn card_at(bookings: &[u16], i: usize) -> Card
    requires { WordsIn 3 bookings.now i }
    ensures { result.0 ≡ card_at bookings.now i }
{
    Card(bookings[card_index(i)])
}

// Its shape.
pub fn shape_at(bookings: &[u16], i: usize) -> Shape
    requires { WordsIn 3 bookings.now i }
    ensures { result.0 ≡ shape_at bookings.now i }
{
    Shape(bookings[shape_index(i)])
}

// The count of a list with so many words for each booking, where it has the words that the count asks for.
pub fn list_count(width: usize, bookings: &[u16]) -> Result<u16, Refusal>
    requires { width ≤ 3 }
    ensures { CountRead width bookings.now result }
{
    if bookings.len() == 0 {
        return Err(Refusal(Fault::ListLength, 0));
    }
    let count = bookings[0];
    if MAX_BOOKINGS < usize::from(count) {
        return Err(Refusal(Fault::BookingCount, 0));
    }
    if bookings.len() != 1 + width * usize::from(count) {
        return Err(Refusal(Fault::ListLength, 0));
    }
    Ok(count)
}

// Reads so many bookings, one by one.
fn read_pairs(cards: u16, shapes: u16, count: u16, bookings: &[u16]) -> Result<u16, Refusal>
    requires { PairsAsked cards bookings.now count }
    ensures { read_as result
        ≡ read_each (booking_rule cards shapes bookings.now) count 0 (accepted count) }
{
    let mut first = [0u16; MAX_CARDS];
    let mut next = [0u16; MAX_BOOKINGS];
    let pairs = usize::from(count);
    for i in 0..pairs {
        let desk = desk_at(bookings, i);
        if 1 < desk {
            return Err(Refusal(Fault::UnknownDesk, desk_index(i)));
        }
        let card = card_at(bookings, i);
        if cards <= card.0 {
            return Err(Refusal(Fault::BookedCard, card_index(i)));
        }
        let shape = shape_at(bookings, i);
        if shapes <= shape.0 {
            return Err(Refusal(Fault::BookedShape, shape_index(i)));
        }
        if enter_booking(bookings, i, desk, card, shape, &mut first, &mut next) {
            return Err(Refusal(Fault::RepeatedBooking, card_index(i)));
        }
    }
    Ok(count)
}

// Reads a booking list for the cards of a script and so many shapes.
pub fn read_bookings(cards: u16, shapes: u16, bookings: &[u16]) -> Result<u16, Refusal>
    requires { cards ≤ max_cards }
    ensures { read_as result ≡ read_bookings cards shapes bookings.now }
{
    let count = list_count(3, bookings)?;
    read_pairs(cards, shapes, count, bookings)
}
