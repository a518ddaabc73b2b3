// Tidying a stored list of bookings: the first booking of each pair stays, as the radio desk's.
#![tactic(auto)]

ghost use Rattle.words.specs.Writes.{write_said};
ghost use Rattle.typing.specs.Tidy.{TidySays};

use sheet::read_sheet;
use stored::{read_stored, tidy};
use words::{Fault, Refusal, TABLE_SIZE};

// Tidy: the number of words, and the list without its repeats at the buffer's start; or what is refused.
pub fn tidy_bookings(
    template: &[u16],
    script: &[u16],
    bookings: &[u16],
    out: &mut [u16],
) -> Result<usize, Refusal>
    ensures { TidySays template.now script.now bookings.now
        out.old out.new (write_said result) }
{
    let mut names = [0u8; TABLE_SIZE];
    let e = read_sheet(template, script, &mut names)?;
    let count = read_stored(e.cards, e.shapes, bookings)?;
    if out.len() != 1 + 3 * usize::from(count) {
        return Err(Refusal(Fault::BufferLength, 0));
    }
    Ok(tidy(bookings, count, out))
}
