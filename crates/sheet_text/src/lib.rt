// The text of a sheet that is read: the lines of its largest typing and of each desk's smallest, put into a lent
// buffer.
#![tactic(auto)]

ghost use Rattle.std.specs.Prelude.{◌++◌};
ghost use Rattle.text.specs.Text.{card_lines};
ghost use Rattle.text.specs.Steps.{line_text, Adds};
ghost use Rattle.sheet_text.specs.Steps.{settled_text, Settling, Putting, Printing, SheetWritten};

use desks::desks_of;
use lent::ListedSheet;
use sheet::Extent;
use text::Writer;
use typing::Settled;

// Adds a typing: a line of a word and numbers, and the lines of its cards.
fn put_typing(text: &mut Writer, word: &[u8], numbers: &[usize], grid: &[u8], e: Extent)
    requires { Putting word.now numbers.now grid.now e text.old }
    ensures { Adds text.old (line_text word.now numbers.now ++ card_lines grid.now e.shapes e.cards) text.new }
{
    text.line(word, numbers);
    text.cards(grid, e.shapes as usize, e.cards as usize);
}

// Adds how a desk's bookings fared: its smallest typing with its number of pairs, or the pair that is not met.
fn put_settled(text: &mut Writer, found: Settled, grid: &[u8], e: Extent)
    requires { Settling grid.now e text.old }
    ensures { Adds text.old (settled_text found grid.now e.shapes e.cards) text.new }
{
    match found {
        Ok(pairs) => put_typing(text, b"smallest", &[pairs], grid, e),
        Err((card, shape)) => {
            text.line(b"smallest no", &[card.0 as usize, shape.0 as usize]);
        }
    }
}

// The text of a sheet and bookings that are read, with the grids lent.
pub fn print_grids(
    listed: &ListedSheet,
    radio: &mut [u8],
    television: &mut [u8],
    large: &mut [u8],
    out: &mut [u8],
) -> usize
    requires { Printing listed.now radio.old television.old large.old out.old }
    ensures { SheetWritten listed.now.sheet.template.now listed.now.sheet.script.now listed.now.bookings.now
        out.old out.new result }
{
    let found = desks_of(listed, radio, television, large);
    let e = listed.sheet.extent;
    let mut text = Writer { out, end: 0 };
    let numbers = [
        found.largest.rounds,
        found.largest.struck,
        found.largest.bare,
    ];
    put_typing(&mut text, b"largest", &numbers, large, e);
    put_settled(&mut text, found.radio, radio, e);
    put_settled(&mut text, found.television, television, e);
    text.end
}
