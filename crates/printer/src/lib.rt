// The sheet printer, from the bytes of its input to the bytes of its output. A program above it only reads and writes.
#![tactic(auto)]

ghost use Rattle.std.specs.Prelude.{◌≤◌, length};
ghost use Rattle.input.specs.Machine.{words_in};
ghost use Rattle.sheet_text.specs.Steps.{text_room, SheetWritten};
ghost use Rattle.text.specs.Output.{Outputs};
ghost use Rattle.text.specs.Steps.{Counted};
ghost use Rattle.printer.specs.Printed.{Prints};
ghost use Rattle.printer.specs.Steps.{SectionsLent};

use input::{Sections, find_sections};
use lent::{grid_size, list_sheet, read_booked};
use sheet_text::print_grids;
use text::put_refusal;
use words::{Fault, MAX_GRID, MAX_INPUT, Refusal, TABLE_SIZE};

// Room for the text of any sheet, as specs/Steps of sheet_text has it.
pub const TEXT_ROOM: usize = 393216;

// Words of the longest input.
const MAX_WORDS: usize = MAX_INPUT / 2;

// The text of a template, a script and bookings.
fn print_words(template: &[u16], script: &[u16], bookings: &[u16], out: &mut [u8]) -> usize
    requires { text_room ≤ length out.old }
    ensures { SheetWritten template.now script.now bookings.now
        out.old out.new result }
{
    let mut names = [0u8; TABLE_SIZE];
    match read_booked(template, script, bookings, &mut names) {
        Err(refusal) => put_refusal(out, refusal),
        Ok((e, count)) => {
            let size = grid_size(e);
            let mut radio = [0u8; MAX_GRID];
            let mut television = [0u8; MAX_GRID];
            let mut large = [0u8; MAX_GRID];
            let listed = list_sheet(template, script, &names, e, bookings, count);
            print_grids(
                &listed,
                &mut radio[0..size],
                &mut television[0..size],
                &mut large[0..size],
                out,
            )
        }
    }
}

// The text of an input whose three sections are found: its words are decoded once.
fn print_sections(input: &[u8], sections: Sections, out: &mut [u8]) -> usize
    requires { SectionsLent input.now sections out.old }
    ensures { SheetWritten (words_in input.now sections.template) (words_in input.now sections.script)
        (words_in input.now sections.bookings) out.old out.new result }
{
    let mut room = [0u16; MAX_WORDS];
    let lists = sections.decode(input, &mut room);
    print_words(lists.template, lists.script, lists.bookings, out)
}

// Writes the printed sheet for an input to the front of a buffer that has room for any, and returns its number of
// bytes.
pub fn print_sheet(input: &[u8], out: &mut [u8; TEXT_ROOM]) -> usize
    ensures writes { Outputs (Prints input.now) out.old out.new result }
    ensures inside { Counted out.new result }
{
    match find_sections(input) {
        None => put_refusal(out, Refusal(Fault::InputLength, 0)),
        Some(sections) => print_sections(input, sections, out),
    }
}
