// The grid judge, from the bytes of its input to the bytes of its output. A program above it only reads and writes.
#![tactic(auto)]

ghost use Rattle.std.specs.Prelude.{◌≤◌, length};
ghost use Rattle.words.specs.Wrote.{Wrote};
ghost use Rattle.input.specs.Input.{input_of};
ghost use Rattle.input.specs.Machine.{words_in, FrontLaid};
ghost use Rattle.text.specs.Output.{Outputs};
ghost use Rattle.text.specs.Steps.{Counted};
ghost use Rattle.text.specs.Verdict.{verdict_line};
ghost use Rattle.typing.specs.Answer.{judge_said, verdict_told};
ghost use Rattle.typing.specs.Judge.{JudgeSays};
ghost use Rattle.judge_line.specs.JudgeInput.{max_judged, read_grid};
ghost use Rattle.judge_line.specs.JudgeLine.{Judges};
ghost use Rattle.judge_line.specs.Steps.{line_room, FrontLent, LineWritten};

use input::{Sections, count_at, find_front, word_at};
use text::{put_line, put_refusal};
use typing::Judged;
use verdict::judge;
use words::{Fault, Refusal};

// Bytes of the longest input, and of the longest line, as specs/ has them.
pub const MAX_JUDGED: usize = 131072;

pub const LINE_ROOM: usize = 71;

// Words of the longest input.
const MAX_WORDS: usize = MAX_JUDGED / 2;

// Writes the line of a grid that is accepted, or of its lowest pair that is not met.
fn put_judged(out: &mut [u8], judged: Judged) -> usize
    requires { line_room ≤ length out.old }
    ensures { Wrote out.old 0 (verdict_line (verdict_told judged)) out.new result }
{
    match judged {
        Ok(()) => put_line(out, b"accepted", &[]),
        Err((card, shape)) => {
            let numbers = [62, usize::from(card.0), usize::from(shape.0)];
            put_line(out, b"refused", &numbers)
        }
    }
}

// Writes the line of what the judge says.
fn put_verdict(out: &mut [u8], said: Result<Judged, Refusal>) -> usize
    requires { line_room ≤ length out.old }
    ensures { Wrote out.old 0 (verdict_line (judge_said said)) out.new result }
{
    match said {
        Ok(judged) => put_judged(out, judged),
        Err(refusal) => put_refusal(out, refusal),
    }
}

// The verdict on a grid for the sections of an input.
fn judge_sections(
    input: &[u8],
    sections: Sections,
    desk: u16,
    grid: &[u8],
) -> Result<Judged, Refusal>
    requires { FrontLaid max_judged input.now sections }
    ensures { JudgeSays (words_in input.now sections.template) (words_in input.now sections.script)
        (words_in input.now sections.bookings) desk grid.now (judge_said result) }
{
    let mut room = [0u16; MAX_WORDS];
    let lists = sections.decode(input, &mut room);
    judge(lists.template, lists.script, lists.bookings, desk, grid)
}

// The line of an input whose first three sections are found: the grid is a part of its bytes.
fn judge_front(input: &[u8], sections: Sections, out: &mut [u8]) -> usize
    requires { FrontLent input.now sections out.old }
    ensures { LineWritten (read_grid input.now (input_of (words_in input.now sections.template)
        (words_in input.now sections.script) (words_in input.now sections.bookings)))
        out.old out.new result }
{
    let end = sections.bookings.end();
    let start = end + 4;
    if input.len() < start {
        return put_refusal(out, Refusal(Fault::InputLength, 0));
    }
    let grid_end = start + count_at(input, end + 2);
    if input.len() != grid_end {
        return put_refusal(out, Refusal(Fault::InputLength, 0));
    }
    let desk = word_at(input, end);
    let said = judge_sections(input, sections, desk, &input[start..]);
    put_verdict(out, said)
}

// Writes the verdict's line for an input to the front of a buffer that has room for any, and returns its number of
// bytes.
pub fn judge_line(input: &[u8], out: &mut [u8; LINE_ROOM]) -> usize
    ensures writes { Outputs (Judges input.now) out.old out.new result }
    ensures inside { Counted out.new result }
{
    match find_front(input, MAX_JUDGED) {
        None => put_refusal(out, Refusal(Fault::InputLength, 0)),
        Some(sections) => judge_front(input, sections, out),
    }
}
