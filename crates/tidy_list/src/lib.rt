// The list tidier, from the bytes of its input to the bytes of its output. A program above it only reads and writes.
#![tactic(auto)]

ghost use Rattle.std.specs.Prelude.{◌≤◌, [], ◌∷◌, length};
ghost use Rattle.words.specs.Bytes.{write_words};
ghost use Rattle.words.specs.Said.{values};
ghost use Rattle.words.specs.Writes.{Writes};
ghost use Rattle.words.specs.Wrote.{Room, Wrote};
ghost use Rattle.input.specs.Machine.{words_in};
ghost use Rattle.text.specs.Steps.{Counted};
ghost use Rattle.tidy_list.specs.TidyList.{tidied_words, list_text, tidy_text};
ghost use Rattle.tidy_list.specs.Steps.{list_room, BufferFor, Tidying, SectionsLent};

use input::{Sections, find_sections};
use text::{Writer, put_refusal};
use tidy::tidy_bookings;
use words::{Fault, MAX_BOOKINGS, MAX_INPUT, Refusal};

// Words of the longest list, and bytes that are enough for it or a refusal, as specs/Steps has them.
const LIST_WORDS: usize = 1 + 3 * MAX_BOOKINGS;

pub const LIST_ROOM: usize = 2 * LIST_WORDS;

// Words of the longest input.
const MAX_WORDS: usize = MAX_INPUT / 2;

// How many words the buffer has that the call wants for a stored list.
fn buffer_size(bookings: &[u16]) -> usize
    ensures { BufferFor bookings.now result }
{
    match bookings.first() {
        Some(count) if usize::from(*count) <= MAX_BOOKINGS => 1 + 3 * usize::from(*count),
        _ => 1,
    }
}

// Writes the bytes of words to the front of a buffer. Returns how many.
fn put_words(out: &mut [u8], words: &[u16]) -> usize
    requires { Room out.old 0 (write_words words.now) }
    ensures { Wrote out.old 0 (write_words words.now) out.new result }
{
    let mut list = Writer { out, end: 0 };
    for word in words {
        list.bytes(&word.to_le_bytes());
    }
    list.end
}

// The text of a template, a script and a stored list, with the buffer that the call wants.
fn tidy_into(
    template: &[u16],
    script: &[u16],
    bookings: &[u16],
    list: &mut [u16],
    out: &mut [u8],
) -> usize
    requires { Tidying bookings.now list.old out.old }
    ensures { Wrote out.old 0
        (list_text (tidied_words template.now script.now bookings.now))
        out.new result }
{
    match tidy_bookings(template, script, bookings, list) {
        Ok(count) => put_words(out, &list[0..count]),
        Err(refusal) => put_refusal(out, refusal),
    }
}

// The text of a template, a script and a stored list.
fn tidy_words(template: &[u16], script: &[u16], bookings: &[u16], out: &mut [u8]) -> usize
    requires { list_room ≤ length out.old }
    ensures { Wrote out.old 0
        (list_text (tidied_words template.now script.now bookings.now))
        out.new result }
{
    let size = buffer_size(bookings);
    let mut list = [0u16; LIST_WORDS];
    tidy_into(template, script, bookings, &mut list[0..size], out)
}

// The text of an input whose three sections are found: its words are decoded once.
fn tidy_sections(input: &[u8], sections: Sections, out: &mut [u8]) -> usize
    requires { SectionsLent input.now sections out.old }
    ensures { Wrote out.old 0 (list_text (tidied_words (words_in input.now sections.template)
        (words_in input.now sections.script) (words_in input.now sections.bookings))) out.new result }
{
    let mut room = [0u16; MAX_WORDS];
    let lists = sections.decode(input, &mut room);
    tidy_words(lists.template, lists.script, lists.bookings, out)
}

// Writes the tidied list of an input, or a refusal, to the front of a buffer that has room for any, and returns its
// number of bytes.
pub fn tidy_list(input: &[u8], out: &mut [u8; LIST_ROOM]) -> usize
    ensures writes { Writes (tidy_text input.now) out.old out.new
        (values (result ∷ [])) }
    ensures inside { Counted out.new result }
{
    match find_sections(input) {
        None => put_refusal(out, Refusal(Fault::InputLength, 0)),
        Some(sections) => tidy_sections(input, sections, out),
    }
}
