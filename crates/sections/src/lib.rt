// What a program over stored cases reads and writes. On the stream that it reads: words, two bytes each, and sections,
// each after its length in bytes in four bytes; low bytes first. On standard output: texts and numbers.
#![tactic(auto)]

ghost use Rattle.std.specs.Prelude.{◌≤◌, length, IfSome};

use input::decode_all;
use std::io::Read;
use streams::read_full;
use words::MAX_INPUT;

// No section has more bytes: one more than the longest input of a program.
pub const MOST_BYTES: usize = MAX_INPUT + 1;

// No section has more words.
pub const MOST_WORDS: usize = MOST_BYTES / 2;

// Writes a text, and answers whether it was written in full.
pub fn text(rt: &impl Print, s: &[u8]) -> bool {
    rt.write_all(s).is_ok()
}

// A number after a space.
pub fn number(rt: &impl Print, x: u64) {
    let _ = print!(rt; " {x}");
}

// The words of a list, each after a space.
pub fn numbers(rt: &impl Print, words: &[u16]) {
    for word in words {
        number(rt, u64::from(*word));
    }
}

// The bytes of a text, each as a number after a space.
pub fn bytes(rt: &impl Print, s: &[u8]) {
    for x in s {
        number(rt, u64::from(*x));
    }
}

// The next word, if there is one.
pub fn next_word(reader: &mut impl Read) -> Option<u16> {
    let mut bytes = [0u8; 2];
    if read_full(reader, &mut bytes) < 2 {
        return None;
    }
    Some(u16::from_le_bytes(bytes))
}

// The length in front of a section, if there is one.
fn next_length(reader: &mut impl Read) -> Option<usize> {
    let low = next_word(reader).unwrap_or(0);
    let high = next_word(reader)?;
    Some(usize::from(low) + 65536 * usize::from(high))
}

// The word of a section that has only this one.
pub fn read_word(reader: &mut impl Read) -> Option<u16> {
    if next_length(reader)? != 2 {
        return None;
    }
    next_word(reader)
}

// Reads a section to the front of a buffer, which lends it, if the section is whole and has room there.
pub fn read_bytes<'a>(reader: &mut impl Read, room: &'a mut [u8]) -> Option<&'a [u8]>
    ensures { IfSome result (λ bytes. length bytes.now ≤ length room.old) }
{
    let length = next_length(reader)?;
    if room.len() < length {
        return None;
    }
    let bytes = &mut room[..length];
    if read_full(reader, bytes) < length {
        return None;
    }
    Some(bytes)
}

// Reads the words of a section to the front of a buffer, which lends them.
pub fn read_words<'a>(reader: &mut impl Read, room: &'a mut [u16]) -> Option<&'a [u16]>
    ensures { IfSome result (λ words. length words.now ≤ length room.old) }
{
    let mut bytes = [0u8; MOST_BYTES];
    let section = read_bytes(reader, &mut bytes)?;
    if room.len() < section.len() / 2 {
        return None;
    }
    Some(decode_all(section, room))
}
