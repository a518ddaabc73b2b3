// Answers the cases on standard input, each by a line or by the text of a sheet. A case is a tag, which is a word, and
// the sections that its operation takes:
//   1 Read a template: a template
//   2 Fit counts: a template, a shape, counts
//   3 Read a script: a template, a script
//   4 Links of a card: a template, a script, a card
//   5 The sheet printer: the bytes of an input
//   6 Judge a grid: a template, a script, bookings, a desk, the bytes of a grid
//   7 Tidy bookings: a template, a script, a stored list, how many words the buffer has, which are all 7 before
// The program ends where the input does, at any other tag, and at a section that is not whole or has no room. Each
// function reads the sections of one operation, and answers whether its end was written; none, where they are not
// there.
#![tactic(auto)]

use answers::{
    tell_fit, tell_links, tell_script, tell_sheet, tell_template, tell_tidied, tell_verdict,
};
use sections::{MOST_BYTES, MOST_WORDS, next_word, read_bytes, read_word, read_words};
use std::io::Read;

// No more cases are answered.
const MOST_CASES: u32 = 1000000;

// Room for a buffer of as many words as a word can say.
const BUFFER_ROOM: usize = 65536;

fn template(rt: &impl Print, input: &mut impl Read) -> Option<bool> {
    let mut first = [0u16; MOST_WORDS];
    let template = read_words(input, &mut first)?;
    Some(tell_template(rt, template))
}

fn fit(rt: &impl Print, input: &mut impl Read) -> Option<bool> {
    let mut first = [0u16; MOST_WORDS];
    let template = read_words(input, &mut first)?;
    let shape = read_word(input)?;
    let mut second = [0u16; MOST_WORDS];
    let counts = read_words(input, &mut second)?;
    Some(tell_fit(rt, template, shape, counts))
}

fn script(rt: &impl Print, input: &mut impl Read) -> Option<bool> {
    let mut first = [0u16; MOST_WORDS];
    let template = read_words(input, &mut first)?;
    let mut second = [0u16; MOST_WORDS];
    let script = read_words(input, &mut second)?;
    Some(tell_script(rt, template, script))
}

fn links(rt: &impl Print, input: &mut impl Read) -> Option<bool> {
    let mut first = [0u16; MOST_WORDS];
    let template = read_words(input, &mut first)?;
    let mut second = [0u16; MOST_WORDS];
    let script = read_words(input, &mut second)?;
    let card = read_word(input)?;
    Some(tell_links(rt, template, script, card))
}

fn sheet(rt: &impl Print, input: &mut impl Read) -> Option<bool> {
    let mut room = [0u8; MOST_BYTES];
    let bytes = read_bytes(input, &mut room)?;
    Some(tell_sheet(rt, bytes))
}

fn verdict(rt: &impl Print, input: &mut impl Read) -> Option<bool> {
    let mut first = [0u16; MOST_WORDS];
    let template = read_words(input, &mut first)?;
    let mut second = [0u16; MOST_WORDS];
    let script = read_words(input, &mut second)?;
    let mut third = [0u16; MOST_WORDS];
    let bookings = read_words(input, &mut third)?;
    let desk = read_word(input)?;
    let mut room = [0u8; MOST_BYTES];
    let grid = read_bytes(input, &mut room)?;
    Some(tell_verdict(rt, template, script, bookings, desk, grid))
}

fn tidied(rt: &impl Print, input: &mut impl Read) -> Option<bool> {
    let mut first = [0u16; MOST_WORDS];
    let template = read_words(input, &mut first)?;
    let mut second = [0u16; MOST_WORDS];
    let script = read_words(input, &mut second)?;
    let mut third = [0u16; MOST_WORDS];
    let stored = read_words(input, &mut third)?;
    let size = usize::from(read_word(input)?);
    let mut buffer = [7u16; BUFFER_ROOM];
    Some(tell_tidied(rt, template, script, stored, &mut buffer[..size]))
}

// The next case.
fn next_case(rt: &impl Print, input: &mut impl Read) -> Option<bool> {
    match next_word(input)? {
        1 => template(rt, input),
        2 => fit(rt, input),
        3 => script(rt, input),
        4 => links(rt, input),
        5 => sheet(rt, input),
        6 => verdict(rt, input),
        7 => tidied(rt, input),
        _ => None,
    }
}

fn main(rt: HostRuntime) {
    let mut input = rt.stdin();
    for _ in 0..MOST_CASES {
        if next_case(&rt, &mut input) != Some(true) {
            break;
        }
    }
}
