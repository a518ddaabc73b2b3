// Answers the cases of the programs on standard input, each by a line. A case is a tag, which is a word, and a section,
// the bytes of an input:
//   8 The grid judge: its line
//   9 The list tidier: `:` and the bytes that it writes, as numbers
// The program ends where the input does, at any other tag, and at a section that is not whole or has no room.
#![tactic(auto)]

use judge_line::{LINE_ROOM, MAX_JUDGED, judge_line};
use sections::{bytes, next_word, read_bytes, text};
use std::io::Read;
use tidy_list::{LIST_ROOM, tidy_list};

// No more cases are answered.
const MOST_CASES: u32 = 1000000;

// One byte more than the longest input of either program.
const INPUT_ROOM: usize = MAX_JUDGED + 1;

fn verdict(rt: &impl Print, input: &mut impl Read) -> Option<bool> {
    let mut room = [0u8; INPUT_ROOM];
    let section = read_bytes(input, &mut room)?;
    let mut out = [0u8; LINE_ROOM];
    let end = judge_line(section, &mut out);
    Some(text(rt, &out[..end]))
}

fn list(rt: &impl Print, input: &mut impl Read) -> Option<bool> {
    let mut room = [0u8; INPUT_ROOM];
    let section = read_bytes(input, &mut room)?;
    let mut out = [0u8; LIST_ROOM];
    let end = tidy_list(section, &mut out);
    text(rt, b":");
    bytes(rt, &out[..end]);
    Some(text(rt, b"\n"))
}

// The next case: whether its end was written; none, where it is not there.
fn next_case(rt: &impl Print, input: &mut impl Read) -> Option<bool> {
    match next_word(input)? {
        8 => verdict(rt, input),
        9 => list(rt, input),
        _ => None,
    }
}

fn main(rt: HostRuntime) {
    let mut input = rt.stdin();
    for _ in 0..MOST_CASES {
        if next_case(&rt, &mut input) != Some(true) {
            break;
        }
    }
}
