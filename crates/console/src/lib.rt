// The printer as a program: from a stream to standard output.
#![tactic(auto)]

use printer::{TEXT_ROOM, print_sheet};
use std::io::Read;
use streams::read_full;
use words::MAX_INPUT;

// Writes what is printed for an input. Where that cannot be written in full, standard error says so. The text's buffer
// is filled with zeros once only where it is a local of a function that doesn't read before.
fn print_bytes(rt: &(impl Print + Eprint), input: &[u8]) {
    let mut out = [0u8; TEXT_ROOM];
    let end = print_sheet(input, &mut out);
    if rt.write_all(&out[..end]).is_err() {
        let _ = eprintln!(rt; "sheet_printer: the sheet was not written in full");
    }
}

// Reads a stream, at most one byte more than is taken, and writes what is printed for it.
pub fn print_from(rt: &(impl Print + Eprint), reader: &mut impl Read) {
    let mut input = [0u8; MAX_INPUT + 1];
    let count = read_full(reader, &mut input);
    print_bytes(rt, &input[..count]);
}

// The same from standard input.
pub fn print_input(rt: &(impl Input + Print + Eprint)) {
    print_from(rt, &mut rt.reader());
}
