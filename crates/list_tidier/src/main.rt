// The list tidier: from standard input to standard output.
#![tactic(auto)]

use streams::read_full;
use tidy_list::{LIST_ROOM, tidy_list};
use words::MAX_INPUT;

// Reads standard input, at most one byte more than is taken, and writes the list for it. Where that cannot be written
// in full, standard error says so.
fn main(rt: HostRuntime) {
    let mut input = [0u8; MAX_INPUT + 1];
    let count = read_full(&mut rt.stdin(), &mut input);
    let mut out = [0u8; LIST_ROOM];
    let end = tidy_list(&input[..count], &mut out);
    if rt.write_all(&out[..end]).is_err() {
        let _ = eprintln!(rt; "list_tidier: the list was not written in full");
    }
}
