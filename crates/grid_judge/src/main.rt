// The grid judge: from standard input to standard output.
#![tactic(auto)]

use judge_line::{LINE_ROOM, MAX_JUDGED, judge_line};
use streams::read_full;

// Reads standard input, at most one byte more than is taken, and writes the line for it. Where that cannot be written
// in full, standard error says so.
fn main(rt: HostRuntime) {
    let mut input = [0u8; MAX_JUDGED + 1];
    let count = read_full(&mut rt.stdin(), &mut input);
    let mut out = [0u8; LINE_ROOM];
    let end = judge_line(&input[..count], &mut out);
    if rt.write_all(&out[..end]).is_err() {
        let _ = eprintln!(rt; "grid_judge: the line was not written in full");
    }
}
