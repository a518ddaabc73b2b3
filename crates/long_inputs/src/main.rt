// The sheet printer on the files that its three arguments name: an input as long as the format takes, one a byte
// longer, after a whole input, and one a word longer, which is otherwise whole.
#![tactic(auto)]

use console::print_from;
use std::rt::{Env, Files};
use std::{fs, str};

// No longer name is read.
const MOST_NAME: usize = 4096;

// Prints the sheet of the file that an argument names, or says why it cannot be opened.
fn print_file(rt: &(impl Env + Files + Print + Eprint), number: usize) {
    let mut name = [0u8; MOST_NAME];
    let length = rt.arg(number, &mut name).unwrap_or(0);
    let path = str::from_utf8(&name[..length]).unwrap_or("");
    match fs::open(rt, path) {
        Ok(mut file) => print_from(rt, &mut file),
        Err(error) => {
            let _ = eprintln!(rt; "{path}: {error}");
        }
    }
}

fn main(rt: HostRuntime) {
    for number in 1..=3 {
        print_file(&rt, number);
    }
}
