// The sheet printer.
#![tactic(auto)]

use console::print_input;

fn main(rt: HostRuntime) {
    print_input(&rt);
}
