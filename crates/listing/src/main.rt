// The listing program; its stored input is the oracle of Line.
#![tactic(auto)]

use std::io;

fn main(rt: HostRuntime) -> io::Result<()> {
    lines::program::run(&rt)
}
