// The listing program, on an oracle longer than what is read of it.
#![tactic(auto)]

use std::io;

fn main(rt: HostRuntime) -> io::Result<()> {
    lines::program::run(&rt)
}
