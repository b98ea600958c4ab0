// The listing program, on the oracle of Fork.
#![tactic(auto)]

use std::io;

fn main(rt: HostRuntime) -> io::Result<()> {
    lines::program::run(&rt)
}
