// The listing program, on an oracle of two islands, where many pairs have no walk.
#![tactic(auto)]

use std::io;

fn main(rt: HostRuntime) -> io::Result<()> {
    lines::program::run(&rt)
}
