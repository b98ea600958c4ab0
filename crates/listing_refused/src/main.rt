// The listing program, on the oracle of Line with a transit place that names no place.
#![tactic(auto)]

use std::io;

fn main(rt: HostRuntime) -> io::Result<()> {
    lines::program::run(&rt)
}
