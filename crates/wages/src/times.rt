// The times of the legs, written one after the other, with the number of marked legs and the total of the others behind them.
ghost use Rattle.std.specs.Prelude.{◌≡◌, ◌++◌, ◌+◌, ◌*◌, ◌<◌, ◌≤◌, length};
ghost use Rattle.model.specs.Bytes.{bytes32, bytes64, splice};
ghost use Rattle.model.specs.Contents.{node_body};
ghost use Rattle.model.specs.Network.{node_count};
ghost use Rattle.opened.specs.Opened.{Opened};
ghost use Rattle.words.specs.Frames.{KeptFrom};
ghost use Rattle.words.specs.Regions.{grid_at};
ghost use Rattle.wages.specs.Wages.{max_legs, leg, leg_count, leg_time, wages_bytes};
ghost use Rattle.wages.specs.Kept.{LegsKept};
ghost use Rattle.wages.specs.Tallies.{time_size, tally_size, max_total, tallied, WagesGiven};

use crate::Tally;
use crate::legs::{Leg, leg_count};
use codec::bytes::{write32, write64};
use codec::records::NO_SECONDS;
use model::Output;
use opened::answers::seconds_between;

pub const TIME_SIZE: usize = 4;

// The number of marked legs, and the total.
pub const TALLY_SIZE: usize = 12;

// The time of leg i.
fn leg_time(o: &[u8], legs: &[u8], i: usize, work: &mut [u32]) -> u32
    requires { Opened o.now work.old × LegsKept o.now legs.now × (i < leg_count legs.now) }
    ensures time { result ≡ leg_time o.now (leg legs.now i) }
    ensures others { KeptFrom (grid_at (node_count (node_body o.now))) work.old work.new }
{
    let leg = Leg::read(legs, i);
    seconds_between(o, leg.start, leg.end, work)
}

impl Tally {
    // The tally with one time more.
    fn with(self, time: u32) -> Tally
        requires { (self.marked < max_legs) × (self.total ≤ max_total) }
        ensures { result ≡ tallied self time }
    {
        if time == NO_SECONDS {
            Tally {
                marked: self.marked + 1,
                ..self
            }
        } else {
            Tally {
                total: self.total + time as u64,
                ..self
            }
        }
    }
}

// Writes the time of leg i in its place, and tallies it.
fn write_leg(
    o: &[u8],
    legs: &[u8],
    i: usize,
    work: &mut [u32],
    out: &mut [u8],
    tally: Tally,
) -> Tally
    requires opened { Opened o.now work.old × LegsKept o.now legs.now × (i < leg_count legs.now) }
    requires time_size_in_bounds { (time_size * i + time_size ≤ length out.old) × (tally.marked < max_legs) × (tally.total ≤ max_total) }
    ensures tally { result ≡ tallied tally (leg_time o.now (leg legs.now i)) }
    ensures bytes { out.new ≡ splice (time_size * i) (bytes32 (leg_time o.now (leg legs.now i))) out.old }
    ensures others { KeptFrom (grid_at (node_count (node_body o.now))) work.old work.new }
{
    let time = leg_time(o, legs, i, work);
    write32(out, TIME_SIZE * i, time);
    tally.with(time)
}

// Writes the tally behind the times.
fn write_tally(out: &mut [u8], at: usize, tally: Tally)
    requires { at + tally_size ≤ length out.old }
    ensures { out.new ≡ splice at (bytes32 tally.marked ++ bytes64 tally.total) out.old }
{
    write32(out, at, tally.marked);
    write64(out, at + TIME_SIZE, tally.total);
}

// The whole sheet, at the front of the output.
fn write_wages(o: &[u8], legs: &[u8], work: &mut [u32], out: &mut [u8])
    requires { Opened o.now work.old × LegsKept o.now legs.now × (time_size * leg_count legs.now + tally_size ≤ length out.old) }
    ensures bytes { out.new ≡ splice 0 (wages_bytes o.now legs.now) out.old }
    ensures others { KeptFrom (grid_at (node_count (node_body o.now))) work.old work.new }
{
    let count = leg_count(legs);
    let mut tally = Tally {
        marked: 0,
        total: 0,
    };
    for i in 0..count {
        tally = write_leg(o, legs, i, work, out, tally);
    }
    write_tally(out, TIME_SIZE * count, tally);
}

// What no rule before 15 sends back. The size is that of the legs alone, so 15 is decided before any leg is answered.
pub fn wages_of(o: &[u8], legs: &[u8], work: &mut [u32], out: &mut [u8]) -> Output
    requires { Opened o.now work.old × LegsKept o.now legs.now }
    ensures given { WagesGiven o.now legs.now out.old result out.new }
    ensures others { KeptFrom (grid_at (node_count (node_body o.now))) work.old work.new }
{
    let size = TIME_SIZE * leg_count(legs) + TALLY_SIZE;
    if out.len() < size {
        return Output { rule: 15, size: 0 };
    }
    write_wages(o, legs, work, out);
    Output { rule: 0, size }
}
