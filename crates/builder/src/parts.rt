// The parts of an oracle that need no search, each written at its place: the head, bodies 1 to 4, and the transit nodes.
ghost use Rattle.std.specs.Prelude.{◌+◌, ◌*◌, ◌<◌, ◌≤◌, length, drop};
ghost use Rattle.model.specs.Lists.{total};
ghost use Rattle.model.specs.Contents.{entry_at, oracle_edition, oracle_entries, network_head, oracle_head};
ghost use Rattle.model.specs.Bytes.{number_size};
ghost use Rattle.model.specs.Network.{max_nodes};
ghost use Rattle.model.specs.Grid.{division_size, division_bytes};
ghost use Rattle.emit.specs.Parts.{head_bytes, numbers_bytes};
ghost use Rattle.emit.specs.Records.{Wrote};
ghost use Rattle.words.specs.Regions.{transit};
ghost use Rattle.passes.specs.Building.{members_in};
ghost use Rattle.words.specs.Frames.{Enough};
ghost use Rattle.builder.specs.Plan.{network_end};

use codec::bytes::write16;
use codec::records::GRID_SIZE;
use contents::{NETWORK_HEAD, ORACLE_EDITION, ORACLE_ENTRIES, ORACLE_HEAD};
use emit::copy::put;
use emit::head::write_head;
use emit::numbers::write_numbers;
use model::Division;
use words::regions::{TRANSIT, region};

// The head, for bodies of these sizes.
pub fn put_head(sizes: [u32; ORACLE_ENTRIES], out: &mut [u8])
    requires { (entry_at oracle_entries + total sizes < 4294967296) × (oracle_head ≤ length out.old) }
    ensures { Wrote out.old 0 (head_bytes oracle_edition sizes) oracle_head out.new }
{
    write_head(ORACLE_EDITION, &sizes, &mut out[..ORACLE_HEAD]);
}

// Bodies 1 to 3: they stand one after the other to the end of the network. Answers where they end.
pub fn put_network(network: &[u8], out: &mut [u8]) -> usize
    requires { (network_head ≤ length network.now) × (network_end (length network.now) ≤ length out.old) }
    ensures { Wrote out.old oracle_head (drop network_head network.now) result out.new }
{
    put(&network[NETWORK_HEAD..], out, ORACLE_HEAD)
}

// Body 4.
pub fn put_grid(dv: Division, out: &mut [u8], at: usize) -> usize
    requires { at + division_size ≤ length out.old }
    ensures { Wrote out.old at (division_bytes dv) result out.new }
{
    write16(out, at, dv.g);
    at + GRID_SIZE
}

// Body 5.
pub fn put_transit(n: usize, work: &[u32], out: &mut [u8], at: usize) -> usize
    requires { (n ≤ max_nodes) × Enough n work.now × (at + number_size * length (members_in n transit work.now) ≤ length out.old) × (1 ≤ n) }
    ensures { Wrote out.old at (numbers_bytes (members_in n transit work.now)) result out.new }
{
    write_numbers(n, region(work, n, TRANSIT), out, at)
}
