// Body 7: the table, a row for each transit node, by a search from it.
ghost use Rattle.std.specs.Prelude.{◌≡◌, ◌+◌, ◌*◌, ◌<◌, ◌≤◌, length};
ghost use Rattle.model.specs.Bytes.{splice};
ghost use Rattle.model.specs.Lists.{concat_map};
ghost use Rattle.model.specs.Network.{max_nodes};
ghost use Rattle.model.specs.Oracle.{value_size};
ghost use Rattle.index.specs.Index.{IndexedEdges};
ghost use Rattle.words.specs.Regions.{region, transit, times_in, search_words};
ghost use Rattle.access.specs.Pairs.{NotAlone};
ghost use Rattle.emit.specs.Members.{if_in};
ghost use Rattle.emit.specs.Parts.{row_bytes};
ghost use Rattle.emit.specs.Records.{Wrote};
ghost use Rattle.passes.specs.Building.{members_in};
ghost use Rattle.words.specs.Frames.{Enough, KeptFrom};
ghost use Rattle.bodies.specs.Rows.{row_in};

use codec::records::VALUE_SIZE;
use emit::rows::write_row;
use search::front::search_front;
use words::regions::{TRANSIT, has, region};

// Writes the row of the node whose times stand in the first region, from `at` on.
fn write_times(n: usize, t: usize, work: &[u32], out: &mut [u8], at: usize)
    requires { Enough n work.now × (t ≡ length (members_in n transit work.now)) × (at + value_size * t ≤ length out.old) × (1 ≤ n) }
    ensures { out.new ≡ splice at (row_bytes (times_in n work.now) (members_in n transit work.now)) out.old }
{
    let end = at + VALUE_SIZE * t;
    write_row(n, region(work, n, TRANSIT), work, &mut out[at..end]);
}

// Writes the row of v, if it is a transit node, from `at` on, and answers where it ends.
fn put_row(
    edges: &[u8],
    n: usize,
    v: usize,
    t: usize,
    work: &mut [u32],
    out: &mut [u8],
    at: usize,
) -> usize
    requires n_le_max_nodes { (n ≤ max_nodes) × (v < n) × Enough n work.old }
    requires indexed_edges { IndexedEdges edges.now n work.old × NotAlone n transit work.old }
    requires t_value { (t ≡ length (members_in n transit work.old)) × (at + length
        (if_in (region n transit work.old) v (row_in edges.now n (members_in n transit work.old) v)) ≤ length out.old) }
    ensures bytes { Wrote out.old at (if_in (region n transit work.old) v
        (row_in edges.now n (members_in n transit work.old) v)) result out.new }
    ensures others { KeptFrom (search_words n) work.old work.new }
{
    if !has(work, n, TRANSIT, v) {
        return at;
    }
    search_front(edges, n, v, work);
    write_times(n, t, work, out, at);
    at + VALUE_SIZE * t
}

// The rows of the t transit nodes.
pub fn put_table(edges: &[u8], n: usize, t: usize, work: &mut [u32], out: &mut [u8])
    requires n_le_max_nodes { (n ≤ max_nodes) × Enough n work.old }
    requires indexed_edges { IndexedEdges edges.now n work.old × NotAlone n transit work.old }
    requires t_value { (t ≡ length (members_in n transit work.old)) × (length out.old ≡ value_size * t * t) }
    ensures bytes { out.new ≡ concat_map (row_in edges.now n (members_in n transit work.old))
        (members_in n transit work.old) }
    ensures others { KeptFrom (search_words n) work.old work.new }
{
    let mut at = 0;
    for v in 0..n {
        at = put_row(edges, n, v, t, work, out, at);
    }
}
