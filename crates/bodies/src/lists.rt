// The list of one node, at its place in body 6.
ghost use Rattle.std.specs.Prelude.{◌≡◌, ◌+◌, ◌*◌, ◌<◌, ◌≤◌, length};
ghost use Rattle.model.specs.Bytes.{splice};
ghost use Rattle.model.specs.Network.{max_nodes};
ghost use Rattle.model.specs.Oracle.{start_size, list_size, list_start};
ghost use Rattle.algorithms.specs.Rounds.{distance_words};
ghost use Rattle.arcs.specs.Arcs.{arcs_in};
ghost use Rattle.index.specs.Index.{IndexedEdges};
ghost use Rattle.words.specs.Regions.{region, own, transit, times_in, search_words};
ghost use Rattle.emit.specs.Members.{Among};
ghost use Rattle.emit.specs.Parts.{list_bytes_of};
ghost use Rattle.passes.specs.Building.{members_in};
ghost use Rattle.passes.specs.Sought.{Sought};
ghost use Rattle.words.specs.Frames.{Enough, KeptFrom};

use codec::lists::{list_size, list_start};
use emit::lists::write_list;
use passes::own::search_own;
use words::regions::{OWN, TRANSIT, region};

// The list of the node whose times stand in the first region.
fn write_own(n: usize, work: &[u32], out: &mut [u8])
    requires { (n ≤ max_nodes) × Enough n work.now × Among n (region n own work.now) (region n transit work.now)
        × (length out.old ≡ list_size (length (members_in n own work.now))) × (1 ≤ n) }
    ensures { out.new ≡ list_bytes_of (times_in n work.now) (members_in n transit work.now)
        (members_in n own work.now) }
{
    write_list(n, region(work, n, OWN), region(work, n, TRANSIT), work, out);
}

// Writes it where the starts say that list v stands.
fn put_own(n: usize, v: usize, size: usize, work: &[u32], body: &mut [u8])
    requires n_le_max_nodes { (n ≤ max_nodes) × Enough n work.now × Among n (region n own work.now) (region n transit work.now)
        × (size ≡ list_size (length (members_in n own work.now))) × (1 ≤ n) }
    requires start_size_in_bounds { (start_size * v + start_size ≤ length body.old) × (list_start body.old v + size ≤ length body.old) }
    ensures { body.new ≡ splice (list_start body.old v)
        (list_bytes_of (times_in n work.now) (members_in n transit work.now) (members_in n own work.now)) body.old }
{
    let start = list_start(body, v);
    let end = start + size;
    write_own(n, work, &mut body[start..end]);
}

// Searches from v for the `left` access nodes of its cell, and writes its list.
pub fn put_list(edges: &[u8], n: usize, v: usize, left: usize, work: &mut [u32], body: &mut [u8])
    requires n_le_max_nodes { (n ≤ max_nodes) × (v < n) × Enough n work.old × Among n (region n own work.old) (region n transit work.old) × Sought n left work.old }
    requires indexed_edges { IndexedEdges edges.now n work.old }
    requires start_size_in_bounds { (start_size * v + start_size ≤ length body.old) × (list_start body.old v + list_size left ≤ length body.old) }
    ensures bytes { body.new ≡ splice (list_start body.old v)
        (list_bytes_of (distance_words (arcs_in edges.now) n v) (members_in n transit work.old)
        (members_in n own work.old)) body.old }
    ensures others { KeptFrom (search_words n) work.old work.new }
{
    search_own(edges, n, v, left, work);
    let size = list_size(left);
    put_own(n, v, size, work, body);
}
