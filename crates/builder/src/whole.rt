// The whole oracle, part by part.
ghost use Rattle.std.specs.Prelude.{◌≡◌, ◌++◌, ◌+◌, ◌*◌, ◌<◌, ◌≤◌, length};
ghost use Rattle.model.specs.Contents.{entry_at, network_head, oracle_entries};
ghost use Rattle.model.specs.Lists.{concat_map, total};
ghost use Rattle.model.specs.Network.{max_nodes};
ghost use Rattle.model.specs.Oracle.{value_size};
ghost use Rattle.index.specs.Index.{IndexedEdges};
ghost use Rattle.access.specs.Pairs.{NotAlone};
ghost use Rattle.emit.specs.Records.{Wrote};
ghost use Rattle.words.specs.Regions.{region_at, transit, search_words};
ghost use Rattle.passes.specs.Building.{list_in, members_in};
ghost use Rattle.passes.specs.Stands.{whole};
ghost use Rattle.bodies.specs.Listed.{Based, Counts};
ghost use Rattle.bodies.specs.Rows.{row_in};
ghost use Rattle.words.specs.Frames.{Enough, KeptFrom};
ghost use Rattle.builder.specs.Plan.{grid_end, back_size, sizes_in, whole_size, front_bytes, back_bytes, Planned};

use crate::parts::{put_grid, put_head, put_network, put_transit};
use crate::sizes::head_sizes;
use bodies::listing::put_access;
use bodies::table::put_table;
use codec::records::VALUE_SIZE;
use contents::ORACLE_ENTRIES;
use crossing::ground::Ground;
use model::Division;

// The head, bodies 1 to 3 and body 4. Answers where they end.
fn put_front(network: &[u8], dv: Division, sizes: [u32; ORACLE_ENTRIES], out: &mut [u8]) -> usize
    requires { (network_head ≤ length network.now) × (grid_end (length network.now) ≤ length out.old)
        × (entry_at oracle_entries + total sizes < 4294967296) }
    ensures { Wrote out.old 0 (front_bytes network.now dv sizes) result out.new }
{
    put_head(sizes, out);
    let at = put_network(network, out);
    put_grid(dv, out, at)
}

// Body 6, of the size a.
fn access_part(ground: &Ground, a: usize, work: &mut [u32], out: &mut [u8], at: usize) -> usize
    requires based { Based ground.now.nodes.now ground.now.edges.now ground.now.grid ground.now.n work.old
        × Counts ground.now.nodes.now ground.now.edges.now ground.now.grid ground.now.n work.old }
    requires a_value { (a ≡ length (whole ground.now.n (list_in ground.now.nodes.now ground.now.edges.now ground.now.grid)))
        × (a < 4294967296) × (at + a ≤ length out.old) }
    ensures bytes { Wrote out.old at (whole ground.now.n (list_in ground.now.nodes.now ground.now.edges.now ground.now.grid)) result
        out.new }
    ensures others { KeptFrom (region_at ground.now.n transit) work.old work.new }
{
    let end = at + a;
    put_access(ground, work, &mut out[at..end]);
    end
}

// Body 7, for t transit nodes.
fn table_part(
    edges: &[u8],
    n: usize,
    t: usize,
    work: &mut [u32],
    out: &mut [u8],
    at: usize,
) -> usize
    requires n_le_max_nodes { (n ≤ max_nodes) × Enough n work.old × (t ≡ length (members_in n transit work.old)) × (at + value_size * t * t ≤ length out.old)
        × (t ≤ max_nodes) }
    requires indexed_edges { IndexedEdges edges.now n work.old × NotAlone n transit work.old }
    ensures bytes { Wrote out.old at (concat_map (row_in edges.now n (members_in n transit work.old))
        (members_in n transit work.old)) result out.new }
    ensures others { KeptFrom (search_words n) work.old work.new }
{
    let end = at + VALUE_SIZE * t * t;
    put_table(edges, n, t, work, &mut out[at..end]);
    end
}

// Bodies 5 to 7. Answers where they end.
fn put_back(
    ground: &Ground,
    t: usize,
    a: usize,
    work: &mut [u32],
    out: &mut [u8],
    at: usize,
) -> usize
    requires { Planned ground.now.nodes.now ground.now.edges.now ground.now.grid ground.now.n t a work.old
        × (at + back_size t a ≤ length out.old) × (a < 4294967296) }
    ensures bytes { Wrote out.old at (back_bytes ground.now.nodes.now ground.now.edges.now ground.now.grid ground.now.n) result out.new }
    ensures others { KeptFrom (region_at ground.now.n transit) work.old work.new }
{
    let lists = put_transit(ground.n, work, out, at);
    let table = access_part(ground, a, work, out, lists);
    table_part(ground.edges, ground.n, t, work, out, table)
}

// All of it. Answers where it ends.
pub fn write_oracle(
    network: &[u8],
    ground: &Ground,
    dv: Division,
    t: usize,
    a: usize,
    work: &mut [u32],
    out: &mut [u8],
) -> usize
    requires planned { Planned ground.now.nodes.now ground.now.edges.now ground.now.grid ground.now.n t a work.old
        × (network_head + length ground.now.nodes.now + length ground.now.edges.now ≡ length network.now) }
    requires a_in_bounds { (whole_size (length network.now) t a ≤ length out.old) × (whole_size (length network.now) t a < 4294967296) }
    ensures bytes { Wrote out.old 0 (front_bytes network.now dv
        (sizes_in (length ground.now.nodes.now) (length ground.now.edges.now) t a) ++ back_bytes ground.now.nodes.now
        ground.now.edges.now ground.now.grid ground.now.n) result out.new }
    ensures others { KeptFrom (region_at ground.now.n transit) work.old work.new }
{
    let sizes = head_sizes(ground.nodes.len(), ground.edges.len(), t, a);
    let at = put_front(network, dv, sizes, out);
    put_back(ground, t, a, work, out, at)
}
