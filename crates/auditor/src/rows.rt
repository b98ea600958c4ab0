// Body 7: the table, row by row.
ghost use Rattle.std.specs.Prelude.{◌≡◌, ◌*◌, ◌<◌, ◌≤◌, length};
ghost use Rattle.model.specs.Lists.{equal, concat_map};
ghost use Rattle.model.specs.Network.{max_nodes};
ghost use Rattle.model.specs.Oracle.{value_size};
ghost use Rattle.algorithms.specs.Rounds.{distance_words};
ghost use Rattle.arcs.specs.Arcs.{arcs_in};
ghost use Rattle.index.specs.Index.{IndexedEdges};
ghost use Rattle.words.specs.Regions.{region, transit, times_in, search_words};
ghost use Rattle.access.specs.Pairs.{NotAlone};
ghost use Rattle.emit.specs.Members.{if_in};
ghost use Rattle.emit.specs.Parts.{row_bytes};
ghost use Rattle.emit.specs.Records.{compared};
ghost use Rattle.passes.specs.Building.{members_in};
ghost use Rattle.words.specs.Frames.{Enough, KeptFrom};

use emit::rows::same_row;
use search::front::search_front;
use words::regions::{TRANSIT, has, region};

// Whether b is the row of the times in region TIMES, with the columns of region TRANSIT.
fn is_row(work: &[u32], n: usize, b: &[u8]) -> bool
    requires { Enough n work.now × (1 ≤ n) }
    ensures { result ≡ equal b.now (row_bytes (times_in n work.now) (members_in n transit work.now)) }
{
    same_row(n, region(work, n, TRANSIT), work, b)
}

// Compares that row, of `size` bytes, with what stands at `at`.
fn row_at(work: &[u32], n: usize, size: usize, table: &[u8], at: usize) -> Option<usize>
    requires { Enough n work.now × (size ≡ value_size * length (members_in n transit work.now)) × (at ≤ length table.now) × (1 ≤ n) }
    ensures { result ≡ compared table.now at (row_bytes (times_in n work.now) (members_in n transit work.now)) }
{
    if table.len() - at < size {
        return None;
    }
    let end = at + size;
    if is_row(work, n, &table[at..end]) {
        Some(end)
    } else {
        None
    }
}

// Compares the row of v with what stands at `at`, where v is a transit node.
fn same_from(
    edges: &[u8],
    n: usize,
    size: usize,
    table: &[u8],
    at: usize,
    v: usize,
    work: &mut [u32],
) -> Option<usize>
    requires n_le_max_nodes { (n ≤ max_nodes) × (v < n) × Enough n work.old × (size ≡ value_size * length (members_in n transit work.old)) × (at ≤ length table.now) }
    requires indexed_edges { IndexedEdges edges.now n work.old × NotAlone n transit work.old }
    ensures same { result ≡ compared table.now at (if_in (region n transit work.old) v
        (row_bytes (distance_words (arcs_in edges.now) n v) (members_in n transit work.old))) }
    ensures others { KeptFrom (search_words n) work.old work.new }
{
    if !has(work, n, TRANSIT, v) {
        return Some(at);
    }
    search_front(edges, n, v, work);
    row_at(work, n, size, table, at)
}

// Whether the table is the rows of the transit nodes, of `size` bytes each.
pub fn same_table(edges: &[u8], n: usize, size: usize, table: &[u8], work: &mut [u32]) -> bool
    requires n_le_max_nodes { (n ≤ max_nodes) × Enough n work.old × (size ≡ value_size * length (members_in n transit work.old)) }
    requires indexed_edges { IndexedEdges edges.now n work.old × NotAlone n transit work.old }
    ensures same { result ≡ equal table.now (concat_map (λ v. row_bytes (distance_words (arcs_in edges.now) n v)
        (members_in n transit work.old)) (members_in n transit work.old)) }
    ensures others { KeptFrom (search_words n) work.old work.new }
{
    let mut at = 0;
    for v in 0..n {
        let Some(next) = same_from(edges, n, size, table, at, v, work) else {
            return false;
        };
        at = next;
    }
    at == table.len()
}
