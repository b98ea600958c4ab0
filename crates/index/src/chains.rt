// Building the index, by links or by blocks.
ghost use Rattle.std.specs.Prelude.{◌≡◌, false, ◌≤◌, length, take};
ghost use Rattle.model.specs.Network.{max_nodes, some_edge_broken};
ghost use Rattle.model.specs.Rules.{work_words};
ghost use Rattle.words.specs.Frames.{Enough, KeptFrom};
ghost use Rattle.words.specs.Regions.{index_at, index_words};
ghost use Rattle.index.specs.Index.{IndexOf, IndexedEdges};

use crate::blocks::build_blocks;
use crate::links::link_all;
use crate::positions::is_linked;
use words::regions::{WORDS, index_at};

fn build(edges: &[u8], ix: &mut [u32], n: usize)
    requires edges_value { some_edge_broken n edges.now ≡ false }
    requires le_n { (2 ≤ n) × (n ≤ max_nodes) × (length ix.old ≡ index_words n) }
    ensures { IndexOf edges.now n ix.new }
{
    if is_linked(edges, n, index_at(n)) {
        link_all(edges, ix, n);
        return;
    }
    build_blocks(edges, ix, n);
}

// Writes the index of the edges into the last of the 8 n lent words.
pub fn build_index(edges: &[u8], n: usize, work: &mut [u32])
    requires n_le_max_nodes { (n ≤ max_nodes) × Enough n work.old }
    requires edges_value { some_edge_broken n edges.now ≡ false }
    ensures roads { IndexedEdges edges.now n work.new }
    ensures before { take (index_at n) work.new ≡ take (index_at n) work.old }
    ensures behind { KeptFrom (work_words n) work.old work.new }
{
    if n < 2 {
        return;
    }
    let at = index_at(n);
    let end = WORDS * n;
    build(edges, &mut work[at..end], n);
}
