// The nodes on least walks from any node of region OWN to any node of region WANT, gathered by one search from each.
ghost use Rattle.std.specs.Prelude.{◌↔◌, ℕ, ◌<◌, ◌≤◌};
ghost use Rattle.model.specs.Network.{max_nodes};
ghost use Rattle.arcs.specs.Arcs.{arcs_in};
ghost use Rattle.index.specs.Index.{IndexedEdges};
ghost use Rattle.crossing.specs.Sets.{ones};
ghost use Rattle.marks.specs.Due.{Flagged};
ghost use Rattle.words.specs.Regions.{region_flags, want, own, gathered};
ghost use Rattle.words.specs.Frames.{Enough};
ghost use Rattle.access.specs.Gathered.{Gathered, Joined, KeptStarts};
ghost use Rattle.access.specs.Pairs.{NotAlone};

use crate::sets::{count, unite};
use crate::toward::toward;
use words::regions::{GATHERED, MARKS, OWN, WANT, clear, has};

// Gathers from p, if it is in region OWN. Region WANT has at most `left` nodes.
fn gather_from(edges: &[u8], n: usize, p: usize, left: usize, work: &mut [u32])
    requires n_le_max_nodes { (n ≤ max_nodes) × (p < n) × Enough n work.old × (ones (region_flags n want work.old) ≤ left) × NotAlone n own work.old }
    requires indexed_edges { IndexedEdges edges.now n work.old }
    ensures members { (v : ℕ) → Flagged (region_flags n gathered work.new) v
        ↔ Joined (arcs_in edges.now) (region_flags n gathered work.old) (region_flags n own work.old)
        (region_flags n want work.old) p v }
    ensures others { KeptStarts n work.old work.new }
{
    if has(work, n, OWN, p) {
        toward(edges, n, p, left, work);
        unite(work, n, MARKS, GATHERED);
    }
}

// Makes region GATHERED the set of the nodes on least walks from a node of OWN to a node of WANT, every equally quick way counted.
pub fn gather(edges: &[u8], n: usize, work: &mut [u32])
    requires n_le_max_nodes { (n ≤ max_nodes) × Enough n work.old × (1 ≤ n) × NotAlone n own work.old }
    requires indexed_edges { IndexedEdges edges.now n work.old }
    ensures members { (v : ℕ) → Flagged (region_flags n gathered work.new) v
        ↔ Gathered (arcs_in edges.now) (region_flags n own work.old) (region_flags n want work.old) v }
    ensures others { KeptStarts n work.old work.new }
{
    clear(work, n, GATHERED);
    let left = count(work, n, WANT);
    for p in 0..n {
        gather_from(edges, n, p, left, work);
    }
}
