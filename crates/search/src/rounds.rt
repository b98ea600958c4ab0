// The beginning, a round and the end of a search, in the first of more words than it needs.
ghost use Rattle.std.specs.Prelude.{◌≡◌, ◌<◌, ◌≤◌, length, set, replicate};
ghost use Rattle.model.specs.Network.{max_nodes};
ghost use Rattle.model.specs.Oracle.{no_walk};
ghost use Rattle.sheet.specs.ArcsUnder.{arcs_under};
ghost use Rattle.arcs.specs.Leaving.{EdgesUnder};
ghost use Rattle.words.specs.Frames.{Enough, KeptFrom};
ghost use Rattle.search.specs.Holds.{Holds, SettledFirst};
ghost use Rattle.search.specs.Round.{Round};
ghost use Rattle.words.specs.Regions.{front_in, times_in, order_in, settled_in, search_words};
ghost use Rattle.search.specs.Order.{settle_order};

use crate::regions::{plain_order, reset, settle_nearest};
use crate::relax::relax;
use words::regions::search_words;

// Only s is reached, and no node is settled. The number of nodes held.
pub fn begin(work: &mut [u32], n: usize, s: usize) -> usize
    requires { (2 ≤ n) × (n ≤ max_nodes) × (s < n) × (search_words n ≤ length work.old) }
    ensures holds { Holds n result n (front_in n work.new) }
    ensures times { times_in n (front_in n work.new) ≡ set (replicate n no_walk) s 0 }
    ensures settled { settled_in n (front_in n work.new) ≡ replicate n 0 }
    ensures others { KeptFrom (search_words n) work.old work.new }
{
    let m = search_words(n);
    reset(&mut work[..m], n, s)
}

// Settles a nearest of the k nodes held, and relaxes the arcs out of it. The number of nodes held then.
pub fn round(edges: &[u8], lines: &[u8], n: usize, k: usize, e: usize, work: &mut [u32]) -> usize
    requires holds { Holds n k e (front_in n work.old) × (0 < k) × SettledFirst n (front_in n work.old) }
    requires edges_under { EdgesUnder edges.now lines.now n work.old × Enough n work.old }
    ensures round { Round (arcs_under edges.now lines.now) n e (front_in n work.old)
        (front_in n work.new) result }
    ensures others { KeptFrom (search_words n) work.old work.new }
{
    let m = search_words(n);
    let u = settle_nearest(&mut work[..m], n, k, e);
    relax(edges, lines, work, n, k - 1, e - 1, u)
}

// What a search leaves: the settled nodes alone, from position e on.
pub fn finish(work: &mut [u32], n: usize, e: usize)
    requires { (n ≤ max_nodes) × (search_words n ≤ length work.old) × (e ≤ n) }
    ensures times { times_in n work.new ≡ times_in n (front_in n work.old) }
    ensures order { order_in n e work.new ≡ settle_order n e (front_in n work.old) }
    ensures others { KeptFrom (search_words n) work.old work.new }
{
    let m = search_words(n);
    plain_order(&mut work[..m], n, e);
}
