// Relaxing the arcs out of a node.
ghost use Rattle.std.specs.Prelude.{◌≡◌, false, [], ◌<◌, ◌≤◌};
ghost use Rattle.algorithms.specs.Dijkstra.{at, relax_all};
ghost use Rattle.model.specs.Network.{edge_count, some_edge_broken};
ghost use Rattle.model.specs.Oracle.{no_walk};
ghost use Rattle.sheet.specs.ArcsUnder.{arcs_under, arcs_left};
ghost use Rattle.sheet.specs.Spans.{SpannedIn};
ghost use Rattle.arcs.specs.Arcs.{leaving};
ghost use Rattle.arcs.specs.Leaving.{EdgesUnder, EndAt};
ghost use Rattle.words.specs.Frames.{Enough, KeptFrom};
ghost use Rattle.search.specs.Holds.{Holds, Relaxed, SettledWithin};
ghost use Rattle.words.specs.Regions.{front_in, times_in, search_words};

use crate::regions::offer_in;
use arcs::cursor::{first_edge, next_edge};
use arcs::leaving::{arc_at, next_arc, other_end};
use codec::records::{EDGE_SIZE, Edge, NO_WALK};
use sheet::spans::cost_left;
use words::regions::search_words;
use words::times::time_of;

// Relaxes the arcs out of u, than which no settled node is farther, in the words of the search. The number of nodes held.
fn relax_plain(edges: &[u8], work: &mut [u32], n: usize, k: usize, e: usize, u: usize) -> usize
    requires holds { Holds n k e (front_in n work.old) × (u < n) × SettledWithin n (at (times_in n (front_in n work.old)) u) (front_in n work.old) }
    requires edges_under { EdgesUnder edges.now [] n work.old × Enough n work.old }
    ensures relaxed { Relaxed n e (relax_all (at (times_in n (front_in n work.old)) u)
        (leaving u (arcs_under edges.now [])) (times_in n (front_in n work.old)))
        (front_in n work.old) (front_in n work.new) result }
    ensures others { KeptFrom (search_words n) work.old work.new }
{
    let d = time_of(work, n, u);
    let front = search_words(n);
    let mut held = k;
    let c = first_edge(edges, n, work, u);
    let mut a = arc_at(edges, n, u, c);
    while a.to < n {
        held = offer_in(&mut work[..front], n, held, e, a.to, d + a.cost);
        a = next_arc(edges, n, work, u, a);
    }
    held
}

// The edge i at u as the lines of a sheet leave it: unless they close it, its other end can be reached by it, in d and its cost. The number of nodes held.
fn offer_edge(
    edges: &[u8],
    lines: &[u8],
    work: &mut [u32],
    n: usize,
    k: usize,
    e: usize,
    u: usize,
    d: u64,
    i: usize,
) -> usize
    requires holds { Holds n k e (front_in n work.old) × SettledWithin n d (front_in n work.old) × Enough n work.old × (d ≤ no_walk) }
    requires edges_value { (some_edge_broken n edges.now ≡ false) × (i < edge_count edges.now) × EndAt edges.now lines.now u i
        × SpannedIn lines.now n work.old }
    ensures relaxed { Relaxed n e (relax_all d (leaving u (arcs_left edges.now lines.now i))
        (times_in n (front_in n work.old))) (front_in n work.old) (front_in n work.new) result }
    ensures others { KeptFrom (search_words n) work.old work.new }
{
    let cost = cost_left(edges, lines, n, work, i);
    if cost == NO_WALK {
        return k;
    }
    let edge = Edge::read(edges, i);
    let v = other_end(edge.first, edge.second, u);
    let front = search_words(n);
    offer_in(&mut work[..front], n, k, e, v, d + cost)
}

// The same over the edges as the lines leave them.
fn relax_under(
    edges: &[u8],
    lines: &[u8],
    work: &mut [u32],
    n: usize,
    k: usize,
    e: usize,
    u: usize,
) -> usize
    requires holds { Holds n k e (front_in n work.old) × (u < n) × SettledWithin n (at (times_in n (front_in n work.old)) u) (front_in n work.old) }
    requires edges_under { EdgesUnder edges.now lines.now n work.old × Enough n work.old }
    ensures relaxed { Relaxed n e (relax_all (at (times_in n (front_in n work.old)) u)
        (leaving u (arcs_under edges.now lines.now)) (times_in n (front_in n work.old)))
        (front_in n work.old) (front_in n work.new) result }
    ensures others { KeptFrom (search_words n) work.old work.new }
{
    let d = time_of(work, n, u);
    let m = edges.len() / EDGE_SIZE;
    let mut held = k;
    let mut c = first_edge(edges, n, work, u);
    while c.edge < m {
        held = offer_edge(edges, lines, work, n, held, e, u, d, c.edge);
        c = next_edge(edges, n, work, u, c);
    }
    held
}

// With a sheet or without. The loops are two so that a search without a sheet, on which building rests, is not slowed.
pub fn relax(
    edges: &[u8],
    lines: &[u8],
    work: &mut [u32],
    n: usize,
    k: usize,
    e: usize,
    u: usize,
) -> usize
    requires holds { Holds n k e (front_in n work.old) × (u < n) × SettledWithin n (at (times_in n (front_in n work.old)) u) (front_in n work.old) }
    requires edges_under { EdgesUnder edges.now lines.now n work.old × Enough n work.old }
    ensures relaxed { Relaxed n e (relax_all (at (times_in n (front_in n work.old)) u)
        (leaving u (arcs_under edges.now lines.now)) (times_in n (front_in n work.old)))
        (front_in n work.old) (front_in n work.new) result }
    ensures others { KeptFrom (search_words n) work.old work.new }
{
    if lines.len() == 0 {
        return relax_plain(edges, work, n, k, e, u);
    }
    relax_under(edges, lines, work, n, k, e, u)
}
