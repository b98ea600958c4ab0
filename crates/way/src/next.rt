// The next node of a way: "the lowest-numbered neighbour v with road time + d(v, t) = d(u, t)", in pairs. The distances to the way's end t are the times in the
// working words, as keys, and `left` is that of u.
ghost use Rattle.std.specs.Prelude.{◌≡◌, cond, ◌<◌, ◌≤◌, min, length};
ghost use Rattle.model.specs.Distance.{finite, plus, agree};
ghost use Rattle.model.specs.Query.{nexts};
ghost use Rattle.theory.specs.Sound.{max_cost};
ghost use Rattle.words.specs.Regions.{times_in};
ghost use Rattle.words.specs.Times.{time_words};
ghost use Rattle.way.specs.Distances.{distance_in, distance_by, arcs_by, lowest};

use arcs::roads::Roads;
use codec::records::NO_WALK;
use words::times::time_of;

// Whether v is next by an arc of this cost. 'No walk' is no time to add.
pub fn is_next(work: &[u32], n: usize, v: usize, cost: u64, left: u64) -> bool
    requires { (time_words n ≤ length work.now) × (v < n) × (cost ≤ max_cost) }
    ensures { result ≡ agree (plus (finite cost) (distance_in (times_in n work.now) v)) (finite left) }
{
    let x = time_of(work, n, v);
    x != NO_WALK && cost + x == left
}

// The lower of `best` and v where v is next by an arc of this cost, and else `best`.
pub fn lower(work: &[u32], n: usize, v: usize, cost: u64, left: u64, best: usize) -> usize
    requires { (time_words n ≤ length work.now) × (v < n) × (cost ≤ max_cost) }
    ensures { result ≡ cond (agree (plus (finite cost) (distance_in (times_in n work.now) v)) (finite left)) (min best v) best }
{
    if is_next(work, n, v, cost, left) {
        best.min(v)
    } else {
        best
    }
}

// The lowest of the next nodes of u.
pub fn next_node(roads: &Roads, u: usize, left: u64) -> Option<usize>
    requires { distance_by roads.now u ≡ finite left }
    ensures { result ≡ lowest roads.now.n (nexts (distance_by roads.now) (arcs_by roads.now) u) }
{
    let mut r = roads.n;
    let mut a = roads.first_arc(u);
    while a.to < roads.n {
        r = lower(roads.work, roads.n, a.to, a.cost, left, r);
        a = roads.next_under(u, a);
    }
    if r == roads.n { None } else { Some(r) }
}
