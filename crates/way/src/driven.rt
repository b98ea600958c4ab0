// Whether the old way can still be driven under a day sheet, "its every step .. in its old time". The distances to the way's end over the edges as they were
// are the times in the working words.
ghost use Rattle.std.specs.Prelude.{◌≡◌, ◌<◌, ◌≤◌, ◌&&◌, eqb, [], get_or};
ghost use Rattle.model.specs.Lists.{member};
ghost use Rattle.model.specs.Distance.{finite, plus, agree};
ghost use Rattle.model.specs.Oracle.{no_walk};
ghost use Rattle.model.specs.Query.{nexts};
ghost use Rattle.theory.specs.Sound.{max_cost};
ghost use Rattle.words.specs.Regions.{times_in};
ghost use Rattle.sheet.specs.Under.{still_driven};
ghost use Rattle.sheet.specs.ArcsUnder.{arcs_under};
ghost use Rattle.way.specs.Distances.{distance_by, arcs_by, nodes_in};
ghost use Rattle.way.specs.Driven.{NextDriven};

use crate::next::{is_next, next_node};
use arcs::roads::Roads;
use codec::records::NO_WALK;
use words::times::time_of;

// A step on the old way: to its next node, by a road that still takes its old time; none, where the way ends; or one that no such road drives.
#[derive(Clone, Copy, PartialEq, Eq, Debug)]
pub enum Step {
    To(usize),
    End,
    Broken,
}

// Whether an arc of this cost to the node `to` leads to v in just the time by which v is nearer.
fn is_step(roads: &Roads, to: usize, cost: u64, left: u64, v: usize) -> bool
    requires { (to < roads.now.n) × (cost ≤ max_cost) }
    ensures { result ≡ (agree (plus (finite cost) (distance_by roads.now to)) (finite left) && eqb v to) }
{
    is_next(roads.work, roads.n, to, cost, left) && v == to
}

// Whether some arc that the sheet leaves leads from u to v in just the time by which v is nearer. A parallel road may serve.
fn drives(roads: &Roads, u: usize, v: usize, left: u64) -> bool
    requires { (distance_by roads.now u ≡ finite left) × (v < roads.now.n) }
    ensures { result ≡ member v (nexts (distance_by roads.now) (arcs_by roads.now) u) }
{
    let mut a = roads.first_arc(u);
    while a.to < roads.n {
        if is_step(roads, a.to, a.cost, left, v) {
            return true;
        }
        a = roads.next_under(u, a);
    }
    false
}

// The step on from u.
fn next_driven(roads: &Roads, u: usize) -> Step
    requires { (u < roads.now.n) × (get_or (times_in roads.now.n roads.now.work.now) u 0 ≡ no_walk → ⊥) }
    ensures { NextDriven (distance_by roads.now) (arcs_under roads.now.edges.now []) (arcs_by roads.now) roads.now.n u
        (get_or (times_in roads.now.n roads.now.work.now) u 0) result }
{
    let left = time_of(roads.work, roads.n, u);
    let old = Roads {
        edges: roads.edges,
        lines: &roads.edges[..0],
        n: roads.n,
        work: roads.work,
    };
    match next_node(&old, u, left) {
        None => Step::End,
        Some(v) if drives(roads, u, v, left) => Step::To(v),
        Some(_) => Step::Broken,
    }
}

// Whether there is an old way from s, and its every step can still be driven.
pub fn still_driven(roads: &Roads, s: usize) -> bool
    requires { s < roads.now.n }
    ensures { result ≡ still_driven (distance_by roads.now) (arcs_by roads.now)
        (nodes_in roads.now.edges.now [] roads.now.n roads.now.work.now s) }
{
    if time_of(roads.work, roads.n, s) == NO_WALK {
        return false;
    }
    let mut u = s;
    loop {
        match next_driven(roads, u) {
            Step::To(v) => u = v,
            Step::End => return true,
            Step::Broken => return false,
        }
    }
}
