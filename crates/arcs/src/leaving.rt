// Walking the arcs out of a node: the one place that knows what an edge is to a walk, and what the lines of a day sheet leave of it.
ghost use Rattle.std.specs.Prelude.{◌≡◌, ◌<◌, ◌≤◌, false, [], ◌⊎◌};
ghost use Rattle.model.specs.Network.{max_nodes, edge, edge_count, some_edge_broken};
ghost use Rattle.theory.specs.Sound.{max_cost};
ghost use Rattle.words.specs.Frames.{Enough};
ghost use Rattle.sheet.specs.Spans.{SpannedIn};
ghost use Rattle.index.specs.Index.{IndexedEdges};
ghost use Rattle.arcs.specs.Cursor.{Valid, Stepped};
ghost use Rattle.arcs.specs.Leaving.{EdgesUnder, cursor_of, EndAt, LeftAt, FirstArc, ValidArc, PassedArcs, SteppedArc};

use crate::cursor::{Cursor, first_edge, next_edge};
use crate::roads::Roads;
use codec::keys::edge_key;
use codec::records::{EDGE_SIZE, Edge, NO_WALK};
use sheet::spans::cost_left;

// Where the arc leads and what it costs, and where the cursor over the edges stands. At the end of a walk `to` is the number of nodes: one comparison an arc,
// in the innermost loops. The cursor's fields stand here one by one: a struct in a struct is copied through memory at each arc.
#[derive(Clone, Copy)]
pub struct ArcAt {
    pub to: usize,
    pub cost: u64,
    pub edge: usize,
    pub stop: usize,
    pub link: usize,
    pub size: usize,
}

impl ArcAt {
    // The arc that the cursor has come to.
    fn at(c: Cursor, to: usize, cost: u64) -> ArcAt
        ensures { result ≡ record { to = to; cost = cost; edge = c.edge; stop = c.stop; link = c.link; size = c.size } }
    {
        ArcAt {
            to,
            cost,
            edge: c.edge,
            stop: c.stop,
            link: c.link,
            size: c.size,
        }
    }

    // Where the cursor over the edges stands.
    fn cursor(self) -> Cursor
        ensures { result ≡ cursor_of self }
    {
        Cursor {
            edge: self.edge,
            stop: self.stop,
            link: self.link,
            size: self.size,
        }
    }
}

// The end of an edge that is not u. As one value: a processor would guess a branch on it wrong half of the time.
pub fn other_end(first: usize, second: usize, u: usize) -> usize
    ensures { (first ≡ u → result ≡ second) × ((first ≡ u → ⊥) → result ≡ first) }
{
    if first == u { second } else { first }
}

// ---- without a sheet

// The arc out of u by the edge that the cursor has found. A walk begins with that of `first_edge`: as one function the two would be too large to be inlined
// where a walk begins.
pub fn arc_at(edges: &[u8], n: usize, u: usize, c: Cursor) -> ArcAt
    requires { (some_edge_broken n edges.now ≡ false) × (c.edge < edge_count edges.now
        → ((edge edges.now c.edge).first ≡ u) ⊎ ((edge edges.now c.edge).second ≡ u)) }
    ensures { LeftAt edges.now [] n u c result × (result.cost ≤ max_cost) }
{
    let i = c.edge;
    if edges.len() / EDGE_SIZE <= i {
        return ArcAt::at(c, n, 0);
    }
    let edge = Edge::read(edges, i);
    let to = other_end(edge.first, edge.second, u);
    let cost = edge_key(edges, i);
    ArcAt::at(c, to, cost)
}

// On to the next arc out of u: the innermost step of searches and marks, small enough to be inlined where it is called.
pub fn next_arc(edges: &[u8], n: usize, work: &[u32], u: usize, a: ArcAt) -> ArcAt
    requires n_le_max_nodes { (n ≤ max_nodes) × Enough n work.now × (u < n) }
    requires indexed_edges { IndexedEdges edges.now n work.now }
    requires valid_arc { ValidArc edges.now [] n work.now u a × (a.to < n) }
    ensures { SteppedArc edges.now [] n work.now u a result }
{
    let c = next_edge(edges, n, work, u, a.cursor());
    arc_at(edges, n, u, c)
}

// ---- under a sheet

impl Roads<'_> {
    // What is left of the edge that the cursor has found: the arc out of u, or one that costs 'no walk'.
    fn left_arc(&self, u: usize, c: Cursor) -> ArcAt
        requires { c.edge < edge_count self.now.edges.now → EndAt self.now.edges.now self.now.lines.now u c.edge }
        ensures { LeftAt self.now.edges.now self.now.lines.now self.now.n u c result }
    {
        let a = arc_at(self.edges, self.n, u, c);
        if self.edges.len() / EDGE_SIZE <= a.edge {
            return a;
        }
        let cost = cost_left(self.edges, self.lines, self.n, self.work, a.edge);
        ArcAt { cost, ..a }
    }

    // On to the next edge, and to what is left of it.
    fn next_left(&self, u: usize, a: ArcAt) -> ArcAt
        requires u_lt_n { u < self.now.n }
        requires valid { Valid self.now.edges.now self.now.n self.now.work.now u (cursor_of a) × (a.edge < edge_count self.now.edges.now) }
        ensures { Stepped self.now.edges.now self.now.n self.now.work.now u (cursor_of a) (cursor_of result)
            × LeftAt self.now.edges.now self.now.lines.now self.now.n u (cursor_of result) result }
    {
        let c = next_edge(self.edges, self.n, self.work, u, a.cursor());
        self.left_arc(u, c)
    }

    // Past the edges that the sheet closes.
    fn past_shut(&self, u: usize, a: ArcAt) -> ArcAt
        requires u_lt_n { u < self.now.n }
        requires valid { Valid self.now.edges.now self.now.n self.now.work.now u (cursor_of a)
            × LeftAt self.now.edges.now self.now.lines.now self.now.n u (cursor_of a) a }
        ensures { FirstArc self.now.edges.now self.now.lines.now self.now.n self.now.work.now u (cursor_of a) result }
    {
        let mut b = a;
        while b.cost == NO_WALK {
            b = self.next_left(u, b);
        }
        b
    }

    // The first arc out of u from the edge on that the cursor has found.
    fn first_left(&self, u: usize, c: Cursor) -> ArcAt
        requires u_lt_n { u < self.now.n }
        requires valid { Valid self.now.edges.now self.now.n self.now.work.now u c }
        ensures { FirstArc self.now.edges.now self.now.lines.now self.now.n self.now.work.now u c result }
    {
        let a = self.left_arc(u, c);
        if a.cost == NO_WALK {
            return self.past_shut(u, a);
        }
        a
    }

    // On to the next arc out of u that the lines leave.
    fn left_after(&self, u: usize, a: ArcAt) -> ArcAt
        requires u_lt_n { u < self.now.n }
        requires valid_arc { ValidArc self.now.edges.now self.now.lines.now self.now.n self.now.work.now u a × (a.to < self.now.n) }
        ensures { SteppedArc self.now.edges.now self.now.lines.now self.now.n self.now.work.now u a result }
    {
        let c = next_edge(self.edges, self.n, self.work, u, a.cursor());
        self.first_left(u, c)
    }

    // The first arc out of u.
    pub fn first_arc(&self, u: usize) -> ArcAt
        requires { u < self.now.n }
        ensures { PassedArcs self.now.edges.now self.now.lines.now self.now.n self.now.work.now u [] result }
    {
        let c = first_edge(self.edges, self.n, self.work, u);
        self.arc_under(u, c)
    }

    // ---- with a sheet or without: where there are no lines, a walk is the plain one, at the cost of one comparison an arc

    // The first arc out of u from the edge on that the cursor has found.
    pub fn arc_under(&self, u: usize, c: Cursor) -> ArcAt
        requires u_lt_n { u < self.now.n }
        requires valid { Valid self.now.edges.now self.now.n self.now.work.now u c }
        ensures { FirstArc self.now.edges.now self.now.lines.now self.now.n self.now.work.now u c result }
    {
        if self.lines.len() == 0 {
            return arc_at(self.edges, self.n, u, c);
        }
        self.first_left(u, c)
    }

    // On to the next arc out of u.
    pub fn next_under(&self, u: usize, a: ArcAt) -> ArcAt
        requires u_lt_n { u < self.now.n }
        requires valid_arc { ValidArc self.now.edges.now self.now.lines.now self.now.n self.now.work.now u a × (a.to < self.now.n) }
        ensures { SteppedArc self.now.edges.now self.now.lines.now self.now.n self.now.work.now u a result }
    {
        if self.lines.len() == 0 {
            return next_arc(self.edges, self.n, self.work, u, a);
        }
        self.left_after(u, a)
    }
}
