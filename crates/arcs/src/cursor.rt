// Walking the edges at a node.
ghost use Rattle.std.specs.Prelude.{◌≡◌, true, false, [], ◌*◌, ◌<◌, ◌≤◌, length};
ghost use Rattle.model.specs.Network.{max_nodes, edge_count};
ghost use Rattle.words.specs.Frames.{Enough};
ghost use Rattle.index.specs.Index.{by_links, by_blocks, linked, Within, Incident, IndexedEdges};
ghost use Rattle.words.specs.Regions.{place_at, index_in};
ghost use Rattle.arcs.specs.Cursor.{Valid, PassedEdges, Stepped};
ghost use Rattle.arcs.specs.Seeking.{ending, Seeking, Since, FoundFrom, FirstIncident, AtEntry, block_at};

use codec::records::{EDGE_SIZE, Edge};
use index::positions::{entry_in, head_in, is_linked, link_in};
use words::regions::index_at;

// The edge found, or the number of edges where there is none any more; where its block stops; the next entry of the chain; and the size of the blocks, which
// is 1 just where the index is read by links.
#[derive(Clone, Copy)]
pub struct Cursor {
    pub edge: usize,
    pub stop: usize,
    pub link: usize,
    pub size: usize,
}

impl Cursor {
    // Where no edge is left. As the number of edges and no option: one comparison an arc tells it from an edge.
    #[tactic(auto, unfolding(model::specs::Network::edge_count))]
    fn at_end(edges: &[u8], size: usize) -> Cursor
        ensures { result ≡ ending edges.now size }
    {
        let m = edges.len() / EDGE_SIZE;
        Cursor {
            edge: m,
            stop: m,
            link: 0,
            size,
        }
    }
}

// Whether edge i has an end at u.
#[tactic(auto, unfolding(model::specs::Network::edge_count))]
fn is_incident(edges: &[u8], u: usize, i: usize) -> bool
    requires { i < edge_count edges.now }
    ensures yes { result ≡ true → Incident edges.now u i }
    ensures no { result ≡ false → Incident edges.now u i → ⊥ }
{
    let edge = Edge::read(edges, i);
    edge.first == u || edge.second == u
}

// The first edge at u from i on and below stop, or stop where there is none.
fn first_incident(edges: &[u8], u: usize, i: usize, stop: usize) -> usize
    requires { (i ≤ stop) × (stop ≤ edge_count edges.now) }
    ensures { FirstIncident edges.now u i stop result }
{
    for r in i..stop {
        if is_incident(edges, u, r) {
            return r;
        }
    }
    stop
}

// The whole block of the entry p, of at most m edges in all.
fn block_at(m: usize, work: &[u32], n: usize, at: usize, size: usize, p: usize) -> Cursor
    requires { (at ≡ place_at n) × (n ≤ max_nodes) × Enough n work.now × (p < length (index_in n work.now)) × (size < 65536) }
    ensures { result ≡ block_at m (by_blocks (index_in n work.now)) size p }
{
    let entry = entry_in(work, n, at, p);
    let start = entry.block * size;
    Cursor {
        edge: start.min(m),
        stop: (start + size).min(m),
        link: entry.next,
        size,
    }
}

// On to the first edge at u in the block, or to where the block stops.
fn within_block(edges: &[u8], n: usize, work: &[u32], u: usize, c: Cursor) -> Cursor
    requires { Seeking edges.now n work.now u c }
    ensures { Since edges.now n work.now u c result }
{
    let edge = first_incident(edges, u, c.edge, c.stop);
    Cursor { edge, ..c }
}

// The first edge at u from the cursor's on, block by block.
fn seek(edges: &[u8], n: usize, work: &[u32], at: usize, u: usize, c: Cursor) -> Cursor
    requires at_value { (at ≡ place_at n) × (n ≤ max_nodes) × Enough n work.now × (u < n) }
    requires indexed_edges { IndexedEdges edges.now n work.now }
    requires seeking { Seeking edges.now n work.now u c }
    ensures { FoundFrom edges.now n work.now u c result }
{
    let m = edges.len() / EDGE_SIZE;
    let mut b = c;
    loop {
        let s = within_block(edges, n, work, u, b);
        if s.edge != s.stop {
            return s;
        }
        if s.link < n {
            return Cursor::at_end(edges, s.size);
        }
        b = block_at(m, work, n, at, s.size, s.link);
    }
}

// By links, which list none but edges at the node: the cursor at the entry p of a chain. The innermost step of every walk.
fn listed(edges: &[u8], n: usize, work: &[u32], at: usize, p: usize) -> Cursor
    requires at_value { (at ≡ place_at n) × (n ≤ max_nodes) × Enough n work.now }
    requires within { Within n (2 * length (index_in n work.now)) p }
    ensures { AtEntry edges.now n (by_links n (index_in n work.now)) p result }
{
    if p < n {
        return Cursor::at_end(edges, 1);
    }
    let edge = (p - n) / 2;
    let link = link_in(work, n, at, p);
    Cursor {
        edge,
        stop: edge + 1,
        link,
        size: 1,
    }
}

// Where the first block of a walk stops: without chains it is of all edges, and else it is empty.
#[tactic(auto, unfolding(model::specs::Network::edge_count))]
fn first_stop(edges: &[u8], size: usize) -> usize
    ensures { (result ≤ edge_count edges.now) × (size ≡ 0 → result ≡ edge_count edges.now) }
{
    if size == 0 {
        edges.len() / EDGE_SIZE
    } else {
        0
    }
}

// The first edge at u, by blocks.
fn first_in_blocks(edges: &[u8], n: usize, work: &[u32], at: usize, u: usize) -> Cursor
    requires at_value { (at ≡ place_at n) × (n ≤ max_nodes) × Enough n work.now × (u < n) }
    requires indexed_edges { IndexedEdges edges.now n work.now × (linked n (edge_count edges.now) ≡ false) }
    ensures { PassedEdges edges.now n work.now u [] result }
{
    let head = head_in(work, n, at, u);
    let stop = first_stop(edges, head.block);
    let c = Cursor {
        edge: 0,
        stop,
        link: head.next,
        size: head.block,
    };
    seek(edges, n, work, at, u, c)
}

// A cursor at the first edge at u.
pub fn first_edge(edges: &[u8], n: usize, work: &[u32], u: usize) -> Cursor
    requires n_le_max_nodes { (n ≤ max_nodes) × Enough n work.now × (u < n) }
    requires indexed_edges { IndexedEdges edges.now n work.now }
    ensures { PassedEdges edges.now n work.now u [] result }
{
    let at = index_at(n);
    if is_linked(edges, n, at) {
        let link = link_in(work, n, at, u);
        return listed(edges, n, work, at, link);
    }
    first_in_blocks(edges, n, work, at, u)
}

// On to the next edge at u.
pub fn next_edge(edges: &[u8], n: usize, work: &[u32], u: usize, c: Cursor) -> Cursor
    requires n_le_max_nodes { (n ≤ max_nodes) × Enough n work.now × (u < n) }
    requires indexed_edges { IndexedEdges edges.now n work.now }
    requires valid { Valid edges.now n work.now u c × (c.edge < edge_count edges.now) }
    ensures { Stepped edges.now n work.now u c result }
{
    let at = index_at(n);
    if c.size == 1 {
        return listed(edges, n, work, at, c.link);
    }
    let from = Cursor {
        edge: c.edge + 1,
        ..c
    };
    seek(edges, n, work, at, u, from)
}
