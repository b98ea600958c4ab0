// The network without its closed edges: the head, the nodes as they stand, and each open edge as it stands.
ghost use Rattle.std.specs.Prelude.{◌≡◌, true, [], ◌∷◌, ◌+◌, ◌*◌, ◌<◌, ◌≤◌, length};
ghost use Rattle.model.specs.Lists.{rising};
ghost use Rattle.model.specs.Bytes.{splice, words16};
ghost use Rattle.model.specs.Contents.{network_edition, network_head};
ghost use Rattle.model.specs.Network.{edge_size};
ghost use Rattle.emit.specs.Parts.{head_bytes};
ghost use Rattle.emit.specs.Records.{Wrote};
ghost use Rattle.convert.specs.Convert.{open_records};
ghost use Rattle.convert.specs.Parts.{edge_left, network_of, OldBodies, Given};

use crate::numbers::is_open;
use codec::records::{EDGE_SIZE, NUMBER_SIZE};
use contents::{NETWORK_EDITION, NETWORK_HEAD};
use emit::copy::put;
use emit::head::write_head;
use model::Output;

// The head, for nodes and edges of these sizes. Body 3 is empty.
fn put_head(nodes: usize, edges: usize, out: &mut [u8])
    requires { (network_head + nodes + edges < 4294967296) × (network_head ≤ length out.old) }
    ensures { Wrote out.old 0 (head_bytes network_edition (nodes ∷ edges ∷ 0 ∷ [])) network_head out.new }
{
    let sizes = [nodes as u32, edges as u32, 0];
    write_head(NETWORK_EDITION, &sizes, &mut out[..NETWORK_HEAD]);
}

// Writes edge i at `at`, where it is open, and answers where that ends.
fn write_edge(edges: &[u8], closed: &[u8], i: usize, out: &mut [u8], at: usize) -> usize
    requires closed_value { (rising (words16 closed.now) ≡ true) × (edge_size * i + edge_size ≤ length edges.now) }
    requires i_in_bounds { at + length (edge_left edges.now (words16 closed.now) i) ≤ length out.old }
    ensures { Wrote out.old at (edge_left edges.now (words16 closed.now) i) result out.new }
{
    if !is_open(closed, i) {
        return at;
    }
    let start = EDGE_SIZE * i;
    let end = start + EDGE_SIZE;
    put(&edges[start..end], out, at)
}

// Writes the open edges from `at` on, and answers where they end.
fn write_edges(edges: &[u8], closed: &[u8], out: &mut [u8], at: usize) -> usize
    requires { (rising (words16 closed.now) ≡ true) × (at + length (open_records edges.now (words16 closed.now)) ≤ length out.old) }
    ensures { Wrote out.old at (open_records edges.now (words16 closed.now)) result out.new }
{
    let m = edges.len() / EDGE_SIZE;
    let mut end = at;
    for i in 0..m {
        end = write_edge(edges, closed, i, out, end);
    }
    end
}

// The whole network, at the front of the output; `left` is the size of its open edges.
fn write_network(nodes: &[u8], edges: &[u8], closed: &[u8], left: usize, out: &mut [u8])
    requires old_bodies { OldBodies nodes.now edges.now closed.now × (left ≡ length (open_records edges.now (words16 closed.now))) }
    requires left_in_bounds { (network_head + length nodes.now + left ≤ length out.old) × (left ≤ length edges.now) }
    ensures { out.new ≡ splice 0 (network_of nodes.now edges.now closed.now) out.old }
{
    put_head(nodes.len(), left, out);
    let at = put(nodes, out, NETWORK_HEAD);
    write_edges(edges, closed, out, at);
}

// What no rule before 15 sends back. The size needs the numbers of edges alone, so 15 is decided before anything is written.
pub fn leave_out(nodes: &[u8], edges: &[u8], closed: &[u8], out: &mut [u8]) -> Output
    requires { OldBodies nodes.now edges.now closed.now }
    ensures { Given (network_of nodes.now edges.now closed.now) out.old result out.new }
{
    let left = EDGE_SIZE * (edges.len() / EDGE_SIZE - closed.len() / NUMBER_SIZE);
    let size = NETWORK_HEAD + nodes.len() + left;
    if out.len() < size {
        return Output { rule: 15, size: 0 };
    }
    write_network(nodes, edges, closed, left, out);
    Output { rule: 0, size }
}
