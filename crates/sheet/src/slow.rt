// Rule 20, line by line and without working words, which are not known to be enough yet: an edge can be too slow only where one of its own lines would make
// it so, and for such a line alone all lines are read.
ghost use Rattle.std.specs.Prelude.{◌≡◌, false, ◌<◌};
ghost use Rattle.model.specs.Lists.{any};
ghost use Rattle.model.specs.Network.{edge, edge_count};
ghost use Rattle.sheet.specs.Sheet.{line, line_count, lines_in, holds, names_none};
ghost use Rattle.sheet.specs.Under.{too_slow};
ghost use Rattle.sheet.specs.ArcsUnder.{left_under};
ghost use Rattle.sheet.specs.Codes.{effect_in};
ghost use Rattle.sheet.specs.Slow.{over_by, line_slow, Quick};

use crate::lines::{Effect, LINE_SIZE, effect_on, line_edge, line_effect};
use codec::records::Edge;

const MAX_SECONDS: u64 = 100000;

// Whether x takes edge i over the limit.
fn over(edges: &[u8], i: usize, x: Effect) -> bool
    requires { i < edge_count edges.now }
    ensures { result ≡ over_by (effect_in x) (edge edges.now i) }
{
    match x {
        Effect::Shut => false,
        Effect::Delayed(added) => MAX_SECONDS < Edge::read(edges, i).seconds as u64 + added as u64,
    }
}

// Whether the edge of line k is too slow, as far as this line tells.
fn line_slow(edges: &[u8], lines: &[u8], k: usize) -> bool
    requires { (k < line_count lines.now) × ((line lines.now k).edge < edge_count edges.now) }
    ensures { result ≡ line_slow (holds (lines_in lines.now)) edges.now (line lines.now k) }
{
    let i = line_edge(lines, k);
    let x = line_effect(lines, k);
    if !over(edges, i, x) {
        return false;
    }
    let held = effect_on(lines, i);
    over(edges, i, held)
}

pub fn slow_broken(edges: &[u8], lines: &[u8]) -> bool
    requires quick { Quick edges.now }
    requires lines_value { any (names_none (edge_count edges.now)) (lines_in lines.now) ≡ false }
    ensures { result ≡ any too_slow (left_under edges.now lines.now) }
{
    (0..lines.len() / LINE_SIZE).any(|k| line_slow(edges, lines, k))
}
