// The way under the lines of a sheet, over an opened oracle and for nodes that it has. It goes by the edges as the lines leave them alone.
ghost use Rattle.std.specs.Prelude.{◌≡◌, false, ◌<◌, ◌≤◌};
ghost use Rattle.model.specs.Lists.{any};
ghost use Rattle.model.specs.Contents.{node_body};
ghost use Rattle.model.specs.Network.{max_nodes, node_count};
ghost use Rattle.words.specs.Frames.{Enough};
ghost use Rattle.index.specs.Index.{IndexedEdges};
ghost use Rattle.sheet.specs.Sheet.{lines_in, holds};
ghost use Rattle.sheet.specs.Under.{too_slow, way_under};
ghost use Rattle.sheet.specs.ArcsUnder.{left_under, arcs_under};
ghost use Rattle.opened.specs.Opened.{Opened, Stays};
ghost use Rattle.opened.specs.Room.{NodesGiven};
ghost use Rattle.opened.specs.TimesFrom.{way_over};
ghost use Rattle.under.specs.Judged.{QuickLines, NotedThen};

use model::Route;
use opened::ways::{write_way_itself, write_way_to};
use reader::oracle::{EDGES, node_count, oracle_body};
use sheet::spans::note_lines;

// Notes the lines, and writes the way from s to t at the front of the output.
fn noted_way(
    edges: &[u8],
    lines: &[u8],
    n: usize,
    s: usize,
    t: usize,
    work: &mut [u32],
    out: &mut [u8],
) -> Route
    requires n_le_max_nodes { (n ≤ max_nodes) × (s < n) × (t < n) × Enough n work.old × IndexedEdges edges.now n work.old × (2 ≤ n) }
    requires lines_value { any too_slow (left_under edges.now lines.now) ≡ false }
    ensures given { NodesGiven (way_over (arcs_under edges.now lines.now) n s t) out.old result
        out.new }
    ensures others { NotedThen n work.old work.new }
{
    note_lines(lines, n, work);
    write_way_to(edges, lines, n, s, t, work, out)
}

// The way, where no rule before 15 is broken. From a node to itself nothing is noted.
pub fn way_under_of(
    o: &[u8],
    lines: &[u8],
    s: usize,
    t: usize,
    work: &mut [u32],
    out: &mut [u8],
) -> Route
    requires opened { Opened o.now work.old × (s < node_count (node_body o.now)) × (t < node_count (node_body o.now)) }
    requires quick_lines { QuickLines o.now lines.now }
    ensures given { NodesGiven (way_under (holds (lines_in lines.now)) o.now s t) out.old result out.new }
    ensures stays { Stays o.now work.old work.new }
{
    if s == t {
        return write_way_itself(s, out);
    }
    noted_way(oracle_body(o, EDGES), lines, node_count(o), s, t, work, out)
}
