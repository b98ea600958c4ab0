// The time under the lines of a sheet, over an opened oracle and for nodes that it has: "If there is an old way and its every step can still be driven in its
// old time, or the old answer was 'none', the old answer stands with its kind and pairs; otherwise the roads are searched".
ghost use Rattle.std.specs.Prelude.{◌≡◌, false, [], ◌<◌, ◌≤◌};
ghost use Rattle.model.specs.Lists.{any};
ghost use Rattle.model.specs.Contents.{node_body, edge_body};
ghost use Rattle.model.specs.Distance.{dist};
ghost use Rattle.model.specs.Network.{network, max_nodes, node_count, distance};
ghost use Rattle.model.specs.Oracle.{coded};
ghost use Rattle.model.specs.Query.{time_answer, local_answer};
ghost use Rattle.algorithms.specs.Rounds.{distance_words};
ghost use Rattle.words.specs.Frames.{Enough, KeptFrom};
ghost use Rattle.words.specs.Regions.{grid_at};
ghost use Rattle.words.specs.Times.{time};
ghost use Rattle.index.specs.Index.{IndexedEdges};
ghost use Rattle.sheet.specs.Sheet.{lines_in, holds};
ghost use Rattle.sheet.specs.Under.{too_slow, still_driven, is_none, time_under};
ghost use Rattle.sheet.specs.ArcsUnder.{left_under, arcs_under};
ghost use Rattle.arcs.specs.Leaving.{EdgesUnder};
ghost use Rattle.way.specs.Distances.{distance_in};
ghost use Rattle.opened.specs.Opened.{Opened, Stays};
ghost use Rattle.opened.specs.TimesFrom.{way_over};
ghost use Rattle.under.specs.Judged.{net_under, QuickLines, NotedThen, Judged};

use arcs::roads::Roads;
use model::{Answer, Kind};
use opened::answers;
use opened::local::{search_key, search_to};
use opened::opening::opened_kind;
use reader::oracle::{EDGES, node_count, oracle_body};
use sheet::spans::note_lines;
use tables::far::answer_of;
use way::driven::still_driven;
use words::times::time_of;

// Whether the old way from s to t can still be driven, by a search from t over the edges as they are, that ends at s. The lines are noted before.
fn old_way_driven(
    edges: &[u8],
    lines: &[u8],
    n: usize,
    s: usize,
    t: usize,
    work: &mut [u32],
) -> bool
    requires n_le_max_nodes { (n ≤ max_nodes) × (s < n) × (t < n) × Enough n work.old × IndexedEdges edges.now n work.old × (2 ≤ n) }
    requires lines_value { any too_slow (left_under edges.now lines.now) ≡ false }
    ensures driven { result ≡ still_driven (distance_in (distance_words (arcs_under edges.now []) n t))
        (arcs_under edges.now lines.now)
        (way_over (arcs_under edges.now []) n s t) }
    ensures old { time n work.new s ≡ coded (dist (arcs_under edges.now []) n t s) }
    ensures edges { EdgesUnder edges.now lines.now n work.new }
    ensures others { NotedThen n work.old work.new }
{
    note_lines(lines, n, work);
    search_to(edges, &edges[..0], n, t, s, work);
    let roads = Roads {
        edges,
        lines,
        n,
        work: &*work,
    };
    still_driven(&roads, s)
}

// The same over the oracle.
fn judge(o: &[u8], lines: &[u8], s: usize, t: usize, work: &mut [u32]) -> bool
    requires opened { Opened o.now work.old × (s < node_count (node_body o.now)) × (t < node_count (node_body o.now)) × (s ≡ t → ⊥) }
    requires quick_lines { QuickLines o.now lines.now }
    ensures { Judged o.now lines.now s t work.old work.new result }
{
    old_way_driven(oracle_body(o, EDGES), lines, node_count(o), s, t, work)
}

// The answer without the sheet. A local one takes the time of s from the search toward t: edges run both ways.
fn old_answer(o: &[u8], s: usize, t: usize, work: &[u32]) -> Answer
    requires opened { Opened o.now work.now × (s < node_count (node_body o.now)) × (t < node_count (node_body o.now)) }
    requires s_value { time (node_count (node_body o.now)) work.now s ≡ coded (distance (network o.now) s t) }
    ensures { result ≡ time_answer o.now s t }
{
    let kind = opened_kind(o, s, t, work);
    match kind {
        Kind::Far => answers::far_of(o, s, t),
        Kind::Local => answer_of(Kind::Local, 0, time_of(work, node_count(o), s)),
    }
}

#[tactic(auto, unfolding(sheet::specs::Under::is_none))]
fn is_none(a: Answer) -> bool
    ensures { result ≡ is_none a }
{
    matches!(a, Answer::None { .. })
}

// The answer of a search over the edges as the lines leave them: "marked local with 0 pairs".
fn searched(o: &[u8], lines: &[u8], s: usize, t: usize, work: &mut [u32]) -> Answer
    requires opened { Opened o.now work.old × (s < node_count (node_body o.now)) × (t < node_count (node_body o.now)) × (s ≡ t → ⊥) }
    requires edges_under { EdgesUnder (edge_body o.now) lines.now (node_count (node_body o.now)) work.old }
    ensures answer { result ≡ local_answer (net_under lines.now o.now) s t }
    ensures others { KeptFrom (grid_at (node_count (node_body o.now))) work.old work.new }
{
    let found = search_key(oracle_body(o, EDGES), lines, node_count(o), s, t, work);
    answer_of(Kind::Local, 0, found)
}

// The time, where no rule is broken. From a node to itself the old way has no step.
pub fn time_under_of(o: &[u8], lines: &[u8], s: usize, t: usize, work: &mut [u32]) -> Answer
    requires opened { Opened o.now work.old × (s < node_count (node_body o.now)) × (t < node_count (node_body o.now)) }
    requires quick_lines { QuickLines o.now lines.now }
    ensures answer { result ≡ time_under (holds (lines_in lines.now)) o.now s t }
    ensures stays { Stays o.now work.old work.new }
{
    if s == t {
        return answers::time_of(o, s, t, work);
    }
    let driven = judge(o, lines, s, t, work);
    let old = old_answer(o, s, t, work);
    if driven || is_none(old) {
        return old;
    }
    searched(o, lines, s, t, work)
}
