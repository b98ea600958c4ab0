// The answers over an opened oracle, for nodes that it has.
ghost use Rattle.std.specs.Prelude.{◌≡◌, true, ◌<◌};
ghost use Rattle.model.specs.Contents.{node_body};
ghost use Rattle.model.specs.Network.{network, node_count};
ghost use Rattle.model.specs.Oracle.{coded};
ghost use Rattle.model.specs.Query.{distance_of, far_answer, local_answer, time_answer, seconds_word};
ghost use Rattle.model.specs.Rules.{well_shaped};
ghost use Rattle.words.specs.Frames.{KeptFrom};
ghost use Rattle.opened.specs.Opened.{Opened};
ghost use Rattle.opened.specs.Room.{WayGiven};
ghost use Rattle.words.specs.Regions.{grid_at};

use crate::local::local_key;
use crate::opening::opened_kind;
use crate::ways::write_way_to;
use codec::keys;
use codec::records::NO_WALK;
use model::{Answer, Kind, Route};
use reader::oracle::{ACCESS, EDGES, TABLE, node_count, oracle_body, transit_count};
use tables::far::{answer_of, far_answer};

// The far answer, from the lists and the table alone.
pub fn far_of(o: &[u8], s: usize, t: usize) -> Answer
    requires { (well_shaped o.now ≡ true) × (s < node_count (node_body o.now)) × (t < node_count (node_body o.now)) }
    ensures { result ≡ far_answer o.now s t }
{
    far_answer(
        transit_count(o),
        oracle_body(o, ACCESS),
        oracle_body(o, TABLE),
        s,
        t,
    )
}

// The local answer, from a search over the edges.
fn local_of(o: &[u8], s: usize, t: usize, work: &mut [u32]) -> Answer
    requires { Opened o.now work.old × (s < node_count (node_body o.now)) × (t < node_count (node_body o.now)) }
    ensures answer { result ≡ local_answer (network o.now) s t }
    ensures others { KeptFrom (grid_at (node_count (node_body o.now))) work.old work.new }
{
    answer_of(Kind::Local, 0, local_key(o, s, t, work))
}

// The answer by the kind of the pair.
pub fn time_of(o: &[u8], s: usize, t: usize, work: &mut [u32]) -> Answer
    requires { Opened o.now work.old × (s < node_count (node_body o.now)) × (t < node_count (node_body o.now)) }
    ensures answer { result ≡ time_answer o.now s t }
    ensures others { KeptFrom (grid_at (node_count (node_body o.now))) work.old work.new }
{
    let kind = opened_kind(o, s, t, work);
    match kind {
        Kind::Far => far_of(o, s, t),
        Kind::Local => local_of(o, s, t, work),
    }
}

// The key of an answer's time, with 'no walk' marked as in the table.
#[tactic(auto, unfolding(model::specs::Oracle::coded, model::specs::Query::distance_of))]
pub fn key_of(a: Answer) -> u64
    ensures { result ≡ coded (distance_of a) }
{
    match a {
        Answer::Time { seconds, hops, .. } => keys::key_of(seconds, hops),
        _ => NO_WALK,
    }
}

// The seconds alone, marked so.
pub fn seconds_between(o: &[u8], s: usize, t: usize, work: &mut [u32]) -> u32
    requires { Opened o.now work.old × (s < node_count (node_body o.now)) × (t < node_count (node_body o.now)) }
    ensures seconds { result ≡ seconds_word o.now s t }
    ensures others { KeptFrom (grid_at (node_count (node_body o.now))) work.old work.new }
{
    keys::seconds_of(key_of(time_of(o, s, t, work)))
}

// The way where no rule before 15 is broken.
pub fn way_of(o: &[u8], s: usize, t: usize, work: &mut [u32], out: &mut [u8]) -> Route
    requires { Opened o.now work.old × (s < node_count (node_body o.now)) × (t < node_count (node_body o.now)) }
    ensures given { WayGiven o.now s t out.old result out.new }
    ensures others { KeptFrom (grid_at (node_count (node_body o.now))) work.old work.new }
{
    let edges = oracle_body(o, EDGES);
    write_way_to(edges, &edges[..0], node_count(o), s, t, work, out)
}
