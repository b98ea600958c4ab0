// The call that builds. It asks nothing of its arguments.
ghost use Rattle.std.specs.Prelude.{◌≡◌, ◌*◌, ◌≤◌, length};
ghost use Rattle.model.specs.Rules.{first_broken, words_needed, work_words};
ghost use Rattle.model.specs.Network.{node_count};
ghost use Rattle.model.specs.Calls.{Build};
ghost use Rattle.theory.specs.Passed.{Passed};
ghost use Rattle.rules.specs.Refusals.{refused};
ghost use Rattle.index.specs.Index.{IndexedEdges};
ghost use Rattle.words.specs.Regions.{transit};
ghost use Rattle.passes.specs.Building.{transit_in, members_in};
ghost use Rattle.bodies.specs.Listed.{Counts};
ghost use Rattle.words.specs.Frames.{Enough, KeptFrom};
ghost use Rattle.builder.specs.Given.{work_rules, BuildGiven};
ghost use Rattle.builder.specs.Laid.{Laid};

use crate::network::{network_contents, node_count};
use crate::sizes::{access_size, whole_size};
use crate::whole::write_oracle;
use access::sets::count;
use checks::room::zero_front;
use crossing::ground::Ground;
use grid::Grid;
use index::chains::build_index;
use model::{Built, Division};
use passes::transit::mark_transit;
use reader::files::accept_refusal;
use reader::oracle::{EDGES, NODES};
use rules::refusal::{Refusal, broken_if};
use words::regions::{TRANSIT, WORDS};

// Rules 1 to 8, and 14.
#[tactic(auto, using(reader::proofs::Order::in_order, crate::proofs::Outcomes::accept_counted, checks::proofs::RulesKept::too_few), unfolding(crate::specs::Given::work_rules))]
fn build_refusal(network: &[u8], dv: Division, words: usize) -> Result<(), Refusal>
    ensures { refused result ≡ first_broken (work_rules network.now dv words) }
{
    accept_refusal(network, dv)?;
    broken_if(Refusal::WorkTooSmall, words < WORDS * node_count(network))
}

// Puts the index of the edges, the transit nodes and how many access nodes each node has into the working words.
fn prepare(ground: &Ground, work: &mut [u32])
    requires { Enough ground.now.n work.old × (1 ≤ ground.now.n) }
    ensures members { members_in ground.now.n transit work.new ≡ transit_in ground.now.nodes.now ground.now.edges.now ground.now.grid }
    ensures counted { Counts ground.now.nodes.now ground.now.edges.now ground.now.grid ground.now.n work.new }
    ensures roads { IndexedEdges ground.now.edges.now ground.now.n work.new }
    ensures behind { KeptFrom (work_words ground.now.n) work.old work.new }
{
    build_index(ground.edges, ground.n, work);
    mark_transit(ground, work);
}

// Building over the bodies. The size is known before any output is written.
fn build_in(
    network: &[u8],
    ground: &Ground,
    dv: Division,
    work: &mut [u32],
    out: &mut [u8],
) -> Built
    requires { Laid network.now dv ground.now.nodes.now ground.now.edges.now ground.now.grid ground.now.n × Enough ground.now.n work.old }
    ensures given { BuildGiven network.now dv out.old result out.new }
    ensures rest { KeptFrom (work_words ground.now.n) work.old work.new }
{
    prepare(ground, work);
    let t = count(work, ground.n, TRANSIT);
    let a = access_size(ground.n, work);
    let size = whole_size(network.len(), t, a);
    if out.len() < size {
        return Built {
            rule: 15,
            size: 0,
            transit: 0,
        };
    }
    write_oracle(network, ground, dv, t, a, work, out);
    Built {
        rule: 0,
        size: size as u32,
        transit: t as u32,
    }
}

// Building where no rule before 15 is broken.
fn build_of(network: &[u8], dv: Division, work: &mut [u32], out: &mut [u8]) -> Built
    requires { Passed network.now dv × (words_needed network.now ≤ length work.old) }
    ensures given { BuildGiven network.now dv out.old result out.new }
    ensures rest { KeptFrom (words_needed network.now) work.old work.new }
{
    let c = network_contents(network);
    let nodes = c.body(network, NODES);
    let edges = c.body(network, EDGES);
    let grid = Grid::over(nodes, dv);
    let n = node_count(network);
    let ground = Ground {
        nodes,
        edges,
        grid,
        n,
    };
    build_in(network, &ground, dv, work, out)
}

// The oracle of the network under the division, written at the front of the output. The first 8 N words are zero afterwards.
pub fn build(network: &[u8], dv: Division, work: &mut [u32], out: &mut [u8]) -> Built
    ensures { Build network.now dv work.old out.old result work.new out.new }
{
    if let Err(broken) = build_refusal(network, dv, work.len()) {
        return Built {
            rule: broken.number(),
            size: 0,
            transit: 0,
        };
    }
    let built = build_of(network, dv, work, out);
    zero_front(work, WORDS * node_count(network));
    built
}
