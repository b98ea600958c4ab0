// The rules of the bodies.
ghost use Rattle.std.specs.Prelude.{◌≡◌, ◌≤◌};
ghost use Rattle.model.specs.Rules.{first_broken};
ghost use Rattle.model.specs.Network.{max_nodes};
ghost use Rattle.rules.specs.Refusals.{refused};
ghost use Rattle.reader.specs.Bodies.{network_body_rules, oracle_body_rules};

use codec::records::{EDGE_SIZE, NODE_SIZE, NUMBER_SIZE};
use rules::access::access_broken;
use rules::edges::{edges_broken, some_edge_broken};
use rules::grid::grid_body_broken;
use rules::nodes::{coordinates_broken, nodes_broken};
use rules::numbers::numbers_broken;
use rules::refusal::{Refusal, broken_if};
use rules::table::table_broken;

// Rules 3 to 7.
#[tactic(auto, using(crate::proofs::Order::in_order), unfolding(model::specs::Network::node_count, model::specs::Network::edge_count))]
pub fn network_bodies<'a>(nodes: &'a [u8], edges: &'a [u8], closed: &'a [u8]) -> Result<(), Refusal>
    ensures { refused result ≡ first_broken (network_body_rules nodes.now edges.now closed.now) }
{
    broken_if(Refusal::Nodes, nodes_broken(nodes))?;
    broken_if(Refusal::Coordinates, coordinates_broken(nodes))?;
    broken_if(Refusal::Edges, edges_broken(edges))?;
    broken_if(
        Refusal::SomeEdge,
        some_edge_broken(nodes.len() / NODE_SIZE, edges),
    )?;
    broken_if(
        Refusal::Closed,
        numbers_broken(edges.len() / EDGE_SIZE, closed),
    )
}

// Rules 8 to 11, of an oracle with n nodes.
#[tactic(auto, using(crate::proofs::Order::in_order), unfolding(model::specs::Oracle::transit_count))]
pub fn oracle_bodies<'a>(
    n: usize,
    grid: &'a [u8],
    transit: &'a [u8],
    access: &'a [u8],
    table: &'a [u8],
) -> Result<(), Refusal>
    requires { n ≤ max_nodes }
    ensures { refused result ≡ first_broken (oracle_body_rules n grid.now transit.now access.now table.now) }
{
    broken_if(Refusal::Grid, grid_body_broken(grid))?;
    broken_if(Refusal::Transit, numbers_broken(n, transit))?;
    let t = transit.len() / NUMBER_SIZE;
    broken_if(Refusal::Access, access_broken(n, t, access))?;
    broken_if(Refusal::Table, table_broken(t, table))
}
