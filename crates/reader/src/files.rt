// The rules of whole files.
ghost use Rattle.std.specs.Prelude.{◌≡◌, ◌≤◌};
ghost use Rattle.model.specs.Contents.{network_entries, oracle_edition, oracle_entries};
ghost use Rattle.rules.specs.Refusals.{refused};
ghost use Rattle.model.specs.Rules.{first_broken, network_rules, plain_rules, accept_rules, shape_rules};

use crate::bodies::{network_bodies, oracle_bodies};
use crate::oracle::{ACCESS, CLOSED, EDGES, GRID, NODES, TABLE, TRANSIT};
use codec::records::NODE_SIZE;
use contents::{
    NETWORK_EDITION, NETWORK_ENTRIES, ORACLE_EDITION, ORACLE_ENTRIES, body_of, contents_broken,
    read,
};
use model::Division;
use rules::grid::grid_broken;
use rules::refusal::{Refusal, broken_if};

// Rules 1 to 7, of a network or an oracle.
#[tactic(auto, using(crate::proofs::Order::in_order), unfolding(model::specs::Rules::network_rules))]
pub fn network_refusal(edition: u32, entries: usize, f: &[u8]) -> Result<(), Refusal>
    requires { (network_entries ≤ entries) × (entries ≤ oracle_entries) }
    ensures { refused result ≡ first_broken (network_rules edition entries f.now) }
{
    broken_if(Refusal::Contents, contents_broken(edition, entries, f))?;
    let c = read(entries, f);
    broken_if(Refusal::Bodies, c.bodies_broken(entries, f))?;
    network_bodies(c.body(f, NODES), c.body(f, EDGES), c.body(f, CLOSED))
}

// The same with 21, which every call but the converter checks.
#[tactic(auto, using(crate::proofs::Order::in_order, theory::specs::Passed::network_counted), unfolding(model::specs::Network::closed_listed))]
fn plain_refusal(edition: u32, entries: usize, f: &[u8]) -> Result<(), Refusal>
    requires { (network_entries ≤ entries) × (entries ≤ oracle_entries) }
    ensures { refused result ≡ first_broken (plain_rules edition entries f.now) }
{
    network_refusal(edition, entries, f)?;
    broken_if(
        Refusal::ClosedListed,
        body_of(entries, f, CLOSED).len() != 0,
    )
}

// The rules that building checks before 14.
#[tactic(auto, using(crate::proofs::Order::in_order, theory::specs::Passed::plain_counted), unfolding(model::specs::Rules::accept_rules))]
pub fn accept_refusal(f: &[u8], dv: Division) -> Result<(), Refusal>
    ensures { refused result ≡ first_broken (accept_rules f.now dv) }
{
    plain_refusal(NETWORK_EDITION, NETWORK_ENTRIES, f)?;
    broken_if(Refusal::Grid, grid_broken(dv.g))
}

// Rules 8 to 11 of an oracle that keeps 1 to 7 and 21.
fn oracle_refusal(o: &[u8]) -> Result<(), Refusal>
    requires { first_broken (plain_rules oracle_edition oracle_entries o.now) ≡ 0 }
    ensures { refused result ≡ first_broken (shape_rules o.now) }
{
    let c = read(ORACLE_ENTRIES, o);
    let n = c.body(o, NODES).len() / NODE_SIZE;
    oracle_bodies(
        n,
        c.body(o, GRID),
        c.body(o, TRANSIT),
        c.body(o, ACCESS),
        c.body(o, TABLE),
    )
}

// The rules of an oracle that every call over it checks first.
#[tactic(auto, using(crate::proofs::Order::in_order), unfolding(model::specs::Rules::shape_rules))]
pub fn shape_refusal(o: &[u8]) -> Result<(), Refusal>
    ensures { refused result ≡ first_broken (shape_rules o.now) }
{
    plain_refusal(ORACLE_EDITION, ORACLE_ENTRIES, o)?;
    oracle_refusal(o)
}
