// The legs and their rules.
ghost use Rattle.std.specs.Prelude.{◌≡◌, true, ◌||◌, ◌<◌, leb};
ghost use Rattle.model.specs.Lists.{any};
ghost use Rattle.model.specs.Rules.{first_broken, well_shaped};
ghost use Rattle.rules.specs.Refusals.{refused};
ghost use Rattle.wages.specs.Wages.{leg, leg_count, leg_nodes, legs_broken, legs_rules, open_rules};

use checks::room::work_too_small;
use codec::bytes::read16;
use codec::records::NUMBER_SIZE;
use reader::files::shape_refusal;
use reader::oracle::node_count;
use rules::refusal::{Refusal, broken_if};

// A leg has two node numbers.
pub const LEG_SIZE: usize = 4;

pub const MAX_LEGS: usize = 1000;

// The number of whole legs.
pub fn leg_count(legs: &[u8]) -> usize
    ensures { result ≡ leg_count legs.now }
{
    legs.len() / LEG_SIZE
}

// The nodes of a leg.
#[derive(Clone, Copy)]
pub struct Leg {
    pub start: usize,
    pub end: usize,
}

impl Leg {
    // Leg i.
    #[tactic(auto, unfolding(crate::specs::Wages::leg, crate::specs::Wages::leg_count))]
    pub fn read(legs: &[u8], i: usize) -> Leg
        requires { i < leg_count legs.now }
        ensures { (result.start ≡ (leg legs.now i).start) × (result.end ≡ (leg legs.now i).end) }
    {
        let at = LEG_SIZE * i;
        Leg {
            start: read16(legs, at) as usize,
            end: read16(legs, at + NUMBER_SIZE) as usize,
        }
    }
}

// Whether a node of leg i is not below n.
fn leg_missing(n: usize, legs: &[u8], i: usize) -> bool
    requires { i < leg_count legs.now }
    ensures { result ≡ leb n (leg legs.now i).start || leb n (leg legs.now i).end }
{
    let leg = Leg::read(legs, i);
    n <= leg.start || n <= leg.end
}

// Whether a node of some whole leg is.
fn some_leg_missing(n: usize, legs: &[u8]) -> bool
    ensures { result ≡ any (leb n) (leg_nodes legs.now) }
{
    (0..leg_count(legs)).any(|i| leg_missing(n, legs, i))
}

// Rule 17: over 1,000 legs, or a part of one.
fn legs_broken(legs: &[u8]) -> bool
    ensures { result ≡ legs_broken legs.now }
{
    MAX_LEGS < leg_count(legs) || legs.len() % LEG_SIZE != 0
}

// Rules 12 and 17, of an oracle that keeps 1 to 11.
#[tactic(auto, using(checks::proofs::NameLists::named), unfolding(crate::specs::Wages::legs_rules, checks::specs::RuleLists::named_rules))]
pub fn named_legs_refusal(o: &[u8], legs: &[u8]) -> Result<(), Refusal>
    requires { well_shaped o.now ≡ true }
    ensures { refused result ≡ first_broken (legs_rules o.now legs.now) }
{
    broken_if(Refusal::NoSuchNode, some_leg_missing(node_count(o), legs))?;
    broken_if(Refusal::ListSize, legs_broken(legs))
}

// Rules 1 to 12, and 17.
#[tactic(auto, using(checks::proofs::NameLists::named), unfolding(crate::specs::Wages::legs_rules, checks::specs::RuleLists::named_rules))]
fn legs_refusal(o: &[u8], legs: &[u8]) -> Result<(), Refusal>
    ensures { refused result ≡ first_broken (legs_rules o.now legs.now) }
{
    shape_refusal(o)?;
    named_legs_refusal(o, legs)
}

// Rules 1 to 12, 17 and 14.
#[tactic(auto, using(checks::proofs::RulesKept::checked, crate::specs::Kept::legs_counted), unfolding(crate::specs::Wages::open_rules))]
pub fn open_refusal(o: &[u8], legs: &[u8], words: usize) -> Result<(), Refusal>
    ensures { refused result ≡ first_broken (open_rules o.now legs.now words) }
{
    legs_refusal(o, legs)?;
    broken_if(Refusal::WorkTooSmall, work_too_small(o, words))
}
