// The rules that each question checks, in checking order: the first that is broken, as an `Err`.
ghost use Rattle.std.specs.Prelude.{◌≡◌, true};
ghost use Rattle.model.specs.Rules.{first_broken, pair_rules, time_rules, far_rules, list_rules, well_shaped};
ghost use Rattle.rules.specs.Refusals.{refused};
ghost use Rattle.checks.specs.RuleLists.{room_rules};

use crate::kinds::{is_local, kind_between};
use crate::room::work_too_small;
use reader::files::shape_refusal;
use reader::oracle::node_count;
use rules::refusal::{Refusal, broken_if};

// Rules 1 to 12, for one node.
#[tactic(auto, using(crate::proofs::RulesKept::checked), unfolding(model::specs::Rules::list_rules, model::specs::Rules::no_such_node))]
pub fn list_refusal(o: &[u8], u: u32) -> Result<(), Refusal>
    ensures { refused result ≡ first_broken (list_rules o.now u) }
{
    shape_refusal(o)?;
    broken_if(Refusal::NoSuchNode, node_count(o) <= u as usize)
}

// Rule 12 for two nodes, of an oracle that keeps 1 to 11.
#[tactic(auto, using(crate::proofs::RulesKept::checked), unfolding(model::specs::Rules::pair_rules, model::specs::Rules::no_such_node))]
pub fn named_pair_refusal(o: &[u8], s: u32, t: u32) -> Result<(), Refusal>
    requires { well_shaped o.now ≡ true }
    ensures { refused result ≡ first_broken (pair_rules o.now s t) }
{
    let n = node_count(o);
    broken_if(Refusal::NoSuchNode, n <= s as usize)?;
    broken_if(Refusal::NoSuchNode, n <= t as usize)
}

// Rules 1 to 12, for two nodes.
#[tactic(auto, using(crate::proofs::RulesKept::checked), unfolding(model::specs::Rules::pair_rules))]
pub fn pair_refusal(o: &[u8], s: u32, t: u32) -> Result<(), Refusal>
    ensures { refused result ≡ first_broken (pair_rules o.now s t) }
{
    shape_refusal(o)?;
    named_pair_refusal(o, s, t)
}

// Rules 1 to 11, and 14.
#[tactic(auto, using(crate::proofs::RulesKept::checked), unfolding(crate::specs::RuleLists::room_rules))]
pub fn room_refusal(o: &[u8], words: usize) -> Result<(), Refusal>
    ensures { refused result ≡ first_broken (room_rules o.now words) }
{
    shape_refusal(o)?;
    broken_if(Refusal::WorkTooSmall, work_too_small(o, words))
}

// Rules 1 to 12, and 14.
#[tactic(auto, using(crate::proofs::RulesKept::checked), unfolding(model::specs::Rules::time_rules))]
pub fn time_refusal(o: &[u8], s: u32, t: u32, words: usize) -> Result<(), Refusal>
    ensures { refused result ≡ first_broken (time_rules o.now s t words) }
{
    pair_refusal(o, s, t)?;
    broken_if(Refusal::WorkTooSmall, work_too_small(o, words))
}

// Rules 1 to 13.
#[tactic(auto, using(crate::proofs::RulesKept::checked), unfolding(model::specs::Rules::far_rules, model::specs::Rules::local_pair))]
pub fn far_refusal(o: &[u8], s: u32, t: u32) -> Result<(), Refusal>
    ensures { refused result ≡ first_broken (far_rules o.now s t) }
{
    pair_refusal(o, s, t)?;
    broken_if(
        Refusal::LocalPair,
        is_local(kind_between(o, s as usize, t as usize)),
    )
}
