// Rule 12 of a call that names nodes in lists.
ghost use Rattle.std.specs.Prelude.{◌≡◌, true, ◌++◌, leb};
ghost use Rattle.model.specs.Lists.{any};
ghost use Rattle.model.specs.Rules.{first_broken, well_shaped};
ghost use Rattle.rules.specs.Refusals.{refused};
ghost use Rattle.checks.specs.RuleLists.{named_rules};

use reader::oracle::node_count;
use rules::refusal::{Refusal, broken_if};

// Whether some name is not below n.
pub fn some_missing(n: usize, names: &[u32]) -> bool
    ensures { result ≡ any (leb n) names.now }
{
    names.iter().any(|&name| n <= name as usize)
}

// Rule 12 for the nodes of two lists, of an oracle that keeps 1 to 11.
#[tactic(auto, using(crate::proofs::NameLists::named), unfolding(crate::specs::RuleLists::named_rules))]
pub fn named_lists_refusal(o: &[u8], starts: &[u32], ends: &[u32]) -> Result<(), Refusal>
    requires { well_shaped o.now ≡ true }
    ensures { refused result ≡ first_broken (named_rules o.now (starts.now ++ ends.now)) }
{
    let n = node_count(o);
    broken_if(Refusal::NoSuchNode, some_missing(n, starts))?;
    broken_if(Refusal::NoSuchNode, some_missing(n, ends))
}
