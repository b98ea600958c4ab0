// The rules of the block.
ghost use Rattle.std.specs.Prelude.{◌≡◌, true};
ghost use Rattle.model.specs.Rules.{first_broken, well_shaped};
ghost use Rattle.rules.specs.Refusals.{refused};
ghost use Rattle.block.specs.Block.{names_broken, sides_rules, block_rules};

use checks::names::named_lists_refusal;
use checks::room::work_too_small;
use reader::files::shape_refusal;
use rules::refusal::{Refusal, broken_if};

// The number of rows and of columns of a block.
pub const NAMES: usize = 12;

// Rule 17, for one side: no name, or more than twelve.
pub fn names_broken(names: &[u32]) -> bool
    ensures { result ≡ names_broken names.now }
{
    names.len() == 0 || NAMES < names.len()
}

// Rules 12 and 17, of an oracle that keeps 1 to 11.
#[tactic(auto, using(checks::proofs::NameLists::named), unfolding(crate::specs::Block::sides_rules))]
pub fn sides_refusal(o: &[u8], starts: &[u32], ends: &[u32]) -> Result<(), Refusal>
    requires { well_shaped o.now ≡ true }
    ensures { refused result ≡ first_broken (sides_rules o.now starts.now ends.now) }
{
    named_lists_refusal(o, starts, ends)?;
    broken_if(Refusal::ListSize, names_broken(starts))?;
    broken_if(Refusal::ListSize, names_broken(ends))
}

// Rules 1 to 12, and 17.
#[tactic(auto, using(checks::proofs::NameLists::named), unfolding(crate::specs::Block::sides_rules, checks::specs::RuleLists::named_rules))]
fn listed_refusal(o: &[u8], starts: &[u32], ends: &[u32]) -> Result<(), Refusal>
    ensures { refused result ≡ first_broken (sides_rules o.now starts.now ends.now) }
{
    shape_refusal(o)?;
    sides_refusal(o, starts, ends)
}

// Rules 1 to 12, 17 and 14.
#[tactic(auto, using(checks::proofs::RulesKept::checked, crate::proofs::Kept::sides_counted), unfolding(crate::specs::Block::block_rules))]
pub fn block_refusal(o: &[u8], starts: &[u32], ends: &[u32], words: usize) -> Result<(), Refusal>
    ensures { refused result ≡ first_broken (block_rules o.now starts.now ends.now words) }
{
    listed_refusal(o, starts, ends)?;
    broken_if(Refusal::WorkTooSmall, work_too_small(o, words))
}
