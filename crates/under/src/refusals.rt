// The rules that the calls under a sheet check, in checking order: the first that is broken, as an `Err`.
ghost use Rattle.std.specs.Prelude.{◌≡◌, true};
ghost use Rattle.model.specs.Rules.{first_broken, well_shaped};
ghost use Rattle.rules.specs.Refusals.{refused};
ghost use Rattle.sheet.specs.SheetCalls.{sheet_rules, pair_under_rules, time_under_rules};

use checks::refusals::{named_pair_refusal, pair_refusal};
use checks::room::work_too_small;
use reader::oracle::{EDGES, oracle_body};
use rules::refusal::{Refusal, broken_if};
use sheet::refusal::sheet_refusal;

// Rules 18 to 20, over an oracle that keeps 1 to 11.
fn sheet_rule(o: &[u8], sheet: &[u8]) -> Result<(), Refusal>
    requires { well_shaped o.now ≡ true }
    ensures { refused result ≡ first_broken (sheet_rules o.now sheet.now) }
{
    sheet_refusal(oracle_body(o, EDGES), sheet)
}

// Rules 12 and 18 to 20, over an oracle that keeps 1 to 11.
#[tactic(auto, using(checks::proofs::RulesKept::checked), unfolding(sheet::specs::SheetCalls::pair_under_rules))]
pub fn named_under_refusal(o: &[u8], sheet: &[u8], s: u32, t: u32) -> Result<(), Refusal>
    requires { well_shaped o.now ≡ true }
    ensures { refused result ≡ first_broken (pair_under_rules o.now sheet.now s t) }
{
    named_pair_refusal(o, s, t)?;
    sheet_rule(o, sheet)
}

// Rules 1 to 12 and 18 to 20.
#[tactic(auto, using(checks::proofs::RulesKept::checked), unfolding(sheet::specs::SheetCalls::pair_under_rules))]
fn pair_under_refusal(o: &[u8], sheet: &[u8], s: u32, t: u32) -> Result<(), Refusal>
    ensures { refused result ≡ first_broken (pair_under_rules o.now sheet.now s t) }
{
    pair_refusal(o, s, t)?;
    sheet_rule(o, sheet)
}

// Rules 1 to 12, 18 to 20, and 14.
#[tactic(auto, using(checks::proofs::RulesKept::checked, crate::proofs::Kept::under_counted), unfolding(sheet::specs::SheetCalls::time_under_rules))]
pub fn time_under_refusal(
    o: &[u8],
    sheet: &[u8],
    s: u32,
    t: u32,
    words: usize,
) -> Result<(), Refusal>
    ensures { refused result ≡ first_broken (time_under_rules o.now sheet.now s t words) }
{
    pair_under_refusal(o, sheet, s, t)?;
    broken_if(Refusal::WorkTooSmall, work_too_small(o, words))
}
