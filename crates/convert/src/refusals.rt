// The rules of the two calls before 15: the first that is broken, as an `Err`. Neither checks 21.
ghost use Rattle.std.specs.Prelude.{◌≡◌};
ghost use Rattle.model.specs.Contents.{network_edition, network_entries};
ghost use Rattle.model.specs.Rules.{first_broken, network_rules};
ghost use Rattle.rules.specs.Refusals.{refused};
ghost use Rattle.convert.specs.Parts.{lines_rules};

use codec::records::EDGE_SIZE;
use contents::{NETWORK_EDITION, NETWORK_ENTRIES, body_of};
use reader::files::network_refusal;
use reader::oracle::EDGES;
use rules::refusal::{Refusal, broken_if};
use sheet::form::{line_body, sheet_broken};
use sheet::names::names_broken;

// Rules 1 to 7.
pub fn old_refusal(f: &[u8]) -> Result<(), Refusal>
    ensures { refused result ≡ first_broken (network_rules network_edition network_entries f.now) }
{
    network_refusal(NETWORK_EDITION, NETWORK_ENTRIES, f)
}

// Rules 1 to 7, 18 and 19.
#[tactic(auto, using(reader::proofs::Order::in_order, theory::specs::Passed::network_counted), unfolding(model::specs::Network::edge_count, sheet::specs::Sheet::names_broken, crate::specs::Parts::lines_rules))]
pub fn lines_refusal(f: &[u8], sheet: &[u8]) -> Result<(), Refusal>
    ensures { refused result ≡ first_broken (lines_rules f.now sheet.now) }
{
    old_refusal(f)?;
    broken_if(Refusal::Sheet, sheet_broken(sheet))?;
    let m = body_of(NETWORK_ENTRIES, f, EDGES).len() / EDGE_SIZE;
    broken_if(Refusal::NoSuchEdge, names_broken(m, line_body(sheet)))
}
