// Rules 18 to 20, in checking order.
ghost use Rattle.std.specs.Prelude.{◌≡◌};
ghost use Rattle.model.specs.Rules.{first_broken};
ghost use Rattle.rules.specs.Refusals.{refused};
ghost use Rattle.sheet.specs.BodyRules.{body_sheet_rules};
ghost use Rattle.sheet.specs.Slow.{Quick};

use crate::form::{line_body, sheet_broken};
use crate::names::names_broken;
use crate::slow::slow_broken;
use codec::records::EDGE_SIZE;
use rules::refusal::Refusal;

// For edges that keep rule 6.
pub fn sheet_refusal(edges: &[u8], sheet: &[u8]) -> Result<(), Refusal>
    requires { Quick edges.now }
    ensures { refused result ≡ first_broken (body_sheet_rules edges.now sheet.now) }
{
    if sheet_broken(sheet) {
        return Err(Refusal::Sheet);
    }
    let lines = line_body(sheet);
    if names_broken(edges.len() / EDGE_SIZE, lines) {
        return Err(Refusal::NoSuchEdge);
    }
    if slow_broken(edges, lines) {
        return Err(Refusal::TooSlow);
    }
    Ok(())
}
