// The same over an opened oracle: many answers after one check. What each hands back is what the call of its name does.
ghost use Rattle.std.specs.Prelude.{◌≡◌};
ghost use Rattle.model.specs.Lists.{concat_map};
ghost use Rattle.model.specs.Bytes.{bytes16};
ghost use Rattle.model.specs.Calls.{route_after, output_after};
ghost use Rattle.sheet.specs.Sheet.{effects};
ghost use Rattle.sheet.specs.Under.{way_under};
ghost use Rattle.sheet.specs.SheetCalls.{time_under_result, way_under_refusal};
ghost use Rattle.opened.specs.Opened.{Opened, Stays};

use crate::answers::time_under_of;
use crate::refusals::named_under_refusal;
use crate::ways::way_under_of;
use model::{Answer, Route};
use sheet::form::line_body;

pub fn time_under(o: &[u8], sheet: &[u8], s: u32, t: u32, work: &mut [u32]) -> Answer
    requires { Opened o.now work.old }
    ensures result { result ≡ time_under_result o.now sheet.now s t work.old }
    ensures stays { Stays o.now work.old work.new }
{
    if let Err(broken) = named_under_refusal(o, sheet, s, t) {
        return Answer::Refused {
            rule: broken.number(),
        };
    }
    time_under_of(o, line_body(sheet), s as usize, t as usize, work)
}

pub fn way_under(o: &[u8], sheet: &[u8], s: u32, t: u32, work: &mut [u32], out: &mut [u8]) -> Route
    requires { Opened o.now work.old }
    ensures result { result ≡ route_after (way_under_refusal o.now sheet.now s t work.old out.old)
        (way_under (effects sheet.now) o.now s t) }
    ensures bytes { out.new ≡ output_after (way_under_refusal o.now sheet.now s t work.old out.old)
        (concat_map bytes16 (way_under (effects sheet.now) o.now s t)) out.old }
    ensures stays { Stays o.now work.old work.new }
{
    if let Err(broken) = named_under_refusal(o, sheet, s, t) {
        return Route {
            rule: broken.number(),
            nodes: 0,
        };
    }
    way_under_of(o, line_body(sheet), s as usize, t as usize, work, out)
}
