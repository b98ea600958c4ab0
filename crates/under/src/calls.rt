// The calls under a sheet: time and way. Neither asks anything of its arguments.
ghost use Rattle.sheet.specs.SheetCalls.{TimeUnderCall, WayUnderCall};

use crate::answers::time_under_of;
use crate::refusals::time_under_refusal;
use crate::ways::way_under_of;
use checks::room::zero_words;
use model::{Answer, Route};
use opened::opening::open_words;
use sheet::form::line_body;

// The time between two nodes under a sheet. The first 8 N words are zero afterwards.
pub fn time_under(o: &[u8], sheet: &[u8], s: u32, t: u32, work: &mut [u32]) -> Answer
    ensures { TimeUnderCall o.now sheet.now s t work.old result work.new }
{
    if let Err(broken) = time_under_refusal(o, sheet, s, t, work.len()) {
        return Answer::Refused {
            rule: broken.number(),
        };
    }
    open_words(o, work);
    let answer = time_under_of(o, line_body(sheet), s as usize, t as usize, work);
    zero_words(o, work);
    answer
}

// The way from s to t under a sheet, written at the front of the output.
pub fn way_under(o: &[u8], sheet: &[u8], s: u32, t: u32, work: &mut [u32], out: &mut [u8]) -> Route
    ensures { WayUnderCall o.now sheet.now s t work.old out.old result work.new
        out.new }
{
    if let Err(broken) = time_under_refusal(o, sheet, s, t, work.len()) {
        return Route {
            rule: broken.number(),
            nodes: 0,
        };
    }
    open_words(o, work);
    let route = way_under_of(o, line_body(sheet), s as usize, t as usize, work, out);
    zero_words(o, work);
    route
}
