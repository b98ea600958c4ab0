// The questions under a day sheet.
ghost use Rattle.std.specs.Prelude.{◌≡◌};
ghost use Rattle.model.specs.Calls.{work_after};
ghost use Rattle.sheet.specs.SheetCalls.{time_under_refusal, time_under_result, WayUnderCall};
ghost use Rattle.capi.specs.Replies.{reply};

use crate::oracles::Reply;
use model::Route;
use under::calls;

pub fn jukesogbi_time_under(o: &[u8], sheet: &[u8], s: u32, t: u32, work: &mut [u32]) -> Reply
    ensures result { result ≡ reply (time_under_result o.now sheet.now s t work.old) }
    ensures words { work.new ≡ work_after (time_under_refusal o.now sheet.now s t work.old) o.now
        work.old }
{
    Reply::from(calls::time_under(o, sheet, s, t, work))
}

pub fn jukesogbi_way_under(
    o: &[u8],
    sheet: &[u8],
    s: u32,
    t: u32,
    work: &mut [u32],
    out: &mut [u8],
) -> Route
    ensures { WayUnderCall o.now sheet.now s t work.old out.old result work.new
        out.new }
{
    calls::way_under(o, sheet, s, t, work, out)
}
