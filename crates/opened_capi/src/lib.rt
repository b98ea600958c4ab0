// The questions over an opened oracle, for the host's `Oracle` alone: one check, many answers. They are no entry points and stand in no header. Each
// requires `Opened`: the oracle and the first 8 N words are as `jukesogbi_open` or the last question left them. Nothing checks that across the interface. It is
// the duty of host/src/oracle.rs, which keeps bytes and words to itself. For C there are the calls of `capi`, which require nothing. `opened_capi_c` exports
// each under its name.
#![tactic(auto)]

ghost use Rattle.std.specs.Prelude.{◌≡◌, drop};
ghost use Rattle.model.specs.Bytes.{bytes16};
ghost use Rattle.model.specs.Lists.{concat_map};
ghost use Rattle.model.specs.Network.{network};
ghost use Rattle.model.specs.Query.{way};
ghost use Rattle.model.specs.Rules.{words_needed};
ghost use Rattle.model.specs.Calls.{time_result, far_result, way_refusal, route_after, output_after, size_after};
ghost use Rattle.sheet.specs.Sheet.{effects};
ghost use Rattle.sheet.specs.Under.{way_under};
ghost use Rattle.sheet.specs.SheetCalls.{time_under_result, way_under_refusal};
ghost use Rattle.opened.specs.Opened.{Opened, OpenCall, Stays};
ghost use Rattle.block.specs.Block.{block_refusal, block_after};
ghost use Rattle.wages.specs.Wages.{wages_bytes, wages_refusal};
ghost use Rattle.capi.specs.Replies.{reply};

use block::{Block, questions as blocks};
use capi::oracles::Reply;
use model::{Output, Route};
use query::questions;
use under::questions as sheets;
use wages::questions::wages;

// Checks an oracle and opens it: 0, or the number of the broken rule, where nothing is written.
pub fn jukesogbi_open(o: &[u8], work: &mut [u32]) -> u32
    ensures { OpenCall o.now work.old result work.new }
{
    questions::open(o, work)
}

pub fn jukesogbi_opened_time(o: &[u8], s: u32, t: u32, work: &mut [u32]) -> Reply
    requires { Opened o.now work.old }
    ensures result { result ≡ reply (time_result o.now s t work.old) }
    ensures opened { Opened o.now work.new }
    ensures rest { drop (words_needed o.now) work.new ≡ drop (words_needed o.now) work.old }
{
    Reply::from(questions::time(o, s, t, work))
}

pub fn jukesogbi_opened_far(o: &[u8], s: u32, t: u32, work: &[u32]) -> Reply
    requires { Opened o.now work.now }
    ensures { result ≡ reply (far_result o.now s t) }
{
    Reply::from(questions::far(o, s, t, work))
}

pub fn jukesogbi_opened_way(o: &[u8], s: u32, t: u32, work: &mut [u32], out: &mut [u8]) -> Route
    requires { Opened o.now work.old }
    ensures result { result ≡ route_after (way_refusal o.now s t work.old out.old) (way (network o.now) s t) }
    ensures bytes { out.new ≡ output_after (way_refusal o.now s t work.old out.old)
        (concat_map bytes16 (way (network o.now) s t)) out.old }
    ensures opened { Opened o.now work.new }
    ensures rest { drop (words_needed o.now) work.new ≡ drop (words_needed o.now) work.old }
{
    questions::way(o, s, t, work, out)
}

pub fn jukesogbi_opened_block(o: &[u8], starts: &[u32], ends: &[u32], work: &mut [u32]) -> Block
    requires { Opened o.now work.old }
    ensures result { result ≡ block_after (block_refusal o.now starts.now ends.now work.old)
        o.now starts.now ends.now }
    ensures opened { Opened o.now work.new }
    ensures rest { drop (words_needed o.now) work.new ≡ drop (words_needed o.now) work.old }
{
    blocks::block(o, starts, ends, work)
}

pub fn jukesogbi_opened_wages(o: &[u8], legs: &[u8], work: &mut [u32], out: &mut [u8]) -> Output
    requires { Opened o.now work.old }
    ensures result { result ≡ size_after (wages_refusal o.now legs.now work.old out.old)
        (wages_bytes o.now legs.now) }
    ensures bytes { out.new ≡ output_after (wages_refusal o.now legs.now work.old out.old)
        (wages_bytes o.now legs.now) out.old }
    ensures stays { Stays o.now work.old work.new }
{
    wages(o, legs, work, out)
}

pub fn jukesogbi_opened_time_under(
    o: &[u8],
    sheet: &[u8],
    s: u32,
    t: u32,
    work: &mut [u32],
) -> Reply
    requires { Opened o.now work.old }
    ensures result { result ≡ reply (time_under_result o.now sheet.now s t work.old) }
    ensures stays { Stays o.now work.old work.new }
{
    Reply::from(sheets::time_under(o, sheet, s, t, work))
}

pub fn jukesogbi_opened_way_under(
    o: &[u8],
    sheet: &[u8],
    s: u32,
    t: u32,
    work: &mut [u32],
    out: &mut [u8],
) -> Route
    requires { Opened o.now work.old }
    ensures result { result ≡ route_after (way_under_refusal o.now sheet.now s t work.old out.old)
        (way_under (effects sheet.now) o.now s t) }
    ensures bytes { out.new ≡ output_after (way_under_refusal o.now sheet.now s t work.old out.old)
        (concat_map bytes16 (way_under (effects sheet.now) o.now s t)) out.old }
    ensures stays { Stays o.now work.old work.new }
{
    sheets::way_under(o, sheet, s, t, work, out)
}
