// The questions over an oracle.
ghost use Rattle.std.specs.Prelude.{◌≡◌};
ghost use Rattle.model.specs.Calls.{work_after, time_refusal, time_result, far_result, list_refusal, WayCall};
ghost use Rattle.block.specs.Block.{BlockCall};
ghost use Rattle.wages.specs.Wages.{WagesCall};
ghost use Rattle.capi.specs.Replies.{reply, list_reply};

use block::Block;
use capi::oracles;
use capi::oracles::{Part, Reply};
use model::{Output, Route};

#[unsafe(no_mangle)]
pub extern "C" fn jukesogbi_time(o: &[u8], s: u32, t: u32, work: &mut [u32]) -> Reply
    ensures result { result ≡ reply (time_result o.now s t work.old) }
    ensures words { work.new ≡ work_after (time_refusal o.now s t work.old) o.now work.old }
{
    oracles::jukesogbi_time(o, s, t, work)
}

#[unsafe(no_mangle)]
pub extern "C" fn jukesogbi_far(o: &[u8], s: u32, t: u32) -> Reply
    ensures { result ≡ reply (far_result o.now s t) }
{
    oracles::jukesogbi_far(o, s, t)
}

#[unsafe(no_mangle)]
pub extern "C" fn jukesogbi_list_rule(o: &[u8], u: u32) -> u32
    ensures { result ≡ list_refusal o.now u }
{
    oracles::jukesogbi_list_rule(o, u)
}

// The access list of u as a part of the oracle, its count included; empty, at 0, where it is refused.
#[unsafe(no_mangle)]
pub extern "C" fn jukesogbi_list(o: &[u8], u: u32) -> Part
    ensures { result ≡ list_reply (list_refusal o.now u) o.now u }
{
    oracles::jukesogbi_list(o, u)
}

#[unsafe(no_mangle)]
pub extern "C" fn jukesogbi_way(o: &[u8], s: u32, t: u32, work: &mut [u32], out: &mut [u8]) -> Route
    ensures { WayCall o.now s t work.old out.old result work.new out.new }
{
    oracles::jukesogbi_way(o, s, t, work, out)
}

#[unsafe(no_mangle)]
pub extern "C" fn jukesogbi_block(o: &[u8], starts: &[u32], ends: &[u32], work: &mut [u32]) -> Block
    ensures { BlockCall o.now starts.now ends.now work.old result work.new }
{
    oracles::jukesogbi_block(o, starts, ends, work)
}

#[unsafe(no_mangle)]
pub extern "C" fn jukesogbi_wages(o: &[u8], legs: &[u8], work: &mut [u32], out: &mut [u8]) -> Output
    ensures { WagesCall o.now legs.now work.old out.old result work.new out.new }
{
    oracles::jukesogbi_wages(o, legs, work, out)
}
