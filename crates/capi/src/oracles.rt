// The questions over an oracle.
ghost use Rattle.std.specs.Prelude.{◌≡◌, true, ◌<◌};
ghost use Rattle.model.specs.Contents.{node_body};
ghost use Rattle.model.specs.Network.{node_count};
ghost use Rattle.model.specs.Rules.{well_shaped};
ghost use Rattle.model.specs.Calls.{work_after, time_refusal, time_result, far_result, list_refusal, WayCall};
ghost use Rattle.block.specs.Block.{BlockCall};
ghost use Rattle.wages.specs.Wages.{WagesCall};
ghost use Rattle.capi.specs.Replies.{kind_number, reply, span, list_reply};

use block::{Block, calls as blocks};
use codec::bytes::read32;
use codec::records::{NO_HOPS, NO_SECONDS};
use contents::{OFFSET_AT, entry_at};
use model::{Answer, Kind, Output, Route};
use query::calls;
use reader::oracle::{ACCESS, oracle_body};
use tables::lists::{list_part, list_start};
use wages::calls::wages;

// An answer: 0 or the number of the broken rule, the kind (1 far, 2 local), the seconds and the hops (4,294,967,295 and 65,535 where there is no walk) and the
// pairs tried; all zeros beside a broken rule.
#[repr(C)]
#[derive(Clone, Copy)]
pub struct Reply {
    pub rule: u32,
    pub kind: u32,
    pub seconds: u32,
    pub hops: u32,
    pub pairs: u32,
}

// A part of the oracle: where it starts, and how many bytes it has.
#[repr(C)]
#[derive(Clone, Copy)]
pub struct Part {
    pub start: usize,
    pub size: usize,
}

fn kind_number(kind: Kind) -> u32
    ensures { result ≡ kind_number kind }
{
    match kind {
        Kind::Far => 1,
        Kind::Local => 2,
    }
}

impl From<Answer> for Reply {
    ghost from_gives = { λ a r. r ≡ reply a };

    fn from(a: Answer) -> Reply {
        match a {
            Answer::Time {
                seconds,
                hops,
                kind,
                pairs,
            } => Reply {
                rule: 0,
                kind: kind_number(kind),
                seconds,
                hops,
                pairs,
            },
            Answer::None { kind, pairs } => Reply {
                rule: 0,
                kind: kind_number(kind),
                seconds: NO_SECONDS,
                hops: NO_HOPS,
                pairs,
            },
            Answer::Refused { rule } => Reply {
                rule,
                kind: 0,
                seconds: 0,
                hops: 0,
                pairs: 0,
            },
        }
    }
}

pub fn jukesogbi_time(o: &[u8], s: u32, t: u32, work: &mut [u32]) -> Reply
    ensures result { result ≡ reply (time_result o.now s t work.old) }
    ensures words { work.new ≡ work_after (time_refusal o.now s t work.old) o.now work.old }
{
    Reply::from(calls::time(o, s, t, work))
}

pub fn jukesogbi_far(o: &[u8], s: u32, t: u32) -> Reply
    ensures { result ≡ reply (far_result o.now s t) }
{
    Reply::from(calls::far(o, s, t))
}

pub fn jukesogbi_list_rule(o: &[u8], u: u32) -> u32
    ensures { result ≡ list_refusal o.now u }
{
    calls::list_rule(o, u)
}

// Where the list of u stands.
fn list_span(o: &[u8], u: usize) -> Part
    requires { (well_shaped o.now ≡ true) × (u < node_count (node_body o.now)) }
    ensures { result ≡ span o.now u }
{
    let access = oracle_body(o, ACCESS);
    let size = list_part(access, u).len();
    let start = read32(o, entry_at(ACCESS) + OFFSET_AT) as usize + list_start(access, u);
    Part { start, size }
}

// The access list of u as a part of the oracle, its count included; empty, at 0, where it is refused.
pub fn jukesogbi_list(o: &[u8], u: u32) -> Part
    ensures { result ≡ list_reply (list_refusal o.now u) o.now u }
{
    if calls::list_rule(o, u) != 0 {
        return Part { start: 0, size: 0 };
    }
    list_span(o, u as usize)
}

pub fn jukesogbi_way(o: &[u8], s: u32, t: u32, work: &mut [u32], out: &mut [u8]) -> Route
    ensures { WayCall o.now s t work.old out.old result work.new out.new }
{
    calls::way(o, s, t, work, out)
}

pub fn jukesogbi_block(o: &[u8], starts: &[u32], ends: &[u32], work: &mut [u32]) -> Block
    ensures { BlockCall o.now starts.now ends.now work.old result work.new }
{
    blocks::block(o, starts, ends, work)
}

pub fn jukesogbi_wages(o: &[u8], legs: &[u8], work: &mut [u32], out: &mut [u8]) -> Output
    ensures { WagesCall o.now legs.now work.old out.old result work.new out.new }
{
    wages(o, legs, work, out)
}
