// The calls over an oracle: time, far, list, way. None asks anything of its arguments.
ghost use Rattle.std.specs.Prelude.{◌≡◌};
ghost use Rattle.model.specs.Calls.{FarCall, list_result, list_refusal, TimeCall, WayCall};

use checks::refusals::{far_refusal, list_refusal, time_refusal};
use checks::room::zero_words;
use model::{Answer, Route};
use opened::answers::{far_of, time_of, way_of};
use opened::opening::open_words;
use reader::oracle::{ACCESS, oracle_body};
use tables::lists::list_part;

// The far question.
pub fn far(o: &[u8], s: u32, t: u32) -> Answer
    ensures { FarCall o.now s t result }
{
    if let Err(broken) = far_refusal(o, s, t) {
        return Answer::Refused {
            rule: broken.number(),
        };
    }
    far_of(o, s as usize, t as usize)
}

// The time between two nodes. The first 8 N words are zero afterwards.
pub fn time(o: &[u8], s: u32, t: u32, work: &mut [u32]) -> Answer
    ensures { TimeCall o.now s t work.old result work.new }
{
    if let Err(broken) = time_refusal(o, s, t, work.len()) {
        return Answer::Refused {
            rule: broken.number(),
        };
    }
    open_words(o, work);
    let answer = time_of(o, s as usize, t as usize, work);
    zero_words(o, work);
    answer
}

// The access list of a node, as that part of the oracle, its count included; empty where it is refused.
pub fn list(o: &[u8], u: u32) -> &[u8]
    ensures { result.now ≡ list_result o.now u }
{
    match list_refusal(o, u) {
        Ok(()) => list_part(oracle_body(o, ACCESS), u as usize),
        Err(_) => &o[0..0],
    }
}

// The number of the rule for which `list` hands back the empty part, or 0: the C interface hands it on.
pub fn list_rule(o: &[u8], u: u32) -> u32
    ensures { result ≡ list_refusal o.now u }
{
    match list_refusal(o, u) {
        Ok(()) => 0,
        Err(broken) => broken.number(),
    }
}

// The way from s to t: the first least walk by node numbers, written at the front of the output.
pub fn way(o: &[u8], s: u32, t: u32, work: &mut [u32], out: &mut [u8]) -> Route
    ensures { WayCall o.now s t work.old out.old result work.new out.new }
{
    if let Err(broken) = time_refusal(o, s, t, work.len()) {
        return Route {
            rule: broken.number(),
            nodes: 0,
        };
    }
    open_words(o, work);
    let route = way_of(o, s as usize, t as usize, work, out);
    zero_words(o, work);
    route
}
