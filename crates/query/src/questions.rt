// The questions over an opened oracle: many answers after one check. What each hands back is what the call of its name does.
ghost use Rattle.std.specs.Prelude.{◌≡◌};
ghost use Rattle.model.specs.Lists.{concat_map};
ghost use Rattle.model.specs.Bytes.{bytes16};
ghost use Rattle.model.specs.Network.{network};
ghost use Rattle.model.specs.Query.{way};
ghost use Rattle.model.specs.Rules.{first_broken, far_rules, words_needed};
ghost use Rattle.model.specs.Calls.{time_result, far_result, way_refusal, route_after, output_after};
ghost use Rattle.rules.specs.Refusals.{refused};
ghost use Rattle.opened.specs.Opened.{Opened, OpenCall};
ghost use Rattle.words.specs.Frames.{KeptFrom};

use checks::kinds::is_local;
use checks::refusals::{named_pair_refusal, room_refusal};
use model::{Answer, Route};
use opened::answers::{far_of, time_of, way_of};
use opened::opening::{open_words, opened_kind};
use rules::refusal::{Refusal, broken_if};

// Checks an oracle and opens it: 0, or the number of the broken rule, where nothing is written. The C interface hands that number on.
pub fn open(o: &[u8], work: &mut [u32]) -> u32
    ensures { OpenCall o.now work.old result work.new }
{
    if let Err(broken) = room_refusal(o, work.len()) {
        return broken.number();
    }
    open_words(o, work);
    0
}

pub fn time(o: &[u8], s: u32, t: u32, work: &mut [u32]) -> Answer
    requires { Opened o.now work.old }
    ensures result { result ≡ time_result o.now s t work.old }
    ensures opened { Opened o.now work.new }
    ensures rest { KeptFrom (words_needed o.now) work.old work.new }
{
    if let Err(broken) = named_pair_refusal(o, s, t) {
        return Answer::Refused {
            rule: broken.number(),
        };
    }
    time_of(o, s as usize, t as usize, work)
}

// Rules 12 and 13.
#[tactic(auto, using(checks::proofs::RulesKept::checked), unfolding(model::specs::Rules::far_rules, model::specs::Rules::local_pair))]
fn opened_far_refusal(o: &[u8], s: u32, t: u32, work: &[u32]) -> Result<(), Refusal>
    requires { Opened o.now work.now }
    ensures { refused result ≡ first_broken (far_rules o.now s t) }
{
    named_pair_refusal(o, s, t)?;
    broken_if(
        Refusal::LocalPair,
        is_local(opened_kind(o, s as usize, t as usize, work)),
    )
}

pub fn far(o: &[u8], s: u32, t: u32, work: &[u32]) -> Answer
    requires { Opened o.now work.now }
    ensures { result ≡ far_result o.now s t }
{
    if let Err(broken) = opened_far_refusal(o, s, t, work) {
        return Answer::Refused {
            rule: broken.number(),
        };
    }
    far_of(o, s as usize, t as usize)
}

pub fn way(o: &[u8], s: u32, t: u32, work: &mut [u32], out: &mut [u8]) -> Route
    requires { Opened o.now work.old }
    ensures result { result ≡ route_after (way_refusal o.now s t work.old out.old) (way (network o.now) s t) }
    ensures bytes { out.new ≡ output_after (way_refusal o.now s t work.old out.old)
        (concat_map bytes16 (way (network o.now) s t)) out.old }
    ensures opened { Opened o.now work.new }
    ensures rest { KeptFrom (words_needed o.now) work.old work.new }
{
    if let Err(broken) = named_pair_refusal(o, s, t) {
        return Route {
            rule: broken.number(),
            nodes: 0,
        };
    }
    way_of(o, s as usize, t as usize, work, out)
}
