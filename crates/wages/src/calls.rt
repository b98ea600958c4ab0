// The wages call. It asks nothing of its arguments.
ghost use Rattle.wages.specs.Wages.{WagesCall};

use crate::legs::open_refusal;
use crate::times::wages_of;
use checks::room::zero_words;
use model::Output;
use opened::opening::open_words;

// The time of each leg, the number of legs without a walk, and the total of the others. The first 8 N words are zero afterwards.
pub fn wages(o: &[u8], legs: &[u8], work: &mut [u32], out: &mut [u8]) -> Output
    ensures { WagesCall o.now legs.now work.old out.old result work.new out.new }
{
    if let Err(broken) = open_refusal(o, legs, work.len()) {
        return Output {
            rule: broken.number(),
            size: 0,
        };
    }
    open_words(o, work);
    let written = wages_of(o, legs, work, out);
    zero_words(o, work);
    written
}
