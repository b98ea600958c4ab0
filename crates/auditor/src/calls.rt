// The call: audit. It asks nothing of its arguments.
ghost use Rattle.model.specs.Calls.{Audit};

use crate::bodies::is_built;
use checks::refusals::room_refusal;
use checks::room::zero_words;
use reader::oracle::node_count;
use rules::refusal::Refusal;

// Whether the oracle is the built one: 0, or the number of the rule that it breaks. Once the words are used, the first 8 N are zero
// afterwards. The C interface hands that number on.
pub fn audit(o: &[u8], work: &mut [u32]) -> u32
    ensures { Audit o.now work.old result work.new }
{
    if let Err(broken) = room_refusal(o, work.len()) {
        return broken.number();
    }
    let n = node_count(o);
    let same = is_built(o, n, work);
    zero_words(o, work);
    if same {
        0
    } else {
        Refusal::DiffersFromBuilt.number()
    }
}
