// The working words of a call: whether there are enough, and setting them to zero.
ghost use Rattle.std.specs.Prelude.{◌≡◌, true, ◌≤◌, length};
ghost use Rattle.model.specs.Calls.{cleared};
ghost use Rattle.model.specs.Rules.{well_shaped, work_too_small, words_needed};

use reader::oracle::node_count;
use words::regions::WORDS;

// Rule 14, of an oracle that keeps 1 to 11.
pub fn work_too_small(o: &[u8], words: usize) -> bool
    requires { well_shaped o.now ≡ true }
    ensures { result ≡ work_too_small o.now words }
{
    words < WORDS * node_count(o)
}

// Sets the first k words to zero.
#[tactic(auto, unfolding(model::specs::Calls::cleared))]
pub fn zero_front(work: &mut [u32], k: usize)
    requires { k ≤ length work.old }
    ensures { work.new ≡ cleared k work.old }
{
    work[..k].fill(0);
}

// Sets the words of the oracle's nodes to zero.
pub fn zero_words(o: &[u8], work: &mut [u32])
    requires { (well_shaped o.now ≡ true) × (words_needed o.now ≤ length work.old) }
    ensures { work.new ≡ cleared (words_needed o.now) work.old }
{
    zero_front(work, WORDS * node_count(o));
}
