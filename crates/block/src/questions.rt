// The block over an opened oracle: many blocks after one check. What it hands back is what the block call does.
ghost use Rattle.std.specs.Prelude.{◌≡◌};
ghost use Rattle.model.specs.Rules.{words_needed};
ghost use Rattle.opened.specs.Opened.{Opened};
ghost use Rattle.words.specs.Frames.{KeptFrom};
ghost use Rattle.block.specs.Block.{block_refusal, block_after};

use crate::Block;
use crate::names::sides_refusal;
use crate::parts::{given_block, refused_block};
use crate::rows::keys_between;

pub fn block(o: &[u8], starts: &[u32], ends: &[u32], work: &mut [u32]) -> Block
    requires { Opened o.now work.old }
    ensures result { result ≡ block_after (block_refusal o.now starts.now ends.now work.old)
        o.now starts.now ends.now }
    ensures opened { Opened o.now work.new }
    ensures rest { KeptFrom (words_needed o.now) work.old work.new }
{
    if let Err(broken) = sides_refusal(o, starts, ends) {
        return refused_block(broken.number());
    }
    let keys = keys_between(o, starts, ends, work);
    given_block(keys)
}
