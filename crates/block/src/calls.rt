// The block call. It asks nothing of its arguments.
ghost use Rattle.block.specs.Block.{BlockCall};

use crate::Block;
use crate::names::block_refusal;
use crate::parts::{given_block, refused_block};
use crate::rows::keys_between;
use checks::room::zero_words;
use opened::opening::open_words;

// The times and the hops between the starts and the ends. The first 8 N words are zero afterwards.
pub fn block(o: &[u8], starts: &[u32], ends: &[u32], work: &mut [u32]) -> Block
    ensures { BlockCall o.now starts.now ends.now work.old result work.new }
{
    if let Err(broken) = block_refusal(o, starts, ends, work.len()) {
        return refused_block(broken.number());
    }
    open_words(o, work);
    let keys = keys_between(o, starts, ends, work);
    zero_words(o, work);
    given_block(keys)
}
