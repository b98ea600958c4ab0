// Rules 7 and 9, over the closed body and the transit body: lists of numbers of 16 bits.
ghost use Rattle.std.specs.Prelude.{◌≡◌};
ghost use Rattle.model.specs.Network.{numbers_broken};

use codec::records::{NUMBER_SIZE, number};

// Half a number, a number not above the one before it, or one that names none of the `limit` edges (rule 7) or nodes (rule 9).
pub fn numbers_broken(limit: usize, b: &[u8]) -> bool
    ensures { result ≡ numbers_broken limit b.now }
{
    if b.len() % NUMBER_SIZE != 0 {
        return true;
    }
    // The least number that may come next.
    let mut least = 0;
    for i in 0..b.len() / NUMBER_SIZE {
        let x = number(b, i);
        if x < least || limit <= x {
            return true;
        }
        least = x + 1;
    }
    false
}
