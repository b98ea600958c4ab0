// The closed edges, whose numbers rise: how many of them stand before an edge, and whether it is one of them.
ghost use Rattle.std.specs.Prelude.{◌≡◌, true, length};
ghost use Rattle.model.specs.Lists.{filter, rising};
ghost use Rattle.model.specs.Bytes.{words16};
ghost use Rattle.convert.specs.Old.{is_open};
ghost use Rattle.convert.specs.Convert.{is_before};

use codec::records::{NUMBER_SIZE, number};

// How many stand before edge i, by a binary search. By hand: the library searches slices, and these are numbers of 16 bits in bytes.
pub fn closed_before(closed: &[u8], i: usize) -> usize
    requires { rising (words16 closed.now) ≡ true }
    ensures { result ≡ length (filter (is_before i) (words16 closed.now)) }
{
    let mut low = 0;
    let mut high = closed.len() / NUMBER_SIZE;
    while low < high {
        let mid = low + (high - low) / 2;
        if number(closed, mid) < i {
            low = mid + 1;
        } else {
            high = mid;
        }
    }
    low
}

// Whether edge i is none of them: the first that does not stand before it is another.
pub fn is_open(closed: &[u8], i: usize) -> bool
    requires { rising (words16 closed.now) ≡ true }
    ensures { result ≡ is_open (words16 closed.now) i }
{
    let at = closed_before(closed, i);
    if closed.len() / NUMBER_SIZE <= at {
        return true;
    }
    number(closed, at) != i
}
