// Body 6: where the lists start, from their numbers of entries.
ghost use Rattle.std.specs.Prelude.{◌≡◌, ◌*◌, length};
ghost use Rattle.model.specs.Oracle.{start_size};
ghost use Rattle.emit.specs.Parts.{Counted, starts_of, list_sizes};

use codec::bytes::write32;
use codec::lists::list_size;
use codec::records::START_SIZE;
use words::halves::half_of;

// The starts of the n lists with these numbers of entries, two to a word. The first follows the starts directly.
pub fn write_starts(counts: &[u32], n: usize, out: &mut [u8])
    requires { Counted n counts.now × (length out.old ≡ start_size * n) }
    ensures { out.new ≡ starts_of (start_size * n) (list_sizes n counts.now) }
{
    let mut start = START_SIZE * n;
    for v in 0..n {
        write32(out, START_SIZE * v, start as u32);
        start += list_size(half_of(counts, v));
    }
}
