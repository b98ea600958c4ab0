// The bytes of a network or an oracle up to its first body: the edition, the number of entries, and the contents.
ghost use Rattle.std.specs.Prelude.{◌≡◌, ◌+◌, ◌<◌, ◌≤◌, length};
ghost use Rattle.model.specs.Lists.{total};
ghost use Rattle.model.specs.Bytes.{splice};
ghost use Rattle.model.specs.Contents.{entry_at, oracle_entries};
ghost use Rattle.theory.specs.FileLaws.{nine};
ghost use Rattle.emit.specs.Parts.{head_bytes};

use codec::bytes::write32;
use contents::{OFFSET_AT, SIZE_AT, entry_at};

// Entry k: its kind, and the offset and the size of its body.
fn write_entry(k: usize, offset: u32, size: u32, out: &mut [u8])
    requires { (k < oracle_entries) × (entry_at (k + 1) ≤ length out.old) }
    ensures { out.new ≡ splice (entry_at k) (nine k offset size) out.old }
{
    let at = entry_at(k);
    out[at] = (k + 1) as u8;
    write32(out, at + OFFSET_AT, offset);
    write32(out, at + SIZE_AT, size);
}

// The head of a file with bodies of these sizes, each offset where the bodies before it end.
pub fn write_head(edition: u32, sizes: &[u32], out: &mut [u8])
    requires { (edition < 256) × (length sizes.now ≤ oracle_entries) × (entry_at (length sizes.now) + total sizes.now < 4294967296)
        × (length out.old ≡ entry_at (length sizes.now)) }
    ensures { out.new ≡ head_bytes edition sizes.now }
{
    let entries = sizes.len();
    out[0] = edition as u8;
    out[1] = entries as u8;
    let mut offset = entry_at(entries) as u32;
    for k in 0..entries {
        write_entry(k, offset, sizes[k], out);
        offset += sizes[k];
    }
}
