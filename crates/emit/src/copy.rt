// Bytes as they are: bodies 1 to 3 of an oracle are the network's own.
ghost use Rattle.std.specs.Prelude.{◌≡◌, ◌+◌, ◌≤◌, length};
ghost use Rattle.emit.specs.Records.{Wrote};

// Writes these bytes at `at`, and answers where they end. Byte by byte: `copy_from_slice` would have a C program that links the core bring `memmove` too.
pub fn put(bytes: &[u8], out: &mut [u8], at: usize) -> usize
    requires { at + length bytes.now ≤ length out.old }
    ensures { Wrote out.old at bytes.now result out.new }
{
    let n = bytes.len();
    for i in 0..n {
        out[at + i] = bytes[i];
    }
    at + n
}
