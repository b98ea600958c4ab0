// Comparing bytes with those that are to stand there.
ghost use Rattle.std.specs.Prelude.{◌≡◌, ◌≤◌, length};
ghost use Rattle.emit.specs.Records.{compared};

// Where these bytes end, if b has them at `at`.
pub fn same(bytes: &[u8], b: &[u8], at: usize) -> Option<usize>
    requires { at ≤ length b.now }
    ensures { result ≡ compared b.now at bytes.now }
{
    if b[at..].starts_with(bytes) {
        Some(at + bytes.len())
    } else {
        None
    }
}
