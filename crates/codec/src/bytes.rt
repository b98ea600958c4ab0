// Numbers of 16, 32 and 64 bits in bytes, the low byte first.
ghost use Rattle.std.specs.Prelude.{◌≡◌, ◌+◌, ◌<◌, ◌≤◌, length, slice_index};
ghost use Rattle.model.specs.Bytes.{word16, word32, bytes16, bytes32, bytes64, splice};

pub fn byte(b: &[u8], i: usize) -> u32
    requires { i < length b.now }
    ensures { (result ≡ slice_index b.now i) × (result < 256) }
{
    b[i] as u32
}

pub fn read16(b: &[u8], i: usize) -> u32
    requires { i + 2 ≤ length b.now }
    ensures { (result ≡ word16 b.now i) × (result < 65536) }
{
    u32::from(u16::from_le_bytes([b[i], b[i + 1]]))
}

pub fn read32(b: &[u8], i: usize) -> u32
    requires { i + 4 ≤ length b.now }
    ensures { result ≡ word32 b.now i }
{
    u32::from_le_bytes([b[i], b[i + 1], b[i + 2], b[i + 3]])
}

// The low 16 bits of x.
pub fn write16(b: &mut [u8], i: usize, x: u32)
    requires { i + 2 ≤ length b.old }
    ensures { b.new ≡ splice i (bytes16 x) b.old }
{
    b[i..i + 2].copy_from_slice(&((x % 65536) as u16).to_le_bytes());
}

pub fn write32(b: &mut [u8], i: usize, x: u32)
    requires { i + 4 ≤ length b.old }
    ensures { b.new ≡ splice i (bytes32 x) b.old }
{
    b[i..i + 4].copy_from_slice(&x.to_le_bytes());
}

pub fn write64(b: &mut [u8], i: usize, x: u64)
    requires { i + 8 ≤ length b.old }
    ensures { b.new ≡ splice i (bytes64 x) b.old }
{
    b[i..i + 8].copy_from_slice(&x.to_le_bytes());
}
