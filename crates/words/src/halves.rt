// Numbers of 16 bits, two to a word.
ghost use Rattle.std.specs.Prelude.{◌≡◌, ◌/◌, ◌<◌, length};
ghost use Rattle.words.specs.Halves.{half, put_half};

const BITS: usize = 16;

const HALF: u32 = 65536;

// By a shift: a processor would guess a branch on the parity wrong half of the time.
pub fn half_of(w: &[u32], p: usize) -> usize
    requires { p / 2 < length w.now }
    ensures { (result ≡ half w.now p) × (result < 65536) }
{
    ((w[p / 2] >> (p % 2 * BITS)) % HALF) as usize
}

// The word x with the half of number p changed to y.
fn changed(p: usize, x: u32, y: u32) -> u32
    requires { y < 65536 }
    ensures { result ≡ Rattle.words.specs.Halves.changed p x y }
{
    if p % 2 == 0 {
        return x / HALF * HALF + y;
    }
    y * HALF + x % HALF
}

pub fn put_half(w: &mut [u32], p: usize, y: usize)
    requires { (p / 2 < length w.old) × (y < 65536) }
    ensures { w.new ≡ put_half w.old p y }
{
    w[p / 2] = changed(p, w[p / 2], y as u32);
}
