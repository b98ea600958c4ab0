// Text in a lent buffer. Each function writes at a position, and answers where that ends. No `Display`: a line's text is said as the bytes that it is in the
// buffer, from one position to another.
ghost use Rattle.std.specs.Prelude.{[], ◌∷◌};
ghost use Rattle.model.specs.Listing.{digits, decimal};
ghost use Rattle.emit.specs.Records.{Wrote};
ghost use Rattle.lines.specs.Texts.{Room, field_text};

use emit::copy::put;

pub fn write_byte(x: u8, out: &mut [u8], at: usize) -> usize
    requires { Room out.old at (x ∷ []) }
    ensures { Wrote out.old at (x ∷ []) result out.new }
{
    out[at] = x;
    at + 1
}

pub fn write_text(text: &[u8], out: &mut [u8], at: usize) -> usize
    requires { Room out.old at text.now }
    ensures { Wrote out.old at text.now result out.new }
{
    put(text, out, at)
}

// At most so many digits of n: it calls itself for those before the last.
fn write_digits(places: usize, n: usize, out: &mut [u8], at: usize) -> usize
    requires { Room out.old at (digits places n) }
    ensures { Wrote out.old at (digits places n) result out.new }
{
    if places == 0 {
        return at;
    }
    if n < 10 {
        return write_byte((48 + n) as u8, out, at);
    }
    let end = write_digits(places - 1, n / 10, out, at);
    write_byte((48 + n % 10) as u8, out, end)
}

pub fn write_decimal(n: usize, out: &mut [u8], at: usize) -> usize
    requires { Room out.old at (decimal n) }
    ensures { Wrote out.old at (decimal n) result out.new }
{
    write_digits(10, n, out, at)
}

// A number and a blank.
pub fn write_field(n: usize, out: &mut [u8], at: usize) -> usize
    requires { Room out.old at (field_text n) }
    ensures { Wrote out.old at (field_text n) result out.new }
{
    let end = write_decimal(n, out, at);
    write_byte(b' ', out, end)
}
