// The lines of a sheet, and what they do to an edge.
ghost use Rattle.std.specs.Prelude.{◌≡◌, true, false, ◌+◌, ◌*◌, ◌<◌, ◌≤◌, length};
ghost use Rattle.sheet.specs.Sheet.{line_size, line, line_count, lines_in, is_about, effect_of, holds, Effect.shut};
ghost use Rattle.sheet.specs.Codes.{status_of, effect_in, held_after, lines_from};

use codec::bytes::{byte, read16, read32};

pub const LINE_SIZE: usize = 7;

// "A byte (1 closed, 2 delayed), a 16-bit road, 32-bit added seconds."
pub const CLOSED: u32 = 1;

pub const DELAYED: u32 = 2;

pub const EDGE_AT: usize = 1;

pub const ADDED_AT: usize = 3;

// What the first byte of a line says.
#[derive(Clone, Copy, PartialEq, Eq, Debug)]
pub enum Status {
    Closed,
    Delayed,
}

// What is done to an edge: it is closed, or these seconds are added.
#[derive(Clone, Copy, PartialEq, Eq, Debug)]
pub enum Effect {
    Shut,
    Delayed(u32),
}

// What the first byte of line k says, if it is one of the two.
pub fn line_status(lines: &[u8], k: usize) -> Option<Status>
    requires { line_size * k + line_size ≤ length lines.now }
    ensures { result ≡ status_of (line lines.now k) }
{
    match byte(lines, LINE_SIZE * k) {
        CLOSED => Some(Status::Closed),
        DELAYED => Some(Status::Delayed),
        _ => None,
    }
}

// The edge that line k is about.
pub fn line_edge(lines: &[u8], k: usize) -> usize
    requires { line_size * k + line_size ≤ length lines.now }
    ensures { (result ≡ (line lines.now k).edge) × (result < 65536) }
{
    read16(lines, LINE_SIZE * k + EDGE_AT) as usize
}

// What line k does to its edge.
pub fn line_effect(lines: &[u8], k: usize) -> Effect
    requires { line_size * k + line_size ≤ length lines.now }
    ensures { effect_in result ≡ effect_of (line lines.now k) }
{
    match line_status(lines, k) {
        Some(Status::Closed) => Effect::Shut,
        _ => Effect::Delayed(read32(lines, LINE_SIZE * k + ADDED_AT)),
    }
}

fn is_shut(x: Effect) -> bool
    ensures yes { result ≡ true → effect_in x ≡ shut }
    ensures no { result ≡ false → effect_in x ≡ shut → ⊥ }
{
    matches!(x, Effect::Shut)
}

// What the lines from the first to before the end do to edge i: a closure stays, and over a delay the later line holds. The edge is asked for first, as nearly
// all lines are about another.
pub fn effect_among(lines: &[u8], first: usize, end: usize, i: usize) -> Effect
    requires { end ≤ line_count lines.now }
    ensures { effect_in result ≡ holds (lines_from lines.now first end) i }
{
    let mut x = Effect::Delayed(0);
    for k in first..end {
        if line_edge(lines, k) != i {
            continue;
        }
        let y = line_effect(lines, k);
        if is_shut(y) {
            return y;
        }
        x = y;
    }
    x
}

// What all lines do to edge i.
pub fn effect_on(lines: &[u8], i: usize) -> Effect
    ensures { effect_in result ≡ holds (lines_in lines.now) i }
{
    effect_among(lines, 0, lines.len() / LINE_SIZE, i)
}
