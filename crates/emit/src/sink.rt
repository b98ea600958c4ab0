// Where the bytes of a part go, record by record: into the output, or against bytes that are to be the same. So each part is laid out once.
ghost use Rattle.std.specs.Prelude.{◌≡◌, Bool, ◌≤◌, length};
ghost use Rattle.model.specs.Bytes.{Bytes};
ghost use Rattle.emit.specs.Sinks.{SinkLaws, WroteAll, Matched, Fits, writer_laws, checker_laws};

use crate::compare::same;
use crate::copy::put;

pub trait Sink {
    // There is room for these bytes.
    ghost fits: { Self → Bytes → Type 0 };

    // What offering these bytes leaves, and the answer whether they were taken.
    ghost took: { Self → Bytes → Bool → Self → Type 0 };

    // Takes these bytes, which come next. False where they differ: then nothing more is to be offered.
    fn take(&mut self, bytes: &[u8]) -> bool
        requires { fits self.old bytes.now }
        ensures { took self.old bytes.now result self.new };

    // Bytes in two parts are both parts, one after the other.
    ghost laws: { SinkLaws fits took };
}

// Writes from `at` on. It takes all bytes.
#[derive(Drop)]
pub struct Writer<'a> {
    pub out: &'a mut [u8],
    pub at: usize,
}

impl Sink for Writer<'_> {
    ghost fits = { λ s bytes. Fits s.at bytes s.out.now };

    ghost took = { λ s bytes r t. WroteAll s.out.now s.at bytes r t.at t.out.now × (t.out.ghost_name ≡ s.out.ghost_name) };

    fn take(&mut self, bytes: &[u8]) -> bool {
        self.at = put(bytes, &mut *self.out, self.at);
        true
    }

    ghost laws = { writer_laws (λ s. s.at) (λ s. s.out.now) (λ s. s.out.ghost_name) };
}

// Compares with what stands from `at` on.
#[derive(Drop)]
pub struct Checker<'a> {
    pub stands: &'a [u8],
    pub at: usize,
}

impl Sink for Checker<'_> {
    ghost fits = { λ s bytes. s.at ≤ length s.stands.now };

    ghost took = { λ s bytes r t. Matched s.stands.now s.at bytes r t.at t.stands.now };

    fn take(&mut self, bytes: &[u8]) -> bool {
        let Some(end) = same(bytes, self.stands, self.at) else {
            return false;
        };
        self.at = end;
        true
    }

    ghost laws = { checker_laws (λ s. s.at) (λ s. s.stands.now) };
}
