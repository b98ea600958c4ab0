// The wages sheet over an opened oracle: many sheets after one check. What it hands back and writes is what the wages call does.
ghost use Rattle.std.specs.Prelude.{◌≡◌};
ghost use Rattle.model.specs.Calls.{output_after, size_after};
ghost use Rattle.opened.specs.Opened.{Opened, Stays};
ghost use Rattle.wages.specs.Wages.{wages_bytes, wages_refusal};

use crate::legs::named_legs_refusal;
use crate::times::wages_of;
use model::Output;

pub fn wages(o: &[u8], legs: &[u8], work: &mut [u32], out: &mut [u8]) -> Output
    requires { Opened o.now work.old }
    ensures result { result ≡ size_after (wages_refusal o.now legs.now work.old out.old)
        (wages_bytes o.now legs.now) }
    ensures bytes { out.new ≡ output_after (wages_refusal o.now legs.now work.old out.old)
        (wages_bytes o.now legs.now) out.old }
    ensures stays { Stays o.now work.old work.new }
{
    if let Err(broken) = named_legs_refusal(o, legs) {
        return Output {
            rule: broken.number(),
            size: 0,
        };
    }
    wages_of(o, legs, work, out)
}
