// Building and the audit.
ghost use Rattle.model.specs.Calls.{Build, Audit};

use capi::building;
use model::Built;

#[unsafe(no_mangle)]
pub extern "C" fn jukesogbi_build(network: &[u8], g: u32, work: &mut [u32], out: &mut [u8]) -> Built
    ensures { Build network.now (record { g = g }) work.old out.old result work.new out.new }
{
    building::jukesogbi_build(network, g, work, out)
}

#[unsafe(no_mangle)]
pub extern "C" fn jukesogbi_audit(o: &[u8], work: &mut [u32]) -> u32
    ensures { Audit o.now work.old result work.new }
{
    building::jukesogbi_audit(o, work)
}
