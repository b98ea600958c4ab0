// Building and the audit.
ghost use Rattle.model.specs.Calls.{Build, Audit};

use auditor::calls::audit;
use builder::calls::build;
use model::{Built, Division};

pub fn jukesogbi_build(network: &[u8], g: u32, work: &mut [u32], out: &mut [u8]) -> Built
    ensures { Build network.now (record { g = g }) work.old out.old result work.new out.new }
{
    build(network, Division { g }, work, out)
}

pub fn jukesogbi_audit(o: &[u8], work: &mut [u32]) -> u32
    ensures { Audit o.now work.old result work.new }
{
    audit(o, work)
}
