// The bodies of an oracle that keeps rules 1 to 11 and 21.
ghost use Rattle.std.specs.Prelude.{◌≡◌, true, ◌<◌};
ghost use Rattle.model.specs.Contents.{oracle_entries, body, node_body, transit_body};
ghost use Rattle.model.specs.Network.{node_count};
ghost use Rattle.model.specs.Oracle.{transit_count};
ghost use Rattle.model.specs.Rules.{well_shaped};
ghost use Rattle.contents.specs.Reading.{HasBodies};

use codec::records::{NODE_SIZE, NUMBER_SIZE};
use contents::{Contents, ORACLE_ENTRIES, body_of, read};

// The numbers of the bodies, from 0. A network has the first three.
pub const NODES: usize = 0;

pub const EDGES: usize = 1;

pub const CLOSED: usize = 2;

pub const GRID: usize = 3;

pub const TRANSIT: usize = 4;

pub const ACCESS: usize = 5;

pub const TABLE: usize = 6;

// The contents as one record, for a call that takes several bodies.
pub fn oracle_contents(o: &[u8]) -> Contents
    requires { well_shaped o.now ≡ true }
    ensures { HasBodies oracle_entries o.now result }
{
    read(ORACLE_ENTRIES, o)
}

// One body by its entry alone: reading all entries would cost an answer by a short search or from the table a tenth of its time and more.
pub fn oracle_body(o: &[u8], k: usize) -> &[u8]
    requires { (well_shaped o.now ≡ true) × (k < oracle_entries) }
    ensures { result.now ≡ body o.now k }
{
    body_of(ORACLE_ENTRIES, o, k)
}

// N, the number of nodes.
pub fn node_count(o: &[u8]) -> usize
    requires { well_shaped o.now ≡ true }
    ensures { result ≡ node_count (node_body o.now) }
{
    oracle_body(o, NODES).len() / NODE_SIZE
}

// T, the number of transit nodes.
pub fn transit_count(o: &[u8]) -> usize
    requires { well_shaped o.now ≡ true }
    ensures { result ≡ transit_count (transit_body o.now) }
{
    oracle_body(o, TRANSIT).len() / NUMBER_SIZE
}
