// Body 5: the transit nodes.
ghost use Rattle.std.specs.Prelude.{◌≡◌, ◌≤◌};
ghost use Rattle.model.specs.Lists.{equal};
ghost use Rattle.model.specs.Network.{max_nodes};
ghost use Rattle.emit.specs.Parts.{numbers_bytes};
ghost use Rattle.words.specs.Regions.{transit};
ghost use Rattle.passes.specs.Building.{members_in};
ghost use Rattle.words.specs.Frames.{Enough};

use emit::numbers::same_numbers;
use words::regions::{TRANSIT, region};

// Whether b is the numbers of the nodes in region TRANSIT.
pub fn same_transit(work: &[u32], n: usize, b: &[u8]) -> bool
    requires { (n ≤ max_nodes) × Enough n work.now × (1 ≤ n) }
    ensures { result ≡ equal b.now (numbers_bytes (members_in n transit work.now)) }
{
    same_numbers(n, region(work, n, TRANSIT), b)
}
