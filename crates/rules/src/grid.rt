// The division in the grid body, and rule 8, of the number that building is told and of the body.
ghost use Rattle.std.specs.Prelude.{◌≡◌, ◌≤◌, length};
ghost use Rattle.model.specs.Grid.{grid_broken, division, division_size};
ghost use Rattle.model.specs.Oracle.{grid_body_broken};

use codec::bytes::read16;
use codec::records::GRID_SIZE;
use model::Division;

const MIN_GRID: u32 = 1;

const MAX_GRID: u32 = 64;

// Rule 8 in building.
pub fn grid_broken(g: u32) -> bool
    ensures { result ≡ grid_broken g }
{
    g < MIN_GRID || MAX_GRID < g
}

// The division, as the grid body has it.
pub fn read_division(b: &[u8]) -> Division
    requires { division_size ≤ length b.now }
    ensures { result ≡ division b.now }
{
    Division { g: read16(b, 0) }
}

// Rule 8 over an oracle's grid body.
pub fn grid_body_broken(b: &[u8]) -> bool
    ensures { result ≡ grid_body_broken b.now }
{
    b.len() != GRID_SIZE || grid_broken(read_division(b).g)
}
