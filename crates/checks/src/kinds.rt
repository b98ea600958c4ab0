// Far or local.
ghost use Rattle.std.specs.Prelude.{◌≡◌, true, ◌<◌};
ghost use Rattle.model.specs.Contents.{node_body};
ghost use Rattle.model.specs.Network.{node_count};
ghost use Rattle.model.specs.Query.{kind_between};
ghost use Rattle.model.specs.Rules.{well_shaped, is_local};
ghost use Rattle.grid.specs.Stored.{grid_of};
ghost use Rattle.checks.specs.Grids.{oracle_grid};

use grid::Grid;
use model::Kind;
use reader::oracle::{GRID, NODES, oracle_body};
use rules::grid::read_division;

// The grid of the oracle.
pub fn grid_of(o: &[u8]) -> Grid
    requires { well_shaped o.now ≡ true }
    ensures { grid_of result ≡ oracle_grid o.now }
{
    let dv = read_division(oracle_body(o, GRID));
    Grid::over(oracle_body(o, NODES), dv)
}

// The kind of the pair s, t under the oracle's grid.
pub fn kind_in(o: &[u8], grid: Grid, s: usize, t: usize) -> Kind
    requires { (well_shaped o.now ≡ true) × (grid_of grid ≡ oracle_grid o.now) × (s < node_count (node_body o.now)) × (t < node_count (node_body o.now)) }
    ensures { result ≡ kind_between o.now s t }
{
    let nodes = oracle_body(o, NODES);
    grid.kind(grid.cell(nodes, s), grid.cell(nodes, t))
}

// The kind of the pair s, t.
pub fn kind_between(o: &[u8], s: usize, t: usize) -> Kind
    requires { (well_shaped o.now ≡ true) × (s < node_count (node_body o.now)) × (t < node_count (node_body o.now)) }
    ensures { result ≡ kind_between o.now s t }
{
    kind_in(o, grid_of(o), s, t)
}

#[tactic(auto, unfolding(model::specs::Rules::is_local))]
pub fn is_local(k: Kind) -> bool
    ensures { result ≡ is_local k }
{
    matches!(k, Kind::Local)
}
