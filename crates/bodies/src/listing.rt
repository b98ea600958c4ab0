// Body 6: the starts, and the lists cell by cell, as the nodes of a cell share their access nodes.
ghost use Rattle.std.specs.Prelude.{◌≡◌, ◌+◌, ◌*◌, ◌<◌, ◌≤◌, ◌++◌, length, drop};
ghost use Rattle.model.specs.Oracle.{start_size};
ghost use Rattle.crossing.specs.Beside.{CellSquare};
ghost use Rattle.words.specs.Regions.{region_at, counts_in, transit, own, search_words};
ghost use Rattle.emit.specs.Parts.{Counted, starts_of, list_sizes};
ghost use Rattle.passes.specs.Building.{access_of, list_in, members_in};
ghost use Rattle.passes.specs.Stands.{whole};
ghost use Rattle.passes.specs.Sought.{Sought};
ghost use Rattle.words.specs.Frames.{Enough, KeptFrom};
ghost use Rattle.bodies.specs.Listed.{Based, Listed, ListedTo, Counts};

use crate::lists::put_list;
use codec::records::START_SIZE;
use crossing::cells::{beside, cell_square, first_of_cell};
use crossing::ground::Ground;
use emit::starts::write_starts;
use grid::square::Square;
use passes::own::own_wanted;
use words::regions::counts;

// Writes the list of v, if v has the cell of u, which the square is of. The cell has `left` access nodes.
fn list_beside(
    ground: &Ground,
    square: Square,
    u: usize,
    v: usize,
    left: usize,
    work: &mut [u32],
    body: &mut [u8],
)
    requires based { Based ground.now.nodes.now ground.now.edges.now ground.now.grid ground.now.n work.old
        × (u < ground.now.n) × (v < ground.now.n) × CellSquare ground.now.nodes.now ground.now.grid u square }
    requires work_value { (members_in ground.now.n own work.old
        ≡ access_of ground.now.nodes.now ground.now.edges.now ground.now.grid u) × Sought ground.now.n left work.old }
    requires listed_to { ListedTo ground.now.nodes.now ground.now.edges.now ground.now.grid ground.now.n u v body.old }
    ensures lists { ListedTo ground.now.nodes.now ground.now.edges.now ground.now.grid ground.now.n u (v + 1) body.new }
    ensures others { KeptFrom (search_words ground.now.n) work.old work.new }
{
    if beside(ground.nodes, square, v) {
        put_list(ground.edges, ground.n, v, left, work, body);
    }
}

// Writes the lists of the cell of u.
fn lists_of_cell(ground: &Ground, u: usize, work: &mut [u32], body: &mut [u8])
    requires { Based ground.now.nodes.now ground.now.edges.now ground.now.grid ground.now.n work.old × (u < ground.now.n)
        × Listed ground.now.nodes.now ground.now.edges.now ground.now.grid ground.now.n u body.old }
    ensures lists { Listed ground.now.nodes.now ground.now.edges.now ground.now.grid ground.now.n (u + 1) body.new }
    ensures others { KeptFrom (region_at ground.now.n transit) work.old work.new }
{
    let left = own_wanted(ground, u, work);
    let square = cell_square(ground.nodes, ground.grid, u);
    for v in 0..ground.n {
        list_beside(ground, square, u, v, left, work, body);
    }
}

// The same, if u is the first node of its cell: else they are written.
fn lists_at(ground: &Ground, u: usize, work: &mut [u32], body: &mut [u8])
    requires { Based ground.now.nodes.now ground.now.edges.now ground.now.grid ground.now.n work.old × (u < ground.now.n)
        × Listed ground.now.nodes.now ground.now.edges.now ground.now.grid ground.now.n u body.old }
    ensures lists { Listed ground.now.nodes.now ground.now.edges.now ground.now.grid ground.now.n (u + 1) body.new }
    ensures others { KeptFrom (region_at ground.now.n transit) work.old work.new }
{
    if first_of_cell(ground.nodes, ground.grid, u) {
        lists_of_cell(ground, u, work, body);
    }
}

// All lists, after the starts.
fn put_lists(ground: &Ground, work: &mut [u32], body: &mut [u8])
    requires { Based ground.now.nodes.now ground.now.edges.now ground.now.grid ground.now.n work.old
        × Listed ground.now.nodes.now ground.now.edges.now ground.now.grid ground.now.n 0 body.old }
    ensures bytes { body.new ≡ whole ground.now.n (list_in ground.now.nodes.now ground.now.edges.now ground.now.grid) }
    ensures others { KeptFrom (region_at ground.now.n transit) work.old work.new }
{
    for u in 0..ground.n {
        lists_at(ground, u, work, body);
    }
}

// The starts, from the numbers of entries.
fn put_starts(n: usize, work: &[u32], body: &mut [u8])
    requires { Enough n work.now × (start_size * n ≤ length body.old) × Counted n (counts_in n work.now) × (1 ≤ n) }
    ensures { body.new ≡ starts_of (start_size * n) (list_sizes n (counts_in n work.now)) ++ drop (start_size * n) body.old }
{
    let m = START_SIZE * n;
    write_starts(counts(work, n), n, &mut body[..m]);
}

// The whole body.
pub fn put_access(ground: &Ground, work: &mut [u32], body: &mut [u8])
    requires based { Based ground.now.nodes.now ground.now.edges.now ground.now.grid ground.now.n work.old
        × Counts ground.now.nodes.now ground.now.edges.now ground.now.grid ground.now.n work.old }
    requires body_len { (length body.old
        ≡ length (whole ground.now.n (list_in ground.now.nodes.now ground.now.edges.now ground.now.grid))) × (length body.old < 4294967296) }
    ensures bytes { body.new ≡ whole ground.now.n (list_in ground.now.nodes.now ground.now.edges.now ground.now.grid) }
    ensures others { KeptFrom (region_at ground.now.n transit) work.old work.new }
{
    put_starts(ground.n, work, body);
    put_lists(ground, work, body);
}
