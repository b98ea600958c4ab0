// Rule 19: lines that name none of the m edges.
ghost use Rattle.std.specs.Prelude.{◌≡◌};
ghost use Rattle.model.specs.Lists.{any};
ghost use Rattle.sheet.specs.Sheet.{lines_in, names_none};

use crate::lines::{LINE_SIZE, line_edge};

pub fn names_broken(m: usize, lines: &[u8]) -> bool
    ensures { result ≡ any (names_none m) (lines_in lines.now) }
{
    (0..lines.len() / LINE_SIZE).any(|k| m <= line_edge(lines, k))
}
