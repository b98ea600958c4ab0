// The roads that a walk goes by.
ghost use Rattle.std.specs.Prelude.{◌≤◌};
ghost use Rattle.model.specs.Network.{max_nodes};
ghost use Rattle.words.specs.Frames.{Enough};
ghost use Rattle.arcs.specs.Leaving.{EdgesUnder};

// The edges of n nodes and the lines of a day sheet, with the index of the ones and the spans of the others in lent words. Without a sheet there are no lines.
#[derive(Clone, Copy)]
pub struct Roads<'a> {
    pub edges: &'a [u8],
    pub lines: &'a [u8],
    pub n: usize,
    pub work: &'a [u32],
    pub ghost few: { n ≤ max_nodes },
    pub ghost enough: { Enough n work.now },
    pub ghost under: { ∥ EdgesUnder edges.now lines.now n work.now ∥₁ },
}
