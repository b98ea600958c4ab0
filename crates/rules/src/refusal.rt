// The rules by name: what a check hands back where one is broken. A call hands the number on.
ghost use Rattle.std.specs.Prelude.{◌≡◌, cond};
ghost use Rattle.rules.specs.Refusals.{number_of, refused};

// Each stands for the number that document 01 or 02 gives its rule.
#[derive(Clone, Copy, PartialEq, Eq, Debug)]
pub enum Refusal {
    Contents = 1,
    Bodies = 2,
    Nodes = 3,
    Coordinates = 4,
    Edges = 5,
    SomeEdge = 6,
    Closed = 7,
    Grid = 8,
    Transit = 9,
    Access = 10,
    Table = 11,
    NoSuchNode = 12,
    LocalPair = 13,
    WorkTooSmall = 14,
    OutputTooSmall = 15,
    DiffersFromBuilt = 16,
    ListSize = 17,
    Sheet = 18,
    NoSuchEdge = 19,
    TooSlow = 20,
    ClosedListed = 21,
}

impl Refusal {
    #[tactic(auto, unfolding(crate::specs::Refusals::number_of))]
    pub fn number(self) -> u32
        ensures { result ≡ number_of self }
    {
        self as u32
    }
}

// The rule, where it is broken.
#[tactic(auto, unfolding(crate::specs::Refusals::refused))]
pub fn broken_if(rule: Refusal, broken: bool) -> Result<(), Refusal>
    ensures { refused result ≡ cond broken (number_of rule) 0 }
{
    if broken { Err(rule) } else { Ok(()) }
}
