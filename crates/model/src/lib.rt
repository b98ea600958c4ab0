// What building is told, and what the calls hand back. The contracts of the calls and the definitions in specs/ cite these types.
#![tactic(auto)]

// What building is told of the grid: document 01's g. The radii are the grid's own (`specs/Grid`).
#[derive(Clone, Copy)]
pub struct Division {
    pub g: u32,
}

// Document 01's "far" and "local".
#[derive(Clone, Copy, PartialEq, Eq, Debug)]
pub enum Kind {
    Far,
    Local,
}

// The answer to a question about two nodes: "a time, none, or a refusal; the first two carry far or local and the pairs tried". Of a time "each answer states
// both numbers" (document 02, T-07): its seconds, and its hops, which are document 02's number of roads.
#[derive(Clone, Copy, PartialEq, Eq, Debug)]
pub enum Answer {
    Time {
        seconds: u32,
        hops: u32,
        kind: Kind,
        pairs: u32,
    },
    None {
        kind: Kind,
        pairs: u32,
    },
    Refused {
        rule: u32,
    },
}

// These cross to other languages as they stand.
// What building hands back: the number of the broken rule and zeros, or 0 with the oracle's size in bytes and its number of transit nodes.
#[repr(C)]
#[derive(Clone, Copy)]
pub struct Built {
    pub rule: u32,
    pub size: u32,
    pub transit: u32,
}

// What the way hands back: the number of the broken rule and a zero, or 0 with the number of nodes written.
#[repr(C)]
#[derive(Clone, Copy)]
pub struct Route {
    pub rule: u32,
    pub nodes: u32,
}

// What a call that writes output hands back where nothing else is said: the number of the broken rule and a zero, or 0 with the length of the result in bytes.
#[repr(C)]
#[derive(Clone, Copy)]
pub struct Output {
    pub rule: u32,
    pub size: usize,
}
