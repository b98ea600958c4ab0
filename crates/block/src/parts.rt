// The block of a block of keys: the seconds of each square, and its hops.
ghost use Rattle.std.specs.Prelude.{◌≡◌, true, false, map, ◌≤◌};
ghost use Rattle.model.specs.Oracle.{no_walk};
ghost use Rattle.block.specs.Block.{refused};
ghost use Rattle.block.specs.Parts.{is_hops, part_of, parts_of, SmallRow, SmallKeys};

use crate::names::NAMES;
use crate::{Block, block_record};
use codec::keys::{hops_of, seconds_of};

// What a block shows of a key.
#[derive(Clone, Copy)]
pub enum Part {
    Seconds,
    Hops,
}

// That part of a key.
fn part_of(part: Part, k: u64) -> u32
    requires { k ≤ no_walk }
    ensures { result ≡ part_of (is_hops part) k }
{
    match part {
        Part::Seconds => seconds_of(k),
        Part::Hops => hops_of(k),
    }
}

fn row_parts(part: Part, row: [u64; 12]) -> [u32; 12]
    requires { SmallRow row }
    ensures { result ≡ map (part_of (is_hops part)) row }
{
    let mut parts = [0u32; 12];
    for j in 0..NAMES {
        parts[j] = part_of(part, row[j]);
    }
    parts
}

fn parts_of(part: Part, keys: [[u64; 12]; 12]) -> [[u32; 12]; 12]
    requires { SmallKeys keys }
    ensures { result ≡ parts_of (is_hops part) keys }
{
    let mut parts = [[0u32; 12]; 12];
    for i in 0..NAMES {
        parts[i] = row_parts(part, keys[i]);
    }
    parts
}

pub fn given_block(keys: [[u64; 12]; 12]) -> Block
    requires { SmallKeys keys }
    ensures { (result.rule ≡ 0) × (result.times ≡ parts_of false keys) × (result.hops ≡ parts_of true keys) }
{
    block_record(0, parts_of(Part::Seconds, keys), parts_of(Part::Hops, keys))
}

pub fn refused_block(rule: u32) -> Block
    ensures { result ≡ refused rule }
{
    block_record(rule, [[0u32; 12]; 12], [[0u32; 12]; 12])
}
