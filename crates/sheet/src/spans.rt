// Where the lines about an edge stand, noted in the working words, and the cost of an edge under a sheet.
ghost use Rattle.std.specs.Prelude.{◌≡◌, ℕ, ◌+◌, ◌*◌, ◌/◌, ◌%◌, ◌<◌, ◌≤◌, length};
ghost use Rattle.model.specs.Network.{max_nodes, edge, edge_count};
ghost use Rattle.words.specs.Regions.{spans_at, span_count, spans_in};
ghost use Rattle.words.specs.Frames.{Enough, OnlyIn};
ghost use Rattle.sheet.specs.Sheet.{line, line_count, lines_in, holds};
ghost use Rattle.sheet.specs.Codes.{effect_in};
ghost use Rattle.sheet.specs.Spans.{block_lines, span_of, InSpan, Spanned, SpannedTo, SpannedIn, Widened, cost_left};

use crate::lines::{Effect, LINE_SIZE, effect_among, line_edge};
use codec::keys::edge_key;
use codec::records::{HOP_BASE, NO_WALK};
use words::regions::{span_count, spans_at};

// What the first block of a word is multiplied by, and the most blocks.
const FIRST: u32 = 65536;

const BLOCKS: usize = 65535;

// The lines of a block.
fn block_lines(lines: &[u8]) -> usize
    ensures { result ≡ block_lines lines.now }
{
    lines.len() / LINE_SIZE / BLOCKS + 1
}

// ---- noting the lines

// The word x with block q. A word without a block is 0, as the specification lays them out.
fn with_block(x: u32, q: u32) -> u32
    requires { q < 65535 }
    ensures { Widened x q result }
{
    if x == 0 {
        return q * FIRST + q + 1;
    }
    (x / FIRST).min(q) * FIRST + (x % FIRST).max(q + 1)
}

// Notes line k, where the lines before it are noted.
fn note_line(lines: &[u8], size: usize, k: usize, spans: &mut [u32])
    requires { (size ≡ block_lines lines.now) × (k < line_count lines.now) × (0 < length spans.old) × SpannedTo lines.now k spans.old }
    ensures { SpannedTo lines.now (k + 1) spans.new }
{
    let j = line_edge(lines, k) % spans.len();
    spans[j] = with_block(spans[j], (k / size) as u32);
}

// Notes all lines, in `spans` alone.
fn note_all(lines: &[u8], spans: &mut [u32])
    requires { 0 < length spans.old }
    ensures { Spanned lines.now spans.new }
{
    spans.fill(0);
    let size = block_lines(lines);
    for k in 0..lines.len() / LINE_SIZE {
        note_line(lines, size, k, spans);
    }
}

// The same in the working words.
pub fn note_lines(lines: &[u8], n: usize, work: &mut [u32])
    requires { (2 ≤ n) × (n ≤ max_nodes) × Enough n work.old }
    ensures noted { SpannedIn lines.now n work.new }
    ensures others { OnlyIn (spans_at n) (span_count n) work.old work.new }
{
    let a = spans_at(n);
    let e = a + span_count(n);
    note_all(lines, &mut work[a..e]);
}

// ---- the cost of an edge

// The word of edge i.
fn span_of(work: &[u32], n: usize, i: usize) -> u32
    requires { (2 ≤ n) × (n ≤ max_nodes) × Enough n work.now }
    ensures { result ≡ span_of (spans_in n work.now) i }
{
    work[spans_at(n) + i % span_count(n)]
}

// What the lines do to edge i, whose lines are all in the span x.
fn effect_in(lines: &[u8], x: u32, i: usize) -> Effect
    requires { (k : ℕ) → k < line_count lines.now → (line lines.now k).edge ≡ i → InSpan (block_lines lines.now) x k }
    ensures { effect_in result ≡ holds (lines_in lines.now) i }
{
    let m = lines.len() / LINE_SIZE;
    let size = block_lines(lines);
    let first = (x / FIRST) as usize * size;
    let end = (x % FIRST) as usize * size;
    effect_among(lines, first, end.min(m), i)
}

// The cost of edge i as the lines leave it, or 'no walk' where they close it, as the specification says it. For an edge that shares no span with a line one
// word is read.
pub fn cost_left(edges: &[u8], lines: &[u8], n: usize, work: &[u32], i: usize) -> u64
    requires le_n { (2 ≤ n) × (n ≤ max_nodes) × Enough n work.now × SpannedIn lines.now n work.now }
    requires i_bound { i < edge_count edges.now }
    ensures { result ≡ cost_left (holds (lines_in lines.now) i) (edge edges.now i) }
{
    let cost = edge_key(edges, i);
    let x = span_of(work, n, i);
    if x == 0 {
        return cost;
    }
    match effect_in(lines, x, i) {
        Effect::Shut => NO_WALK,
        Effect::Delayed(added) => cost + added as u64 * HOP_BASE,
    }
}
