// A day sheet for the converted network: the lines about open edges, each with its edge's new number.
ghost use Rattle.std.specs.Prelude.{◌≡◌, true, ◌+◌, ◌*◌, ◌<◌, ◌≤◌, length};
ghost use Rattle.model.specs.Lists.{rising};
ghost use Rattle.model.specs.Bytes.{splice, words16};
ghost use Rattle.sheet.specs.Sheet.{line_size, line, line_bytes};
ghost use Rattle.emit.specs.Records.{Wrote};
ghost use Rattle.convert.specs.Parts.{head_size, line_of, line_left, lines_left, sheet_head, sheet_left, Given};

use crate::numbers::{closed_before, is_open};
use codec::bytes::{read32, write16, write32};
use contents::{OFFSET_AT, SIZE_AT};
use model::Output;
use sheet::form::{EDITION, ENTRIES, ENTRY, HEAD, KIND};
use sheet::lines::{ADDED_AT, EDGE_AT, LINE_SIZE, line_edge};

// The head, for lines of this size.
fn put_head(size: u32, out: &mut [u8])
    requires { head_size ≤ length out.old }
    ensures { Wrote out.old 0 (sheet_head size) head_size out.new }
{
    out[0] = EDITION as u8;
    out[1] = ENTRIES as u8;
    out[ENTRY] = KIND as u8;
    write32(out, ENTRY + OFFSET_AT, HEAD as u32);
    write32(out, ENTRY + SIZE_AT, size);
}

// Writes a line at `at`, and answers where it ends.
fn put_line(status: u8, edge: u32, added: u32, out: &mut [u8], at: usize) -> usize
    requires { at + line_size ≤ length out.old }
    ensures { Wrote out.old at (line_bytes (line_of status edge added)) result out.new }
{
    out[at] = status;
    write16(out, at + EDGE_AT, edge);
    write32(out, at + ADDED_AT, added);
    at + LINE_SIZE
}

// Writes line k at `at`, where its edge is open, and answers where that ends.
fn write_line(closed: &[u8], lines: &[u8], k: usize, out: &mut [u8], at: usize) -> usize
    requires closed_value { (rising (words16 closed.now) ≡ true) × (line_size * k + line_size ≤ length lines.now) }
    requires k_in_bounds { at + length (line_left (words16 closed.now) (line lines.now k)) ≤ length out.old }
    ensures { Wrote out.old at (line_left (words16 closed.now) (line lines.now k)) result out.new }
{
    let i = line_edge(lines, k);
    if !is_open(closed, i) {
        return at;
    }
    let edge = i - closed_before(closed, i);
    let start = LINE_SIZE * k;
    let added = read32(lines, start + ADDED_AT);
    put_line(lines[start], edge as u32, added, out, at)
}

// Writes the kept lines from `at` on, in the order in which they stand, and answers where they end.
fn write_lines(closed: &[u8], lines: &[u8], out: &mut [u8], at: usize) -> usize
    requires { (rising (words16 closed.now) ≡ true) × (at + length (lines_left (words16 closed.now) lines.now) ≤ length out.old) }
    ensures { Wrote out.old at (lines_left (words16 closed.now) lines.now) result out.new }
{
    let count = lines.len() / LINE_SIZE;
    let mut end = at;
    for k in 0..count {
        end = write_line(closed, lines, k, out, end);
    }
    end
}

// How many bytes are written for line k.
fn line_left(closed: &[u8], lines: &[u8], k: usize) -> usize
    requires { (rising (words16 closed.now) ≡ true) × (line_size * k + line_size ≤ length lines.now) }
    ensures { (result ≡ length (line_left (words16 closed.now) (line lines.now k))) × (result ≤ line_size) }
{
    if is_open(closed, line_edge(lines, k)) {
        return LINE_SIZE;
    }
    0
}

// How many are written for all lines.
fn lines_left(closed: &[u8], lines: &[u8]) -> usize
    requires { rising (words16 closed.now) ≡ true }
    ensures { (result ≡ length (lines_left (words16 closed.now) lines.now)) × (result ≤ length lines.now) }
{
    let count = lines.len() / LINE_SIZE;
    let mut size = 0;
    for k in 0..count {
        size += line_left(closed, lines, k);
    }
    size
}

// The whole sheet, at the front of the output; `left` is the size of its lines.
fn write_sheet(closed: &[u8], lines: &[u8], left: usize, out: &mut [u8])
    requires closed_value { (rising (words16 closed.now) ≡ true) × (left ≡ length (lines_left (words16 closed.now) lines.now)) }
    requires left_bound { (left < 4294967296) × (head_size + left ≤ length out.old) }
    ensures { out.new ≡ splice 0 (sheet_left closed.now lines.now) out.old }
{
    put_head(left as u32, out);
    write_lines(closed, lines, out, HEAD);
}

// What no rule before 15 sends back. The kept lines are counted first, so 15 is decided before anything is written.
pub fn renumber(closed: &[u8], lines: &[u8], out: &mut [u8]) -> Output
    requires { (rising (words16 closed.now) ≡ true) × (length lines.now < 4294967296) }
    ensures { Given (sheet_left closed.now lines.now) out.old result out.new }
{
    let left = lines_left(closed, lines);
    let size = HEAD + left;
    if out.len() < size {
        return Output { rule: 15, size: 0 };
    }
    write_sheet(closed, lines, left, out);
    Output { rule: 0, size }
}
