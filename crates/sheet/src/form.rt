// Rule 18: the form of a sheet, and its lines.
ghost use Rattle.std.specs.Prelude.{◌≡◌, false, ◌+◌, ◌*◌, ◌≤◌, length};
ghost use Rattle.model.specs.Lists.{any};
ghost use Rattle.sheet.specs.Sheet.{line_size, line, line_body, lines_in, line_broken, form_broken, sheet_broken};

use crate::lines::{ADDED_AT, LINE_SIZE, Status, line_status};
use codec::bytes::{byte, read32};
use contents::{OFFSET_AT, SIZE_AT, contents_broken};

pub const EDITION: u32 = 1;

pub const ENTRIES: usize = 1;

pub const KIND: u32 = 8;

// Where its one entry stands, and behind it its body.
pub const ENTRY: usize = 2;

pub const HEAD: usize = 11;

// The form of all but the lines.
fn form_broken(sheet: &[u8]) -> bool
    ensures { result ≡ form_broken sheet.now }
{
    if contents_broken(EDITION, ENTRIES, sheet) {
        return true;
    }
    if byte(sheet, ENTRY) != KIND {
        return true;
    }
    if read32(sheet, ENTRY + OFFSET_AT) as usize != HEAD {
        return true;
    }
    let size = read32(sheet, ENTRY + SIZE_AT) as usize;
    if HEAD + size != sheet.len() {
        return true;
    }
    size % LINE_SIZE != 0
}

// The lines of a sheet of the right form, as the part that they are.
pub fn line_body(sheet: &[u8]) -> &[u8]
    requires { form_broken sheet.now ≡ false }
    ensures { result.now ≡ line_body sheet.now }
{
    &sheet[HEAD..]
}

// Whether line k neither delays its edge nor closes it, or closes it and adds seconds.
fn line_broken(lines: &[u8], k: usize) -> bool
    requires { line_size * k + line_size ≤ length lines.now }
    ensures { result ≡ line_broken (line lines.now k) }
{
    match line_status(lines, k) {
        Some(Status::Delayed) => false,
        Some(Status::Closed) => read32(lines, LINE_SIZE * k + ADDED_AT) != 0,
        None => true,
    }
}

fn some_line_broken(lines: &[u8]) -> bool
    ensures { result ≡ any line_broken (lines_in lines.now) }
{
    (0..lines.len() / LINE_SIZE).any(|k| line_broken(lines, k))
}

pub fn sheet_broken(sheet: &[u8]) -> bool
    ensures { result ≡ sheet_broken sheet.now }
{
    if form_broken(sheet) {
        return true;
    }
    some_line_broken(line_body(sheet))
}
