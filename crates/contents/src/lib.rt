// The contents of a file, held as one record: reading it entry by entry, rules 1 and 2, and the bodies as parts of the file.
#![tactic(auto)]

ghost use Rattle.std.specs.Prelude.{◌≡◌, false, ◌+◌, ◌<◌, ◌≤◌, length};
ghost use Rattle.model.specs.Contents.{entry_at, contents_broken, bodies_broken, body, oracle_entries};
ghost use Rattle.contents.specs.Reading.{held, no_contents, read_next, contents_of, InRange, HasBody};

use codec::bytes::{byte, read32};

pub const NETWORK_EDITION: u32 = 1;

pub const NETWORK_ENTRIES: usize = 3;

pub const ORACLE_EDITION: u32 = 2;

pub const ORACLE_ENTRIES: usize = 7;

// The entries stand behind the edition and their number, a byte each.
const ENTRIES_AT: usize = 2;

// "Kind (1 byte), offset from the file's start (4), length (4)."
const KIND_SIZE: usize = 1;

const OFFSET_SIZE: usize = 4;

const LENGTH_SIZE: usize = 4;

pub const OFFSET_AT: usize = KIND_SIZE;

pub const SIZE_AT: usize = OFFSET_AT + OFFSET_SIZE;

const ENTRY_SIZE: usize = SIZE_AT + LENGTH_SIZE;

// Where the first body of a network stands, and that of an oracle.
pub const NETWORK_HEAD: usize = ENTRIES_AT + ENTRY_SIZE * NETWORK_ENTRIES;

pub const ORACLE_HEAD: usize = ENTRIES_AT + ENTRY_SIZE * ORACLE_ENTRIES;

// An entry of the contents.
#[derive(Clone, Copy)]
pub struct Entry {
    pub kind: u8,
    pub offset: u32,
    pub size: u32,
}

// The entries read so far, and where their bodies end, so where the next body is to start. The count is no Option's: `read` says what was read of any file
// (`contents_of`), also where it stopped.
#[derive(Clone, Copy)]
pub struct Contents {
    pub entries: [Entry; ORACLE_ENTRIES],
    pub count: usize,
    pub end: usize,
}

// Where entry k stands.
pub fn entry_at(k: usize) -> usize
    requires { k ≤ oracle_entries }
    ensures { result ≡ entry_at k }
{
    ENTRIES_AT + ENTRY_SIZE * k
}

fn read_entry(f: &[u8], k: usize) -> Entry
    requires { (k < oracle_entries) × (entry_at (k + 1) ≤ length f.now) }
    ensures { result ≡ held f.now k }
{
    let at = entry_at(k);
    let offset = read32(f, at + OFFSET_AT);
    let size = read32(f, at + SIZE_AT);
    Entry {
        kind: f[at],
        offset,
        size,
    }
}

// Rule 1.
pub fn contents_broken(edition: u32, entries: usize, f: &[u8]) -> bool
    requires { entries ≤ oracle_entries }
    ensures { result ≡ contents_broken edition entries f.now }
{
    if f.len() < ENTRIES_AT {
        return true;
    }
    if byte(f, 0) != edition {
        return true;
    }
    if byte(f, 1) as usize != entries {
        return true;
    }
    f.len() < entry_at(entries)
}

impl Contents {
    // No entry yet. The first body is to follow the contents directly.
    pub fn new(entries: usize) -> Contents
        requires { entries ≤ oracle_entries }
        ensures { result ≡ no_contents entries }
    {
        let none = Entry {
            kind: 0,
            offset: 0,
            size: 0,
        };
        let slots = [none; ORACLE_ENTRIES];
        let end = entry_at(entries);
        Contents {
            entries: slots,
            count: 0,
            end,
        }
    }

    // With one entry more, where that is of its kind and its body follows the one before; else as it was, so that
    // the count tells where reading stopped.
    pub fn next(mut self, f: &[u8]) -> Contents
        requires { (self.count < oracle_entries) × (entry_at (self.count + 1) ≤ length f.now) × InRange self }
        ensures { (result ≡ read_next f.now self) × InRange result }
    {
        let k = self.count;
        let e = read_entry(f, k);
        if e.kind as usize != k + 1 {
            return self;
        }
        if e.offset as usize != self.end {
            return self;
        }
        self.entries[k] = e;
        self.count = k + 1;
        self.end += e.size as usize;
        self
    }

    // Rule 2.
    pub fn bodies_broken(self, entries: usize, f: &[u8]) -> bool
        requires { self ≡ contents_of entries f.now }
        ensures { result ≡ bodies_broken entries f.now }
    {
        if self.count != entries {
            return true;
        }
        self.end != f.len()
    }

    // Body k, from 0, of a file that keeps rule 2: the part from its offset to its end.
    pub fn body(self, f: &[u8], k: usize) -> &[u8]
        requires { HasBody f.now self k }
        ensures { result.now ≡ body f.now k }
    {
        let e = self.entries[k];
        let start = e.offset as usize;
        let end = start + e.size as usize;
        &f[start..end]
    }
}

// The contents of a file that keeps rule 1, read up to the first entry that breaks rule 2.
pub fn read(entries: usize, f: &[u8]) -> Contents
    requires { (entries ≤ oracle_entries) × (entry_at entries ≤ length f.now) }
    ensures { result ≡ contents_of entries f.now }
{
    let mut c = Contents::new(entries);
    for i in 0..entries {
        c = c.next(f);
    }
    c
}

// Body k of a file that keeps rules 1 and 2, as the part that it is.
pub fn body_of(entries: usize, f: &[u8], k: usize) -> &[u8]
    requires { (entries ≤ oracle_entries) × (k < entries) × (entry_at entries ≤ length f.now) × (bodies_broken entries f.now ≡ false) }
    ensures { result.now ≡ body f.now k }
{
    let entry = read_entry(f, k);
    let start = entry.offset as usize;
    let end = start + entry.size as usize;
    &f[start..end]
}
