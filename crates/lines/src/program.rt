// The listing program: it reads an oracle on standard input and writes its listing on standard output.
ghost use Rattle.std.specs.Prelude.{◌≡◌, true, ◌+◌, ◌*◌, ◌<◌, ◌≤◌, length, IfOk};
ghost use Rattle.model.specs.Contents.{node_body};
ghost use Rattle.model.specs.Network.{node_count};
ghost use Rattle.model.specs.Rules.{well_shaped};
ghost use Rattle.opened.specs.Opened.{Opened};

use crate::lines::{write_header, write_refused};
use crate::rows::write_row;
use opened::opening::open_words;
use reader::files::shape_refusal;
use reader::oracle::{node_count, transit_count};
use std::io;
use std::io::Read;

// The bytes read of the input.
const READ: usize = 28672;

// A node takes 8 bytes of the file and 8 working words, and a row of lines at most 40 bytes for each node.
const WORDS: usize = READ;

const ROOM: usize = 5 * READ + 40;

// Reads until the buffer is full or the input ends: no range, as a read gives as many bytes as it has.
fn read_full(input: &mut impl Read, buf: &mut [u8]) -> io::Result<usize>
    ensures { IfOk result (λ n. n ≤ length buf.new) }
{
    let mut done = 0;
    while done < buf.len() {
        let n = input.read(&mut buf[done..])?;
        if n == 0 {
            break;
        }
        done += n;
    }
    Ok(done)
}

fn print_refused(rt: &impl Print, rule: u32, out: &mut [u8]) -> io::Result<()>
    requires { 40 ≤ length out.old }
{
    let end = write_refused(rule, out);
    rt.write_all(&out[..end])
}

fn print_header(rt: &impl Print, o: &[u8], out: &mut [u8]) -> io::Result<()>
    requires { (well_shaped o.now ≡ true) × (40 ≤ length out.old) }
{
    let end = write_header(node_count(o), transit_count(o), out);
    rt.write_all(&out[..end])
}

// A failed write leaves the words as they are promised too.
fn print_row(
    rt: &impl Print,
    o: &[u8],
    s: usize,
    work: &mut [u32],
    out: &mut [u8],
) -> io::Result<()>
    requires { Opened o.now work.old × (s < node_count (node_body o.now)) × (5 * length o.now ≤ length out.old) }
    ensures { Opened o.now work.new }
{
    let end = write_row(o, s, work, out);
    rt.write_all(&out[..end])
}

fn print_rows(rt: &impl Print, o: &[u8], work: &mut [u32], out: &mut [u8]) -> io::Result<()>
    requires { Opened o.now work.old × (5 * length o.now ≤ length out.old) }
{
    let n = node_count(o);
    for s in 0..n {
        print_row(rt, o, s, work, out)?;
    }
    Ok(())
}

// One line where a rule is broken, and else the header and the rows in order (`listing_refused`, `listing_rows`). Any error is that of a failed write: what was
// written before it stays written.
fn print_listing(rt: &impl Print, o: &[u8], work: &mut [u32], out: &mut [u8]) -> io::Result<()>
    requires { (length o.now ≤ length work.old) × (5 * length o.now + 40 ≤ length out.old) }
{
    if let Err(broken) = shape_refusal(o) {
        return print_refused(rt, broken.number(), out);
    }
    print_header(rt, o, out)?;
    open_words(o, work);
    print_rows(rt, o, work, out)
}

// Any error is that of a failed read, before which nothing is written, or of a failed write.
pub fn run(rt: &(impl Input + Print)) -> io::Result<()> {
    let mut file = [0u8; READ];
    let mut work = [0u32; WORDS];
    let mut out = [0u8; ROOM];
    let n = read_full(&mut rt.reader(), &mut file)?;
    print_listing(rt, &file[..n], &mut work, &mut out)
}
