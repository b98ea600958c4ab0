// The lines: a pair with its answer, the header, a refusal.
ghost use Rattle.model.specs.Listing.{kind_text, answer_text, header, refused_line};
ghost use Rattle.emit.specs.Records.{Wrote};
ghost use Rattle.lines.specs.Texts.{Room, HoldsText, time_text, none_text, pair_text};

use crate::text::{write_byte, write_decimal, write_field, write_text};
use model::{Answer, Kind};

fn write_kind(kind: Kind, out: &mut [u8], at: usize) -> usize
    requires { Room out.old at (kind_text kind) }
    ensures { Wrote out.old at (kind_text kind) result out.new }
{
    match kind {
        Kind::Far => write_text(b"far", out, at),
        Kind::Local => write_text(b"local", out, at),
    }
}

// A time and the kind.
fn write_time(seconds: u32, kind: Kind, out: &mut [u8], at: usize) -> usize
    requires { Room out.old at (time_text seconds kind) }
    ensures { Wrote out.old at (time_text seconds kind) result out.new }
{
    let end = write_field(seconds as usize, out, at);
    write_kind(kind, out, end)
}

// No time, and the kind.
fn write_none(kind: Kind, out: &mut [u8], at: usize) -> usize
    requires { Room out.old at (none_text kind) }
    ensures { Wrote out.old at (none_text kind) result out.new }
{
    let end = write_text(b"- ", out, at);
    write_kind(kind, out, end)
}

fn write_answer(answer: Answer, out: &mut [u8], at: usize) -> usize
    requires { Room out.old at (answer_text answer) }
    ensures { Wrote out.old at (answer_text answer) result out.new }
{
    match answer {
        Answer::Time {
            seconds,
            hops: _,
            kind,
            pairs: _,
        } => write_time(seconds, kind, out, at),
        Answer::None { kind, pairs: _ } => write_none(kind, out, at),
        Answer::Refused { rule: _ } => at,
    }
}

pub fn write_pair(s: usize, t: usize, answer: Answer, out: &mut [u8], at: usize) -> usize
    requires { Room out.old at (pair_text s t answer) }
    ensures { Wrote out.old at (pair_text s t answer) result out.new }
{
    let first = write_field(s, out, at);
    let second = write_field(t, out, first);
    let end = write_answer(answer, out, second);
    write_byte(b'\n', out, end)
}

// The header of an oracle with n nodes, that many of them transit nodes.
pub fn write_header(n: usize, transit: usize, out: &mut [u8]) -> usize
    requires { Room out.old 0 (header n transit) }
    ensures { HoldsText out.new result (header n transit) }
{
    let places = write_text(b"places ", out, 0);
    let first = write_field(n, out, places);
    let second = write_text(b"transit ", out, first);
    let end = write_decimal(transit, out, second);
    write_byte(b'\n', out, end)
}

pub fn write_refused(rule: u32, out: &mut [u8]) -> usize
    requires { Room out.old 0 (refused_line rule) }
    ensures { HoldsText out.new result (refused_line rule) }
{
    let refused = write_text(b"refused ", out, 0);
    let end = write_decimal(rule as usize, out, refused);
    write_byte(b'\n', out, end)
}
