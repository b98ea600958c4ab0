// The lines of the pairs of a node with the nodes above it.
ghost use Rattle.std.specs.Prelude.{◌≡◌, ◌<◌};
ghost use Rattle.model.specs.Contents.{node_body};
ghost use Rattle.model.specs.Network.{node_count};
ghost use Rattle.model.specs.Query.{time_answer};
ghost use Rattle.model.specs.Listing.{pair_line};
ghost use Rattle.emit.specs.Records.{Wrote};
ghost use Rattle.opened.specs.Opened.{Opened};
ghost use Rattle.opened.specs.TimesFrom.{TimesFrom};
ghost use Rattle.lines.specs.Texts.{Room, HoldsText, row_text};

use crate::lines::write_pair;
use model::{Answer, Kind};
use opened::answers::far_of;
use opened::opening::opened_kind;
use opened::ways::times_from;
use reader::oracle::node_count;
use tables::far::answer_of;
use words::times::time_of;

// The time between s and t, from the words that a search from s has left.
fn answer_between(o: &[u8], s: usize, t: usize, work: &[u32]) -> Answer
    requires { Opened o.now work.now × (s < node_count (node_body o.now)) × (t < node_count (node_body o.now)) × TimesFrom o.now s work.now }
    ensures { result ≡ time_answer o.now s t }
{
    let kind = opened_kind(o, s, t, work);
    match kind {
        Kind::Far => far_of(o, s, t),
        Kind::Local => answer_of(Kind::Local, 0, time_of(work, node_count(o), t)),
    }
}

fn write_line(o: &[u8], s: usize, t: usize, work: &[u32], out: &mut [u8], at: usize) -> usize
    requires opened { Opened o.now work.now × (s < node_count (node_body o.now)) × (t < node_count (node_body o.now)) × TimesFrom o.now s work.now }
    requires room { Room out.old at (pair_line o.now s t) }
    ensures { Wrote out.old at (pair_line o.now s t) result out.new }
{
    write_pair(s, t, answer_between(o, s, t, work), out, at)
}

fn write_lines(o: &[u8], s: usize, work: &[u32], out: &mut [u8]) -> usize
    requires { Opened o.now work.now × (s < node_count (node_body o.now)) × TimesFrom o.now s work.now × Room out.old 0 (row_text o.now s) }
    ensures { Wrote out.old 0 (row_text o.now s) result out.new }
{
    let n = node_count(o);
    let mut at = 0;
    for t in s + 1..n {
        at = write_line(o, s, t, work, out, at);
    }
    at
}

// One search serves the row. That of the last node has no pair, and needs none.
pub fn write_row(o: &[u8], s: usize, work: &mut [u32], out: &mut [u8]) -> usize
    requires { Opened o.now work.old × (s < node_count (node_body o.now)) × Room out.old 0 (row_text o.now s) }
    ensures text { HoldsText out.new result (row_text o.now s) }
    ensures opened { Opened o.now work.new }
{
    let n = node_count(o);
    if s + 1 == n {
        return 0;
    }
    times_from(o, s, work);
    write_lines(o, s, work, out)
}
