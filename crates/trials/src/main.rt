// Trials of the core: document 01's that are executed, and many random networks, each pair's time, far answer and way against another search. Many of their
// roads take 0 seconds.
#![tactic(auto)]

mod memory;
mod networks;

use builder::calls::build;
use memory::read16;
use model::{Answer, Division, Kind};
use networks::{Least, Network, Total};
use std::fmt::Display;
use std::io;

// Working words for 16 places.
const WORK: usize = 128;

// What was met, and how often something came out wrong.
#[derive(Clone, Copy)]
struct Tally {
    pairs: u32,
    far: u32,
    none: u32,
    zero: u32,
    wrong: u32,
}

impl Tally {
    const EMPTY: Tally = Tally {
        pairs: 0,
        far: 0,
        none: 0,
        zero: 0,
        wrong: 0,
    };

    // One wrong more.
    fn failed(self) -> Tally {
        Tally {
            wrong: self.wrong.wrapping_add(1),
            ..self
        }
    }

    // With what was met at one pair.
    fn with(self, far: bool, none: bool, zero: bool, wrong: bool) -> Tally {
        Tally {
            pairs: self.pairs.wrapping_add(1),
            far: self.far.wrapping_add(u32::from(far)),
            none: self.none.wrapping_add(u32::from(none)),
            zero: self.zero.wrapping_add(u32::from(zero)),
            wrong: self.wrong.wrapping_add(u32::from(wrong)),
        }
    }
}

// ---- questions

// What an answer tells: the least total, None where there is no walk, far or not, and the pairs tried.
#[derive(Clone, Copy, PartialEq, Eq)]
struct Told {
    total: Option<Total>,
    far: bool,
    pairs: u32,
}

impl Told {
    // Of a refusal the broken rule.
    fn of(answer: Answer) -> Result<Told, u32> {
        match answer {
            Answer::Time {
                seconds,
                hops,
                kind,
                pairs,
            } => Ok(Told {
                total: Some(Total {
                    seconds,
                    roads: hops,
                }),
                far: matches!(kind, Kind::Far),
                pairs,
            }),
            Answer::None { kind, pairs } => Ok(Told {
                total: None,
                far: matches!(kind, Kind::Far),
                pairs,
            }),
            Answer::Refused { rule } => Err(rule),
        }
    }
}

fn time_told(o: &[u8], s: u32, t: u32) -> Result<Told, u32> {
    let mut work = [0u32; WORK];
    Told::of(query::calls::time(o, s, t, &mut work))
}

// "Its pairs tried is the product of the two list lengths."
fn pairs_of(o: &[u8], s: u32, t: u32) -> u32 {
    let a = u32::from(read16(query::calls::list(o, s), 0));
    let b = u32::from(read16(query::calls::list(o, t), 0));
    a * b
}

// The far question gives what the time gives for a far pair, and 13 for a local one.
fn far_right(o: &[u8], s: u32, t: u32, time: Told) -> bool {
    match Told::of(query::calls::far(o, s, t)) {
        Ok(far) => time.far && far == time && time.pairs == pairs_of(o, s, t),
        Err(rule) => !time.far && rule == 13 && time.pairs == 0,
    }
}

// The total of the first `steps` steps of a way; None where one of them goes along no road.
fn sum_of(net: Network, out: &[u8], steps: usize) -> Option<Total> {
    let mut total = Total::STAY;
    for i in 0..steps {
        let at = i % 64 * 2;
        let u = u32::from(read16(out, at));
        let v = u32::from(read16(out, at + 2));
        total = networks::joined(total, networks::step(networks::leg(net, u, v)?));
    }
    Some(total)
}

// Whether `out` has a walk over so many places from s to t of this total; no place where there is none.
fn is_way(net: Network, out: &[u8], nodes: usize, s: u32, t: u32, least: Option<Total>) -> bool {
    if nodes == 0 {
        return least == None;
    }
    let last = (nodes - 1) % 64 * 2;
    let ends = u32::from(read16(out, 0)) == s && u32::from(read16(out, last)) == t;
    ends && least != None && sum_of(net, out, nodes - 1) == least
}

fn way_right(net: Network, o: &[u8], s: u32, t: u32, least: Option<Total>) -> bool {
    let mut work = [0u32; WORK];
    let mut out = [0u8; 32];
    let r = query::calls::way(o, s, t, &mut work, &mut out);
    (r.rule == 0) & is_way(net, &out, r.nodes as usize, s, t, least)
}

fn check_pair(tally: Tally, net: Network, d: &Least, o: &[u8], s: u32, t: u32) -> Tally {
    let least = networks::between(d, s, t);
    let way = way_right(net, o, s, t, least);
    let zero = s != t && least.is_some_and(|total| total.seconds == 0);
    match time_told(o, s, t) {
        Ok(time) => {
            let right = time.total == least && far_right(o, s, t, time) && way;
            tally.with(time.far, least == None, zero, !right)
        }
        Err(_) => tally.with(false, least == None, zero, true),
    }
}

fn check_pairs(tally: Tally, net: Network, d: &Least, o: &[u8]) -> Tally {
    let mut all = tally;
    for s in 0..net.n {
        for t in 0..net.n {
            all = check_pair(all, net, d, o, s, t);
        }
    }
    all
}

// ---- networks

fn check_grid(tally: Tally, net: Network, d: &Least, file: &[u8], g: u32) -> Tally {
    let mut work = [0u32; WORK];
    let mut o = [0u8; 8192];
    let b = build(file, Division { g }, &mut work, &mut o);
    let end = b.size as usize;
    if end <= 8192 {
        return check_pairs(tally, net, d, &o[0..end]);
    }
    tally.failed()
}

fn check_network(tally: Tally, seed: u32) -> Tally {
    let mut file = [0u8; 1024];
    let mut d: Least = [None; 256];
    let net = networks::of_seed(seed);
    let end = networks::put_network(&mut file, net);
    networks::search(&mut d, net);
    if 1024 < end {
        return tally.failed();
    }
    let few = networks::random(seed, 4, 12) % 12 + 6;
    let once = check_grid(tally, net, &d, &file[0..end], few);
    check_grid(once, net, &d, &file[0..end], seed % 64 + 1)
}

fn check_networks(tally: Tally, networks: u32) -> Tally {
    let mut all = tally;
    for seed in 0..networks {
        all = check_network(all, seed);
    }
    all
}

// ---- document 01

// Whether building gives another rule or size.
fn build_wrong(net: &[u8], words: usize, room: usize, rule: u32, size: u32) -> bool {
    let mut work = [0u32; 30];
    let mut out = [0u8; 150];
    if 30 < words || 150 < room {
        return true;
    }
    let b = build(
        net,
        Division { g: 6 },
        &mut work[0..words],
        &mut out[0..room],
    );
    b.rule != rule || b.size != size
}

fn wrong_among(trials: &[bool]) -> usize {
    trials.iter().filter(|wrong| **wrong).count()
}

// "Line: 24 working words pass, 23 give 14"; its oracle has 149 bytes (document 02, T-07).
fn line_wrong() -> usize {
    let net =
        b"\x01\x03\x01\x1d\x00\x00\x00\x18\x00\x00\x00\x02\x35\x00\x00\x00\x10\x00\x00\x00\x03\x45\x00\x00\x00\x00\x00\x00\x00\
          \x00\x00\x00\x00\x00\x00\x00\x00\x1e\x00\x00\x00\x00\x00\x00\x00\x3c\x00\x00\x00\x00\x00\x00\x00\
          \x00\x00\x01\x00\x07\x00\x00\x00\x01\x00\x02\x00\x09\x00\x00\x00";
    let least = build_wrong(net, 24, 149, 0, 149);
    let more = build_wrong(net, 30, 150, 0, 149);
    let words = build_wrong(net, 23, 149, 14, 0);
    let room = build_wrong(net, 24, 148, 15, 0);
    wrong_among(&[least, more, words, room])
}

// "x of −1,000,000 passes; −1,000,001 gives 4": one place, whose oracle has 81 bytes.
fn x_wrong() -> usize {
    let least =
        b"\x01\x03\x01\x1d\x00\x00\x00\x08\x00\x00\x00\x02\x25\x00\x00\x00\x00\x00\x00\x00\x03\x25\x00\x00\x00\x00\x00\x00\x00\xc0\xbd\xf0\xff\x00\x00\x00\x00";
    let below =
        b"\x01\x03\x01\x1d\x00\x00\x00\x08\x00\x00\x00\x02\x25\x00\x00\x00\x00\x00\x00\x00\x03\x25\x00\x00\x00\x00\x00\x00\x00\xbf\xbd\xf0\xff\x00\x00\x00\x00";
    let passed = build_wrong(least, 8, 81, 0, 81);
    let refused = build_wrong(below, 8, 81, 4, 0);
    wrong_among(&[passed, refused])
}

// ---- what is printed

fn line(rt: &impl Print, name: &str, x: impl Display + Drop) -> io::Result<()> {
    println!(rt; "{name}{x}")
}

fn print(rt: &impl Print, tally: Tally) -> io::Result<()> {
    line(rt, "pairs: time, far answer and way ", tally.pairs)?;
    line(rt, "far pairs ", tally.far)?;
    line(rt, "pairs with no walk ", tally.none)?;
    line(rt, "pairs of two places 0 seconds apart ", tally.zero)?;
    line(rt, "wrong ", tally.wrong)
}

fn main(rt: HostRuntime) -> io::Result<()> {
    line(
        &rt,
        "wrong among document 01's ",
        line_wrong().wrapping_add(x_wrong()),
    )?;
    print(&rt, check_networks(Tally::EMPTY, 2000))
}
