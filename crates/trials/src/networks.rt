// Random networks: a network is a function of its seed. Each is written as a file, and searched in another way.
ghost use Rattle.std.specs.Prelude.{◌<◌};

use crate::memory::{write16, write32};

// At most 16 places and 47 roads. Places lie no farther than `spread` from the origin, roads take at most `seconds`, and of four roads about so many as `zeros`
// take 0.
#[derive(Clone, Copy)]
pub struct Network {
    seed: u32,
    pub n: u32,
    roads: u32,
    spread: u32,
    seconds: u32,
    zeros: u32,
}

// The seconds and the roads of a walk. "Walks are compared by seconds, then by fewer roads."
#[derive(Clone, Copy, PartialEq, Eq, PartialOrd, Ord)]
pub struct Total {
    pub seconds: u32,
    pub roads: u32,
}

impl Total {
    // The walk that stays.
    pub const STAY: Total = Total {
        seconds: 0,
        roads: 0,
    };
}

// The least totals from each of 16 places to each, None where no walk is known.
pub type Least = [Option<Total>; 256];

// One number from two.
fn mixed(a: u32, b: u32) -> u32 {
    (u64::from(a) * u64::from(b) % 2147483647) as u32
}

// Number k of a seed, below n.
pub fn random(seed: u32, k: u32, n: u32) -> u32 {
    let x = mixed(seed.wrapping_add(12345), k.wrapping_add(48271));
    let y = mixed(x, x.wrapping_add(k));
    if n == 0 { 0 } else { y % n }
}

// With 0 all places lie in one spot, or all roads take 0 seconds.
fn size(seed: u32, k: u32) -> u32 {
    let x = random(seed, k, 5);
    match x {
        0 => 0,
        1 => 3,
        2 => 60,
        3 => 1000,
        _ => 99999,
    }
}

pub fn of_seed(seed: u32) -> Network {
    let n = random(seed, 0, 16) % 16 + 1;
    let most = if n == 1 { 0 } else { n * 3 };
    Network {
        seed,
        n,
        roads: random(seed, 1, most),
        spread: size(seed, 2),
        seconds: size(seed, 3),
        zeros: random(seed, 5, 4),
    }
}

// A coordinate of place i: k is 100 for x, 200 for y.
fn metres(net: Network, k: u32, i: u32) -> u32 {
    let wide = net.spread.wrapping_add(net.spread).wrapping_add(1);
    random(net.seed, k.wrapping_add(i), wide).wrapping_sub(net.spread)
}

// The ends of road r, which differ. Where roads are few there are islands.
fn first(net: Network, r: u32) -> u32 {
    random(net.seed, r.wrapping_add(300), net.n)
}

fn second(net: Network, r: u32) -> u32 {
    let n = net.n;
    if n < 2 {
        return 0;
    }
    let on = random(net.seed, r.wrapping_add(400), n - 1);
    first(net, r).wrapping_add(1).wrapping_add(on) % n
}

fn seconds(net: Network, r: u32) -> u32 {
    if random(net.seed, r.wrapping_add(600), 4) < net.zeros {
        return 0;
    }
    random(net.seed, r.wrapping_add(500), net.seconds.wrapping_add(1))
}

// ---- files

fn place_at(i: u32) -> usize {
    (29 + i % 64 * 8) as usize
}

fn road_at(n: u32, r: u32) -> usize {
    (29 + n % 64 * 8 + r % 64 * 8) as usize
}

fn put_place(b: &mut [u8], here: usize, x: u32, y: u32) {
    write32(b, here, x);
    write32(b, here.wrapping_add(4), y);
}

fn put_road(b: &mut [u8], here: usize, u: u32, v: u32, x: u32) {
    write16(b, here, u);
    write16(b, here.wrapping_add(2), v);
    write32(b, here.wrapping_add(4), x);
}

// A kind, offset and length.
fn put_entry(b: &mut [u8], here: usize, kind: u32, offset: u32, length: u32) {
    write16(b, here, kind);
    write32(b, here.wrapping_add(1), offset);
    write32(b, here.wrapping_add(5), length);
}

// The contents of a network of so many places and roads; answers the file's size.
fn put_head(b: &mut [u8], n: u32, roads: u32) -> usize {
    let end = 29 + n % 64 * 8;
    let next = end + roads % 64 * 8;
    write16(b, 0, 769);
    put_entry(b, 2, 1, 29, n % 64 * 8);
    put_entry(b, 11, 2, end, roads % 64 * 8);
    put_entry(b, 20, 3, next, 0);
    next as usize
}

fn put_places(b: &mut [u8], net: Network) {
    for i in 0u32..16 {
        put_place(b, place_at(i), metres(net, 100, i), metres(net, 200, i));
    }
}

fn put_roads(b: &mut [u8], net: Network) {
    for r in 0..net.roads {
        let at = road_at(net.n, r);
        put_road(b, at, first(net, r), second(net, r), seconds(net, r));
    }
}

// Writes a network at the front of b; answers its size.
pub fn put_network(b: &mut [u8], net: Network) -> usize {
    put_places(b, net);
    put_roads(b, net);
    put_head(b, net.n, net.roads)
}

// ---- another search, by pairs of seconds and roads

// One road that takes so long.
pub fn step(seconds: u32) -> Total {
    Total { seconds, roads: 1 }
}

// The total of two parts.
pub fn joined(a: Total, b: Total) -> Total {
    Total {
        seconds: a.seconds.wrapping_add(b.seconds),
        roads: a.roads.wrapping_add(b.roads),
    }
}

// Where the total from s to t stands.
fn square(s: u32, t: u32) -> usize
    ensures { result < 256 }
{
    (s % 16 * 16 + t % 16) as usize
}

pub fn between(d: &Least, s: u32, t: u32) -> Option<Total> {
    if s == t {
        Some(Total::STAY)
    } else {
        d[square(s, t)]
    }
}

// The walk over v and the road from there, where it is less than what is known.
fn lower(d: &mut Least, s: u32, v: u32, t: u32, road: u32) {
    let Some(walk) = between(d, s, v) else {
        return;
    };
    let x = joined(walk, step(road));
    let less = match between(d, s, t) {
        Some(known) => x < known,
        None => true,
    };
    if less {
        d[square(s, t)] = Some(x);
    }
}

// Road r in both directions, for the walks from s.
fn relax(d: &mut Least, net: Network, s: u32, r: u32) {
    let u = first(net, r);
    let v = second(net, r);
    let x = seconds(net, r);
    lower(d, s, u, v, x);
    lower(d, s, v, u, x);
}

// Bellman and Ford's: from each of 16 places 16 rounds over all roads.
pub fn search(d: &mut Least, net: Network) {
    for _round in 0u32..16 {
        for s in 0u32..16 {
            for r in 0..net.roads {
                relax(d, net, s, r);
            }
        }
    }
}

fn joins(net: Network, r: u32, u: u32, v: u32) -> bool {
    let ends = (first(net, r), second(net, r));
    ends == (u, v) || ends == (v, u)
}

// The least time of a road between u and v.
pub fn leg(net: Network, u: u32, v: u32) -> Option<u32> {
    (0..net.roads)
        .filter(|r| joins(net, *r, u, v))
        .map(|r| seconds(net, r))
        .min()
}
