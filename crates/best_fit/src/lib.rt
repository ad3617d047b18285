// Best fit among buddies, strategy 4. Which members are free is told level by level, each level made of the one below it by pairs. Every pair is
// looked at, with no branch: that is vector code, and its time hardly goes by what is free.
#![tactic(auto)]

ghost use Rattle.std.specs.Prelude.{◌≡◌, cond, ◌&&◌, ◌+◌, ◌-◌, ◌*◌, ◌^◌, ◌≤◌, ◌<◌, eqb, leb, length};
ghost use Rattle.hypercube.specs.Lists.{count_below};
ghost use Rattle.hypercube.specs.Levels.{joined, lone, free_half};
ghost use Rattle.hypercube.specs.BestFit.{best_fit};
ghost use Rattle.runs.specs.Flagged.{flagged};
ghost use Rattle.best_fit.specs.Entries.{Laid, Risen, ZeroOne};
ghost use Rattle.best_fit.specs.Seen.{placed, first_below, taking, seeing, at_top, answering};

use hypercube::{Label, Subcube, Walk, pow2};
use runs::indicator;

// What the levels so far have shown: the number of their maximal free blocks; and the lowest label of the one that is taken.
#[derive(Clone, Copy)]
struct Seen {
    tried: u16,
    taken: Option<u16>,
}

// Level 0, the flags; and how many are free.
fn first_level(flags: &[u8; 1024], count: u16, level: &mut [u8; 1024]) -> u16
    requires { count ≤ 1024 }
    ensures { Laid (flagged flags.now) count 1024 result level.new }
{
    let mut free: u16 = 0;
    for x in 0..usize::from(count) {
        let entry = indicator(flags[x]);
        level[x] = entry;
        free += u16::from(entry);
    }
    free
}

// Two entries as one number, which the compiler then loads at once: 257 where both are 1.
fn pair(a: u8, b: u8) -> u16
    ensures { result ≡ a + 256 * b }
{
    u16::from_le_bytes([a, b])
}

// The level above, of so many pairs; and how many of it are free. The quotient is 1 where the pair is 257: a test for 257 would be taken apart into
// tests of the two entries, each loaded alone.
fn join(level: &[u8; 1024], count: u16, above: &mut [u8; 512]) -> u16
    requires { (count ≤ 512) × ZeroOne (2 * count) level.now }
    ensures { Laid (joined (flagged level.now)) count 512 result above.new }
{
    let mut free: u16 = 0;
    for x in 0..usize::from(count) {
        let entry = (pair(level[2 * x], level[2 * x + 1]) + 255) / 512;
        above[x] = entry as u8;
        free += entry;
    }
    free
}

// The level above takes the place of the level.
fn rise(above: &[u8; 512], count: u16, level: &mut [u8; 1024])
    requires { count ≤ 512 }
    ensures { Risen above.now count level.new }
{
    let size = usize::from(count);
    level[..size].copy_from_slice(&above[..size]);
}

// The place of a pair with one free half alone; of another, 512, which is beyond all and is what the definition `first_below` has for none.
fn place(halves: u16, x: u16) -> u16
    ensures { result ≡ placed (leb 1 halves && leb halves 256) x }
{
    if (1..=256).contains(&halves) { x } else { 512 }
}

// The first of so many pairs that has one free half alone.
fn first_lone(level: &[u8; 1024], count: u16) -> u16
    requires { (count ≤ 512) × ZeroOne (2 * count) level.now }
    ensures { result ≡ first_below count (lone (flagged level.now)) }
{
    let mut first: u16 = 512;
    for x in 0..count {
        let at = 2 * usize::from(x);
        first = first.min(place(pair(level[at], level[at + 1]), x));
    }
    first
}

// The free half of a pair that has one alone.
fn free_half(level: &[u8; 1024], x: u16) -> u16
    requires { x < 512 }
    ensures { result ≡ free_half (flagged level.now) x }
{
    let at = 2 * usize::from(x);
    if level[at] == 1 { 2 * x } else { 2 * x + 1 }
}

// Whether level d has the block that is taken: none is yet, the dimension is at least k, and there is one.
fn takes(taken: Option<u16>, k: u16, d: u16, alone: u16) -> bool
    ensures { result ≡ taking k d taken alone }
{
    taken.is_none() && k <= d && alone != 0
}

// Level d is looked at, of which so many pairs have one free half alone: that half is a maximal free block.
fn see(seen: Seen, level: &[u8; 1024], count: u16, k: u16, d: u16, alone: u16) -> Seen
    requires count_bound { (count ≤ 512) × (count * 2 ^ d ≤ 512) × (d < 10) × (seen.tried + alone < 65536) }
    requires zero_one { ZeroOne (2 * count) level.now × (alone ≡ count_below count (lone (flagged level.now))) }
    ensures { result ≡ seeing k d count (flagged level.now) seen }
{
    let tried = seen.tried + alone;
    if !takes(seen.taken, k, d, alone) {
        return Seen { tried, ..seen };
    }
    let x = first_lone(level, count);
    Seen {
        tried,
        taken: Some(free_half(level, x) * pow2(d)),
    }
}

// The top level is looked at: the whole cube, a maximal free block where it is free.
fn see_top(seen: Seen, top: u8) -> Seen
    requires { seen.tried < 65535 }
    ensures { result ≡ at_top (eqb top 1) seen }
{
    if top != 1 {
        return seen;
    }
    Seen {
        tried: seen.tried + 1,
        taken: seen.taken.or(Some(0)),
    }
}

// The block's lowest part, of dimension k.
fn answer(seen: Seen, k: u16) -> Walk
    requires { k ≤ 10 }
    ensures { result ≡ answering k seen.taken seen.tried }
{
    let Some(low) = seen.taken else {
        return Walk::NoneFree(seen.tried);
    };
    let part = Subcube {
        low: Label(low),
        stars: pow2(k) - 1,
    };
    Walk::Found(part, seen.tried)
}

// Best fit: of the maximal free blocks of dimension at least k the smallest, then the lowest label; of that the lowest part.
pub fn best_walk(flags: &[u8; 1024], n: u16, k: u16) -> Walk
    requires { (k ≤ n) × (n ≤ 10) }
    ensures { result ≡ best_fit n k (flagged flags.now) }
{
    let mut level = [0; 1024];
    let mut above = [0; 512];
    let mut seen = Seen {
        tried: 0,
        taken: None,
    };
    let mut free = first_level(flags, pow2(n), &mut level);
    for d in 0..n {
        let count = pow2(n - d - 1);
        let both = join(&level, count, &mut above);
        seen = see(seen, &level, count, k, d, free - 2 * both);
        rise(&above, count, &mut level);
        free = both;
    }
    answer(see_top(seen, level[0]), k)
}
