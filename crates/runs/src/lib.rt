// Runs of labels, looked at whole; and the flags of a cube level by level, the blocks of the top d stars at level d, so that a block with bottom
// stars too is a run of its level.
#![tactic(auto)]

ghost use Rattle.std.specs.Prelude.{◌≡◌, cond, ◌+◌, ◌-◌, ◌*◌, ◌^◌, ◌≤◌, ◌<◌, eqb, length};
ghost use Rattle.runs.specs.Flagged.{flagged, run_free};
ghost use Rattle.runs.specs.Levels.{both_flags, level_start, at_level, NextLevel, Made, Levels};

use hypercube::pow2;

// 1 for a flag of 1, else 0.
pub fn indicator(flag: u8) -> u8
    ensures { result ≡ cond (eqb flag 1) 1 0 }
{
    u8::from(flag == 1)
}

// 0 where the flag is 1, else 1.
fn lack(flag: u8) -> u8
    ensures { result ≡ cond (eqb flag 1) 0 1 }
{
    u8::from(flag != 1)
}

// Whether so many flags from this one on are 1. All are looked at: that is vector code.
pub fn run_free(flags: &[u8], low: u16, count: u16) -> bool
    requires { low + count ≤ length flags.now }
    ensures { result ≡ run_free (flagged flags.now) low count }
{
    let start = usize::from(low);
    let size = usize::from(count);
    let mut lacking: u8 = 0;
    for flag in &flags[start..start + size] {
        lacking |= lack(*flag);
    }
    lacking == 0
}

// 1 where both flags are, else 0.
fn both(a: u8, b: u8) -> u8
    ensures { result ≡ both_flags a b }
{
    u8::from(a == 1 && b == 1)
}

// Where level d of a cube of n begins.
fn level_start(n: u16, d: u16) -> u16
    requires { (d ≤ n) × (n ≤ 10) }
    ensures { result ≡ level_start n d }
{
    2048 - 2 * pow2(n - d)
}

// Level 0: the flags.
#[tactic(auto, using(crate::proofs::Levels::flags_fit))]
fn first_level(flags: &[u8; 1024], n: u16, levels: &mut [u8; 2048])
    requires { n ≤ 10 }
    ensures { Made (flagged flags.now) n 1 0 levels.new }
{
    let start = usize::from(level_start(n, 0));
    let size = usize::from(pow2(n));
    levels[start..start + size].copy_from_slice(&flags[..size]);
}

// Level d, from the level before it: both halves across the star that is new. 'No' promises that no block is free; 'yes' promises nothing, for a level
// without a free block only costs its walk.
fn next_level(levels: &mut [u8; 2048], n: u16, d: u16) -> bool
    requires { (1 ≤ d) × (d ≤ n) × (n ≤ 10) }
    ensures { NextLevel n d levels.old result levels.new }
{
    let before = usize::from(level_start(n, d - 1));
    let start = usize::from(level_start(n, d));
    let size = usize::from(pow2(n - d));
    let mut some: u8 = 0;
    for x in 0..size {
        let flag = both(levels[before + x], levels[before + size + x]);
        some |= flag;
        levels[start + x] = flag;
    }
    some != 0
}

// The levels up to `deep`, as far as they have a free block, and a mask of those that do. Where one has none, no later one has. What the mask lacks
// has none for certain; a level too many in it only costs its walk.
pub fn fill_levels(flags: &[u8; 1024], n: u16, deep: u16, levels: &mut [u8; 2048]) -> u16
    requires { (deep ≤ n) × (n ≤ 10) × (length levels.old ≡ 2048) }
    ensures { Levels (flagged flags.now) n deep result levels.new }
{
    first_level(flags, n, levels);
    let mut mask: u16 = 0;
    for d in 1..=deep {
        if !next_level(levels, n, d) {
            return mask;
        }
        mask += pow2(d);
    }
    mask
}

// Whether the block of α is free, whose stars are the top d and the bottom l: a run of level d. Its first flag is looked at before the run.
pub fn block_at(levels: &[u8; 2048], n: u16, d: u16, l: u16, alpha: u16) -> bool
    requires { (l + d ≤ n) × (n ≤ 10) × (alpha < 2 ^ (n - l - d)) }
    ensures { result ≡ run_free (at_level n d levels.now) (alpha * 2 ^ l) (2 ^ l) }
{
    let unit = pow2(l);
    let first = level_start(n, d) + alpha * unit;
    let at = usize::from(first);
    levels[at] == 1 && run_free(levels, first, unit)
}
