// Whether rows have a free member, told for every α at once, before a walk: the labels eight to a byte, and both halves star by star.
// 'None' is proved. That some may be free is not: the walk then looks itself, so a wrong 'may be' costs time alone.
#![tactic(auto)]

ghost use Rattle.std.specs.Prelude.{◌≡◌, Bool, true, cond, ℕ, ◌+◌, ◌-◌, ◌^◌, ◌≤◌, ◌<◌, eqb};
ghost use Rattle.hypercube.specs.Bits.{bit};
ghost use Rattle.runs.specs.Flagged.{flagged};
ghost use Rattle.planes.specs.Rows.{NoMember};
ghost use Rattle.planes.specs.Planes.{PackedFrom, Across, NoPair, High, planes_of, Empty, Folded, tops, Opened, ZeroBelow};

use hypercube::pow2;
use runs::indicator;

// Plane j before those from j + 1 on: each entry doubled, and the flag added.
fn add_plane(flags: &[u8; 1024], j: usize, bytes: &mut [u8; 192])
    requires { (j < 8) × PackedFrom flags.now (j + 1) bytes.old }
    ensures { PackedFrom flags.now j bytes.new }
{
    let start = 128 * j;
    for e in 0..128 {
        bytes[e] = 2 * bytes[e] + indicator(flags[start + e]);
    }
}

// The free labels. The last 64 bytes are read by `star_low` alone, and tell nothing.
fn pack(flags: &[u8; 1024]) -> [u8; 192]
    ensures { Folded (flagged flags.now) 0 result }
{
    let mut bytes = [0; 192];
    for j in (0..8).rev() {
        add_plane(flags, j, &mut bytes);
    }
    bytes
}

// All planes of an entry that is without the star, else none.
fn keep(e: u8, star: u8) -> u8
    ensures { result ≡ planes_of e star }
{
    if e & star == 0 { 255 } else { 0 }
}

// Across one of the lowest seven stars, which parts entries. Every entry is looked at, with no branch: that is vector code.
fn star_low(from: &[u8; 192], star: u8) -> [u8; 192]
    requires { star ≤ 64 }
    ensures { (i : ℕ) → i < 7 → star ≡ 2 ^ i → Across i from.now result }
{
    let step = usize::from(star);
    let mut to = [0; 192];
    for e in 0..128 {
        to[e] = from[e] & from[e + step] & keep(e as u8, star);
    }
    to
}

// Across one of the highest three, which parts planes.
fn star_high(from: &[u8; 192], shift: u8, kept: u8) -> [u8; 192]
    requires { shift < 8 }
    ensures { (i : ℕ) → High i shift kept → Across i from.now result }
{
    let mut to = [0; 192];
    for e in 0..128 {
        to[e] = from[e] & (from[e] >> shift) & kept;
    }
    to
}

// Across the star 2^i. Each of the highest three has its shift and its mask, which follow no plainer rule than these three lines.
fn fold_star(from: &[u8; 192], i: u16) -> [u8; 192]
    requires { i < 10 }
    ensures { Across i from.now result }
{
    match i {
        7 => star_high(from, 1, 0x55),
        8 => star_high(from, 2, 0x33),
        9 => star_high(from, 4, 0x0f),
        _ => star_low(from, pow2(i) as u8),
    }
}

// Whether no label is in the set. Every entry is looked at.
fn is_empty(bytes: &[u8; 192]) -> bool
    ensures { result ≡ true → Empty bytes.now }
{
    bytes[..128].iter().fold(0, |any, entry| any | *entry) == 0
}

// Across the lowest l stars, from the highest of them down. An empty set stays empty.
fn fold_bottom(bytes: &[u8; 192], l: u16) -> [u8; 192]
    requires { l ≤ 10 }
    ensures { (f : ℕ → Bool) (s : ℕ) → ZeroBelow l s → Folded f s bytes.now → Folded f (s + (2 ^ l - 1)) result }
{
    let mut folded = *bytes;
    for i in (0..l).rev() {
        if is_empty(&folded) {
            return folded;
        }
        folded = fold_star(&folded, i);
    }
    folded
}

// Whether no two are one star apart, for the stars from 2^first below 2^end.
fn no_pair(bytes: &[u8; 192], first: u16, end: u16) -> bool
    requires { end ≤ 10 }
    ensures { result ≡ true → (i : ℕ) → first ≤ i → i < end → NoPair i bytes.now }
{
    for i in first..end {
        if !is_empty(&fold_star(bytes, i)) {
            return false;
        }
    }
    true
}

// Whether no row of d has a free member, the p from `first`, where the top d stars are folded.
fn rows_none(bytes: &[u8; 192], n: u16, d: u16, l: u16, first: u16) -> bool
    requires { (l + d < n) × (n ≤ 10) × (first ≤ 10) }
    ensures { result ≡ true → (f : ℕ → Bool) → Folded f (tops n d) bytes.now → NoMember f n d l first }
{
    no_pair(&fold_bottom(bytes, l), l + first, n - d)
}

// Whether the tree has no free member, where `low` is k - 1.
pub fn tree_none(flags: &[u8; 1024], n: u16, low: u16) -> bool
    requires { (low < n) × (n ≤ 10) }
    ensures { result ≡ true → NoMember (flagged flags.now) n 0 low 0 }
{
    rows_none(&pack(flags), n, 0, low, 0)
}

// 2^d, or 0 where no row of d has a free member.
fn open_bit(bytes: &[u8; 192], n: u16, d: u16, l: u16) -> u16
    requires { (l + d < n) × (n ≤ 10) }
    ensures { Opened bytes.now n d l result }
{
    if rows_none(bytes, n, d, l, 1) {
        0
    } else {
        pow2(d)
    }
}

// The d whose rows may have a free member, of those from 1 to `deep`, as the bits of a mask. No d has one after an empty set.
pub fn open_rows(flags: &[u8; 1024], n: u16, low: u16, deep: u16) -> u16
    requires { (low < n) × (n ≤ 10) × (deep ≤ low) }
    ensures { (d : ℕ) → 1 ≤ d → d ≤ deep → bit result d ≡ 0 → NoMember (flagged flags.now) n d (low - d) 1 }
{
    let mut folded = pack(flags);
    let mut mask: u16 = 0;
    for d in 1..=deep {
        folded = fold_star(&folded, n - d);
        if is_empty(&folded) {
            return mask;
        }
        mask += open_bit(&folded, n, d, low - d);
    }
    mask
}
