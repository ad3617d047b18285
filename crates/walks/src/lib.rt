// The walks over the families, on labels: the first free member with its place, or the family's whole count; and the choice by strategy.
// Document 01, "Families and their order". Which labels are free is told by flags, 1 where a label is.
#![tactic(auto)]

ghost use Rattle.std.specs.Prelude.{◌≡◌, ℕ, true, ◌&&◌, suc, ◌+◌, ◌-◌, ◌*◌, ◌%◌, ◌^◌, ◌≤◌, ◌<◌, eqb, length};
ghost use Rattle.hypercube.specs.Lists.{over};
ghost use Rattle.hypercube.specs.Bits.{bit};
ghost use Rattle.hypercube.specs.Gray.{G};
ghost use Rattle.hypercube.specs.Subcubes.{is_free};
ghost use Rattle.hypercube.specs.declared.Subcube.{Subcube};
ghost use Rattle.hypercube.specs.Families.{buddy_member, buddy, gray_member, gray, tree_member, tree, further, more, extended, first_free};
ghost use Rattle.hypercube.specs.Choice.{choice};
ghost use Rattle.runs.specs.Flagged.{flagged};
ghost use Rattle.runs.specs.Levels.{Level};
ghost use Rattle.planes.specs.Rows.{NoMember};
ghost use Rattle.walks.specs.Inside.{Inside, Testable, Highest};
ghost use Rattle.walks.specs.Each.{gray_at, gray_count, each, Lent};
ghost use Rattle.walks.specs.Blocks.{tree_block, zero_digits, Row};
ghost use Rattle.walks.specs.Open.{Leveled, Narrowed, Closed};

use hypercube::{Label, Subcube, Walk, pow2};

// Digit p of x, from 0.
fn digit(x: u16, p: u16) -> u16
    requires { p < 16 }
    ensures { result ≡ bit x p }
{
    (x >> p) % 2
}

// The highest star of s, as a number.
fn highest(s: u16) -> u16
    requires { 0 < s }
    ensures { Highest s result }
{
    1 << (15 - u16::leading_zeros(s))
}

// Whether a label is free, by its flag.
fn label_free(flags: &[u8; 1024], l: Label) -> bool
    requires { l.0 < 1024 }
    ensures { result ≡ flagged flags.now l.0 }
{
    flags[usize::from(l.0)] == 1
}

// Whether a subcube of k stars is free: "at k = 0, its node is free, otherwise both halves across its highest star are free".
pub fn free(flags: &[u8; 1024], c: Subcube, k: u16) -> bool
    requires { Testable k c }
    ensures { result ≡ is_free (flagged flags.now) c }
{
    if k == 0 {
        return label_free(flags, c.low);
    }
    let low = c.low.0;
    let star = highest(c.stars);
    let above = low + star;
    // Where the upper half's lowest label is not free, neither half is looked at.
    if !label_free(flags, Label(above)) {
        return false;
    }
    let rest = c.stars - star;
    // The halves of a run of labels are runs: it is looked at whole.
    if rest + 1 == star {
        return runs::run_free(flags, low, star + star);
    }
    let lower = Subcube { stars: rest, ..c };
    let upper = Subcube {
        low: Label(above),
        stars: rest,
    };
    free(flags, lower, k - 1) && free(flags, upper, k - 1)
}

// The same for a walk, which meets many that are not: where the highest label is not free, nothing is halved.
fn upper_free(flags: &[u8; 1024], c: Subcube, k: u16) -> bool
    requires { Testable k c }
    ensures { result ≡ is_free (flagged flags.now) c }
{
    label_free(flags, Label(c.low.0 + c.stars)) && free(flags, c, k)
}

// Nor where the lowest is not, which is looked at first.
fn member_free(flags: &[u8; 1024], c: Subcube, k: u16) -> bool
    requires { Testable k c }
    ensures { result ≡ is_free (flagged flags.now) c }
{
    label_free(flags, c.low) && upper_free(flags, c, k)
}

// Buddy's member α: the lowest k bits are stars.
fn buddy_member(k: u16, alpha: u16) -> Subcube
    requires { Inside (buddy_member k alpha) }
    ensures { result ≡ buddy_member k alpha }
{
    let unit = pow2(k);
    Subcube {
        low: Label(alpha * unit),
        stars: unit - 1,
    }
}

// The label at position b, by Gray's table.
fn label_at(labels: &[u16], b: u16) -> Label
    requires { Lent (suc b) labels.now }
    ensures { result.0 ≡ G b }
{
    Label(labels[usize::from(b)])
}

// Gray's member α, above the lowest j bits: the neighbours at positions α and α + 1 of 2^m, the last's next being the first.
fn gray_member(labels: &[u16], m: u16, j: u16, alpha: u16) -> Subcube
    requires m_bound { (m ≤ 10) × (alpha < 2 ^ m) }
    requires inside { Inside (gray_member m j alpha) }
    requires lent { Lent (2 ^ m) labels.now }
    ensures { result ≡ gray_member m j alpha }
{
    let a = label_at(labels, alpha).0;
    let b = label_at(labels, (alpha + 1) % pow2(m)).0;
    let unit = pow2(j);
    Subcube {
        low: Label(a.min(b) * unit),
        stars: unit - 1 + (a ^ b) * unit,
    }
}

// A family that has one member for each α.
trait Family {
    ghost at: { Self → ℕ → Subcube };

    ghost total: { Self → ℕ };

    // How many members it has.
    fn count(&self) -> u16
        ensures { result ≡ total self.now };

    // Member α.
    fn member(&self, alpha: u16) -> Subcube
        requires alpha_lt { alpha < total self.now }
        requires inside { Inside (at self.now alpha) }
        ensures { result ≡ at self.now alpha };
}

// Buddy's, which needs no table.
#[derive(Drop)]
struct Buddy {
    n: u16,
    k: u16,
    ghost k_le_n: { (k ≤ n) × (n ≤ 10) },
}

impl Family for Buddy {
    ghost at = { λ b. buddy_member b.k };

    ghost total = { λ b. 2 ^ (b.n - b.k) };

    fn count(&self) -> u16 {
        pow2(self.n - self.k)
    }

    fn member(&self, alpha: u16) -> Subcube {
        buddy_member(self.k, alpha)
    }
}

// Gray's, for k below n, by the labels that it is lent.
#[derive(Drop)]
struct Gray<'a> {
    labels: &'a [u16],
    n: u16,
    k: u16,
    ghost k_le_n: { (k ≤ n) × (n ≤ 10) },
    ghost lent: { Lent (gray_count n k) labels.now },
}

impl Family for Gray<'_> {
    ghost at = { λ g. gray_at g.n g.k };

    ghost total = { λ g. gray_count g.n g.k };

    fn count(&self) -> u16 {
        if self.k == 0 {
            pow2(self.n)
        } else {
            pow2(self.n - (self.k - 1))
        }
    }

    fn member(&self, alpha: u16) -> Subcube {
        if self.k == 0 {
            Subcube {
                low: label_at(self.labels, alpha),
                stars: 0,
            }
        } else {
            gray_member(self.labels, self.n - (self.k - 1), self.k - 1, alpha)
        }
    }
}

// The walk over such a family.
fn each_walk<F: Family>(flags: &[u8; 1024], family: &F, k: u16) -> Walk
    requires testable { (α : ℕ) → α < F.total family.now → Testable k (F.at family.now α) }
    ensures { result ≡ first_free (is_free (flagged flags.now)) (each (F.at family.now) (F.total family.now)) 0 }
{
    let count = family.count();
    let mut tried: u16 = 0;
    for alpha in 0..count {
        let m = family.member(alpha);
        tried += 1;
        if member_free(flags, m, k) {
            return Walk::Found(m, tried);
        }
    }
    Walk::NoneFree(tried)
}

// Buddy: "stars are the lowest k bits. Ascending by lowest label."
pub fn buddy_walk(flags: &[u8; 1024], n: u16, k: u16) -> Walk
    requires { (k ≤ n) × (n ≤ 10) }
    ensures { result ≡ first_free (is_free (flagged flags.now)) (buddy n k) 0 }
{
    each_walk(flags, &Buddy { n, k }, k)
}

// Gray: by position, and "At k = n there is one member", buddy's.
pub fn gray_walk(flags: &[u8; 1024], n: u16, k: u16) -> Walk
    requires { (k ≤ n) × (n ≤ 10) }
    ensures { result ≡ first_free (is_free (flagged flags.now)) (gray n k) 0 }
{
    if k == n {
        return buddy_walk(flags, n, k);
    }
    // What is lent is stored first, so a small cube's walk is lent few labels.
    if n <= 7 {
        let labels = &gray::first_labels();
        each_walk(flags, &Gray { labels, n, k }, k)
    } else {
        let labels = &gray::labels();
        each_walk(flags, &Gray { labels, n, k }, k)
    }
}

// The block that the members of one α share: its stars are the top d of n bits and the bottom l; the digits between stand as α.
fn tree_block(n: u16, d: u16, l: u16, alpha: u16) -> Subcube
    requires d_le_n { (d ≤ n) × (n ≤ 10) }
    requires inside { Inside (tree_block n d l alpha) }
    ensures { result ≡ tree_block n d l alpha }
{
    let unit = pow2(l);
    let top = (pow2(d) - 1) * pow2(n - d);
    Subcube {
        low: Label(alpha * unit),
        stars: unit - 1 + top,
    }
}

// Whether that block is free. Its stars are made only where its lowest label is.
fn block_free(flags: &[u8; 1024], n: u16, d: u16, l: u16, alpha: u16) -> bool
    requires d_le_n { (d ≤ n) × (n ≤ 10) }
    requires testable { Testable (l + d) (tree_block n d l alpha) }
    ensures { result ≡ is_free (flagged flags.now) (tree_block n d l alpha) }
{
    label_free(flags, Label(alpha * pow2(l)))
        && upper_free(flags, tree_block(n, d, l, alpha), l + d)
}

// The member of one star more, the digit at place p: it is this block and the one at α + 2^p.
fn tree_member(n: u16, d: u16, l: u16, alpha: u16, p: u16) -> Subcube
    requires d_le_n { (d ≤ n) × (n ≤ 10) }
    requires inside { Inside (tree_member n d l alpha p) }
    ensures { result ≡ tree_member n d l alpha p }
{
    let lower = tree_block(n, d, l, alpha);
    Subcube {
        stars: lower.stars + pow2(l + p),
        ..lower
    }
}

// How many digits of α are 0, of c from place p on: so many members share the block at α.
fn zero_digits(alpha: u16, c: u16, p: u16) -> u16
    requires { (alpha < 2 ^ (c + p)) × (p < 16) }
    ensures { result ≡ zero_digits alpha c p }
{
    let ones = u16::count_ones(alpha >> p) as u16;
    c - ones
}

// How many members the tree has.
fn tree_count(n: u16, k: u16) -> u16
    requires { (1 ≤ k) × (k ≤ n) × (n ≤ 10) }
    ensures { result ≡ length (tree n k) }
{
    (n - k + 1) * pow2(n - k)
}

// After so many rows, or so many whose block is free, and no member yet, all rows are looked at at once.
const ROWS: u16 = 512;

const SOME: u16 = 48;

// Whether no row has a free member, told for every α at once. It looks only when that is due, and may miss that there is none: the walk then
// goes on.
fn none_at(flags: &[u8; 1024], n: u16, low: u16, due: bool) -> bool
    requires { (low < n) × (n ≤ 10) }
    ensures { result ≡ true → NoMember (flagged flags.now) n 0 low 0 }
{
    due && planes::tree_none(flags, n, low)
}

// The tree's rows: by α, by p. "The least α, and for it the least p, with a free member ends the walk."
fn tree_rows(flags: &[u8; 1024], n: u16, low: u16) -> Walk
    requires { (low < n) × (n ≤ 10) }
    ensures { result ≡ first_free (is_free (flagged flags.now)) (tree n (suc low)) 0 }
{
    let digits = n - low;
    let end = pow2(digits);
    let mut found = None;
    let mut tried: u16 = 0;
    let mut seen: u16 = 0; // the rows whose block was free
    // The least α,
    'walk: for alpha in 0..end {
        if none_at(flags, n, low, alpha == ROWS) {
            return Walk::NoneFree(tree_count(n, low + 1));
        }
        // Where the block is not free, no member that shares it is.
        if block_free(flags, n, 0, low, alpha) {
            seen += 1;
            if none_at(flags, n, low, seen == SOME) {
                return Walk::NoneFree(tree_count(n, low + 1));
            }
            // and for it the least p.
            for p in 0..digits {
                if digit(alpha, p) == 0 {
                    tried += 1;
                    if block_free(flags, n, 0, low, alpha + pow2(p)) {
                        found = Some(tree_member(n, 0, low, alpha, p));
                        break 'walk;
                    }
                }
            }
        } else {
            tried += zero_digits(alpha, digits, 0);
        }
    }
    match found {
        Some(member) => Walk::Found(member, tried),
        None => Walk::NoneFree(tried),
    }
}

// Tree: the lowest k - 1 bits are stars and one other is, at p. At k = 0 it is buddy's.
pub fn tree_walk(flags: &[u8; 1024], n: u16, k: u16) -> Walk
    requires { (k ≤ n) × (n ≤ 10) }
    ensures { result ≡ first_free (is_free (flagged flags.now)) (tree n k) 0 }
{
    if k == 0 {
        return buddy_walk(flags, n, 0);
    }
    tree_rows(flags, n, k - 1)
}

// Extended's row of one α and d, "by p from 1", counted on from `before`, where the block of α is free.
// The tree's loop over p is another: one for both would take each block's test as a closure, with clauses longer than the loop.
fn row_walk(
    flags: &[u8; 1024],
    levels: &[u8; 2048],
    n: u16,
    d: u16,
    low: u16,
    alpha: u16,
    before: u16,
) -> Walk
    requires row { Row n d (low - d) (n - low) alpha × (d ≤ low) × (low < n) }
    requires level { Level (flagged flags.now) n d levels.now }
    requires alpha_value { is_free (flagged flags.now) (tree_block n d (low - d) alpha) ≡ true }
    requires d_bound { before + length (further n low alpha d) < 65536 }
    ensures { result ≡ first_free (is_free (flagged flags.now)) (further n low alpha d) before }
{
    let digits = n - low;
    let l = low - d;
    let mut tried = before;
    for p in 1..digits {
        if digit(alpha, p) == 0 {
            tried += 1;
            if runs::block_at(levels, n, d, l, alpha + pow2(p)) {
                return Walk::Found(tree_member(n, d, l, alpha, p), tried);
            }
        }
    }
    Walk::NoneFree(tried)
}

// Whether the row of α and d may have a free member: the mask has d, and the block of α is free. Its lowest label is looked at first.
fn may_have(
    flags: &[u8; 1024],
    levels: &[u8; 2048],
    mask: u16,
    n: u16,
    d: u16,
    low: u16,
    alpha: u16,
) -> bool
    requires le_d { (1 ≤ d) × (d ≤ low) × (low < n) × (n ≤ 10) × (alpha < 2 ^ (n - low)) }
    requires leveled { Leveled (flagged flags.now) n low mask levels.now }
    ensures { result ≡ (eqb (bit mask d) 1 && is_free (flagged flags.now) (tree_block n d (low - d) alpha)) }
{
    let l = low - d;
    if !label_free(flags, Label(alpha * pow2(l))) {
        return false;
    }
    digit(mask, d) == 1 && runs::block_at(levels, n, d, l, alpha)
}

// What extended has for one α beyond the tree's members, "by d from 1, by p from 1", counted on from `before`. The d that the mask lacks have
// no free member; a row whose block is not free is counted without a call.
fn further_walk(
    flags: &[u8; 1024],
    levels: &[u8; 2048],
    n: u16,
    low: u16,
    mask: u16,
    alpha: u16,
    before: u16,
) -> Walk
    requires low_lt_n { (low < n) × (n ≤ 10) × (alpha < 2 ^ (n - low)) }
    requires leveled { Leveled (flagged flags.now) n low mask levels.now }
    requires closed { Closed (flagged flags.now) n low mask }
    requires low_bound { before + length (over (further n low alpha) low 1) < 65536 }
    ensures { result ≡ first_free (is_free (flagged flags.now)) (over (further n low alpha) low 1) before }
{
    let zeros = zero_digits(alpha, n - low - 1, 1);
    let mut tried = before;
    for d in 1..low + 1 {
        if may_have(flags, levels, mask, n, d, low, alpha) {
            let row = row_walk(flags, levels, n, d, low, alpha, tried); // by p from 1
            let Walk::NoneFree(_) = row else {
                return row;
            };
        }
        tried += zeros;
    }
    Walk::NoneFree(tried)
}

// How many members extended has beyond the tree's.
fn more_count(n: u16, low: u16) -> u16
    requires { (low < n) × (n ≤ 10) }
    ensures { result ≡ length (more n low) }
{
    let places = n - low - 1;
    low * places * pow2(places)
}

// After so many α, where there are more than four times as many, all rows are looked at at once.
const MANY: u16 = 32;

// The d of the mask that may still have a free member, by a look at all rows at once. A d that stays for nothing only costs its walk.
fn looked(flags: &[u8; 1024], n: u16, low: u16, mask: u16) -> u16
    requires low_lt_n { (low < n) × (n ≤ 10) }
    requires closed { Closed (flagged flags.now) n low mask }
    ensures { Narrowed mask result × Closed (flagged flags.now) n low result }
{
    if pow2(n - low) <= 4 * MANY {
        return mask;
    }
    mask & planes::open_rows(flags, n, low, low)
}

// All that extended has beyond the tree's members, by α, counted on from `before`.
fn more_walk(flags: &[u8; 1024], n: u16, low: u16, before: u16) -> Walk
    requires low_lt_n { (low < n) × (n ≤ 10) }
    requires low_bound { before + length (more n low) < 65536 }
    ensures { result ≡ first_free (is_free (flagged flags.now)) (more n low) before }
{
    let count = more_count(n, low);
    let none = Walk::NoneFree(before + count);
    if count == 0 {
        return none;
    }
    let mut levels = [0; 2048];
    let mut mask = runs::fill_levels(flags, n, low, &mut levels);
    let mut tried = before;
    for alpha in 0..pow2(n - low) {
        if alpha == MANY {
            mask = looked(flags, n, low, mask);
        }
        if mask == 0 {
            return none;
        }
        let rows = further_walk(flags, &levels, n, low, mask, alpha, tried);
        let Walk::NoneFree(t) = rows else {
            return rows;
        };
        tried = t;
    }
    Walk::NoneFree(tried)
}

// Extended: "First the tree's members", then the others, counted on.
pub fn extended_walk(flags: &[u8; 1024], n: u16, k: u16) -> Walk
    requires { (k ≤ n) × (n ≤ 10) }
    ensures { result ≡ first_free (is_free (flagged flags.now)) (extended n k) 0 }
{
    let first = tree_walk(flags, n, k);
    if k == 0 {
        return first;
    }
    let Walk::NoneFree(tried) = first else {
        return first;
    };
    more_walk(flags, n, k - 1, tried)
}

// What a strategy chooses. No strategy above 4 has a member. It takes a number and no enum: what it ensures speaks of each number.
pub fn choose(flags: &[u8; 1024], strategy: u8, n: u16, k: u16) -> Walk
    requires { (k ≤ n) × (n ≤ 10) }
    ensures { result ≡ choice strategy n k (flagged flags.now) }
{
    match strategy {
        0 => buddy_walk(flags, n, k),
        1 => gray_walk(flags, n, k),
        2 => tree_walk(flags, n, k),
        3 => extended_walk(flags, n, k),
        4 => best_fit::best_walk(flags, n, k),
        _ => Walk::NoneFree(0),
    }
}
