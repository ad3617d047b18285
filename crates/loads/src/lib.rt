// Whether each job's nodes are exactly a subcube with the stored star bits (document 02, (g)): passes over a record's nodes, each of
// which looks at one other node; the last, in the smallest cubes, at those before.
#![tactic(auto)]

ghost use Rattle.std.specs.Prelude.{◌≡◌, true, not, ◌<◌, ◌≤◌, length};
ghost use Rattle.hypercube.specs.Lists.{all_below, any_below, count_below};
ghost use Rattle.hypercube.specs.ByNodes.{lower, next};
ghost use Rattle.record.specs.Layout.{record_size, valid_record};
ghost use Rattle.record.specs.Says.{says, formed_record};
ghost use Rattle.loads.specs.Pass.{is_like, is_whole, is_lowest, is_alone, whole_at, lowest_at, lowest_for, alone_at};
ghost use Rattle.loads.specs.Marks.{is_marked, MarkedIf};

use record::{holder_at, stars_at};

// Whether node y has this holder and these star bits.
fn is_like(bytes: &[u8], y: u16, holder: u16, stars: u16) -> bool
    requires { (length bytes.now ≡ record_size) × (y < 1024) }
    ensures { result ≡ is_like bytes.now holder stars y }
{
    holder_at(bytes, y) == holder && stars_at(bytes, y) == stars
}

// The next lower star bits after t, and all of them after 0.
fn lower(t: u16, stars: u16) -> u16
    ensures { result ≡ lower t stars }
{
    if t == 0 { stars } else { (t - 1) & stars }
}

// The node with the next lower star bits in x's subcube.
fn next(x: u16, stars: u16) -> u16
    ensures { result ≡ next x stars }
{
    let own = x & stars;
    x ^ own ^ lower(own, stars)
}

// Whether node x, if a job holds it, has star bits of the cube and the next node of its subcube has its holder and star bits.
fn is_whole(bytes: &[u8], n: u16, x: u16, holder: u16, stars: u16) -> bool
    requires { (length bytes.now ≡ record_size) × ((n ≤ 10) × (x < 1024)) }
    ensures { result ≡ is_whole bytes.now n holder stars x }
{
    holder == 0 || (stars < hypercube::pow2(n) && is_like(bytes, next(x, stars), holder, stars))
}

// Whether each node up to `end` is so, where those before `at` are.
fn whole_to(bytes: &[u8], n: u16, at: u16, end: u16) -> bool
    requires { (length bytes.now ≡ record_size)
        × ((n ≤ 10) × ((at ≤ end) × ((end ≤ 1024) × (true ≡ all_below (whole_at bytes.now n) at)))) }
    ensures { result ≡ all_below (whole_at bytes.now n) end }
{
    for x in at..end {
        if !is_whole(bytes, n, x, holder_at(bytes, x), stars_at(bytes, x)) {
            return false;
        }
    }
    true
}

// The same of a block of nodes; where none of them is held, it is so at once.
fn block_whole(bytes: &[u8], n: u16, at: u16, end: u16) -> bool
    requires { (length bytes.now ≡ record_size)
        × ((n ≤ 10) × ((at ≤ end) × ((end ≤ 1024) × (true ≡ all_below (whole_at bytes.now n) at)))) }
    ensures { result ≡ all_below (whole_at bytes.now n) end }
{
    let from = record::HOLDERS + 2 * usize::from(at);
    let to = record::HOLDERS + 2 * usize::from(end);
    record::all_zero(&bytes[from..to]) || whole_to(bytes, n, at, end)
}

// Whether each held node is part of a whole subcube; `size` is 2^n. The blocks after one that is not so are not read.
fn all_whole(bytes: &[u8], n: u16, size: u16) -> bool
    requires { (length bytes.now ≡ record_size) × ((n ≤ 10) × (size ≤ 1024)) }
    ensures { result ≡ all_below (whole_at bytes.now n) size }
{
    for at in (0..size).step_by(64) {
        if !block_whole(bytes, n, at, size.min(at + 64)) {
            return false;
        }
    }
    true
}

// Whether node x is the lowest of a job's subcube.
fn is_lowest(x: u16, holder: u16, stars: u16) -> bool
    ensures { result ≡ is_lowest holder stars x }
{
    (holder != 0) & (x & stars == 0)
}

// How many nodes are the lowest of a job's subcube. The loop runs to its end, so that the compiler takes many nodes at a time.
fn lowest_nodes(bytes: &[u8], size: u16) -> u16
    requires { (length bytes.now ≡ record_size) × (size ≤ 1024) }
    ensures { result ≡ count_below size (lowest_at bytes.now) }
{
    let mut count = 0;
    for x in 0..size {
        count += u16::from(is_lowest(x, holder_at(bytes, x), stars_at(bytes, x)));
    }
    count
}

// Whether job j had no mark; it has one after.
fn mark(marks: &mut [u8; 8192], j: u16) -> bool
    requires { length marks.old ≡ 8192 }
    ensures { (result ≡ not (is_marked marks.old j)) × MarkedIf true j marks.old marks.new }
{
    let at = usize::from(j / 8);
    let byte = marks[at];
    marks[at] = byte | (1 << (j % 8));
    (byte >> (j % 8)) % 2 == 0
}

// Whether node x, if it is the lowest of a job's subcube, is the first such of the job, by the job's mark; it is marked after.
fn is_alone(marks: &mut [u8; 8192], x: u16, holder: u16, stars: u16) -> bool
    requires { length marks.old ≡ 8192 }
    ensures { (result ≡ is_alone holder stars x (is_marked marks.old holder))
        × MarkedIf (is_lowest holder stars x) holder marks.old marks.new }
{
    !is_lowest(x, holder, stars) || mark(marks, holder)
}

// Whether each job has one lowest node below `size`. A mark for each job number, a bit as there is no heap, tells whether one came before.
// The loops over nodes stay apart: one for all would take each test as a closure, with clauses longer than the loop.
fn all_alone(bytes: &[u8], size: u16) -> bool
    requires { (length bytes.now ≡ record_size) × (size ≤ 1024) }
    ensures { result ≡ all_below (alone_at bytes.now) size }
{
    let mut marks: [u8; 8192] = [0; 8192];
    for x in 0..size {
        if !is_alone(&mut marks, x, holder_at(bytes, x), stars_at(bytes, x)) {
            return false;
        }
    }
    true
}

// Whether node y is the lowest of a subcube of this job.
fn is_lowest_for(bytes: &[u8], job: u16, y: u16) -> bool
    requires { (length bytes.now ≡ record_size) × (y < 1024) }
    ensures { result ≡ lowest_for bytes.now job y }
{
    (y & stars_at(bytes, y) == 0) & (holder_at(bytes, y) == job)
}

// Whether no node before x is the lowest of a subcube of this job.
fn none_before(bytes: &[u8], x: u16, job: u16) -> bool
    requires { (length bytes.now ≡ record_size) × (x < 1024) }
    ensures { result ≡ not (any_below (lowest_for bytes.now job) x) }
{
    let mut seen = false;
    for y in 0..x {
        seen = seen | is_lowest_for(bytes, job, y);
    }
    !seen
}

// Whether node x, if it is the lowest of a job's subcube, is the first such of the job, by the nodes before it.
fn is_first(bytes: &[u8], x: u16, holder: u16, stars: u16) -> bool
    requires { (length bytes.now ≡ record_size) × (x < 1024) }
    ensures { result ≡ is_alone holder stars x (any_below (lowest_for bytes.now holder) x) }
{
    !is_lowest(x, holder, stars) || none_before(bytes, x, holder)
}

// The same as `all_alone`, by pairs: for so few nodes that this costs less than clearing the marks.
fn pairs_alone(bytes: &[u8], size: u16) -> bool
    requires { (length bytes.now ≡ record_size) × (size ≤ 1024) }
    ensures { result ≡ all_below (alone_at bytes.now) size }
{
    let mut right = true;
    for x in 0..size {
        right = right & is_first(bytes, x, holder_at(bytes, x), stars_at(bytes, x));
    }
    right
}

// Whether each job has one lowest node below `size`. Of fewer than two lowest nodes no two are one job's.
fn one_lowest(bytes: &[u8], size: u16) -> bool
    requires { (length bytes.now ≡ record_size) × (size ≤ 1024) }
    ensures { result ≡ all_below (alone_at bytes.now) size }
{
    if lowest_nodes(bytes, size) < 2 {
        return true;
    }
    if size <= 32 {
        return pairs_alone(bytes, size);
    }
    all_alone(bytes, size)
}

// Whether each job's nodes are exactly a subcube with the stored star bits.
pub fn is_formed(bytes: &[u8]) -> bool
    requires { valid_record bytes.now ≡ true }
    ensures { result ≡ (formed_record bytes.now).test }
{
    let n = u16::from(record::dimension(bytes));
    let size = hypercube::pow2(n);
    all_whole(bytes, n, size) && one_lowest(bytes, size)
}
