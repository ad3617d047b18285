// The nodes' holders, conditions and star bits, and the map, read and changed on a record's bytes where they lie.
#![tactic(auto)]

ghost use Rattle.std.specs.Prelude.{◌≡◌, true, not, cond, ◌+◌, ◌<◌, ◌≤◌, length, get_or, set, eqb};
ghost use Rattle.std.specs.Int.Bits.{bit_and};
ghost use Rattle.hypercube.specs.Bits.{width};
ghost use Rattle.hypercube.specs.Lists.{any_below, count_below};
ghost use Rattle.hypercube.specs.Subcubes.{vertices};
ghost use Rattle.labels.specs.Flags.{EmptyFrom, flag, by_node};
ghost use Rattle.labels.specs.Relabelling.{relabelling};
ghost use Rattle.state.specs.States.{with_condition, with_map, given, cleared, lost, taken};
ghost use Rattle.record.specs.Layout.{record_size, encode, decode, Encoded, head_right};
ghost use Rattle.nodes.specs.Words.{Words, words_of, with_words};
ghost use Rattle.nodes.specs.Lowest.{LowestOf};

use hypercube::Node;
use labels::Relabelled;
use record::{all_zero, word};

// Node x's holder, read in place.
pub fn holder_at(bytes: &[u8], x: Node) -> u16
    requires { (length bytes.now ≡ record_size) × (x.0 < 1024) }
    ensures { result ≡ get_or (decode bytes.now).holders x.0 0 }
{
    record::holder_at(bytes, x.0)
}

// Node x's condition, read in place.
pub fn condition_at(bytes: &[u8], x: Node) -> u8
    requires { (length bytes.now ≡ record_size) × (x.0 < 1024) }
    ensures { result ≡ get_or (decode bytes.now).conditions x.0 0 }
{
    bytes[record::CONDITIONS + usize::from(x.0)]
}

// Node x's condition, set in place: one byte is stored.
pub fn set_condition(bytes: &mut [u8], x: Node, condition: u8)
    requires { (length bytes.old ≡ record_size) × ((x.0 < 1024) × (head_right bytes.old ≡ true)) }
    ensures { bytes.new ≡ encode (with_condition (decode bytes.old) x.0 condition) }
{
    let at = record::CONDITIONS + usize::from(x.0);
    bytes[at] = condition;
}

// Node x's word of the part from place `at` on, its holder or its star bits, set in place.
fn set_word(bytes: &mut [u8], at: usize, x: usize, v: u16)
    requires { Encoded bytes.old × ((x < 1024) × Words at) }
    ensures { bytes.new ≡ encode (with_words at (decode bytes.old) (set (words_of at (decode bytes.old)) x v)) }
{
    record::put_word(bytes, at + 2 * x, v);
}

// The map, set in place.
pub fn set_map(bytes: &mut [u8], map: &[u8; 10])
    requires bytes_len { (length bytes.old ≡ record_size) × (head_right bytes.old ≡ true) }
    requires map_len { length map.now ≡ 10 }
    ensures { bytes.new ≡ encode (with_map (decode bytes.old) map.now) }
{
    bytes[record::MAP..record::MAP + 10].copy_from_slice(map);
}

// The relabelling over the conditions that a record says.
pub fn relabelling(bytes: &[u8]) -> Relabelled
    requires { (length bytes.now ≡ record_size) × ((decode bytes.now).n ≤ 10) }
    ensures { result ≡ relabelling (decode bytes.now).n (decode bytes.now).conditions }
{
    let n = record::dimension(bytes);
    labels::relabel(u16::from(n), &bytes[record::CONDITIONS..record::STARS])
}

// Whether any of the nodes below `size` is held: a byte of their holders isn't 0.
pub fn any_held(bytes: &[u8], size: usize) -> bool
    requires { (length bytes.now ≡ record_size) × (size ≤ 1024) }
    ensures { result ≡ any_below (λ x. not (eqb (get_or (decode bytes.now).holders x 0) 0)) size }
{
    let end = record::HOLDERS + 2 * size;
    !all_zero(&bytes[record::HOLDERS..end])
}

// How many of the nodes below `size` a job holds.
pub fn count_held(bytes: &[u8], size: usize, job: u16) -> u16
    requires { (length bytes.now ≡ record_size) × (size ≤ 1024) }
    ensures { result ≡ count_below size (λ x. eqb (get_or (decode bytes.now).holders x 0) job) }
{
    let mut count = 0;
    for x in 0..size {
        if word(bytes, record::HOLDERS + 2 * x) == job {
            count += 1;
        }
    }
    count
}

// Node y's word once v stands at each node of the subcube with this lowest node and these star bits: y is one of its nodes where its other bits are
// the lowest's.
fn after_grant(y: u16, first: u16, stars: u16, v: u16, old: u16) -> u16
    requires { (y < 1024) × (first < 1024) }
    ensures { result ≡ cond (eqb (first + bit_and y stars) y) v old }
{
    if first + (y & stars) == y { v } else { old }
}

// v set at each node of the subcube with this lowest node and these star bits, in the part from place `at` on.
// Its nodes lie from the lowest to the one with all stars set. As in `clear_words`, a word is stored at each number from one to the other,
// changed or not; that and numbers of 16 bits make the loop compile to vector code.
fn give_words(bytes: &mut [u8], at: usize, low: Node, stars: u16, v: u16)
    requires encoded { Encoded bytes.old × Words at }
    requires lowest_of { LowestOf stars low.0 }
    ensures { bytes.new ≡ encode (with_words at (decode bytes.old)
        (given (words_of at (decode bytes.old)) (vertices width stars low.0) v)) }
{
    let first = low.0;
    let end = usize::from(first + stars) + 1;
    for y in usize::from(first)..end {
        let w = after_grant(y as u16, first, stars, v, word(bytes, at + 2 * y));
        set_word(bytes, at, y, w);
    }
}

// The job made the holder of each node of the subcube with this lowest node and these star bits, and the star bits stored there.
pub fn give(bytes: &mut [u8], low: Node, stars: u16, job: u16)
    requires bytes_len { (length bytes.old ≡ record_size) × (head_right bytes.old ≡ true) }
    requires lowest_of { LowestOf stars low.0 }
    ensures { bytes.new ≡ encode (taken (decode bytes.old) (vertices width stars low.0) job stars) }
{
    give_words(bytes, record::HOLDERS, low, stars, job);
    give_words(bytes, record::STARS, low, stars, stars);
}

// A node's word once the job's nodes have none.
fn without(holder: u16, job: u16, old: u16) -> u16
    ensures { result ≡ cond (eqb holder job) 0 old }
{
    if holder == job { 0 } else { old }
}

// 0 set at each node of the job, in the part from place `at` on, where from `size` up nothing but 0 stands. A word is stored at each node, so the
// loop compiles to vector code.
fn clear_words(bytes: &mut [u8], at: usize, size: usize, job: u16)
    requires encoded { Encoded bytes.old × Words at }
    requires empty_from { EmptyFrom (words_of at (decode bytes.old)) size }
    ensures { bytes.new ≡ encode (with_words at (decode bytes.old)
        (cleared (words_of at (decode bytes.old)) (decode bytes.old).holders job)) }
{
    for x in 0..size {
        let w = without(
            word(bytes, record::HOLDERS + 2 * x),
            job,
            word(bytes, at + 2 * x),
        );
        set_word(bytes, at, x, w);
    }
}

// Every node of the job made unheld, and its star bits 0: these first, as the holders say which are the job's. None from `size` up is held.
pub fn clear(bytes: &mut [u8], size: usize, job: u16)
    requires bytes_len { (length bytes.old ≡ record_size) × (head_right bytes.old ≡ true) }
    requires empty_from { EmptyFrom (decode bytes.old).holders size × EmptyFrom (decode bytes.old).stars size }
    ensures { bytes.new ≡ encode (lost (decode bytes.old) job) }
{
    clear_words(bytes, record::STARS, size, job);
    clear_words(bytes, record::HOLDERS, size, job);
}

// The flags of the nodes below `size` where a job asks, by node, put into flags that are 0 from there up. Condition and holder are read at every
// node, so the loop compiles to vector code.
pub fn flags_by_node(bytes: &[u8], size: usize, job: u16, flags: &mut [u8; 1024])
    requires bytes_len { (length bytes.now ≡ record_size) × (size ≤ 1024) }
    requires empty_from { EmptyFrom flags.old size }
    ensures { flags.new ≡ by_node size (flag (decode bytes.now).conditions (decode bytes.now).holders job) }
{
    for x in 0..size {
        flags[x] = labels::flag_of(
            bytes[record::CONDITIONS + x],
            word(bytes, record::HOLDERS + 2 * x),
            job,
        );
    }
}
