// A record's bytes, and the state that they say (document 01, "Node and record"; document 02, (f)).
#![tactic(auto)]

ghost use Rattle.std.specs.Prelude.{◌≡◌, cond, map, ◌+◌, ◌*◌, ◌<◌, ◌≤◌, eqb, length, get_or};
ghost use Rattle.hypercube.specs.Lists.{from, all_below};
ghost use Rattle.hypercube.specs.Words.{word, words, put_word};
ghost use Rattle.labels.specs.Flags.{EmptyFrom};
ghost use Rattle.state.specs.Valid.{nodes_right, stars_right, valid};
ghost use Rattle.record.specs.Layout.{holders_at, conditions_at, stars_at, record_size, encode, decode, head_right, valid_record, star_of};
ghost use Rattle.record.specs.Stored.{Begun, Stored, Laid};
ghost use Rattle.record.specs.Highest.{highest_of, all_zero};

use state::State;

// The record's size, and the places of its parts.
pub const SIZE: usize = 5136;

pub const MAP: usize = 5;

pub const HOLDERS: usize = 16;

pub const CONDITIONS: usize = 2064;

pub const STARS: usize = 3088;

// The length field and the kind field.
const LENGTH: u16 = SIZE as u16;

const KIND: u16 = 2;

// The two bytes from place `at` on, little-endian.
#[tactic(auto, unfolding(hypercube::specs::Words::word))]
pub fn word(bytes: &[u8], at: usize) -> u16
    requires { at + 1 < length bytes.now }
    ensures { result ≡ word bytes.now at }
{
    u16::from_le_bytes([bytes[at], bytes[at + 1]])
}

// x as the two bytes from place `at` on, little-endian.
pub fn put_word(bytes: &mut [u8], at: usize, x: u16)
    requires { at + 1 < length bytes.old }
    ensures { bytes.new ≡ put_word bytes.old at x }
{
    let [low, high] = x.to_le_bytes();
    bytes[at] = low;
    bytes[at + 1] = high;
}

// Node x's holder, read in place.
#[tactic(auto, using(crate::proofs::Round::decode_holder))]
pub fn holder_at(bytes: &[u8], x: u16) -> u16
    requires { (length bytes.now ≡ record_size) × (x < 1024) }
    ensures { result ≡ get_or (decode bytes.now).holders x 0 }
{
    word(bytes, HOLDERS + 2 * usize::from(x))
}

// Node x's star bits, read in place.
#[tactic(auto, using(crate::proofs::Round::decode_star))]
pub fn stars_at(bytes: &[u8], x: u16) -> u16
    requires { (length bytes.now ≡ record_size) × (x < 1024) }
    ensures { result ≡ get_or (decode bytes.now).stars x 0 }
{
    word(bytes, STARS + 2 * usize::from(x))
}

// The dimension that a record says.
#[tactic(auto, unfolding(crate::specs::Layout::decode))]
pub fn dimension(bytes: &[u8]) -> u8
    requires { length bytes.now ≡ record_size }
    ensures { result ≡ (decode bytes.now).n }
{
    bytes[4]
}

// The bytes from place `at` on.
fn load_bytes<const N: usize>(bytes: &[u8], at: usize) -> [u8; N]
    requires { at + N ≤ length bytes.now }
    ensures { result ≡ map (λ i. get_or bytes.now (at + i) 0) (from 0 N) }
{
    let mut part = [0; N];
    part.copy_from_slice(&bytes[at..at + N]);
    part
}

#[tactic(auto, unfolding(crate::specs::Layout::decode))]
pub fn load_map(bytes: &[u8]) -> [u8; 10]
    requires { length bytes.now ≡ record_size }
    ensures { result ≡ (decode bytes.now).map }
{
    load_bytes(bytes, MAP)
}

// The 1024 words from place `at` on.
fn load_words(bytes: &[u8], at: usize) -> [u16; 1024]
    requires { at + 2048 ≤ length bytes.now }
    ensures { result ≡ map (λ x. word bytes.now (at + 2 * x)) (from 0 1024) }
{
    let mut words = [0; 1024];
    for x in 0..1024 {
        words[x] = word(bytes, at + 2 * x);
    }
    words
}

#[tactic(auto, unfolding(crate::specs::Layout::decode))]
fn load_conditions(bytes: &[u8]) -> [u8; 1024]
    requires { length bytes.now ≡ record_size }
    ensures { result ≡ (decode bytes.now).conditions }
{
    load_bytes(bytes, CONDITIONS)
}

// The state that a record says.
pub fn load(bytes: &[u8]) -> State
    requires { length bytes.now ≡ record_size }
    ensures { result ≡ decode bytes.now }
{
    let n = dimension(bytes);
    let map = load_map(bytes);
    let holders = load_words(bytes, HOLDERS);
    let conditions = load_conditions(bytes);
    let stars = load_words(bytes, STARS);
    State {
        n,
        map,
        holders,
        conditions,
        stars,
    }
}

// Length, kind and the zero byte are a record's.
pub fn head_right(bytes: &[u8]) -> bool
    requires { length bytes.now ≡ record_size }
    ensures { result ≡ head_right bytes.now }
{
    if word(bytes, 0) != LENGTH {
        return false;
    }
    if word(bytes, 2) != KIND {
        return false;
    }
    bytes[15] == 0
}

// The highest of the bytes, 0 for none. The loop reads both halves at once, of an odd number the middle byte twice, and runs to its end: so the
// compiler takes 64 bytes a turn, and the time doesn't hang on where the loop falls on cache lines, as it does with 32.
fn highest(part: &[u8]) -> u8
    ensures { result ≡ highest_of part.now }
{
    let upper = part.len() / 2;
    let turns = part.len() - upper;
    let mut m: u8 = 0;
    for i in 0..turns {
        m = m.max(part[i].max(part[upper + i]));
    }
    m
}

// Whether every byte is 0. This loop too reads both halves to their ends, and its 'or' is cheaper than `highest`'s comparison. One for both would
// take that step as a closure, with clauses longer than the loop.
pub fn all_zero(part: &[u8]) -> bool
    ensures { result ≡ all_zero part.now }
{
    let upper = part.len() / 2;
    let turns = part.len() - upper;
    let mut any = 0;
    for i in 0..turns {
        any |= part[i] | part[upper + i];
    }
    any == 0
}

// "Nodes from 2^n up have holder and condition 0", and below it "conditions up to 2"; `size` is 2^n.
fn nodes_right(bytes: &[u8], size: usize) -> bool
    requires { (length bytes.now ≡ record_size) × (size ≤ 1024) }
    ensures { result ≡ nodes_right (decode bytes.now).holders (decode bytes.now).conditions size }
{
    let nodes = CONDITIONS + size;
    if 2 < highest(&bytes[CONDITIONS..nodes]) {
        return false;
    }
    if !all_zero(&bytes[nodes..STARS]) {
        return false;
    }
    let held = HOLDERS + 2 * size;
    all_zero(&bytes[held..CONDITIONS])
}

// A node's star bits where it has no holder, else 0.
fn stray(holder: u16, stars: u16) -> u16
    ensures { result ≡ cond (eqb holder 0) stars 0 }
{
    if holder == 0 { stars } else { 0 }
}

// Whether every node below `size` that has star bits has a holder. The loop runs to its end, so that the compiler takes many nodes at a time.
fn none_stray(bytes: &[u8], size: usize) -> bool
    requires { (length bytes.now ≡ record_size) × (size ≤ 1024) }
    ensures { result ≡ all_below (star_of bytes.now) size }
{
    let mut any = 0;
    for x in 0..size {
        any |= stray(word(bytes, HOLDERS + 2 * x), word(bytes, STARS + 2 * x));
    }
    any == 0
}

// "refusal 1 also meets star bits at an unheld node"; none from `size` up is held.
fn stars_right(bytes: &[u8], size: usize) -> bool
    requires { (length bytes.now ≡ record_size) × EmptyFrom (decode bytes.now).holders size }
    ensures { result ≡ stars_right (decode bytes.now).holders (decode bytes.now).stars }
{
    let nodes = STARS + 2 * size;
    if !all_zero(&bytes[nodes..SIZE]) {
        return false;
    }
    none_stray(bytes, size)
}

// Whether the state that a record says is as "Node and record" has it; no more than the map is loaded.
fn state_right(bytes: &[u8]) -> bool
    requires { length bytes.now ≡ record_size }
    ensures { result ≡ valid (decode bytes.now) }
{
    let n = dimension(bytes);
    if 10 < n {
        return false;
    }
    let map = load_map(bytes);
    if !state::map_right(&map, n) {
        return false;
    }
    let size = state::node_count(n);
    if !nodes_right(bytes, size) {
        return false;
    }
    stars_right(bytes, size)
}

// Refusal 1's whole test.
pub fn is_valid(bytes: &[u8]) -> bool
    ensures { result ≡ valid_record bytes.now }
{
    if bytes.len() != SIZE {
        return false;
    }
    if !head_right(bytes) {
        return false;
    }
    state_right(bytes)
}

// The first 16 bytes: length, kind, n, the map and the zero byte. The others stay.
fn put_head(s: State, rec: &mut [u8])
    requires { length rec.old ≡ record_size }
    ensures { Stored s rec.old holders_at rec.new }
{
    put_word(rec, 0, LENGTH);
    put_word(rec, 2, KIND);
    rec[4] = s.n;
    rec[MAP..15].copy_from_slice(&s.map);
    rec[15] = 0;
}

// The two bytes of each number, from place `at` on. The others stay.
pub fn put_words(part: &[u16], at: usize, bytes: &mut [u8])
    requires { at + 2 * length part.now ≤ length bytes.old }
    ensures { Laid (words part.now) at (2 * length part.now) bytes.old bytes.new }
{
    for (x, v) in part.iter().enumerate() {
        put_word(bytes, at + 2 * x, *v);
    }
}

// The conditions after the holders. The others stay.
fn put_conditions(s: State, bytes: &mut [u8])
    requires { Begun s conditions_at bytes.old }
    ensures { Stored s bytes.old stars_at bytes.new }
{
    bytes[CONDITIONS..STARS].copy_from_slice(&s.conditions);
}

// The record that says a state.
pub fn store(s: State, bytes: &mut [u8])
    requires { length bytes.old ≡ record_size }
    ensures { bytes.new ≡ encode s }
{
    put_head(s, bytes);
    put_words(&s.holders, HOLDERS, bytes);
    put_conditions(s, bytes);
    put_words(&s.stars, STARS, bytes);
}
