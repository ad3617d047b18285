// A cube's state, the calls, and the state and reply after one, as values.
#![tactic(auto)]

ghost use Rattle.std.specs.Prelude.{◌≡◌, not, ◌^◌, ◌<◌, ◌≤◌, eqb, get_or};
ghost use Rattle.hypercube.specs.Lists.{all_below};
ghost use Rattle.state.specs.States.{fresh_state};
ghost use Rattle.state.specs.Valid.{entry_right, map_right};
ghost use Rattle.hypercube.specs.Replies.{number_of};

use hypercube::{Node, Reply};

// A cube: its dimension, the map, and the holder and the condition of each of 1024 nodes (document 01, "Node and record"), with the star bits of the
// grant that holds it (document 02, (f)). An array for each, as document 01 names the form, and as they lie in a record.
#[derive(Clone, Copy)]
pub struct State {
    pub n: u8,
    pub map: [u8; 10],
    pub holders: [u16; 1024],
    pub conditions: [u8; 1024],
    pub stars: [u16; 1024],
}

// The calls (document 01, "Six calls and their frames"; a growth by document 02, (e)).
#[derive(Clone, Copy)]
pub enum Call {
    Good(Node),
    Fault(Node),
    Repaired(Node),
    Relabel,
    Request { job: u16, k: u8, strategy: u8 },
    Release(u16),
    Grow { job: u16, k: u8, strategy: u8 },
}

// The state after a call, and its reply.
#[derive(Clone, Copy)]
pub struct Step {
    pub state: State,
    pub reply: Reply,
}

// How many nodes a cube of dimension n has.
pub fn node_count(n: u8) -> usize
    requires { n ≤ 10 }
    ensures { (result ≡ 2 ^ n) × (result ≤ 1024) }
{
    usize::from(hypercube::pow2(u16::from(n)))
}

// Whether entry i of the map is none of those before it.
fn differs(map: &[u8; 10], i: usize) -> bool
    requires { i < 10 }
    ensures { result ≡ all_below (λ j. not (eqb (get_or map.now j 0) (get_or map.now i 0))) i }
{
    map[..i].iter().all(|d| *d != map[i])
}

// Whether entry i is right: "map entries above n are i itself, the first n permute 1 to n".
#[tactic(auto, unfolding(crate::specs::Valid::entry_right))]
fn entry_right(map: &[u8; 10], n: u8, i: usize) -> bool
    requires { i < 10 }
    ensures { result ≡ entry_right map.now n i }
{
    if i < usize::from(n) {
        1 <= map[i] && map[i] <= n && differs(map, i)
    } else {
        usize::from(map[i]) == i + 1
    }
}

fn entries_right(map: &[u8; 10], n: u8) -> bool
    ensures { result ≡ map_right map.now n }
{
    (0..10).all(|i| entry_right(map, n, i))
}

// Whether the map is right. The identity, which most records have, is so for every n.
pub fn map_right(map: &[u8; 10], n: u8) -> bool
    ensures { result ≡ map_right map.now n }
{
    labels::is_identity(map) || entries_right(map, n)
}

impl State {
    // "A fresh cube has all 1024 nodes unheld and unconfirmed, and each direction maps to itself."
    pub fn fresh(n: u8) -> State
        ensures { result ≡ fresh_state n }
    {
        State {
            n,
            map: labels::IDENTITY,
            holders: [0; 1024],
            conditions: [0; 1024],
            stars: [0; 1024],
        }
    }
}

// A refusal with nothing tried.
pub fn refused(number: u16) -> Reply
    ensures { result ≡ Reply.Refused number 0 }
{
    Reply::Refused { number, tried: 0 }
}

// A reply's number: 0, or the refusal's.
pub fn number(r: Reply) -> u16
    ensures { result ≡ number_of r }
{
    match r {
        Reply::Refused { number, .. } => number,
        Reply::Granted { .. } | Reply::Done(_) => 0,
    }
}
