// The calls of a session, made of numbers drawn one after another.
ghost use Rattle.std.specs.Prelude.{◌≤◌};

use hypercube::Node;
use state::Call;

// The number after x; a session of dimension n starts at n + 261.
pub(crate) fn after(x: u32) -> u32 {
    (x % 65521 * 17364 + 1) % 65521
}

// Eighths of the cube, and 2^n: those of 1024, halved 10 - n times.
fn node_of(n: u16, x: u32) -> Node
    requires { n ≤ 10 }
{
    Node((x % 9 * 128) as u16 >> (10 - n))
}

// One of the jobs 0 to 3 and 65535.
fn job_of(x: u32) -> u16 {
    let j = (x / 5 % 5) as u16;
    if j == 4 { 65535 } else { j }
}

// k up to n + 1.
fn k_of(n: u16, x: u32) -> u8
    requires { n ≤ 10 }
{
    (x / 11 % (u32::from(n) + 2)) as u8
}

// Strategies up to 5.
fn strategy_of(x: u32) -> u8 {
    (x / 13 % 6) as u8
}

fn request_of(n: u16, x: u32) -> Call
    requires { n ≤ 10 }
{
    Call::Request {
        job: job_of(x),
        k: k_of(n, x),
        strategy: strategy_of(x),
    }
}

fn growth_of(n: u16, x: u32) -> Call
    requires { n ≤ 10 }
{
    Call::Grow {
        job: job_of(x),
        k: k_of(n, x),
        strategy: strategy_of(x),
    }
}

// Two faults, a relabel, then what the number gives. The kinds are numbers, each as often as it is drawn, since the second program draws the same.
fn kind_of(place: u32, x: u32) -> u32 {
    match place {
        0 | 1 => 1,
        2 => 6,
        _ => x / 17 % 22,
    }
}

// The call at a place, from 0, of a session of dimension n.
pub(crate) fn call_of(n: u16, place: u32, x: u32) -> Call
    requires { n ≤ 10 }
{
    match kind_of(place, x) {
        0 => Call::Good(node_of(n, x)),
        1..=3 => Call::Fault(node_of(n, x)),
        4..=5 => Call::Repaired(node_of(n, x)),
        6..=7 => Call::Relabel,
        8..=12 => request_of(n, x),
        13..=15 => Call::Release(job_of(x)),
        _ => growth_of(n, x),
    }
}
