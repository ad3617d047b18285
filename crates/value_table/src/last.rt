// The end of a session, from place 40 on: jobs 1 and 2 ask for a node each, then they grow by turns, to each k up to n; half way node 1 fails.
// The strategies go round.
ghost use Rattle.std.specs.Prelude.{◌≤◌};

use super::pair;
use hypercube::Node;
use state::{Call, State};
use std::io;

fn request(n: u16, job: u16) -> Call
    requires { n ≤ 10 }
{
    Call::Request {
        job,
        k: 0,
        strategy: (n % 5) as u8,
    }
}

fn growth(n: u16, k: u16) -> Call
    requires { (n ≤ 10) × (k ≤ 10) }
{
    Call::Grow {
        job: 1 + k % 2,
        k: k as u8,
        strategy: ((n + k / 2) % 5) as u8,
    }
}

fn requests(rt: &impl Print, n: u16, before: State, rec: &mut [u8]) -> io::Result<State>
    requires { n ≤ 10 }
{
    let s = pair::called(rt, 40, before, rec, request(n, 1))?;
    pair::called(rt, 41, s, rec, request(n, 2))
}

// Growths to each k from `first` to the one before `end`; that to k 0 would be at `place`.
fn growths(
    rt: &impl Print,
    n: u16,
    first: u16,
    end: u16,
    place: u32,
    before: State,
    rec: &mut [u8],
) -> io::Result<State>
    requires { (n ≤ 10) × ((end ≤ 11) × (place ≤ 43)) }
{
    let mut s = before;
    for k in first..end {
        s = pair::called(rt, place + u32::from(k), s, rec, growth(n, k))?;
    }
    Ok(s)
}

pub(crate) fn calls(rt: &impl Print, n: u16, before: State, rec: &mut [u8]) -> io::Result<()>
    requires { n ≤ 10 }
{
    let half = n / 2;
    let s = requests(rt, n, before, rec)?;
    let s = growths(rt, n, 0, half, 42, s, rec)?;
    let s = pair::called(rt, 42 + u32::from(half), s, rec, Call::Fault(Node(1)))?;
    growths(rt, n, half, n + 1, 43, s, rec)?;
    Ok(())
}
