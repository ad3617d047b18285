// A session for each n: a fresh cube, every node but 2^n / 2 reported good, then 40 calls that are drawn, and its end.
ghost use Rattle.std.specs.Prelude.{◌≤◌};

use super::{drawn, last, pair};
use hypercube::Node;
use state::State;
use std::io;

fn good_from(first: u16, end: u16, before: State, rec: &mut [u8]) -> State {
    let mut s = before;
    for x in first..end {
        s = pair::reported(s, rec, Node(x));
    }
    s
}

// Node 2^n / 2 stays silent.
fn good_but_half(n: u16, fresh: State, rec: &mut [u8]) -> State
    requires { n ≤ 10 }
{
    let count = hypercube::pow2(n);
    let half = count / 2;
    let s = good_from(0, half, fresh, rec);
    good_from(half + 1, count, s, rec)
}

fn calls(rt: &impl Print, n: u16, start: State, rec: &mut [u8]) -> io::Result<State>
    requires { n ≤ 10 }
{
    let mut s = start;
    let mut x = u32::from(n) + 261;
    for place in 0..40u32 {
        x = drawn::after(x);
        s = pair::called(rt, place, s, rec, drawn::call_of(n, place, x))?;
    }
    Ok(s)
}

fn session(rt: &impl Print, n: u16) -> io::Result<()>
    requires { n ≤ 10 }
{
    let mut rec = [0; record::SIZE];
    cube::cube_setup(&mut rec, u32::from(n));
    let s = good_but_half(n, State::fresh(n as u8), &mut rec);
    print!(rt; "session {n}")?;
    pair::show_sums(rt, &s, &rec)?;
    let s = calls(rt, n, s, &mut rec)?;
    last::calls(rt, n, s, &mut rec)
}

pub(crate) fn sessions(rt: &impl Print) -> io::Result<()> {
    for n in 0..=10u16 {
        session(rt, n)?;
    }
    Ok(())
}
