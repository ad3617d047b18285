// One call of each kind on a state of dimension 3 with one thing changed, or two of one node, and on its record. The first two changes leave it
// right.
use super::pair;
use hypercube::Node;
use state::{Call, State};
use std::io;

// The change is a number, since that is printed, here and by the second program.
fn changed(change: u32) -> State {
    let mut s = State::fresh(3);
    match change {
        0 => s.holders[7] = 65535,
        1 => {
            s.holders[7] = 65535;
            s.stars[7] = 65535;
        }
        2 => s.n = 11,
        3 => s.conditions[0] = 3,
        4 => s.holders[8] = 5,
        5 => s.conditions[1023] = 1,
        6 => s.map[0] = 2,
        7 => s.map[2] = 4,
        8 => s.map[9] = 9,
        9 => s.stars[0] = 1,
        10 => s.stars[7] = 256,
        11 => s.stars[8] = 1,
        _ => s.stars[1023] = 256,
    }
    s
}

fn reports(rt: &impl Print, before: State, rec: &mut [u8]) -> io::Result<State> {
    let s = pair::called(rt, 0, before, rec, Call::Good(Node(0)))?;
    let s = pair::called(rt, 1, s, rec, Call::Fault(Node(0)))?;
    pair::called(rt, 2, s, rec, Call::Repaired(Node(0)))
}

fn others(rt: &impl Print, before: State, rec: &mut [u8]) -> io::Result<()> {
    let s = pair::called(rt, 3, before, rec, Call::Relabel)?;
    let request = Call::Request {
        job: 1,
        k: 0,
        strategy: 0,
    };
    let s = pair::called(rt, 4, s, rec, request)?;
    let growth = Call::Grow {
        job: 65535,
        k: 1,
        strategy: 0,
    };
    let s = pair::called(rt, 5, s, rec, growth)?;
    pair::called(rt, 6, s, rec, Call::Release(65535))?;
    Ok(())
}

fn state(rt: &impl Print, change: u32) -> io::Result<()> {
    let s = changed(change);
    let mut rec = [0; record::SIZE];
    record::store(s, &mut rec);
    print!(rt; "damaged {change}")?;
    pair::show_sums(rt, &s, &rec)?;
    let s = reports(rt, s, &mut rec)?;
    others(rt, s, &mut rec)
}

pub(crate) fn states(rt: &impl Print) -> io::Result<()> {
    for change in 0..13u32 {
        state(rt, change)?;
    }
    Ok(())
}
