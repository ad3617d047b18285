// One call made on a state by value and on a record, and the line that shows both: the call, the reply by values, the number returned by the record's
// call with the six words of its reply buffer, which held 61166 each before, and the sums of the state and of the record afterwards.
use super::sums;
use hypercube::{Node, Reply};
use state::{Call, State, Step};
use std::io;

// What a frame call gave.
#[derive(Clone, Copy)]
struct Given {
    number: u32,
    reply: [u8; 12],
}

fn by_values(s: State, c: Call) -> Step {
    match c {
        Call::Good(x) => allocator::good(s, x),
        Call::Fault(x) => allocator::fault(s, x),
        Call::Repaired(x) => allocator::repaired(s, x),
        Call::Relabel => allocator::relabel(s),
        Call::Request { job, k, strategy } => allocator::request(s, job, k, strategy),
        Call::Release(job) => allocator::release(s, job),
        Call::Grow { job, k, strategy } => allocator::grow(s, job, k, strategy),
    }
}

fn by_record(rec: &mut [u8], c: Call) -> Given {
    let frame = call_frames::frame_of(c);
    let mut reply = [238; 12];
    let number = cube::cube_call(rec, frame.as_bytes(), &mut reply);
    Given { number, reply }
}

fn show_call(rt: &impl Print, c: Call) -> io::Result<()> {
    match c {
        Call::Good(x) => print!(rt; " good {}", x.0),
        Call::Fault(x) => print!(rt; " fault {}", x.0),
        Call::Repaired(x) => print!(rt; " repaired {}", x.0),
        Call::Relabel => print!(rt; " relabel"),
        Call::Request { job, k, strategy } => print!(rt; " request {job} {k} {strategy}"),
        Call::Release(job) => print!(rt; " release {job}"),
        Call::Grow { job, k, strategy } => print!(rt; " grow {job} {k} {strategy}"),
    }
}

fn show_reply(rt: &impl Print, r: Reply) -> io::Result<()> {
    match r {
        Reply::Granted {
            job,
            low,
            stars,
            tried,
        } => print!(rt; "; granted {job} {} {stars} {tried}", low.0),
        Reply::Refused { number, tried } => print!(rt; "; refused {number} {tried}"),
        Reply::Done(value) => print!(rt; "; done {value}"),
    }
}

// The words as in `edges`: of what is printed a library's contract could not tell anything.
fn show_given(rt: &impl Print, g: Given) -> io::Result<()> {
    print!(rt; "; {}", g.number)?;
    let (words, _) = g.reply.as_chunks();
    for word in words {
        print!(rt; " {}", u16::from_le_bytes(*word))?;
    }
    Ok(())
}

// The end of a line.
pub(crate) fn show_sums(rt: &impl Print, s: &State, rec: &[u8]) -> io::Result<()> {
    println!(rt; "; {} {}", sums::of_state(s), sums::of_record(rec))
}

// The call with its line; the state after it.
pub(crate) fn called(
    rt: &impl Print,
    place: u32,
    s: State,
    rec: &mut [u8],
    c: Call,
) -> io::Result<State> {
    print!(rt; "{place}")?;
    show_call(rt, c)?;
    let Step { state, reply } = by_values(s, c);
    show_reply(rt, reply)?;
    show_given(rt, by_record(rec, c))?;
    show_sums(rt, &state, rec)?;
    Ok(state)
}

// A node reported good on both, with no line.
pub(crate) fn reported(s: State, rec: &mut [u8], x: Node) -> State {
    let step = allocator::good(s, x);
    by_record(rec, Call::Good(x));
    step.state
}
