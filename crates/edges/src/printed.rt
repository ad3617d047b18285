// Calls whose answers are printed: the number returned and the six words of the reply buffer, which held 61166 in each before the call.
ghost use Rattle.std.specs.Prelude.{◌<◌, ◌≤◌};

use hypercube::Node;
use state::Call;
use std::io;

pub(crate) type Record = [u8; record::SIZE];

// A record's size of bytes 170, which set-up does not mind.
pub(crate) fn buffer() -> Record {
    [170; record::SIZE]
}

pub(crate) fn good(x: u16) -> Call {
    Call::Good(Node(x))
}

pub(crate) fn fault(x: u16) -> Call {
    Call::Fault(Node(x))
}

pub(crate) fn repaired(x: u16) -> Call {
    Call::Repaired(Node(x))
}

pub(crate) fn request(job: u16, k: u8, strategy: u8) -> Call {
    Call::Request { job, k, strategy }
}

pub(crate) fn grow(job: u16, k: u8, strategy: u8) -> Call {
    Call::Grow { job, k, strategy }
}

pub(crate) fn set_up(rt: &impl Print, name: &str, rec: &mut [u8], n: u32) -> io::Result<()> {
    println!(rt; "{name}: {}", cube::cube_setup(rec, n))
}

pub(crate) fn load(rt: &impl Print, name: &str, rec: &[u8]) -> io::Result<()> {
    println!(rt; "{name}: {}", cube::cube_load(rec))
}

// A record with another byte at a place.
pub(crate) fn with_byte(rec: &Record, at: usize, byte: u8) -> Record
    requires { at < 5136 }
{
    let mut other = *rec;
    other[at] = byte;
    other
}

// The rest of a line: words of two bytes, low byte first; as in `value_table`, for a library's contract could not tell what is printed.
pub(crate) fn print_words(rt: &impl Print, bytes: &[u8]) -> io::Result<()> {
    let (words, _) = bytes.as_chunks();
    for word in words {
        print!(rt; " {}", u16::from_le_bytes(*word))?;
    }
    println!(rt)
}

// A frame with a reply buffer of `room` bytes.
fn answer(rt: &impl Print, name: &str, rec: &mut [u8], frame: &[u8], room: usize) -> io::Result<()>
    requires { room ≤ 12 }
{
    let mut reply = [238; 12];
    let number = cube::cube_call(rec, frame, &mut reply[..room]);
    print!(rt; "{name}: {number},")?;
    print_words(rt, &reply)
}

pub(crate) fn frame(rt: &impl Print, name: &str, rec: &mut [u8], frame: &[u8]) -> io::Result<()> {
    answer(rt, name, rec, frame, 12)
}

// With a reply buffer of 11 bytes.
pub(crate) fn short_reply(
    rt: &impl Print,
    name: &str,
    rec: &mut [u8],
    frame: &[u8],
) -> io::Result<()> {
    answer(rt, name, rec, frame, 11)
}

pub(crate) fn call(rt: &impl Print, name: &str, rec: &mut [u8], c: Call) -> io::Result<()> {
    frame(rt, name, rec, call_frames::frame_of(c).as_bytes())
}

pub(crate) fn frames(rt: &impl Print, rec: &mut [u8], list: &[(&str, &[u8])]) -> io::Result<()> {
    for (name, bytes) in list {
        frame(rt, name, rec, bytes)?;
    }
    Ok(())
}

pub(crate) fn calls(rt: &impl Print, rec: &mut [u8], list: &[(&str, Call)]) -> io::Result<()> {
    for (name, c) in list {
        call(rt, name, rec, *c)?;
    }
    Ok(())
}

// A call with nothing printed.
fn made(rec: &mut [u8], c: Call) {
    let mut reply = [238; 12];
    cube::cube_call(rec, call_frames::frame_of(c).as_bytes(), &mut reply);
}

pub(crate) fn make_good(rec: &mut [u8], x: u16) {
    made(rec, good(x));
}

// A request by buddy, with nothing printed.
pub(crate) fn hold(rec: &mut [u8], job: u16, k: u8) {
    made(rec, request(job, k, 0));
}

// A release, with nothing printed.
pub(crate) fn leave(rec: &mut [u8], job: u16) {
    made(rec, Call::Release(job));
}

// 'good' of each node from `first` to the one before `end`, with nothing printed.
pub(crate) fn make_good_from(rec: &mut [u8], first: u16, end: u16) {
    for x in first..end {
        make_good(rec, x);
    }
}

// A cube whose nodes are silent.
pub(crate) fn fresh(n: u32) -> Record {
    let mut rec = buffer();
    cube::cube_setup(&mut rec, n);
    rec
}

// A cube all of whose nodes are good; `end` is 2^n.
pub(crate) fn all_good(n: u32, end: u16) -> Record {
    let mut rec = fresh(n);
    make_good_from(&mut rec, 0, end);
    rec
}

// A cube of n 3 all of whose nodes are good but 1 and 5, which are silent: a relabel makes direction 3 the first.
pub(crate) fn one_and_five_silent() -> Record {
    let mut rec = fresh(3);
    make_good(&mut rec, 0);
    make_good_from(&mut rec, 2, 5);
    make_good_from(&mut rec, 6, 8);
    rec
}
