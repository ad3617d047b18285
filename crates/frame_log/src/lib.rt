// A log of frames: one frame at a time from a window on the input, and its outcome. Document 01, "Log program".
#![tactic(auto)]

ghost use Rattle.std.specs.Prelude.{◌≡◌, ◌≢◌, cond, length, drop};
ghost use Rattle.tally.specs.declared.Outcome.TheVariants.{Refused};
ghost use Rattle.hypercube.specs.Refusals.{refusal_number};
ghost use Rattle.frame_log.specs.declared.Next.TheVariants.{Broken, More};
ghost use Rattle.frame_log.specs.Next.{next_of};
ghost use Rattle.hypercube.specs.Replies.{heard};
ghost use Rattle.frame_log.specs.Frames.{First, Later, told};
ghost use Rattle.frame_log.specs.Steps.{OnFrame, Stepped};

use hypercube::Refusal;
use tally::Outcome;

// The place in a window up to which frames were read.
#[derive(Clone, Copy)]
pub struct Cursor {
    pub at: usize,
}

// What the input has next.
#[derive(Clone, Copy)]
pub enum Next {
    // A whole frame, which ends where the cursor stands.
    Frame(Cursor),
    // Not all of it is in the window.
    More,
    // Nothing.
    End,
    // A lone last byte, or a length under 4 or past the input's end.
    Broken,
}

// What one step of a log does.
#[derive(Clone, Copy)]
pub enum Step {
    // A line, and the log goes on at the cursor.
    Line(Outcome, Cursor),
    // The last line.
    Last(Outcome),
    // More of the input is to be read first.
    More,
    // No line.
    End,
}

// Two of the kinds' numbers, each compared once: an enum would be no plainer.
const SETUP: u16 = 0x0301;

const GRANTED: u16 = 0x8001;

// What is there is no whole frame.
fn unfinished(last: bool) -> Next
    ensures { result ≡ cond last Broken More }
{
    if last { Next::Broken } else { Next::More }
}

// What the window has from the cursor on. `last`: the input ends where the window does.
pub fn next_frame(window: &[u8], c: Cursor, last: bool) -> Next
    ensures { result ≡ next_of last c.at (drop c.at window.now) }
{
    let at = c.at;
    let len = window.len();
    if len <= at {
        return if last { Next::End } else { Next::More };
    }
    let left = len - at;
    if left < 2 {
        return unfinished(last);
    }
    let size = usize::from(record::word(window, at));
    if size < 4 {
        return Next::Broken;
    }
    if left < size {
        return unfinished(last);
    }
    Next::Frame(Cursor { at: at + size })
}

// Set-up by a first frame.
fn set_up(rec: &mut [u8], frame: &[u8]) -> Result<(), Refusal>
    ensures { First rec.old frame.now result rec.new }
{
    let len = frame.len();
    if len < 4 || usize::from(record::word(frame, 0)) != len {
        return Err(Refusal::WrongLength);
    }
    if record::word(frame, 2) != SETUP {
        return Err(Refusal::UnknownKind);
    }
    if len != 6 {
        return Err(Refusal::WrongSize);
    }
    match cube::cube_setup(rec, u32::from(record::word(frame, 4))) {
        0 => Ok(()),
        1 => Err(Refusal::NotARecord),
        _ => Err(Refusal::LargeDimension),
    }
}

// A refusal that comes before anything is tried.
fn refused(r: Refusal) -> Outcome
    ensures { result ≡ Refused (refusal_number r) 0 }
{
    Outcome::Refused {
        number: u32::from(r.number()),
        tried: 0,
    }
}

// The outcome of a call, from the number that it returned and the reply. There is room for it, so the number isn't 2, which has no reply.
// The number is `cube_call`'s, which the C interface has: 0, or a refusal's.
fn read_reply(number: u32, reply: &[u8]) -> Outcome
    requires { (length reply.now ≡ 12) × (number ≢ 2) }
    ensures { result ≡ told (heard number reply.now) }
{
    if number != 0 {
        return Outcome::Refused {
            number,
            tried: record::word(reply, 6),
        };
    }
    if record::word(reply, 2) == GRANTED {
        return Outcome::Granted {
            job: record::word(reply, 4),
            low: record::word(reply, 6),
            stars: record::word(reply, 8),
            tried: record::word(reply, 10),
        };
    }
    Outcome::Done(record::word(reply, 4))
}

// A later frame of a log: a call with a reply buffer of 12 zeros.
pub fn later(rec: &mut [u8], frame: &[u8]) -> Outcome
    ensures { Later rec.old frame.now result rec.new }
{
    let mut reply = [0; 12];
    let number = cube::cube_call(rec, frame, &mut reply);
    read_reply(number, &reply)
}

// The first frame: a right set-up, or the last line.
fn on_first(rec: &mut [u8], frame: &[u8], end: Cursor) -> Step
    ensures { OnFrame 0 rec.old frame.now end result rec.new }
{
    match set_up(rec, frame) {
        Ok(()) => Step::Line(Outcome::Setup(record::word(frame, 4)), end),
        Err(refusal) => Step::Last(refused(refusal)),
    }
}

// A frame that ends where the cursor stands, with `lines` lines before it.
fn on_frame(rec: &mut [u8], frame: &[u8], lines: u32, end: Cursor) -> Step
    ensures { OnFrame lines rec.old frame.now end result rec.new }
{
    if lines == 0 {
        return on_first(rec, frame, end);
    }
    Step::Line(later(rec, frame), end)
}

// One step of a log on the record, with `lines` lines printed, at the cursor of a window. `last`: the input ends where the window does.
pub fn take_step(rec: &mut [u8], window: &[u8], c: Cursor, last: bool, lines: u32) -> Step
    ensures { Stepped lines rec.old last c.at (drop c.at window.now) result rec.new }
{
    if lines == 4294967295 {
        return Step::End;
    }
    let at = c.at;
    let ahead = next_frame(window, c, last);
    match ahead {
        Next::Frame(end) => {
            let to = end.at;
            on_frame(rec, &window[at..to], lines, end)
        }
        Next::More => Step::More,
        Next::End => Step::End,
        Next::Broken => Step::Last(refused(Refusal::WrongLength)),
    }
}
