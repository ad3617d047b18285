// Frames to calls, and replies to frames. Document 01, "Six calls and their frames".
#![tactic(auto)]

ghost use Rattle.std.specs.Prelude.{◌≡◌, ◌≤◌, length};
ghost use Rattle.std.proofs.Math.Option.{some};
ghost use Rattle.history.specs.Calls.{size};
ghost use Rattle.hypercube.specs.Replies.{frame_of, written};
ghost use Rattle.state.specs.Acts.{call_of};
ghost use Rattle.frames.specs.Kinds.{in_table, Decodes};
ghost use Rattle.frames.specs.Parse.{parsed};

use hypercube::{Node, Refusal, Reply};
use record::{put_words, word};
use state::Call;

// The kinds of frames.
#[derive(Clone, Copy, PartialEq, Eq)]
pub enum Kind {
    Good,
    Fault,
    Repaired,
    Relabel,
    Request,
    Release,
    Grow,
}

impl TryFrom<u16> for Kind {
    type Error = Refusal;

    ghost try_from_gives = { Decodes };

    fn try_from(number: u16) -> Result<Self, Refusal> {
        match number {
            0x0101 => Ok(Kind::Good),
            0x0102 => Ok(Kind::Fault),
            0x0103 => Ok(Kind::Repaired),
            0x0203 => Ok(Kind::Relabel),
            0x0201 => Ok(Kind::Request),
            0x0202 => Ok(Kind::Release),
            0x0204 => Ok(Kind::Grow),
            _ => Err(Refusal::UnknownKind),
        }
    }
}

impl Kind {
    // The length of its frames.
    pub fn size(self) -> usize
        ensures { result ≡ size (in_table self) }
    {
        match self {
            Kind::Relabel => 4,
            Kind::Good | Kind::Fault | Kind::Repaired | Kind::Release => 6,
            Kind::Request | Kind::Grow => 8,
        }
    }
}

// The call of a frame whose size is its kind's.
#[tactic(auto, unfolding(state::specs::Acts::call_of))]
fn call_of(frame: &[u8], kind: Kind) -> Call
    requires { length frame.now ≡ size (in_table kind) }
    ensures { some result ≡ call_of frame.now (in_table kind) }
{
    match kind {
        Kind::Good => Call::Good(Node(word(frame, 4))),
        Kind::Fault => Call::Fault(Node(word(frame, 4))),
        Kind::Repaired => Call::Repaired(Node(word(frame, 4))),
        Kind::Relabel => Call::Relabel,
        Kind::Request => Call::Request {
            job: word(frame, 4),
            k: frame[6],
            strategy: frame[7],
        },
        Kind::Release => Call::Release(word(frame, 4)),
        Kind::Grow => Call::Grow {
            job: word(frame, 4),
            k: frame[6],
            strategy: frame[7],
        },
    }
}

// Any bytes to a call, or to the first of causes 3, 4 and 5 that they meet. Document 01, "When a call says no".
pub fn parse(frame: &[u8]) -> Result<Call, Refusal>
    ensures { result ≡ parsed frame.now }
{
    let len = frame.len();
    if len < 4 {
        return Err(Refusal::WrongLength);
    }
    if usize::from(word(frame, 0)) != len {
        return Err(Refusal::WrongLength);
    }
    let kind = Kind::try_from(word(frame, 2))?;
    if len != kind.size() {
        return Err(Refusal::WrongSize);
    }
    Ok(call_of(frame, kind))
}

// The reply's frame. "Reply bytes past the frame keep their values." Length and kind of each stand here alone, so that they have no names.
pub fn answer(reply: &mut [u8], r: Reply)
    requires { 12 ≤ length reply.old }
    ensures { reply.new ≡ written (frame_of r) reply.old }
{
    match r {
        Reply::Granted {
            job,
            low,
            stars,
            tried,
        } => {
            let fields = [12, 0x8001, job, low.0, stars, tried];
            put_words(&fields, 0, reply);
        }
        Reply::Refused { number, tried } => {
            let fields = [8, 0x8002, number, tried];
            put_words(&fields, 0, reply);
        }
        Reply::Done(value) => {
            let fields = [6, 0x8003, value];
            put_words(&fields, 0, reply);
        }
    }
}
