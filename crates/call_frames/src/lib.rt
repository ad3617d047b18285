// The frame of each call. Document 01, "Six calls and their frames". The kinds' numbers stand here again: those of `frames` are what is tried.
#![tactic(auto, unfolding(hypercube::specs::Words::words))]

ghost use Rattle.std.specs.Prelude.{◌≡◌, [], ◌∷◌, ◌++◌};
ghost use Rattle.hypercube.specs.Words.{words};
ghost use Rattle.call_frames.specs.Frames.{bytes_of, frame};

use hypercube::Node;
use state::Call;

// The bytes of a frame: a relabel's, one with a field, a request's or a growth's.
#[derive(Clone, Copy)]
pub enum Frame {
    Four([u8; 4]),
    Six([u8; 6]),
    Eight([u8; 8]),
}

impl Frame {
    pub fn as_bytes(&self) -> &[u8]
        ensures { result.now ≡ bytes_of self.now }
    {
        match self {
            Frame::Four(bytes) => bytes,
            Frame::Six(bytes) => bytes,
            Frame::Eight(bytes) => bytes,
        }
    }
}

// A kind with one field.
fn six(kind: u16, field: u16) -> Frame
    ensures { bytes_of result ≡ words (6 ∷ kind ∷ field ∷ []) }
{
    let [low, high] = kind.to_le_bytes();
    let [first, second] = field.to_le_bytes();
    Frame::Six([6, 0, low, high, first, second])
}

// A kind with a request's fields.
fn eight(kind: u16, job: u16, k: u8, strategy: u8) -> Frame
    ensures { bytes_of result ≡ words (8 ∷ kind ∷ job ∷ []) ++ k ∷ strategy ∷ [] }
{
    let [low, high] = kind.to_le_bytes();
    let [first, second] = job.to_le_bytes();
    Frame::Eight([8, 0, low, high, first, second, k, strategy])
}

pub fn frame_of(c: Call) -> Frame
    ensures { bytes_of result ≡ frame c }
{
    match c {
        Call::Good(Node(x)) => six(0x0101, x),
        Call::Fault(Node(x)) => six(0x0102, x),
        Call::Repaired(Node(x)) => six(0x0103, x),
        Call::Relabel => Frame::Four([4, 0, 3, 2]),
        Call::Request { job, k, strategy } => eight(0x0201, job, k, strategy),
        Call::Release(job) => six(0x0202, job),
        Call::Grow { job, k, strategy } => eight(0x0204, job, k, strategy),
    }
}
