// A log whose input comes in pieces of any size, and whose text goes out in pieces: what is to be read or written next. Document 01, "Log program".
#![tactic(auto)]

ghost use Rattle.std.specs.Prelude.{◌≡◌, true, false, ◌+◌, ◌-◌, ◌<◌, ◌≤◌, ◌^◌, length};
ghost use Rattle.log_stream.specs.Streams.{start, took, wrote, unwritten, Ready, Closed, Wanting, Advanced};

use log_text::Place;

// The last bytes of an output are kept for the counts.
const COUNTS: usize = 88;

// Where the log is in a window on the input and in the output, how many bytes of the window are input, and whether the input ends with them.
// After a turn the place says what is due: it waits for a read into the window from `filled` on, or the bytes in the output are to be written. A log
// that has ended, and whose bytes are written, is done. `last` is beside no value that hangs on it: the window's bytes are input either way.
#[derive(Clone, Copy)]
pub struct Stream {
    pub place: Place,
    pub filled: usize,
    pub last: bool,
}

impl Stream {
    // Nothing is read.
    pub fn start() -> Stream
        ensures { result ≡ start }
    {
        Stream {
            place: Place::start(),
            filled: 0,
            last: false,
        }
    }

    // A read has put n bytes into the window; 0 says that the input has ended.
    pub fn took(self, n: usize) -> Stream
        requires { self.filled + n < 2 ^ 64 }
        ensures { result ≡ took self n }
    {
        Stream {
            filled: self.filled + n,
            last: n == 0,
            ..self
        }
    }

    // The bytes in the output were written.
    pub fn wrote(self) -> Stream
        ensures { result ≡ wrote self }
    {
        Stream {
            place: Place {
                put: 0,
                ..self.place
            },
            ..self
        }
    }
}

// The bytes that are to be written.
pub fn to_write(out: &[u8], s: Stream) -> &[u8]
    requires { s.place.put ≤ length out.now }
    ensures { result.now ≡ unwritten s out.now }
{
    &out[..s.place.put]
}

// The log has ended at the place p: the counts follow its lines.
fn close(out: &mut [u8], s: Stream, p: Place) -> Stream
    requires { p.put + 88 ≤ length out.old }
    ensures { Closed s p out.old result out.new }
{
    let put = lines::put_totals(out, p.put, p.tally);
    Stream {
        place: Place {
            put,
            ended: true,
            waits: false,
            ..p
        },
        ..s
    }
}

// More of the input is wanted at the place p: the window's input from there on goes to its front.
fn make_room(window: &mut [u8], s: Stream, p: Place) -> Stream
    requires { (p.at ≤ s.filled) × (s.filled ≤ length window.old) }
    ensures { Wanting s p window.old result window.new }
{
    let rest = s.filled - p.at;
    log_text::to_front(window, p.at, rest);
    Stream {
        place: Place {
            at: 0,
            ended: false,
            waits: true,
            ..p
        },
        filled: rest,
        ..s
    }
}

// One turn: the log as far as the window and the output go, and then what is due.
pub fn advance(rec: &mut [u8], window: &mut [u8], out: &mut [u8], s: Stream) -> Stream
    requires { Ready s (length window.old) (length out.old) }
    ensures { Advanced s rec.old window.old out.old result rec.new window.new out.new }
{
    let room = out.len() - COUNTS;
    let place = log_text::run(rec, &window[..s.filled], s.last, &mut out[..room], s.place);
    if place.ended {
        return close(out, s, place);
    }
    if place.waits {
        return make_room(window, s, place);
    }
    Stream { place, ..s }
}
