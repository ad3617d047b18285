// The text of a log, a window on the input at a time. Document 01, "Log program".
#![tactic(auto)]

ghost use Rattle.std.specs.Prelude.{◌≡◌, false, not, ◌&&◌, leb, ◌+◌, ◌-◌, ◌≤◌, length, take, drop};
ghost use Rattle.log_text.specs.Moves.{start, Added, Turned, Ran};

use frame_log::{Cursor, Step};
use tally::{Outcome, Tally};

// How far a log is: the place in the window, the place in the output, the counts so far, whether it has ended, and whether it waits for more input.
// Two flags and no enum: the definitions `Left`, `Turned` and `Ran` (specs/Moves.antt) and `run_right` of log_stream speak of each by itself.
#[derive(Clone, Copy)]
pub struct Place {
    pub at: usize,
    pub put: usize,
    pub tally: Tally,
    pub ended: bool,
    pub waits: bool,
}

impl Place {
    // At the start of the input.
    pub fn start() -> Place
        ensures { result ≡ start }
    {
        Place {
            at: 0,
            put: 0,
            tally: Tally::none(),
            ended: false,
            waits: false,
        }
    }
}

// A line more.
fn add_line(out: &mut [u8], p: Place, o: Outcome) -> Place
    requires { p.put + 64 ≤ length out.old }
    ensures { Added out.old p o p.at p.ended out.new result }
{
    let tally = p.tally.with(o);
    let put = lines::put_line(out, p.put, tally.total, o);
    Place {
        put,
        tally,
        waits: false,
        ..p
    }
}

// One step, and its line if it has one.
fn turn(rec: &mut [u8], window: &[u8], last: bool, out: &mut [u8], p: Place) -> Place
    requires { (p.ended ≡ false) × (p.put + 64 ≤ length out.old) }
    ensures { Turned window.now last p rec.old out.old result rec.new out.new }
{
    match frame_log::take_step(rec, window, Cursor { at: p.at }, last, p.tally.total) {
        Step::Line(o, c) => {
            let q = add_line(out, p, o);
            Place { at: c.at, ..q }
        }
        Step::Last(o) => {
            let q = add_line(out, p, o);
            Place { ended: true, ..q }
        }
        Step::More => Place { waits: true, ..p },
        Step::End => Place {
            ended: true,
            waits: false,
            ..p
        },
    }
}

// Whether there is a next step, and room for its line.
fn goes_on(p: Place, len: usize) -> bool
    ensures { result ≡ (not p.ended && (not p.waits && leb (p.put + 64) len)) }
{
    !p.ended && !p.waits && p.put <= len && 64 <= len - p.put
}

// Steps through the window until the log has ended, more of the input is wanted, or the output has no room for a line.
pub fn run(rec: &mut [u8], window: &[u8], last: bool, out: &mut [u8], p: Place) -> Place
    ensures { Ran window.now last p rec.old out.old result rec.new out.new }
{
    let mut q = Place { waits: false, ..p };
    // No index is counted: the place that a step leads to says whether there is another.
    while goes_on(q, out.len()) {
        q = turn(rec, window, last, out, q);
    }
    q
}

// Moves `count` bytes of a window from place `at` on to its front. What stands behind them is no input, and nothing is promised of it.
pub fn to_front(window: &mut [u8], at: usize, count: usize)
    requires { at + count ≤ length window.old }
    ensures { take count window.new ≡ take count (drop at window.old) }
{
    window.copy_within(at..at + count, 0);
}
