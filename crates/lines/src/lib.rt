// The lines that the log program prints, put into a buffer that the caller lends. Document 01, "Log program".
#![tactic(auto)]

ghost use Rattle.std.specs.Prelude.{◌≡◌, [], ◌∷◌, ◌+◌, ◌≤◌, ◌<◌, length};
ghost use Rattle.lines.specs.Text.{digit, decimal, last_item, said, line_of, totals_of};
ghost use Rattle.lines.specs.Put.{Put, Item};

use tally::{Outcome, Tally};

fn digit_of(x: u32) -> u8
    requires { x < 10 }
    ensures { result ≡ digit x }
{
    b'0' + x as u8
}

fn put_byte(out: &mut [u8], at: usize, b: u8) -> usize
    requires { at < length out.old }
    ensures { Put out.old at (b ∷ []) out.new result }
{
    out[at] = b;
    at + 1
}

fn put_text(out: &mut [u8], at: usize, text: &[u8]) -> usize
    requires { at + length text.now ≤ length out.old }
    ensures { Put out.old at text.now out.new result }
{
    let next = at + text.len();
    out[at..next].copy_from_slice(text);
    next
}

// x in decimal: the digits of a tenth of it, then the last.
fn put_number(out: &mut [u8], at: usize, x: u32) -> usize
    requires { at + length (decimal x) ≤ length out.old }
    ensures { Put out.old at (decimal x) out.new result }
{
    if x < 10 {
        return put_byte(out, at, digit_of(x));
    }
    let next = put_number(out, at, x / 10);
    put_byte(out, next, digit_of(x % 10))
}

// A text and a number after it.
fn put_item(out: &mut [u8], at: usize, text: &[u8], x: u32) -> usize
    requires { at + length text.now + 10 ≤ length out.old }
    ensures { Item out.old at text.now x out.new result }
{
    let next = put_text(out, at, text);
    put_number(out, next, x)
}

// The last item of a line.
fn put_last(out: &mut [u8], at: usize, text: &[u8], x: u32) -> usize
    requires { at + length text.now + 11 ≤ length out.old }
    ensures { Put out.old at (last_item text.now x) out.new result }
{
    let end = put_item(out, at, text, x);
    put_byte(out, end, b'\n')
}

// An outcome with the values that it has, to the line's end.
fn put_outcome(out: &mut [u8], at: usize, o: Outcome) -> usize
    requires { at + 54 ≤ length out.old }
    ensures { Put out.old at (said o) out.new result }
{
    match o {
        Outcome::Setup(n) => put_last(out, at, b" setup ", u32::from(n)),
        Outcome::Done(value) => put_last(out, at, b" done ", u32::from(value)),
        Outcome::Granted {
            job,
            low,
            stars,
            tried,
        } => {
            let after_job = put_item(out, at, b" granted ", u32::from(job));
            let after_low = put_item(out, after_job, b" ", u32::from(low));
            let after_stars = put_item(out, after_low, b" ", u32::from(stars));
            put_last(out, after_stars, b" ", u32::from(tried))
        }
        Outcome::Refused { number, tried } => {
            let after_number = put_item(out, at, b" refused ", number);
            put_last(out, after_number, b" ", u32::from(tried))
        }
    }
}

// The line of the frame at a place: at most 64 bytes.
pub fn put_line(out: &mut [u8], at: usize, place: u32, o: Outcome) -> usize
    requires { at + 64 ≤ length out.old }
    ensures { Put out.old at (line_of place o) out.new result }
{
    let next = put_number(out, at, place);
    put_outcome(out, next, o)
}

// The counts: at most 88 bytes.
pub fn put_totals(out: &mut [u8], at: usize, t: Tally) -> usize
    requires { at + 88 ≤ length out.old }
    ensures { Put out.old at (totals_of t) out.new result }
{
    let after_total = put_item(out, at, b"total ", t.total);
    let after_setup = put_item(out, after_total, b" setup ", t.setup);
    let after_done = put_item(out, after_setup, b" done ", t.done);
    let after_granted = put_item(out, after_done, b" granted ", t.granted);
    put_last(out, after_granted, b" refused ", t.refused)
}
