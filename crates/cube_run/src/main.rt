// The log program: document 01, "Log program". Frames come from standard input, lines and counts go to standard output. Where to read and what to
// write is log_stream's; here are the buffers and the calls that read and write.
#![tactic(auto)]

ghost use Rattle.std.specs.Prelude.{◌≡◌, ◌+◌, ◌<◌, ◌≤◌, ◌^◌, length};
ghost use Rattle.log_stream.specs.Streams.{took, unwritten, Ready};
ghost use Rattle.cube_run.specs.Turns.{read_count, Fed, after_write, Handed, Turned, Printed};

use log_stream::Stream;
use std::io;
use std::io::{Read, Write};

// The record; a window on the input, where a frame has at most 65,535 bytes; and the output, lines to be written at once.
const RECORD: usize = record::SIZE;

const WINDOW: usize = 131072;

const OUTPUT: usize = 65624;

// What a read into a part of the window answered: how many bytes it put there. A read that fails is told on standard error, and counts as the
// input's end.
fn after_read(rt: &impl Eprint, got: io::Result<usize>, part: &[u8], s: Stream) -> Stream
    requires { s.filled + length part.now < 2 ^ 64 }
    ensures { result ≡ took s (read_count got (length part.now)) }
{
    match got {
        Ok(n) => s.took(n.min(part.len())),
        Err(e) => {
            let _ = eprintln!(rt; "read: {e}");
            s.took(0)
        }
    }
}

// One read into the part of the window that has no input yet.
fn read_more<I: Read>(rt: &impl Eprint, input: &mut I, window: &mut [u8], s: Stream) -> Stream
    requires { s.filled ≤ length window.old }
    ensures { Fed (I.remaining input.old) (I.remaining input.new) s window.old result window.new }
{
    let from = s.filled;
    let got = input.read(&mut window[from..]);
    after_read(rt, got, &window[from..], s)
}

// What follows a write: the stream whose bytes were written, or the write's error.
fn after_write(written: io::Result<()>, s: Stream) -> io::Result<Stream>
    ensures { result ≡ after_write written s }
{
    written?;
    Ok(s.wrote())
}

// One write of all that is to be written.
fn write_out<O: Write>(output: &mut O, out: &[u8], s: Stream) -> io::Result<Stream>
    requires { s.place.put ≤ length out.now }
    ensures { Handed (O.contents output.old) (O.contents output.new) (unwritten s out.now) s result }
{
    let written = output.write_all(log_stream::to_write(out, s));
    after_write(written, s)
}

// One turn, and then the read or the write that is due.
// The parts come one by one: a struct that lends them would promise of each field that it keeps its reference; arrays in it fix their sizes.
fn turn<I: Read, O: Write>(
    rt: &impl Eprint,
    input: &mut I,
    output: &mut O,
    rec: &mut [u8],
    window: &mut [u8],
    out: &mut [u8],
    s: Stream,
) -> io::Result<Stream>
    requires { Ready s (length window.old) (length out.old) }
    ensures { Turned (I.remaining input.old) (I.remaining input.new) (O.contents output.old) (O.contents output.new)
        s rec.old window.old out.old result rec.new window.new out.new }
{
    let t = log_stream::advance(rec, window, out, s);
    if t.place.waits {
        return Ok(read_more(rt, input, window, t));
    }
    write_out(output, out, t)
}

// Until the log has ended and is written, or a write has failed. Each turn but one reads or writes something, so a log of 2^64 turns would take
// longer than anyone can wait.
fn print_log<I: Read, O: Write>(
    rt: &impl Eprint,
    input: &mut I,
    output: &mut O,
    rec: &mut [u8],
    window: &mut [u8],
    out: &mut [u8],
) -> io::Result<Stream>
    requires { (65535 ≤ length window.old) × (152 ≤ length out.old) }
    ensures { Printed (I.remaining input.old) (I.remaining input.new) (O.contents output.old) (O.contents output.new)
        rec.old window.old out.old result rec.new window.new out.new }
{
    let mut s = Stream::start();
    for _ in 0..u64::MAX {
        if s.place.ended {
            break;
        }
        s = turn(rt, input, output, rec, window, out, s)?;
    }
    Ok(s)
}

// A write that fails is told on standard error, and nothing more is written.
fn main(rt: HostRuntime) {
    let mut input = rt.stdin();
    let mut output = rt.stdout();
    let mut rec = [0u8; RECORD];
    let mut window = [0u8; WINDOW];
    let mut out = [0u8; OUTPUT];
    if let Err(e) = print_log(
        &rt,
        &mut input,
        &mut output,
        &mut rec,
        &mut window,
        &mut out,
    ) {
        let _ = eprintln!(rt; "write: {e}");
    }
}
