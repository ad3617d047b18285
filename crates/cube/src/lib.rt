// Set-up, the loading call and the frame call on byte slices. The crate cube_c exports them for a daemon in C, as include/cube.h declares them.
// A call writes nothing but the record and the reply that it is lent, and keeps nothing.
#![tactic(auto)]

ghost use Rattle.std.specs.Prelude.{◌≡◌, true};
ghost use Rattle.hypercube.specs.Refusals.{refusal_number};
ghost use Rattle.record.specs.Layout.{valid_record};
ghost use Rattle.cube.specs.Called.{delivered, SetUp, Loaded, Called};
ghost use Rattle.cube.specs.Carried.{CarriedFrame};

use hypercube::{Refusal, Reply};
use state::{Call, State};

// The number that a refusal is told by.
fn told(refusal: Refusal) -> u32
    ensures { result ≡ refusal_number refusal }
{
    u32::from(refusal.number())
}

// Document 01: "Set-up takes a buffer and n." 1 for a buffer that hasn't a record's size, then 7 for n above 10; a refused set-up writes nothing.
pub fn cube_setup(rec: &mut [u8], n: u32) -> u32
    ensures { SetUp delivered rec.old n result rec.new }
{
    if rec.len() != record::SIZE {
        return told(Refusal::NotARecord);
    }
    if 10 < n {
        return told(Refusal::LargeDimension);
    }
    record::store(State::fresh(n as u8), rec);
    0
}

// Document 02, (g): whether a record that comes back from disk may begin a list of calls. 1 for bytes that refusal 1 meets, then 18 for a record in
// which a job's nodes and star bits don't form a subcube. Size and head are looked at first, and the rest is read by a slice of its own.
pub fn cube_load(rec: &[u8]) -> u32
    ensures { Loaded delivered rec.now result }
{
    if record::SIZE != rec.len() {
        return told(Refusal::NotARecord);
    }
    if !record::head_right(rec) {
        return told(Refusal::NotARecord);
    }
    let whole = &rec[0..record::SIZE];
    if !record::is_valid(whole) {
        return told(Refusal::NotARecord);
    }
    if !loads::is_formed(whole) {
        return told(Refusal::NotFormed);
    }
    0
}

// A frame on a record that is one: its call, or the refusal of the frame.
fn carry_frame(rec: &mut [u8], read: Result<Call, Refusal>) -> Reply
    requires { valid_record rec.old ≡ true }
    ensures { CarriedFrame rec.old read result rec.new }
{
    match read {
        Ok(c) => calls::call_record(rec, c),
        Err(refusal) => refusal.reply(0),
    }
}

// The frame call: the number, the record's bytes and the reply's bytes are what `delivered` (specs/Called.antt) says of the bytes that were lent, and
// demand 3 is proved of it.
pub fn cube_call(rec: &mut [u8], frame: &[u8], reply: &mut [u8]) -> u32
    ensures { Called delivered rec.old frame.now reply.old result rec.new reply.new }
{
    if !record::is_valid(rec) {
        return told(Refusal::NotARecord);
    }
    if reply.len() < 12 {
        return told(Refusal::ShortReply);
    }
    let r = carry_frame(rec, frames::parse(frame));
    frames::answer(reply, r);
    u32::from(state::number(r))
}
