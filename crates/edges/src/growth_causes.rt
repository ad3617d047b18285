// The causes that a growth meets, in pairs: where two are met at once, the first wins. By document 02, (e), 17 comes after 11 and before 14.
// Two pairs can't be: 7 with 17, for a job holds at most 2^n nodes, and 11 with 17, for 2^k is more than none.
use super::printed::{
    Record, call, calls, fault, frames, fresh, grow, hold, make_good, request, short_reply,
};
use state::Call::Release;
use std::io;

// n 1: node 0 is good and held by job 7, node 1 is faulty.
fn prepare(rt: &impl Print, rec: &mut Record) -> io::Result<()> {
    make_good(rec, 0);
    let list = [
        ("n 1, request of k 0 by 7", request(7, 0, 0)),
        ("fault 1", fault(1)),
    ];
    calls(rt, rec, &list)
}

fn frame_pairs(rt: &impl Print, rec: &mut Record) -> io::Result<()> {
    short_reply(
        rt,
        "growth, causes 2 and 3",
        rec,
        b"\x08\x00\x04\x02\x07\x00\x01",
    )?;
    short_reply(
        rt,
        "growth, causes 2 and 14",
        rec,
        b"\x08\x00\x04\x02\x07\x00\x01\x00",
    )?;
    let list: [(&str, &[u8]); 4] = [
        ("growth, causes 3 and 5", b"\x08\x00\x04\x02\x07\x00\x01"),
        (
            "growth, causes 3 and 6",
            b"\x09\x00\x04\x02\x00\x00\x01\x00",
        ),
        (
            "growth, causes 5 and 6",
            b"\x09\x00\x04\x02\x00\x00\x01\x00\x00",
        ),
        ("growth, causes 5 and 11", b"\x07\x00\x04\x02\x08\x00\x01"),
    ];
    frames(rt, rec, &list)
}

// That node 1 has no holder makes it no node of job 0.
fn job_pairs(rt: &impl Print, rec: &mut Record) -> io::Result<()> {
    let list = [
        ("growth, causes 6 and 7", grow(0, 2, 0)),
        ("growth, causes 6 and 9", grow(0, 0, 5)),
        ("growth, causes 6 and 11", grow(0, 0, 0)),
        ("growth, causes 6 and 14", grow(0, 1, 0)),
    ];
    calls(rt, rec, &list)
}

// 2^16 and 2^255 are no numbers of two bytes.
fn size_pairs(rt: &impl Print, rec: &mut Record) -> io::Result<()> {
    let list = [
        ("growth, causes 7 and 9", grow(7, 2, 5)),
        ("growth, causes 7 and 11", grow(8, 2, 0)),
        ("growth, causes 7 and 14", grow(7, 2, 0)),
        ("growth, cause 7, k 16", grow(7, 16, 0)),
        ("growth, cause 7, k 255", grow(7, 255, 0)),
    ];
    calls(rt, rec, &list)
}

fn strategy_pairs(rt: &impl Print, rec: &mut Record) -> io::Result<()> {
    let list = [
        ("growth, causes 9 and 11", grow(8, 0, 5)),
        ("growth, causes 9 and 17", grow(7, 0, 5)),
        ("growth, causes 9 and 14", grow(7, 1, 255)),
    ];
    calls(rt, rec, &list)
}

fn last_pairs(rt: &impl Print, rec: &mut Record) -> io::Result<()> {
    let list = [
        ("growth, causes 11 and 14", grow(8, 0, 0)),
        ("growth, cause 17", grow(7, 0, 0)),
        ("growth, cause 14", grow(7, 1, 0)),
        ("fault 0, held by 7", fault(0)),
        ("growth, causes 17 and 14", grow(7, 0, 0)),
        ("release by 7", Release(7)),
        ("growth after the release", grow(7, 1, 0)),
    ];
    calls(rt, rec, &list)
}

// n 0: no growth is granted.
fn one_node(rt: &impl Print, rec: &mut Record) -> io::Result<()> {
    make_good(rec, 0);
    call(rt, "n 0, free node, growth of k 0", rec, grow(65535, 0, 0))?;
    hold(rec, 65535, 0);
    let list = [
        ("n 0, growth of k 0", grow(65535, 0, 3)),
        ("n 0, growth of k 1", grow(65535, 1, 0)),
        ("n 0, release by 65535", Release(65535)),
    ];
    calls(rt, rec, &list)
}

pub(crate) fn pairs(rt: &impl Print) -> io::Result<()> {
    let mut rec = fresh(1);
    prepare(rt, &mut rec)?;
    frame_pairs(rt, &mut rec)?;
    job_pairs(rt, &mut rec)?;
    size_pairs(rt, &mut rec)?;
    strategy_pairs(rt, &mut rec)?;
    last_pairs(rt, &mut rec)
}

pub(crate) fn smallest(rt: &impl Print) -> io::Result<()> {
    let mut rec = fresh(0);
    one_node(rt, &mut rec)?;
    let mut none = [0; record::SIZE];
    call(rt, "growth, causes 1 and 6", &mut none, grow(0, 0, 0))
}
