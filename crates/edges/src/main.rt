// The edges of document 01, and the causes in pairs: where two rows of the table are met at once, the first wins; then those of relabels, growths,
// star bits, loading and best fit. Each line has the number returned and the six words of the reply buffer, which held 61166 in each before the call.
#![tactic(auto)]

mod best_fits;
mod growth_causes;
mod growths;
mod loading;
mod printed;
mod relabels;
mod star_bits;
mod star_records;

use printed::{
    buffer, call, calls, fault, frames, fresh, good, make_good_from, repaired, request, set_up,
    short_reply,
};
use state::Call::Release;
use std::io;

fn set_ups(rt: &impl Print) -> io::Result<()> {
    let mut rec = buffer();
    set_up(rt, "set-up of n 11", &mut rec, 11)?;
    set_up(rt, "set-up of n 10", &mut rec, 10)?;
    set_up(rt, "set-up of n 0", &mut rec, 0)?;
    let mut short = [0; 5135];
    set_up(rt, "set-up of 5135 bytes", &mut short, 10)?;
    set_up(
        rt,
        "causes 1 and 7, set-up of 5135 bytes and n 11",
        &mut short,
        11,
    )?;
    let mut long = [0; 5137];
    set_up(rt, "set-up of 5137 bytes", &mut long, 10)
}

// n 10: nodes 1023 and 1024, k 10 and 11, jobs 65535 and 0, replies of 12 and 11 bytes.
fn largest_nodes(rt: &impl Print, rec: &mut [u8]) -> io::Result<()> {
    let list = [("good 1023", good(1023)), ("good 1024", good(1024))];
    calls(rt, rec, &list)?;
    short_reply(
        rt,
        "good 1023, reply of 11",
        rec,
        b"\x06\x00\x01\x01\xff\x03",
    )
}

fn largest_jobs(rt: &impl Print, rec: &mut [u8]) -> io::Result<()> {
    let list = [
        ("request of k 10 by 65535", request(65535, 10, 0)),
        ("request of k 11 by 65535", request(65535, 11, 0)),
        ("request of k 0 by 65535", request(65535, 0, 3)),
        ("request of k 0 by 0", request(0, 0, 0)),
        ("release by 65535", Release(65535)),
        ("release by 0", Release(0)),
    ];
    calls(rt, rec, &list)
}

// k = n on 1024 good nodes: each family has one member, the whole cube, which is granted, held and given back.
fn whole_cube(rt: &impl Print, name: &str, rec: &mut [u8], strategy: u8) -> io::Result<()> {
    let list = [
        (name, request(65535, 10, strategy)),
        ("all held, request of k 10 by 1", request(1, 10, 0)),
        ("release of 1024 nodes", Release(65535)),
    ];
    calls(rt, rec, &list)
}

fn whole_cubes(rt: &impl Print, rec: &mut [u8]) -> io::Result<()> {
    let list = [
        ("all good, request of k 10 by buddy", 0),
        ("all good, request of k 10 by Gray", 1),
        ("all good, request of k 10 by tree", 2),
        ("all good, request of k 10 by extended", 3),
    ];
    for (name, strategy) in list {
        whole_cube(rt, name, rec, strategy)?;
    }
    Ok(())
}

// n 0: node 0 and no other, k 0 and no other.
fn one_node(rt: &impl Print, rec: &mut [u8]) -> io::Result<()> {
    let list = [
        ("n 0, good 0", good(0)),
        ("n 0, good 1", good(1)),
        ("n 0, request of k 1 by 1", request(1, 1, 0)),
        ("n 0, request of k 0 by 1", request(1, 0, 0)),
    ];
    calls(rt, rec, &list)
}

// n 1: node 0 good and held by job 7, node 1 faulty.
fn prepare(rt: &impl Print, rec: &mut [u8]) -> io::Result<()> {
    let list = [
        ("good 0", good(0)),
        ("fault 1", fault(1)),
        ("request of k 0 by 7", request(7, 0, 1)),
    ];
    calls(rt, rec, &list)
}

fn frame_pairs(rt: &impl Print, rec: &mut [u8]) -> io::Result<()> {
    short_reply(rt, "causes 2 and 3", rec, b"\x06\x00\x01")?;
    let list: [(&str, &[u8]); 4] = [
        ("causes 3 and 4", b"\x07\x00\x99\x09\x00\x00"),
        ("causes 3 and 5", b"\x06\x00\x01\x01\x00"),
        ("cause 4", b"\x06\x00\x01\x03\x01\x00"),
        ("cause 4, a size of no kind", b"\x05\x00\x01\x03\x00"),
    ];
    frames(rt, rec, &list)
}

fn job_pairs(rt: &impl Print, rec: &mut [u8]) -> io::Result<()> {
    let list: [(&str, &[u8]); 4] = [
        ("causes 5 and 6", b"\x09\x00\x01\x02\x00\x00\x00\x00\x00"),
        ("causes 6 and 7", b"\x08\x00\x01\x02\x00\x00\x02\x00"),
        ("causes 5 and 11", b"\x07\x00\x02\x02\x08\x00\x00"),
        ("causes 6 and 11", b"\x06\x00\x02\x02\x00\x00"),
    ];
    frames(rt, rec, &list)
}

fn call_pairs(rt: &impl Print, rec: &mut [u8]) -> io::Result<()> {
    let list: [(&str, &[u8]); 5] = [
        ("causes 5 and 8", b"\x07\x00\x01\x01\x02\x00\x00"),
        ("causes 7 and 9", b"\x08\x00\x01\x02\x08\x00\x02\x05"),
        ("causes 8 and 12", b"\x06\x00\x03\x01\x02\x00"),
        ("causes 9 and 10", b"\x08\x00\x01\x02\x07\x00\x00\x05"),
        ("causes 10 and 14", b"\x08\x00\x01\x02\x07\x00\x01\x00"),
    ];
    frames(rt, rec, &list)
}

fn single_causes(rt: &impl Print, rec: &mut [u8]) -> io::Result<()> {
    let list = [
        ("cause 11", Release(8)),
        ("cause 12, good on a faulty node", good(1)),
        ("cause 12, repaired on a good node", repaired(0)),
    ];
    calls(rt, rec, &list)
}

fn last_causes(rt: &impl Print, rec: &mut [u8]) -> io::Result<()> {
    let list: [(&str, &[u8]); 6] = [
        ("causes 5 and 13", b"\x05\x00\x03\x02\x00"),
        ("cause 13", b"\x04\x00\x03\x02"),
        ("cause 14", b"\x08\x00\x01\x02\x08\x00\x00\x03"),
        ("fault 0, held by 7", b"\x06\x00\x02\x01\x00\x00"),
        ("release by 7", b"\x06\x00\x02\x02\x07\x00"),
        ("relabel", b"\x04\x00\x03\x02"),
    ];
    frames(rt, rec, &list)
}

// A record's size of bytes that are no record.
fn damaged(rt: &impl Print, rec: &mut [u8]) -> io::Result<()> {
    short_reply(rt, "causes 1 and 2", rec, b"\x06\x00\x01\x01\x00\x00")?;
    call(rt, "cause 1", rec, good(0))
}

fn largest(rt: &impl Print) -> io::Result<()> {
    let mut rec = fresh(10);
    largest_nodes(rt, &mut rec)?;
    largest_jobs(rt, &mut rec)?;
    make_good_from(&mut rec, 0, 1024);
    whole_cubes(rt, &mut rec)
}

fn smallest(rt: &impl Print) -> io::Result<()> {
    let mut rec = fresh(0);
    one_node(rt, &mut rec)
}

fn pairs(rt: &impl Print) -> io::Result<()> {
    let mut rec = fresh(1);
    prepare(rt, &mut rec)?;
    frame_pairs(rt, &mut rec)?;
    job_pairs(rt, &mut rec)?;
    call_pairs(rt, &mut rec)?;
    single_causes(rt, &mut rec)?;
    last_causes(rt, &mut rec)?;
    let mut none = [0; record::SIZE];
    damaged(rt, &mut none)
}

fn main(rt: HostRuntime) -> io::Result<()> {
    set_ups(&rt)?;
    largest(&rt)?;
    smallest(&rt)?;
    pairs(&rt)?;
    relabels::relabels(&rt)?;
    growth_causes::pairs(&rt)?;
    growth_causes::smallest(&rt)?;
    growths::growths(&rt)?;
    star_records::star_records(&rt)?;
    star_bits::star_bits(&rt)?;
    loading::loads(&rt)?;
    best_fits::best_fits(&rt)
}
