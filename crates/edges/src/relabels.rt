// The edges of relabelling, document 01, "Labels", and document 02, (b): D is taken over the nodes below 2^n that aren't good. After each relabel the
// map is printed, the new direction of each of the ten.
use super::printed::{
    Record, call, calls, fault, fresh, make_good, make_good_from, repaired, request,
};
use state::Call::{Relabel, Release};
use std::io;

fn print_map(rt: &impl Print, rec: &Record) -> io::Result<()> {
    print!(rt; "map:")?;
    for d in &rec[5..15] {
        print!(rt; " {d}")?;
    }
    println!(rt)
}

fn relabel(rt: &impl Print, name: &str, rec: &mut Record) -> io::Result<()> {
    call(rt, name, rec, Relabel)?;
    print_map(rt, rec)
}

// A request of k 2 by job 7, by buddy, and its release.
fn grant(rt: &impl Print, rec: &mut Record) -> io::Result<()> {
    let list = [
        ("request of k 2 by 7", request(7, 2, 0)),
        ("release by 7", Release(7)),
    ];
    calls(rt, rec, &list)
}

fn all_silent(rt: &impl Print, name: &str, n: u32) -> io::Result<()> {
    let mut rec = fresh(n);
    relabel(rt, name, &mut rec)
}

// n 3: node 1 is silent, node 5 faulty, each other good.
fn silent_and_faulty(rt: &impl Print, rec: &mut Record) -> io::Result<()> {
    make_good(rec, 0);
    make_good_from(rec, 2, 8);
    call(rt, "n 3, fault 5", rec, fault(5))?;
    relabel(rt, "node 1 silent, node 5 faulty, relabel", rec)?;
    grant(rt, rec)
}

// Both are silent, then node 5 alone, and D is empty; then none is, and what the record has past 2^n does not count.
fn silent_ones_report(rt: &impl Print, rec: &mut Record) -> io::Result<()> {
    call(rt, "repaired 5", rec, repaired(5))?;
    relabel(rt, "nodes 1 and 5 silent, relabel", rec)?;
    make_good(rec, 1);
    relabel(rt, "node 5 silent, relabel", rec)?;
    grant(rt, rec)?;
    make_good(rec, 5);
    relabel(rt, "all good, relabel", rec)
}

// n 3: nodes 2 and 3 are silent, node 6 faulty, each other good.
fn two_silent(rt: &impl Print, rec: &mut Record) -> io::Result<()> {
    make_good_from(rec, 0, 2);
    make_good_from(rec, 4, 8);
    call(rt, "n 3, fault 6", rec, fault(6))?;
    relabel(rt, "nodes 2 and 3 silent, node 6 faulty, relabel", rec)
}

// Direction 1 alone is in D, and the map is the identity.
fn lowest_direction(rt: &impl Print, rec: &mut Record) -> io::Result<()> {
    call(rt, "repaired 6", rec, repaired(6))?;
    make_good(rec, 6);
    relabel(rt, "nodes 2 and 3 silent, relabel", rec)
}

// n 10: node 1 is silent, node 513 faulty, each other good.
fn largest(rt: &impl Print, rec: &mut Record) -> io::Result<()> {
    make_good_from(rec, 0, 1024);
    let list = [
        ("n 10, fault 1", fault(1)),
        ("repaired 1", repaired(1)),
        ("fault 513", fault(513)),
    ];
    calls(rt, rec, &list)?;
    relabel(rt, "node 1 silent, node 513 faulty, relabel", rec)
}

fn mixed(rt: &impl Print) -> io::Result<()> {
    let mut rec = fresh(3);
    silent_and_faulty(rt, &mut rec)?;
    silent_ones_report(rt, &mut rec)?;
    let mut other = fresh(3);
    two_silent(rt, &mut other)?;
    lowest_direction(rt, &mut other)?;
    let mut large = fresh(10);
    largest(rt, &mut large)
}

pub(crate) fn relabels(rt: &impl Print) -> io::Result<()> {
    all_silent(rt, "n 0, all silent, relabel", 0)?;
    all_silent(rt, "n 3, all silent, relabel", 3)?;
    all_silent(rt, "n 10, all silent, relabel", 10)?;
    mixed(rt)
}
