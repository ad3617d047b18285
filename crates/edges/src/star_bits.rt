// The edges of star bits, document 02, (f): each node carries those of the grant that holds it, in node numbers, and an unheld one 0.
// After the calls the holders and the star bits of nodes 0 to 7 are printed.
use super::printed::{
    Record, all_good, call, calls, fault, fresh, good, grow, hold, leave, make_good,
    one_and_five_silent, print_words, repaired, request,
};
use state::Call;
use state::Call::{Relabel, Release};
use std::io;

pub(crate) fn print_nodes(rt: &impl Print, rec: &Record) -> io::Result<()> {
    print!(rt; "holders:")?;
    print_words(rt, &rec[16..32])?;
    print!(rt; "star bits:")?;
    print_words(rt, &rec[3088..3104])
}

// Those of nodes 0, 511, 512 and 1023.
fn print_corners(rt: &impl Print, rec: &Record) -> io::Result<()> {
    print!(rt; "star bits of 0, 511, 512 and 1023:")?;
    let corners = [
        rec[3088], rec[3089], rec[4110], rec[4111], rec[4112], rec[4113], rec[5134], rec[5135],
    ];
    print_words(rt, &corners)
}

// Calls, with the nodes after each.
fn shown(rt: &impl Print, rec: &mut Record, list: &[(&str, Call)]) -> io::Result<()> {
    for (name, c) in list {
        call(rt, name, rec, *c)?;
        print_nodes(rt, rec)?;
    }
    Ok(())
}

// n 3, all good. Node 2 is held with star bits 0, node 3 is left out.
fn grants(rt: &impl Print, rec: &mut Record) -> io::Result<()> {
    shown(rt, rec, &[("n 3, request of k 1 by 7", request(7, 1, 0))])?;
    let list = [
        ("request of k 0 by 8", request(8, 0, 0)),
        ("request of k 2 by 9", request(9, 2, 0)),
    ];
    calls(rt, rec, &list)?;
    print_nodes(rt, rec)
}

// Refused calls leave star bits.
fn refusals(rt: &impl Print, rec: &mut Record) -> io::Result<()> {
    let list = [
        ("request of k 1 by 10", request(10, 1, 0)),
        ("request of k 0 by 9", request(9, 0, 0)),
        ("growth of k 2 by 7", grow(7, 2, 0)),
        ("growth of k 2 by 9", grow(9, 2, 0)),
        ("release by 10", Release(10)),
        ("relabel", Relabel),
    ];
    calls(rt, rec, &list)?;
    print_nodes(rt, rec)
}

// So do reports, of a held node.
fn reports(rt: &impl Print, rec: &mut Record) -> io::Result<()> {
    let list = [
        ("fault 4, held by 9", fault(4)),
        ("repaired 4", repaired(4)),
        ("good 4", good(4)),
    ];
    shown(rt, rec, &list)
}

fn releases(rt: &impl Print, rec: &mut Record) -> io::Result<()> {
    let list = [
        ("release by 7", Release(7)),
        ("release by 8", Release(8)),
        ("release by 9", Release(9)),
        ("all good, relabel", Relabel),
    ];
    shown(rt, rec, &list)
}

// n 3: nodes 1 and 5 are silent, so direction 3 becomes the first.
fn relabelled(rt: &impl Print, rec: &mut Record) -> io::Result<()> {
    let list = [
        ("nodes 1 and 5 silent, relabel", Relabel),
        ("request of k 2 by 7", request(7, 2, 0)),
        ("request of k 1 by 8", request(8, 1, 0)),
    ];
    calls(rt, rec, &list)?;
    print_nodes(rt, rec)?;
    let then = [
        ("release by 7", Release(7)),
        ("growth of k 2 by 8", grow(8, 2, 0)),
    ];
    calls(rt, rec, &then)?;
    print_nodes(rt, rec)
}

// 8 holds node 0, 7 nodes 1 and 3: growing it keeps 3 and leaves 1, then keeps all.
fn overlapping(rt: &impl Print, rec: &mut Record) -> io::Result<()> {
    hold(rec, 8, 0);
    call(rt, "request of k 1 by 7, by Gray", rec, request(7, 1, 1))?;
    let list = [
        ("growth of k 3 by 7", grow(7, 3, 1)),
        ("growth of k 2 by 7, by Gray", grow(7, 2, 1)),
    ];
    shown(rt, rec, &list)?;
    leave(rec, 8);
    let then = [
        ("growth of k 3 by 7", grow(7, 3, 1)),
        ("release by 7", Release(7)),
    ];
    shown(rt, rec, &then)
}

// A node that is left may be faulty.
fn faulty(rt: &impl Print, rec: &mut Record) -> io::Result<()> {
    let list = [
        ("request of k 1 by 7", request(7, 1, 0)),
        ("fault 1, held by 7", fault(1)),
        ("growth of k 2 by 7", grow(7, 2, 0)),
    ];
    calls(rt, rec, &list)?;
    print_nodes(rt, rec)
}

// A record's holders and their star bits may be any: 7 holds 1, 2 and 4, and 8 holds 7.
fn any_stars(rec: &mut Record) {
    let held = [0, 0, 7, 0, 7, 0, 0, 0, 7, 0, 0, 0, 0, 0, 8, 0];
    let stars = [0, 0, 9, 0, 1, 2, 0, 0, 255, 255, 0, 0, 0, 0, 52, 18];
    rec[16..32].copy_from_slice(&held);
    rec[3088..3104].copy_from_slice(&stars);
}

fn grown(rt: &impl Print, rec: &mut Record) -> io::Result<()> {
    let list = [
        ("any star bits, fault 5", fault(5)),
        ("any star bits, growth of k 2 by 7", grow(7, 2, 0)),
    ];
    shown(rt, rec, &list)
}

fn released(rt: &impl Print, rec: &mut Record) -> io::Result<()> {
    let list = [
        ("any star bits, release by 7", Release(7)),
        ("any star bits, release by 8", Release(8)),
    ];
    shown(rt, rec, &list)
}

// n 10, all good: star bits of both bytes.
fn halves(rt: &impl Print, rec: &mut Record) -> io::Result<()> {
    let list = [
        ("n 10, request of k 9 by 1", request(1, 9, 0)),
        ("request of k 9 by 65535", request(65535, 9, 0)),
        ("release by 1", Release(1)),
        ("growth of k 10 by 65535", grow(65535, 10, 0)),
        ("release by 65535", Release(65535)),
    ];
    for (name, c) in list {
        call(rt, name, rec, c)?;
        print_corners(rt, rec)?;
    }
    Ok(())
}

// n 10: nodes 0 and 512 alone are good.
fn highest_direction(rt: &impl Print, rec: &mut Record) -> io::Result<()> {
    make_good(rec, 0);
    make_good(rec, 512);
    call(
        rt,
        "0 and 512 good, request of k 1 by 7, by tree",
        rec,
        request(7, 1, 2),
    )?;
    print_corners(rt, rec)
}

fn from_fresh(rt: &impl Print) -> io::Result<()> {
    let mut rec = all_good(3, 8);
    grants(rt, &mut rec)?;
    refusals(rt, &mut rec)?;
    reports(rt, &mut rec)?;
    releases(rt, &mut rec)?;
    let mut other = one_and_five_silent();
    relabelled(rt, &mut other)
}

fn from_others(rt: &impl Print) -> io::Result<()> {
    let mut rec = all_good(3, 8);
    overlapping(rt, &mut rec)?;
    faulty(rt, &mut rec)?;
    let mut one = all_good(3, 8);
    any_stars(&mut one);
    grown(rt, &mut one)?;
    let mut other = all_good(3, 8);
    any_stars(&mut other);
    released(rt, &mut other)
}

pub(crate) fn star_bits(rt: &impl Print) -> io::Result<()> {
    from_fresh(rt)?;
    from_others(rt)?;
    let mut large = all_good(10, 1024);
    halves(rt, &mut large)?;
    let mut silent = fresh(10);
    highest_direction(rt, &mut silent)
}
