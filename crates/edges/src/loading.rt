// The edges of the loading call, document 02, (g): 1, then 18 where a job's nodes are not exactly the subcube of the star bits that each of them has.
ghost use Rattle.std.specs.Prelude.{◌<◌};

use super::printed::{
    Record, all_good, buffer, call, calls, fault, fresh, grow, hold, load, make_good, request,
    with_byte,
};
use state::Call::{Relabel, Release};
use std::io;

// A buffer as set-up leaves it; before, it is no record.
fn fresh_one(rt: &impl Print, name: &str, n: u32) -> io::Result<()> {
    let mut rec = buffer();
    load(rt, "no set-up, load", &rec)?;
    cube::cube_setup(&mut rec, n);
    load(rt, name, &rec)
}

fn fresh_ones(rt: &impl Print) -> io::Result<()> {
    fresh_one(rt, "n 0, fresh, load", 0)?;
    fresh_one(rt, "n 3, fresh, load", 3)?;
    fresh_one(rt, "n 10, fresh, load", 10)
}

// A fresh record of n 3 with a byte behind it.
fn one_more() -> [u8; 5137] {
    let mut long = [0; 5137];
    long[..15].copy_from_slice(&[16, 20, 2, 0, 3, 1, 2, 3, 4, 5, 6, 7, 8, 9, 10]);
    long
}

fn sizes(rt: &impl Print) -> io::Result<()> {
    let long = one_more();
    load(rt, "5137 bytes, load", &long)?;
    let short = [0; 5135];
    load(rt, "5135 bytes, load", &short)?;
    load(rt, "no bytes, load", b"")
}

// A record with another byte at a place, loaded. Each is a call and not a row of a table, where no row shows that its place is in the record.
fn changed(rt: &impl Print, name: &str, rec: &Record, at: usize, byte: u8) -> io::Result<()>
    requires { at < 5136 }
{
    load(rt, name, &with_byte(rec, at, byte))
}

// With two other bytes.
fn both(
    rt: &impl Print,
    name: &str,
    rec: &Record,
    at: usize,
    byte: u8,
    then: usize,
    other: u8,
) -> io::Result<()>
    requires { (at < 5136) × (then < 5136) }
{
    changed(rt, name, &with_byte(rec, at, byte), then, other)
}

// n 3, all good: 7 holds nodes 0 to 3, 8 holds 4 and 5, 9 holds 6.
fn held(rt: &impl Print, rec: &mut Record) -> io::Result<()> {
    hold(rec, 7, 2);
    hold(rec, 8, 1);
    hold(rec, 9, 0);
    load(rt, "n 3, three subcubes, load", rec)
}

// Node 3 unheld, then 8's.
fn torn(rt: &impl Print, rec: &Record) -> io::Result<()> {
    changed(
        rt,
        "causes 1 and 18, 3 unheld with star bits 3, load",
        rec,
        22,
        0,
    )?;
    both(rt, "7 without 3, load", rec, 22, 0, 3094, 0)?;
    both(rt, "3 is 8's, load", rec, 22, 8, 3094, 1)?;
    both(
        rt,
        "causes 1 and 18, condition 3, load",
        rec,
        22,
        8,
        2064,
        3,
    )?;
    load(rt, "3 is 7's, load", rec)
}

// Node 7, which is unheld.
fn further(rt: &impl Print, rec: &Record) -> io::Result<()> {
    changed(rt, "9 with 7 too, load", rec, 30, 9)?;
    both(
        rt,
        "9 with 7 too, star bits 1 at 6 alone, load",
        rec,
        30,
        9,
        3100,
        1,
    )?;
    changed(rt, "7 unheld, star bits 1 at 6, load", rec, 3100, 1)?;
    changed(rt, "7 unheld, star bits 1 at 7, load", rec, 3102, 1)
}

// One node's star bits are others: of 7's first, of its third, of its last.
fn one_node(rt: &impl Print, rec: &Record) -> io::Result<()> {
    changed(rt, "star bits 7 at 0, load", rec, 3088, 7)?;
    changed(rt, "star bits 1 at 2, load", rec, 3092, 1)?;
    changed(rt, "star bits 32771 at 3, load", rec, 3095, 128)
}

// Of both nodes of 8, 4 and 5: 4 is set in the lowest, 8 is 2^n.
fn all_nodes(rt: &impl Print, rec: &Record) -> io::Result<()> {
    both(rt, "star bits 0 at 4 and 5, load", rec, 3096, 0, 3098, 0)?;
    both(rt, "star bits 2 at 4 and 5, load", rec, 3096, 2, 3098, 2)?;
    both(rt, "star bits 3 at 4 and 5, load", rec, 3096, 3, 3098, 3)?;
    both(rt, "star bits 5 at 4 and 5, load", rec, 3096, 5, 3098, 5)?;
    both(rt, "star bits 9 at 4 and 5, load", rec, 3096, 9, 3098, 9)
}

// No call made it, and it is a subcube: 9 holds 6 and 7.
fn by_hand(rt: &impl Print, rec: &mut Record) -> io::Result<()> {
    rec[30] = 9;
    rec[3100] = 1;
    rec[3102] = 1;
    load(rt, "9 with 7 too, star bits 1 at both, load", rec)?;
    changed(rt, "7 is 10's, load", rec, 30, 10)
}

// 18 is no cause of a call, and the loading call writes nothing: 7 holds node 7 too.
fn served(rt: &impl Print, rec: &mut Record) -> io::Result<()> {
    rec[30] = 7;
    load(rt, "7 with 7 too, load", rec)?;
    super::star_bits::print_nodes(rt, rec)?;
    let list = [
        ("no subcube, growth of k 2 by 7", grow(7, 2, 0)),
        ("no subcube, release by 7", Release(7)),
    ];
    calls(rt, rec, &list)?;
    load(rt, "7 without any, load", rec)
}

// n 2, all good.
fn two_pairs(rt: &impl Print, rec: &mut Record) -> io::Result<()> {
    hold(rec, 7, 1);
    hold(rec, 8, 1);
    load(rt, "n 2, two pairs, load", rec)?;
    both(rt, "7 with both pairs, load", rec, 20, 7, 22, 7)
}

fn four_jobs(rt: &impl Print, rec: &mut Record) -> io::Result<()> {
    hold(rec, 1, 0);
    hold(rec, 257, 0);
    hold(rec, 256, 0);
    hold(rec, 65535, 0);
    load(rt, "n 2, jobs 1, 257, 256, 65535, load", rec)
}

// Jobs that have a byte in common are two, and a job's two nodes are no subcube of one.
fn job_numbers(rt: &impl Print, rec: &Record) -> io::Result<()> {
    changed(rt, "jobs 1, 257, 257, 65535, load", rec, 20, 1)?;
    both(
        rt,
        "jobs 65535, 257, 256, 65535, load",
        rec,
        16,
        255,
        17,
        255,
    )?;
    changed(rt, "jobs 1, 257, 256, 65534, load", rec, 22, 254)
}

fn no_direction(rt: &impl Print, rec: &mut Record) -> io::Result<()> {
    hold(rec, 65535, 0);
    load(rt, "n 0, node 0 held, load", rec)?;
    changed(rt, "n 0, star bits 1, load", rec, 3088, 1)
}

// n 1: node 1 alone is good.
fn one_direction(rt: &impl Print, rec: &mut Record) -> io::Result<()> {
    make_good(rec, 1);
    hold(rec, 7, 0);
    load(rt, "n 1, node 1 held, load", rec)?;
    changed(rt, "n 1, star bits 1 at 1, load", rec, 3090, 1)
}

// n 10: one job holds all nodes; the first and the last are changed.
fn whole_cube(rt: &impl Print, rec: &mut Record) -> io::Result<()> {
    hold(rec, 65535, 10);
    load(rt, "n 10, all nodes held, load", rec)?;
    changed(rt, "star bits 1022 at 1023, load", rec, 5134, 254)?;
    changed(rt, "star bits 511 at 0, load", rec, 3089, 1)?;
    changed(rt, "1023 is 65534's, load", rec, 2062, 254)
}

// n 10: node 1023 alone is held, then node 0 too. 1024 is 2^n, 512 is set in 1023, and with 512 node 0 is half of a pair.
fn last_node(rt: &impl Print, rec: &mut Record) -> io::Result<()> {
    make_good(rec, 1023);
    hold(rec, 7, 0);
    load(rt, "1023 alone held, load", rec)?;
    changed(rt, "star bits 1024 at 1023, load", rec, 5135, 4)?;
    changed(rt, "star bits 512 at 1023, load", rec, 5135, 2)?;
    both(rt, "star bits 512 at 0, load", rec, 16, 8, 3089, 2)
}

// What calls leave loads: n 3, all good.
fn after_calls(rt: &impl Print, rec: &mut Record) -> io::Result<()> {
    call(rt, "n 3, request of k 1 by 7", rec, request(7, 1, 0))?;
    load(rt, "a request, load", rec)?;
    call(rt, "growth of k 2 by 7", rec, grow(7, 2, 0))?;
    load(rt, "a growth, load", rec)?;
    call(rt, "fault 1, held by 7", rec, fault(1))?;
    load(rt, "a held node faulty, load", rec)?;
    call(rt, "release by 7", rec, Release(7))?;
    load(rt, "a release, load", rec)
}

// Nodes 1 and 5 are faulty, so direction 3 becomes the first.
fn after_relabel(rt: &impl Print, rec: &mut Record) -> io::Result<()> {
    let list = [
        ("fault 5", fault(5)),
        ("nodes 1 and 5 faulty, relabel", Relabel),
    ];
    calls(rt, rec, &list)?;
    load(rt, "a relabel, load", rec)?;
    let then = [
        ("request of k 2 by 7", request(7, 2, 0)),
        ("request of k 1 by 8", request(8, 1, 0)),
    ];
    calls(rt, rec, &then)?;
    load(rt, "two requests by other labels, load", rec)?;
    both(rt, "0 and 2 exchanged, load", rec, 16, 7, 20, 8)
}

fn three_subcubes(rt: &impl Print) -> io::Result<()> {
    let mut rec = all_good(3, 8);
    held(rt, &mut rec)?;
    torn(rt, &rec)?;
    further(rt, &rec)?;
    one_node(rt, &rec)?;
    all_nodes(rt, &rec)?;
    by_hand(rt, &mut rec)?;
    let mut other = all_good(3, 8);
    held(rt, &mut other)?;
    served(rt, &mut other)
}

fn jobs(rt: &impl Print) -> io::Result<()> {
    let mut pairs = all_good(2, 4);
    two_pairs(rt, &mut pairs)?;
    let mut four = all_good(2, 4);
    four_jobs(rt, &mut four)?;
    job_numbers(rt, &four)
}

fn smallest(rt: &impl Print) -> io::Result<()> {
    let mut rec = all_good(0, 1);
    no_direction(rt, &mut rec)?;
    let mut one = fresh(1);
    one_direction(rt, &mut one)
}

fn largest(rt: &impl Print) -> io::Result<()> {
    let mut rec = all_good(10, 1024);
    whole_cube(rt, &mut rec)?;
    let mut silent = fresh(10);
    last_node(rt, &mut silent)
}

pub(crate) fn loads(rt: &impl Print) -> io::Result<()> {
    fresh_ones(rt)?;
    sizes(rt)?;
    three_subcubes(rt)?;
    jobs(rt)?;
    smallest(rt)?;
    largest(rt)?;
    let mut rec = all_good(3, 8);
    after_calls(rt, &mut rec)?;
    after_relabel(rt, &mut rec)
}
