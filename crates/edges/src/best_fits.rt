// The edges of best fit, document 02, (a): strategy 4 takes the smallest maximal free block that is large enough, then the lowest label, and grants
// its lowest part; tried is the number of maximal free blocks. The comments name these blocks.
use super::printed::{
    Record, all_good, call, calls, fault, fresh, grow, hold, leave, make_good, make_good_from,
    one_and_five_silent, request,
};
use state::Call::{Relabel, Release};
use std::io;

// n 1, all good: 4 is a strategy and 5 is none. To 7 the block is 0-1 before its growth too.
fn strategies(rt: &impl Print, rec: &mut Record) -> io::Result<()> {
    let list = [
        ("n 1, request by strategy 5", request(7, 0, 5)),
        ("request by strategy 255", request(7, 0, 255)),
        ("request by strategy 4", request(7, 0, 4)),
        ("growth by strategy 5", grow(7, 1, 5)),
        ("growth by strategy 4", grow(7, 1, 4)),
    ];
    calls(rt, rec, &list)
}

// Row 6 of the sessions: 0-3, 5 and 6-7; then 0-3 and 5; then 5.
fn row_6(rt: &impl Print, rec: &mut Record) -> io::Result<()> {
    let list = [
        ("n 3, fault 4", fault(4)),
        ("row 6, request of k 1 by best fit", request(1, 1, 4)),
        ("row 6, request of k 2 by best fit", request(2, 2, 4)),
        ("one node left, request of k 1", request(3, 1, 4)),
        ("one node left, request of k 0", request(3, 0, 4)),
    ];
    calls(rt, rec, &list)
}

fn nothing_free(rt: &impl Print, rec: &mut Record) -> io::Result<()> {
    let list = [
        ("nothing free, request of k 0", request(4, 0, 4)),
        ("nothing free, request of k 3", request(4, 3, 4)),
        ("nothing free, request of k 0 by buddy", request(4, 0, 0)),
    ];
    calls(rt, rec, &list)
}

// n 0: a block of one node, or none.
fn one_node(rt: &impl Print, rec: &mut Record) -> io::Result<()> {
    call(rt, "n 0, silent, request of k 0", rec, request(7, 0, 4))?;
    make_good(rec, 0);
    let list = [
        ("n 0, request of k 1", request(7, 1, 4)),
        ("n 0, request of k 0", request(7, 0, 4)),
        ("n 0, growth of k 0", grow(7, 0, 4)),
        ("n 0, growth of k 1", grow(7, 1, 4)),
    ];
    calls(rt, rec, &list)
}

// n 10, all good: the cube is one block.
fn whole_cube(rt: &impl Print, rec: &mut Record) -> io::Result<()> {
    let list = [
        ("n 10, request of k 11", request(65535, 11, 4)),
        ("n 10, request of k 10", request(65535, 10, 4)),
        ("all held, request of k 10", request(1, 10, 4)),
        ("release of 1024 nodes", Release(65535)),
        ("n 10, request of k 0", request(65535, 0, 4)),
        ("n 10, growth of k 10", grow(65535, 10, 4)),
    ];
    calls(rt, rec, &list)
}

// n 10, all good but node 0: 1, 2-3, 4-7, up to 512-1023, ten blocks.
fn ten_blocks(rt: &impl Print, rec: &mut Record) -> io::Result<()> {
    let list = [
        ("node 0 silent, request of k 10", request(7, 10, 4)),
        ("node 0 silent, request of k 9", request(7, 9, 4)),
        ("nine blocks, request of k 0", request(8, 0, 4)),
        ("eight blocks, request of k 0", request(9, 0, 4)),
    ];
    calls(rt, rec, &list)
}

// n 4: 0-3, 6, 8-11 and 12-13.
fn four_blocks(rec: &mut Record) {
    make_good_from(rec, 0, 4);
    make_good(rec, 6);
    make_good_from(rec, 8, 14);
}

// Two blocks are as small: the lower one, then the other.
fn ties(rt: &impl Print, rec: &mut Record) -> io::Result<()> {
    let list = [
        ("n 4, four blocks, request of k 2", request(7, 2, 4)),
        ("three blocks, request of k 2", request(8, 2, 4)),
        ("two smaller blocks, request of k 2", request(9, 2, 4)),
    ];
    calls(rt, rec, &list)?;
    leave(rec, 7);
    leave(rec, 8);
    Ok(())
}

// The four again; 0-3, 6 and 8-11; 0-3 and 8-11; 1, 2-3 and 8-11; 2-3 and 8-11; 8-11; 10-11.
fn parts(rt: &impl Print, rec: &mut Record) -> io::Result<()> {
    let list = [
        ("four blocks, request of k 1", request(7, 1, 4)),
        ("three blocks, request of k 0", request(8, 0, 4)),
        ("two as large, request of k 0", request(9, 0, 4)),
        ("the rest of one, request of k 0", request(10, 0, 4)),
        ("the rest of one, request of k 1", request(11, 1, 4)),
        ("the other, request of k 1", request(12, 1, 4)),
        ("the rest of it, request of k 1", request(13, 1, 4)),
    ];
    calls(rt, rec, &list)
}

// n 3: 2-3 and 4-5 are no block together.
fn no_buddies(rt: &impl Print, rec: &mut Record) -> io::Result<()> {
    make_good_from(rec, 2, 6);
    let list = [
        ("n 3, 2 to 5 good, request of k 2", request(7, 2, 4)),
        ("2 to 5 good, request of k 1", request(7, 1, 4)),
    ];
    calls(rt, rec, &list)
}

// n 3: nodes 1 and 5 are silent. By node 0, 2-3, 4 and 6-7 are blocks; then labels 0 to 7 are the nodes 0, 4, 1, 5, 2, 6, 3 and 7, and the blocks by
// label 0-1 and 4-7.
fn relabel(rt: &impl Print, rec: &mut Record) -> io::Result<()> {
    let list = [
        ("nodes 1 and 5 silent, request of k 2", request(7, 2, 4)),
        ("nodes 1 and 5 silent, relabel", Relabel),
    ];
    calls(rt, rec, &list)
}

// By label 0-1 and 4-7; 1 and 4-7; 4-7. To 9 then 4-7, to 7 first 0, and 0-1 when 8 is gone.
fn relabelled(rt: &impl Print, rec: &mut Record) -> io::Result<()> {
    let list = [
        ("relabelled, request of k 0 by 7", request(7, 0, 4)),
        ("relabelled, request of k 0 by 8", request(8, 0, 4)),
        ("relabelled, request of k 1 by 9", request(9, 1, 4)),
        ("relabelled, growth of k 2 by 9", grow(9, 2, 4)),
        ("relabelled, growth of k 1 by 7", grow(7, 1, 4)),
        ("release by 8", Release(8)),
        ("8 gone, growth of k 1 by 7", grow(7, 1, 4)),
    ];
    calls(rt, rec, &list)
}

// n 3, all good: 7 holds 0-1 and 8 holds 4.
fn prepare(rec: &mut Record) {
    hold(rec, 7, 1);
    hold(rec, 9, 1);
    hold(rec, 8, 0);
    leave(rec, 9);
}

// To 7 the blocks are 0-3, 5 and 6-7; to 8 they are 2-3 and 4-7; to 9 they are 2-3, 5 and 6-7.
fn refused(rt: &impl Print, rec: &mut Record) -> io::Result<()> {
    let list = [
        ("n 3, growth of k 3 by 7", grow(7, 3, 4)),
        ("growth of k 3 by 8", grow(8, 3, 4)),
        ("request of k 2 by 9", request(9, 2, 4)),
        ("growth of k 1 by 7", grow(7, 1, 4)),
        ("growth of k 2 by 9", grow(9, 2, 4)),
    ];
    calls(rt, rec, &list)
}

// 8 leaves its own block for the smaller one; to 7 then 0-1 and 4-7 are blocks, and it leaves 0-1. To 8 then 2-3, and 0-3 when 9 is gone.
fn moved(rt: &impl Print, rec: &mut Record) -> io::Result<()> {
    let list = [
        ("growth of k 1 by 8", grow(8, 1, 4)),
        ("growth of k 2 by 7", grow(7, 2, 4)),
        ("request of k 1 by 9", request(9, 1, 4)),
        ("9 beside it, growth of k 2 by 8", grow(8, 2, 4)),
        ("release by 9", Release(9)),
        ("9 gone, growth of k 2 by 8", grow(8, 2, 4)),
    ];
    calls(rt, rec, &list)
}

// 7 holds 4-7, and to it 5 and 6-7 are blocks; then 0-3 too.
fn own_node_faulty(rt: &impl Print, rec: &mut Record) -> io::Result<()> {
    let list = [
        ("fault 4, held by 7", fault(4)),
        ("own node faulty, growth of k 3", grow(7, 3, 4)),
        ("release by 8", Release(8)),
        ("8 gone too, growth of k 3", grow(7, 3, 4)),
    ];
    calls(rt, rec, &list)
}

// n 1: 7 holds node 0, and node 1 is silent.
fn nothing_free_to_it(rt: &impl Print, rec: &mut Record) -> io::Result<()> {
    make_good(rec, 0);
    hold(rec, 7, 0);
    let list = [
        ("n 1, own node alone, growth of k 1", grow(7, 1, 4)),
        ("fault 0, held by 7", fault(0)),
        ("own node faulty, growth of k 1", grow(7, 1, 4)),
    ];
    calls(rt, rec, &list)
}

fn sizes(rt: &impl Print) -> io::Result<()> {
    let mut one = fresh(0);
    one_node(rt, &mut one)?;
    let mut large = all_good(10, 1024);
    whole_cube(rt, &mut large)?;
    let mut rest = fresh(10);
    make_good_from(&mut rest, 1, 1024);
    ten_blocks(rt, &mut rest)
}

fn choices(rt: &impl Print) -> io::Result<()> {
    let mut rec = fresh(4);
    four_blocks(&mut rec);
    ties(rt, &mut rec)?;
    parts(rt, &mut rec)?;
    let mut other = fresh(3);
    no_buddies(rt, &mut other)?;
    let mut third = one_and_five_silent();
    relabel(rt, &mut third)?;
    relabelled(rt, &mut third)
}

fn growths(rt: &impl Print) -> io::Result<()> {
    let mut rec = all_good(3, 8);
    prepare(&mut rec);
    refused(rt, &mut rec)?;
    moved(rt, &mut rec)?;
    own_node_faulty(rt, &mut rec)?;
    let mut small = fresh(1);
    nothing_free_to_it(rt, &mut small)
}

pub(crate) fn best_fits(rt: &impl Print) -> io::Result<()> {
    let mut two = all_good(1, 2);
    strategies(rt, &mut two)?;
    let mut eight = all_good(3, 8);
    row_6(rt, &mut eight)?;
    nothing_free(rt, &mut eight)?;
    sizes(rt)?;
    choices(rt)?;
    growths(rt)
}
