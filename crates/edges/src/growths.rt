// The edges of growth, document 02, (e): to the job that grows its own good nodes are free; it gets the first such member and loses its nodes
// outside that. Requests by other jobs show which nodes it left.
use super::printed::{
    Record, all_good, call, calls, fault, fresh, grow, hold, leave, make_good, one_and_five_silent,
    repaired, request,
};
use state::Call::{Relabel, Release};
use std::io;

// n 3, all good: growths that keep its nodes, and the causes 17 and 10 on its way: a growth is not refused 10, a request by the same job is.
fn sizes(rt: &impl Print, rec: &mut Record) -> io::Result<()> {
    let list = [
        ("n 3, request of k 1 by 7", request(7, 1, 0)),
        ("growth to the same size", grow(7, 1, 0)),
        ("growth to a smaller size", grow(7, 0, 0)),
        ("growth of k 2, all kept", grow(7, 2, 0)),
        ("request of k 3 by 7", request(7, 3, 0)),
        ("growth of k 3, all kept", grow(7, 3, 0)),
        ("release by 7", Release(7)),
    ];
    calls(rt, rec, &list)
}

// A node of its own that isn't good counts for 17, and is not free. Here no other node is in the way.
fn not_good(rt: &impl Print, rec: &mut Record) -> io::Result<()> {
    let list = [
        ("request of k 1 by 7", request(7, 1, 0)),
        ("fault 1, held by 7", fault(1)),
        ("own node faulty, growth of k 1", grow(7, 1, 0)),
        ("own node faulty, growth of k 3", grow(7, 3, 0)),
        ("repaired 1", repaired(1)),
        ("own node silent, growth of k 3", grow(7, 3, 0)),
    ];
    calls(rt, rec, &list)
}

// It gets a member without that node, and leaves both of its own.
fn elsewhere(rt: &impl Print, rec: &mut Record) -> io::Result<()> {
    call(rt, "own node silent, growth of k 2", rec, grow(7, 2, 0))?;
    make_good(rec, 1);
    let list = [
        ("request of k 1 by 8", request(8, 1, 0)),
        ("release by 7", Release(7)),
    ];
    calls(rt, rec, &list)?;
    leave(rec, 8);
    Ok(())
}

// The first member is granted, though a later one has its node: 7 holds node 4 of a cube that is free otherwise.
fn first_member(rt: &impl Print, rec: &mut Record) -> io::Result<()> {
    hold(rec, 8, 2);
    call(rt, "request of k 0 by 7", rec, request(7, 0, 0))?;
    leave(rec, 8);
    let list = [
        ("growth of k 1, to the first", grow(7, 1, 0)),
        ("request of k 2 by 8", request(8, 2, 0)),
    ];
    calls(rt, rec, &list)?;
    leave(rec, 7);
    leave(rec, 8);
    Ok(())
}

// 7 holds node 0 and 8 node 1. What 9 then gets tells whether 7 left its node.
fn beside(rt: &impl Print, name: &str, rec: &mut Record, strategy: u8) -> io::Result<()> {
    hold(rec, 7, 0);
    hold(rec, 8, 0);
    let list = [
        (name, grow(7, 1, strategy)),
        ("request of k 0 by 9", request(9, 0, 0)),
        ("release by 7", Release(7)),
    ];
    calls(rt, rec, &list)?;
    leave(rec, 8);
    leave(rec, 9);
    Ok(())
}

fn each_strategy(rt: &impl Print, rec: &mut Record) -> io::Result<()> {
    beside(rt, "8 beside it, growth of k 1 by buddy", rec, 0)?;
    beside(rt, "8 beside it, growth of k 1 by Gray", rec, 1)?;
    beside(rt, "8 beside it, growth of k 1 by tree", rec, 2)?;
    beside(rt, "8 beside it, growth of k 1 by extended", rec, 3)
}

// 8 holds node 0, 7 nodes 1 and 3: of these it keeps 3 and loses 1.
fn part_kept(rt: &impl Print, rec: &mut Record) -> io::Result<()> {
    hold(rec, 8, 0);
    let list = [
        ("request of k 1 by 7, by Gray", request(7, 1, 1)),
        ("growth of k 2, one node kept", grow(7, 2, 1)),
        ("request of k 0 by 9", request(9, 0, 0)),
        ("release by 7", Release(7)),
    ];
    calls(rt, rec, &list)
}

// A record's nodes of a job may be any: 7 holds 1, 2 and 4.
fn three_nodes(rt: &impl Print, rec: &mut Record) -> io::Result<()> {
    rec[18] = 7;
    rec[20] = 7;
    rec[24] = 7;
    let list = [
        ("three nodes held, growth of k 1", grow(7, 1, 0)),
        ("three nodes held, growth of k 2", grow(7, 2, 0)),
        ("request of k 0 by 8", request(8, 0, 0)),
        ("release by 7", Release(7)),
    ];
    calls(rt, rec, &list)
}

// n 4: 0, 2, 8 and 10 alone are good, 7 holds 0 and 8 holds 2.
fn in_the_way(rt: &impl Print, rec: &mut Record) -> io::Result<()> {
    hold(rec, 7, 0);
    hold(rec, 8, 0);
    let list = [
        ("8 in the way, growth of k 2 by buddy", grow(7, 2, 0)),
        ("8 in the way, growth of k 2 by Gray", grow(7, 2, 1)),
        ("8 in the way, growth of k 2 by tree", grow(7, 2, 2)),
        ("8 in the way, growth of k 2 by extended", grow(7, 2, 3)),
    ];
    calls(rt, rec, &list)
}

// These four are no member but of the last family.
fn out_of_the_way(rt: &impl Print, rec: &mut Record) -> io::Result<()> {
    let list = [
        ("release by 8", Release(8)),
        ("growth of k 2 by tree", grow(7, 2, 2)),
        ("growth of k 2 by extended", grow(7, 2, 3)),
        ("release by 7", Release(7)),
    ];
    calls(rt, rec, &list)
}

// n 3: nodes 1 and 5 are silent, each other good, so direction 3 becomes the first.
fn relabelled(rt: &impl Print, rec: &mut Record) -> io::Result<()> {
    let list = [
        ("nodes 1 and 5 silent, relabel", Relabel),
        ("request of k 0 by 7", request(7, 0, 0)),
        ("relabelled, growth of k 1", grow(7, 1, 0)),
        ("relabelled, growth of k 2", grow(7, 2, 0)),
        ("request of k 1 by 8", request(8, 1, 0)),
        ("relabelled, growth of k 3", grow(7, 3, 0)),
    ];
    calls(rt, rec, &list)
}

// n 1: jobs that have a byte in common.
fn other_jobs(rt: &impl Print, rec: &mut Record) -> io::Result<()> {
    hold(rec, 1, 0);
    hold(rec, 257, 0);
    let list = [
        ("257 in the way, growth by 1", grow(1, 1, 0)),
        ("1 in the way, growth by 257", grow(257, 1, 0)),
        ("growth by 256", grow(256, 1, 0)),
        ("release by 257", Release(257)),
        ("growth by 1", grow(1, 1, 0)),
    ];
    calls(rt, rec, &list)
}

// n 10: k = n on 1024 good nodes.
fn whole_cube(rt: &impl Print, name: &str, rec: &mut Record, strategy: u8) -> io::Result<()> {
    hold(rec, 65535, 0);
    let list = [
        (name, grow(65535, 10, strategy)),
        ("release of 1024 nodes", Release(65535)),
    ];
    calls(rt, rec, &list)
}

fn whole_cubes(rt: &impl Print, rec: &mut Record) -> io::Result<()> {
    whole_cube(rt, "n 10, growth of k 10 by buddy", rec, 0)?;
    whole_cube(rt, "n 10, growth of k 10 by Gray", rec, 1)?;
    whole_cube(rt, "n 10, growth of k 10 by tree", rec, 2)?;
    whole_cube(rt, "n 10, growth of k 10 by extended", rec, 3)
}

// Node 0 is held by 1, nodes 512 to 1023 by 65535.
fn half_cube(rt: &impl Print, rec: &mut Record) -> io::Result<()> {
    hold(rec, 1, 0);
    let list = [
        ("request of k 9 by 65535", request(65535, 9, 0)),
        ("1 in the way, growth of k 10", grow(65535, 10, 0)),
        ("release by 1", Release(1)),
        ("growth of k 10", grow(65535, 10, 0)),
        ("growth of k 10 again", grow(65535, 10, 0)),
    ];
    calls(rt, rec, &list)
}

fn three_directions(rt: &impl Print) -> io::Result<()> {
    let mut rec = all_good(3, 8);
    sizes(rt, &mut rec)?;
    not_good(rt, &mut rec)?;
    elsewhere(rt, &mut rec)?;
    first_member(rt, &mut rec)?;
    each_strategy(rt, &mut rec)?;
    part_kept(rt, &mut rec)
}

fn other_records(rt: &impl Print) -> io::Result<()> {
    let mut rec = all_good(3, 8);
    three_nodes(rt, &mut rec)?;
    let mut other = one_and_five_silent();
    relabelled(rt, &mut other)
}

fn four_directions(rt: &impl Print) -> io::Result<()> {
    let mut rec = fresh(4);
    make_good(&mut rec, 0);
    make_good(&mut rec, 2);
    make_good(&mut rec, 8);
    make_good(&mut rec, 10);
    in_the_way(rt, &mut rec)?;
    out_of_the_way(rt, &mut rec)
}

pub(crate) fn growths(rt: &impl Print) -> io::Result<()> {
    three_directions(rt)?;
    other_records(rt)?;
    four_directions(rt)?;
    let mut small = all_good(1, 2);
    other_jobs(rt, &mut small)?;
    let mut large = all_good(10, 1024);
    whole_cubes(rt, &mut large)?;
    half_cube(rt, &mut large)
}
