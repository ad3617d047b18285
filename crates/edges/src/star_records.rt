// Records that refusal 1 meets since document 02, (f): star bits at an unheld node, other heads, other sizes. At a held node any star bits pass.
// Each is tried by 'good' of node 0.
use super::printed::{Record, call, fresh, good, set_up, with_byte};
use std::io;

fn tried(rt: &impl Print, name: &str, rec: &mut [u8]) -> io::Result<()> {
    call(rt, name, rec, good(0))
}

// n 3: the first node and the last.
fn unheld(rt: &impl Print, rec: &Record) -> io::Result<()> {
    tried(
        rt,
        "n 3, node 0 unheld with star bits 1",
        &mut with_byte(rec, 3088, 1),
    )?;
    tried(
        rt,
        "node 0 unheld with star bits 32768",
        &mut with_byte(rec, 3089, 128),
    )?;
    tried(
        rt,
        "node 7 unheld with star bits 1",
        &mut with_byte(rec, 3102, 1),
    )?;
    tried(
        rt,
        "node 7 unheld with star bits 256",
        &mut with_byte(rec, 3103, 1),
    )
}

// n 3: 2^n and the last of the record.
fn beyond(rt: &impl Print, rec: &mut Record) -> io::Result<()> {
    tried(rt, "node 8 with star bits 1", &mut with_byte(rec, 3104, 1))?;
    tried(
        rt,
        "node 8 with star bits 256",
        &mut with_byte(rec, 3105, 1),
    )?;
    tried(
        rt,
        "node 1023 with star bits 255",
        &mut with_byte(rec, 5134, 255),
    )?;
    tried(
        rt,
        "node 1023 with star bits 256",
        &mut with_byte(rec, 5135, 1),
    )?;
    tried(rt, "no node with star bits", rec)
}

// Jobs 7, 256 and 65535; job 256 has a low byte of 0.
fn held(rt: &impl Print, rec: &mut Record) -> io::Result<()> {
    rec[16] = 7;
    rec[3088] = 255;
    rec[3089] = 255;
    tried(rt, "node 0 held with star bits 65535", rec)?;
    rec[16] = 0;
    tried(rt, "node 0 unheld with star bits 65535", rec)?;
    rec[17] = 1;
    tried(rt, "node 0 held by 256 with star bits 65535", rec)?;
    rec[30] = 255;
    rec[31] = 255;
    rec[3103] = 1;
    tried(rt, "node 7 held too, with star bits 256", rec)?;
    rec[3090] = 1;
    tried(rt, "node 1 unheld with star bits 1", rec)?;
    rec[3090] = 0;
    tried(rt, "node 1 unheld with star bits 0", rec)
}

// A record's length and kind are 5136 and 0x0002.
fn heads(rt: &impl Print, rec: &mut Record) -> io::Result<()> {
    rec[2] = 1;
    tried(rt, "kind 0x0001", rec)?;
    rec[1] = 12;
    tried(rt, "kind 0x0001, length 3088", rec)?;
    rec[2] = 2;
    tried(rt, "kind 0x0002, length 3088", rec)?;
    rec[1] = 20;
    rec[3] = 1;
    tried(rt, "kind 0x0102", rec)?;
    rec[3] = 0;
    tried(rt, "kind 0x0002", rec)
}

// n 10: node 1023 is below 2^n.
fn largest(rt: &impl Print, rec: &mut Record) -> io::Result<()> {
    rec[5135] = 2;
    tried(rt, "n 10, node 1023 unheld with star bits 512", rec)?;
    rec[2062] = 7;
    tried(rt, "n 10, node 1023 held with star bits 512", rec)
}

// n 0: node 1 is not below 2^n.
fn smallest(rt: &impl Print, rec: &mut Record) -> io::Result<()> {
    rec[3090] = 1;
    tried(rt, "n 0, node 1 with star bits 1", rec)?;
    rec[3090] = 0;
    rec[3088] = 1;
    tried(rt, "n 0, node 0 unheld with star bits 1", rec)?;
    rec[16] = 7;
    tried(rt, "n 0, node 0 held with star bits 1", rec)
}

// A fresh record without star bits, as it was before document 02, (f): n is 3.
fn without_stars() -> [u8; 3088] {
    let mut old = [0; 3088];
    old[..15].copy_from_slice(&[16, 12, 1, 0, 3, 1, 2, 3, 4, 5, 6, 7, 8, 9, 10]);
    old
}

// The length field says this size, then that of a record.
fn sizes(rt: &impl Print) -> io::Result<()> {
    let mut old = without_stars();
    tried(rt, "3088 bytes, kind 0x0001", &mut old)?;
    old[1] = 20;
    old[2] = 2;
    tried(rt, "3088 bytes, kind 0x0002", &mut old)?;
    set_up(rt, "set-up of 3088 bytes", &mut old, 3)?;
    set_up(rt, "set-up of 3088 bytes and n 11", &mut old, 11)
}

pub(crate) fn star_records(rt: &impl Print) -> io::Result<()> {
    let mut rec = fresh(3);
    unheld(rt, &rec)?;
    beyond(rt, &mut rec)?;
    held(rt, &mut rec)?;
    heads(rt, &mut rec)?;
    let mut large = fresh(10);
    largest(rt, &mut large)?;
    let mut small = fresh(0);
    smallest(rt, &mut small)?;
    sizes(rt)
}
