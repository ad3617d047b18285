// The reports of a node, on a record's bytes where they lie.
#![tactic(auto)]

ghost use Rattle.std.specs.Prelude.{◌≡◌, true, ◌^◌, ◌<◌, length, leb};
ghost use Rattle.state.specs.Checks.{barred};
ghost use Rattle.state.specs.Effects.{told_of};
ghost use Rattle.state.specs.Acts.{report_step};
ghost use Rattle.record.specs.Layout.{record_size, valid_record, decode};
ghost use Rattle.steps.specs.Carried.{Does};

use hypercube::{Node, Refusal, Reply};

// A node's conditions, by which a report says what it is: 'repaired', 'good' and 'fault'. They are bytes, and no enum: what `report_on` ensures
// speaks of each byte, and an enum would ask its callers for one of three.
pub const UNCONFIRMED: u8 = 0;

pub const GOOD: u8 = 1;

pub const FAULTY: u8 = 2;

// Whether x is none of the cube's nodes.
fn beyond(rec: &[u8], x: Node) -> bool
    requires { valid_record rec.now ≡ true }
    ensures { result ≡ leb (2 ^ (decode rec.now).n) x.0 }
{
    steps::nodes_of(rec) <= usize::from(x.0)
}

// Whether a node in this condition may not be reported: 'good' if it is faulty, 'repaired' unless it is, 'fault' never.
fn is_barred(reported: u8, condition: u8) -> bool
    ensures { result ≡ barred reported condition }
{
    match reported {
        FAULTY => false,
        GOOD => condition == FAULTY,
        _ => condition != FAULTY,
    }
}

// What a report of node x is told: for a fault the holder, which stays.
fn told_of(rec: &[u8], x: Node, reported: u8) -> u16
    requires { (length rec.now ≡ record_size) × (x.0 < 1024) }
    ensures { result ≡ told_of (decode rec.now) x.0 reported }
{
    if reported == FAULTY {
        nodes::holder_at(rec, x)
    } else {
        0
    }
}

// A report: its condition set; 8 for no node, 12 where it is barred.
pub fn report_on(rec: &mut [u8], x: Node, reported: u8) -> Reply
    requires { valid_record rec.old ≡ true }
    ensures { Does rec.old (report_step (decode rec.old) x.0 reported) result rec.new }
{
    if beyond(rec, x) {
        return Refusal::NoNode.reply(0);
    }
    if is_barred(reported, nodes::condition_at(rec, x)) {
        return Refusal::WrongReport.reply(0);
    }
    let told = told_of(rec, x, reported);
    nodes::set_condition(rec, x, reported);
    Reply::Done(told)
}
