// The calls on a record's bytes where they lie.
#![tactic(auto)]

ghost use Rattle.std.specs.Prelude.{◌≡◌, true};
ghost use Rattle.state.specs.declared.Call.TheVariants.{Relabel};
ghost use Rattle.record.specs.Layout.{valid_record};
ghost use Rattle.steps.specs.Carried.{Carried};

use hypercube::{Refusal, Reply};
use reports::{FAULTY, GOOD, UNCONFIRMED};
use state::Call;

// 'relabel': the new map, and the size of D told; 13 while any node is held.
fn relabel_on(rec: &mut [u8]) -> Reply
    requires { valid_record rec.old ≡ true }
    ensures { Carried rec.old Relabel result rec.new }
{
    if nodes::any_held(rec, steps::nodes_of(rec)) {
        return Refusal::NodesHeld.reply(0);
    }
    let new = nodes::relabelling(rec);
    nodes::set_map(rec, &new.map);
    Reply::Done(new.size)
}

// A call on a record that is one: no more is stored than the call changes. A report sets its node's condition.
pub fn call_record(rec: &mut [u8], c: Call) -> Reply
    requires { valid_record rec.old ≡ true }
    ensures { Carried rec.old c result rec.new }
{
    match c {
        Call::Good(x) => reports::report_on(rec, x, GOOD),
        Call::Fault(x) => reports::report_on(rec, x, FAULTY),
        Call::Repaired(x) => reports::report_on(rec, x, UNCONFIRMED),
        Call::Relabel => relabel_on(rec),
        Call::Request { job, k, strategy } => grants::request_on(rec, job, k, strategy),
        Call::Release(job) => grants::release_on(rec, job),
        Call::Grow { job, k, strategy } => grants::grow_on(rec, job, k, strategy),
    }
}
