// The calls on a state by value.
#![tactic(auto)]

ghost use Rattle.std.specs.Prelude.{◌≡◌};
ghost use Rattle.state.specs.Acts.{called};

use hypercube::{Node, Refusal};
use state::{Call, State, Step};

// A call on any state, by way of its record: 1 for one that isn't as "Node and record" says, before the others.
pub fn call_on(s: State, c: Call) -> Step
    ensures { result ≡ called s c }
{
    let mut bytes = [0; record::SIZE];
    record::store(s, &mut bytes);
    if !record::is_valid(&bytes) {
        return Step {
            state: s,
            reply: Refusal::NotARecord.reply(0),
        };
    }
    let reply = calls::call_record(&mut bytes, c);
    let state = record::load(&bytes);
    Step { state, reply }
}

// The calls on values, on any state: a function each, which document 01's "Calls on values" and docs/THEOREMS.md name.
pub fn good(s: State, x: Node) -> Step
    ensures { result ≡ called s (Call.Good x) }
{
    call_on(s, Call::Good(x))
}

pub fn fault(s: State, x: Node) -> Step
    ensures { result ≡ called s (Call.Fault x) }
{
    call_on(s, Call::Fault(x))
}

pub fn repaired(s: State, x: Node) -> Step
    ensures { result ≡ called s (Call.Repaired x) }
{
    call_on(s, Call::Repaired(x))
}

pub fn relabel(s: State) -> Step
    ensures { result ≡ called s Call.Relabel }
{
    call_on(s, Call::Relabel)
}

pub fn request(s: State, job: u16, k: u8, strategy: u8) -> Step
    ensures { result ≡ called s (Call.Request job k strategy) }
{
    call_on(s, Call::Request { job, k, strategy })
}

pub fn release(s: State, job: u16) -> Step
    ensures { result ≡ called s (Call.Release job) }
{
    call_on(s, Call::Release(job))
}

pub fn grow(s: State, job: u16, k: u8, strategy: u8) -> Step
    ensures { result ≡ called s (Call.Grow job k strategy) }
{
    call_on(s, Call::Grow { job, k, strategy })
}
