// Requests, growths and releases, on a record's bytes where they lie.
#![tactic(auto)]

ghost use Rattle.std.specs.Prelude.{◌≡◌, ℕ, true, ◌≤◌};
ghost use Rattle.hypercube.specs.Lists.{among};
ghost use Rattle.hypercube.specs.Checks.{first_number};
ghost use Rattle.history.specs.Calls.{strategies};
ghost use Rattle.state.specs.declared.Call.TheVariants.{Request, Release, Grow};
ghost use Rattle.state.specs.States.{lost};
ghost use Rattle.state.specs.Checks.{field_cause};
ghost use Rattle.state.specs.Effects.{walk_of};
ghost use Rattle.state.specs.Walked.{tried_in};
ghost use Rattle.record.specs.Layout.{encode, decode, valid_record};
ghost use Rattle.steps.specs.Carried.{Carried};
ghost use Rattle.grants.specs.Grants.{Holding, Grants, Asked};
ghost use Rattle.grants.specs.Checked.{cause_number, replied, request_checks, growth_checks};

use hypercube::{Refusal, Reply, Walk};

// A walk's 'tried': the place of the member found, or the family's whole count, which the refusal has; under best fit the number of maximal free
// blocks.
fn tried_in(walk: Walk) -> u16
    ensures { result ≡ tried_in walk }
{
    match walk {
        Walk::Found(_, place) => place,
        Walk::NoneFree(count) => count,
    }
}

// The walk of a request or a growth, over the flags by label.
fn walk_of(rec: &[u8], map: &[u8; 10], job: u16, k: u8, strategy: u8) -> Walk
    requires { (valid_record rec.now ≡ true) × ((map.now ≡ (decode rec.now).map) × (k ≤ (decode rec.now).n)) }
    ensures { result ≡ walk_of (decode rec.now) job k strategy }
{
    let n = u16::from(record::dimension(rec));
    let size = steps::nodes_of(rec);
    let mut flags = [0; 1024];
    nodes::flags_by_node(rec, size, job, &mut flags);
    labels::flags_by_label(n, map, &mut flags);
    walks::choose(&flags, strategy, n, u16::from(k))
}

// The job's nodes made unheld, before it is given others. `held` is how many it has: a request's job has none, and nothing is written.
fn lose(rec: &mut [u8], job: u16, held: u16)
    requires { Holding rec.old job held }
    ensures { rec.new ≡ encode (lost (decode rec.old) job) }
{
    if held == 0 {
        return;
    }
    nodes::clear(rec, steps::nodes_of(rec), job);
}

// The grant of the first free member, by its lowest node and its star bits: "star bits too, are given in node numbers". `held` is how many nodes
// the job has, which it loses.
fn grant_on(rec: &mut [u8], job: u16, held: u16, k: u8, strategy: u8) -> Reply
    requires { Holding rec.old job held × (k ≤ (decode rec.old).n) }
    ensures { Grants rec.old job k strategy result rec.new }
{
    let map = record::load_map(rec);
    let walk = walk_of(rec, &map, job, k, strategy);
    let Walk::Found(c, tried) = walk else {
        return Refusal::NoFreeMember.reply(tried_in(walk));
    };
    let low = labels::node_of(&map, c.low);
    let stars = labels::stars_of(&map, c.stars);
    lose(rec, job, held);
    nodes::give(rec, low, stars, job);
    Reply::Granted {
        job,
        low,
        stars,
        tried,
    }
}

// Whether a request or a growth takes this strategy.
fn is_offered(strategy: u8) -> bool
    ensures { result ≡ among strategy strategies }
{
    strategy <= 4
}

// The first cause that the fields of a request or a growth meet: job 0, k above n, a strategy that it doesn't take.
#[tactic(auto, unfolding(hypercube::specs::Checks::first_number, state::specs::Checks::field_cause))]
fn field_cause(rec: &[u8], job: u16, k: u8, strategy: u8) -> Result<(), Refusal>
    requires { valid_record rec.now ≡ true }
    ensures { cause_number result ≡ field_cause (decode rec.now) strategies job k strategy }
{
    let n = record::dimension(rec);
    if job == 0 {
        return Err(Refusal::NoJob);
    }
    if n < k {
        return Err(Refusal::LargeDimension);
    }
    if !is_offered(strategy) {
        return Err(Refusal::UnknownStrategy);
    }
    Ok(())
}

// Whether a job that holds so many nodes may request: it holds none.
#[tactic(auto, unfolding(hypercube::specs::Checks::first_number))]
fn check_request(held: u16) -> Result<(), Refusal>
    ensures { cause_number result ≡ first_number (request_checks held) }
{
    if held != 0 {
        return Err(Refusal::HoldsNodes);
    }
    Ok(())
}

// Whether a job that holds so many nodes may grow to dimension k: it holds some, and fewer than 2^k.
#[tactic(auto, unfolding(hypercube::specs::Checks::first_number))]
fn check_growth(held: u16, k: u8) -> Result<(), Refusal>
    requires { k ≤ 10 }
    ensures { cause_number result ≡ first_number (growth_checks held k) }
{
    if held == 0 {
        return Err(Refusal::HoldsNone);
    }
    if hypercube::pow2(u16::from(k)) <= held {
        return Err(Refusal::NotMore);
    }
    Ok(())
}

// A request or a growth: a grant, or the first cause that its fields meet, or after these `check`, of the number of nodes that the job holds.
fn asked<C: FnOnce(u16) -> Result<(), Refusal>>(
    rec: &mut [u8],
    job: u16,
    k: u8,
    strategy: u8,
    check: C,
) -> Result<Reply, Refusal>
    requires right { valid_record rec.old ≡ true }
    requires callable { (held : ℕ) → k ≤ 10 → C.pre check held }
    ensures { Asked (C.post check) rec.old job k strategy result rec.new }
{
    field_cause(rec, job, k, strategy)?;
    let held = nodes::count_held(rec, steps::nodes_of(rec), job);
    check(held)?;
    Ok(grant_on(rec, job, held, k, strategy))
}

// The reply that an answer stands for.
fn replied(answer: Result<Reply, Refusal>) -> Reply
    ensures { result ≡ replied answer }
{
    answer.unwrap_or_else(|refusal| refusal.reply(0))
}

// 'request': a grant; 6, 7 or 9 by its fields, 10 for a job that holds nodes, 14 for no free member.
pub fn request_on(rec: &mut [u8], job: u16, k: u8, strategy: u8) -> Reply
    requires { valid_record rec.old ≡ true }
    ensures { Carried rec.old (Request job k strategy) result rec.new }
{
    replied(asked(rec, job, k, strategy, check_request))
}

// 'grow': a grant to a job that holds nodes, in place of these; 6, 7 or 9 by its fields, 11 for a job that holds none, 17 for 2^k that is not more
// than it holds, 14 for no member that is good and unheld by others.
pub fn grow_on(rec: &mut [u8], job: u16, k: u8, strategy: u8) -> Reply
    requires { valid_record rec.old ≡ true }
    ensures { Carried rec.old (Grow job k strategy) result rec.new }
{
    replied(asked(rec, job, k, strategy, |held| check_growth(held, k)))
}

// 'release': the job's nodes unheld, and their number told; 6 for job 0, 11 for a job that holds none.
pub fn release_on(rec: &mut [u8], job: u16) -> Reply
    requires { valid_record rec.old ≡ true }
    ensures { Carried rec.old (Release job) result rec.new }
{
    if job == 0 {
        return Refusal::NoJob.reply(0);
    }
    let size = steps::nodes_of(rec);
    let count = nodes::count_held(rec, size, job);
    if count == 0 {
        return Refusal::HoldsNone.reply(0);
    }
    nodes::clear(rec, size, job);
    Reply::Done(count)
}
