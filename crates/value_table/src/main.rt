// What the calls on values give beside the calls on a record, labels and nodes under several maps, and Gray's two tables. The second program writes
// what is expected: cargo run --release --bin value-table, in reference/.
#![tactic(auto)]

mod damaged;
mod drawn;
mod last;
mod maps;
mod pair;
mod positions;
mod session;
mod sums;

use std::io;

fn main(rt: HostRuntime) -> io::Result<()> {
    session::sessions(&rt)?;
    damaged::states(&rt)?;
    maps::maps(&rt)?;
    positions::entries(&rt)
}
