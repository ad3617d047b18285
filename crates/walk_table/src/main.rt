// What each strategy chooses for every n from 0 to 10 and every k on nine patterns of free labels. The second program writes what is expected:
// cargo run --release --bin walk-table, in reference/.
#![tactic(auto)]

ghost use Rattle.std.specs.Prelude.{◌≤◌, ◌<◌};

use hypercube::Walk;
use std::io;

// The flag of a label in a pattern: all free, none, and seven that are mixed. A pattern is a number, since that is printed, here and by the second
// program.
fn flag_of(pattern: u16, l: usize) -> u8
    requires { l < 1024 }
{
    let free = match pattern {
        0 => true,
        1 => false,
        2 => l % 3 != 0,
        3 => (l * 7 + l / 5) % 11 < 8,
        4 => 5 <= l % 16,
        5 => l / 2 % 2 == 0,
        6 => (l / 4 + l) % 2 == 0,
        7 => l % 16 < 11,
        _ => l % 341 != 20,
    };
    u8::from(free)
}

fn flags_of(pattern: u16) -> [u8; 1024] {
    let mut flags = [0; 1024];
    for (l, flag) in flags.iter_mut().enumerate() {
        *flag = flag_of(pattern, l);
    }
    flags
}

fn print_walk(rt: &impl Print, walk: Walk) -> io::Result<()> {
    match walk {
        Walk::Found(c, tried) => println!(rt; "found {} {} {tried}", c.low.0, c.stars),
        Walk::NoneFree(count) => println!(rt; "none {count}"),
    }
}

// One line for each pattern.
fn patterns(rt: &impl Print, n: u16, k: u16, strategy: u8) -> io::Result<()>
    requires { (k ≤ n) × (n ≤ 10) }
{
    for pattern in 0..9u16 {
        let flags = flags_of(pattern);
        print!(rt; "{n} {k} {strategy} {pattern} ")?;
        print_walk(rt, walks::choose(&flags, strategy, n, k))?;
    }
    Ok(())
}

fn strategies(rt: &impl Print, n: u16, k: u16) -> io::Result<()>
    requires { (k ≤ n) × (n ≤ 10) }
{
    for strategy in 0..5u8 {
        patterns(rt, n, k, strategy)?;
    }
    Ok(())
}

fn dimensions(rt: &impl Print, n: u16) -> io::Result<()>
    requires { n ≤ 10 }
{
    for k in 0..=n {
        strategies(rt, n, k)?;
    }
    Ok(())
}

fn main(rt: HostRuntime) -> io::Result<()> {
    for n in 0..=10u16 {
        dimensions(&rt, n)?;
    }
    Ok(())
}
