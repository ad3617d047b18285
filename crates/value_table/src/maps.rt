// Labels and nodes, each from the other, under several maps.
ghost use Rattle.std.specs.Prelude.{◌≤◌, ◌<◌};
ghost use Rattle.labels.specs.Directions.{Directions};

use hypercube::{Label, Node};
use std::io;

// The place a further than x, of n places in a ring.
fn further(n: u8, a: u8, x: u8) -> u8
    requires { (a ≤ n) × (x < n) × (n ≤ 10) }
    ensures { result < n }
{
    if x + a < n { x + a } else { x + a - n }
}

// The map of the first n directions by which the first goes to b + 1, and each other a places further than the one before it.
fn spread(n: u8, a: u8, b: u8) -> [u8; 10]
    requires { (a ≤ n) × (b < n) × (n ≤ 10) }
    ensures { Directions result }
{
    let mut map: [u8; 10] = [1, 2, 3, 4, 5, 6, 7, 8, 9, 10];
    let mut new = b;
    // By index: over the items of the first n, what the loop keeps would not be a fact of the whole map, and `Directions` is.
    for i in 0..usize::from(n) {
        map[i] = new + 1;
        new = further(n, a, new);
    }
    map
}

// Conditions by which x is faulty, y and z are silent, and each other node is good.
fn good_but(x: usize, y: usize, z: usize) -> [u8; 1024]
    requires { (x < 1024) × (y < 1024) × (z < 1024) }
{
    let mut conditions = [1; 1024];
    conditions[x] = 2;
    conditions[y] = 0;
    conditions[z] = 0;
    conditions
}

// The map that a relabel gives.
fn relabelled(n: u16, conditions: [u8; 1024]) -> [u8; 10]
    requires { n ≤ 10 }
    ensures { Directions result }
{
    let new = labels::relabel(n, &conditions);
    new.map
}

fn show_map(rt: &impl Print, n: u16, map: &[u8; 10]) -> io::Result<()> {
    print!(rt; "map {n}")?;
    for d in map {
        print!(rt; " {d}")?;
    }
    println!(rt)
}

// A number, its label as a node, the node of that label, and the node whose label is the number.
fn show_number(rt: &impl Print, map: &[u8; 10], x: u16) -> io::Result<()>
    requires { Directions map.now }
{
    let l = labels::label_of(map, Node(x));
    let back = labels::node_of(map, l);
    let labelled = labels::node_of(map, Label(x));
    println!(rt; "{x} {} {} {}", l.0, back.0, labelled.0)
}

// Every step-th number below 2^n.
fn table(rt: &impl Print, n: u16, step: u16, map: [u8; 10]) -> io::Result<()>
    requires n_bound { (n ≤ 10) × (1 ≤ step) × (step ≤ 1024) }
    requires directions { Directions map }
{
    show_map(rt, n, &map)?;
    let count = hypercube::pow2(n);
    for x in (0..count).step_by(usize::from(step)) {
        show_number(rt, &map, x)?;
    }
    Ok(())
}

// Every node of 5 and 6 directions, and 32 nodes of 10; the map of 6 is that of document 01's session 7.
pub(crate) fn maps(rt: &impl Print) -> io::Result<()> {
    table(rt, 5, 1, spread(5, 1, 0))?;
    table(rt, 5, 1, spread(5, 2, 1))?;
    table(rt, 5, 1, spread(5, 3, 4))?;
    table(rt, 5, 1, relabelled(5, good_but(0, 18, 16)))?;
    table(rt, 6, 1, relabelled(6, good_but(21, 29, 5)))?;
    table(rt, 10, 33, spread(10, 1, 0))?;
    table(rt, 10, 33, spread(10, 3, 2))?;
    table(rt, 10, 33, spread(10, 9, 9))?;
    table(rt, 10, 33, relabelled(10, good_but(85, 597, 84)))?;
    table(rt, 10, 33, relabelled(10, good_but(0, 1023, 512)))
}
