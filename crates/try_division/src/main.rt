//! Runs the division working: the vectors of document 01 and of its limits, then many pairs against the inequality that
//! defines the floor. The expected output is worked out by hand: a quotient of each sign, the reason at each limit, and
//! 101 × 24 small and 20,000 pseudo-random pairs.
#![tactic(auto)]

ghost use Rattle.std.specs.Prelude.{◌≤◌};

use std::io;

const VECTORS: [(i64, i64); 17] = [
    (-7, 2),
    (7, -2),
    (-8, 2),
    (-7, -2),
    (0, -1),
    (4000000000000000000, 1),
    (4000000000000000000, -1),
    (-4000000000000000000, 1),
    (-4000000000000000000, -1),
    (-1, 4000000000000000000),
    (1, -4000000000000000000),
    (4000000000000000001, 1),
    (-4000000000000000001, 1),
    (1, 4000000000000000001),
    (1, -4000000000000000001),
    (1, 0),
    (i64::MIN, -1),
];

fn main(rt: HostRuntime) -> io::Result<()> {
    for (n, d) in VECTORS {
        show(&rt, n, d)?;
    }
    // The pairs that disagree stand on lines above their count.
    let agree = small_pairs(&rt)?;
    println!(&rt; "small pairs {agree} agree")?;
    let agree = random_pairs(&rt, 20000)?;
    println!(&rt; "random pairs {agree} agree")
}

// A line for a pair: the quotient, or the reason and the row, number by number, as `Reason` formats no text.
fn show(rt: &impl Print, n: i64, d: i64) -> io::Result<()> {
    match ints::divide(n, d) {
        Ok(q) => println!(rt; "{n} by {d} is {q}"),
        Err(r) => println!(rt; "{n} by {d} refused {} row {}", r.number(), r.row()),
    }
}

// How many of the pairs agree of each dividend from -50 to 50 and each divisor from -12 to 12 but 0.
fn small_pairs(rt: &impl Print) -> io::Result<u64> {
    let mut agree: u64 = 0;
    for n in -50..=50i64 {
        for d in -12..=12i64 {
            if d != 0 && agrees(rt, n, d)? {
                agree += 1;
            }
        }
    }
    Ok(agree)
}

// The same of pseudo-random pairs, of each size with each; a divisor of 0 is taken for -1.
fn random_pairs(rt: &impl Print, pairs: u64) -> io::Result<u64> {
    let mut agree: u64 = 0;
    let mut seed = pseudo_random::SEED;
    for i in 0..pairs {
        let next = pseudo_random::next(seed);
        let n = random(seed, largest(i));
        let d = random(next, largest(i / 5));
        if agrees(rt, n, if d == 0 { -1 } else { d })? {
            agree += 1;
        }
        seed = pseudo_random::next(next);
    }
    Ok(agree)
}

// From -most to most.
fn random(seed: u64, most: u64) -> i64
    requires { most ≤ 4000000000000000000 }
{
    (seed % (2 * most + 1)) as i64 - most as i64
}

// Five sizes, in turn.
fn largest(i: u64) -> u64
    ensures { result ≤ 4000000000000000000 }
{
    match i % 5 {
        0 => 9,
        1 => 1000,
        2 => 1000000000,
        3 => 2000000000000000,
        _ => 4000000000000000000,
    }
}

// Is the quotient of n by d the floor? If not, the pair is printed.
fn agrees(rt: &impl Print, n: i64, d: i64) -> io::Result<bool> {
    if ints::divide(n, d).is_ok_and(|q| is_floor(n, d, q)) {
        return Ok(true);
    }
    print!(rt; "disagree: ")?;
    show(rt, n, d)?;
    Ok(false)
}

// The inequality that defines the floor: d·q is the last multiple of d that is not past n. Nothing is taken for granted of q: the
// product of any two fits.
fn is_floor(n: i64, d: i64, q: i64) -> bool {
    let n = i128::from(n);
    let d = i128::from(d);
    let p = d * i128::from(q);
    if d > 0 {
        p <= n && n < p + d
    } else {
        n <= p && p + d < n
    }
}
