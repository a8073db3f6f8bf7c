//! Runs the entry for the greatest common divisor: pairs worked out by hand, every refusal, then all pairs of numbers up to 300
//! against a search for the divisor and remainders by subtraction.
#![tactic(auto)]

ghost use Rattle.std.specs.Prelude.{◌<◌, ◌≤◌};

use std::io;

// Equal numbers; 1 and b; a and 1; multiples; the first the smaller; either sign; the limit. Consecutive Fibonacci numbers take the
// most divisions for their size, and these are the last two below 1,000,000.
const VECTORS: [(i64, i64); 24] = [
    (7, 7),
    (1, 1),
    (1, 1000000),
    (1000000, 1),
    (2, 1),
    (1, 2),
    (36, 12),
    (12, 36),
    (2, 1000000),
    (48, 18),
    (18, 48),
    (-48, 18),
    (48, -18),
    (-48, -18),
    (17, 12),
    (12, 17),
    (-17, 12),
    (1000000, 600000),
    (999999, 1000000),
    (1000000, 999999),
    (1000000, -1000000),
    (832040, 514229),
    (514229, 832040),
    (-514229, -832040),
];

const REFUSED: [(i64, i64); 9] = [
    (0, 5),
    (5, 0),
    (0, 0),
    (1000001, 5),
    (5, 1000001),
    (-1000001, 5),
    (5, -1000001),
    (i64::MIN, 1),
    (1, i64::MAX),
];

fn main(rt: HostRuntime) -> io::Result<()> {
    for (a, b) in VECTORS {
        show(&rt, a, b)?;
    }
    for (a, b) in REFUSED {
        show(&rt, a, b)?;
    }
    let mut t = Tally::default();
    for a in 1..=300 {
        for b in 1..=300 {
            t.judge(&rt, a, b)?;
        }
    }
    let Tally {
        agree,
        divisions,
        factors,
    } = t;
    println!(rt; "small pairs {agree} agree, divisions {divisions}, factors add up to {factors}")
}

// A line for a pair: the factor and the number of divisions, or the reason and the row, number by number, as `Reason` formats no text.
fn show(rt: &impl Print, a: i64, b: i64) -> io::Result<()> {
    match euclid::common_divisor(a, b) {
        Ok((g, n)) => println!(rt; "{a} and {b}: factor {g}, divisions {n}"),
        Err(r) => println!(rt; "{a} and {b}: refused {} row {}", r.number(), r.row()),
    }
}

// How many pairs agree, how many divisions they took, and what their factors add up to.
#[derive(Clone, Copy, Default)]
struct Tally {
    agree: u64,
    divisions: u64,
    factors: u64,
}

impl Tally {
    // One pair more. One that disagrees is printed, and does not count.
    fn judge(&mut self, rt: &impl Print, a: u32, b: u32) -> io::Result<()>
        requires positive { 1 ≤ b }
        requires small { b ≤ 300 }
    {
        match euclid::common_divisor(i64::from(a), i64::from(b)) {
            Ok((g, n)) if g == i64::from(greatest(a, b)) && n == by_subtraction(a, b) => {
                self.agree = self.agree.saturating_add(1);
                self.divisions = self.divisions.saturating_add(u64::from(n));
                self.factors = self.factors.saturating_add(g.unsigned_abs());
                Ok(())
            }
            _ => {
                print!(rt; "disagree: ")?;
                show(rt, i64::from(a), i64::from(b))
            }
        }
    }
}

// The greatest number from 1 to b that divides both.
fn greatest(a: u32, b: u32) -> u32
    requires { b ≤ 300 }
{
    (1..=b)
        .rev()
        .find(|&d| a % d == 0 && b % d == 0)
        .unwrap_or(1)
}

// How many divisions there are until one leaves 0 or 1.
fn by_subtraction(a: u32, b: u32) -> u32
    requires { 1 ≤ b }
{
    let mut divisor = b;
    let mut rest = left(a, b);
    let mut made: u32 = 1;
    // A while: nothing is counted up to, what is left falls.
    while rest > 1 {
        (divisor, rest) = (rest, left(divisor, rest));
        made = made.saturating_add(1);
    }
    made
}

// What is left of a when b has been taken from it as often as it goes.
fn left(a: u32, b: u32) -> u32
    requires { 1 ≤ b }
    ensures { result < b }
{
    let mut r = a;
    // A while, for the same reason; `%` would say it at once, but is what is compared here.
    while r >= b {
        r -= b;
    }
    r
}
