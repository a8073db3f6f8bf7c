//! Pseudo-random lists of runs, anywhere in the range.

ghost use Rattle.std.specs.Prelude.{◌≤◌};

use runs::Run;
use std::alloc::{AllocError, Global};

/// What the runs of a list are like. Once in 32 times a run is empty, and as often it is the full range.
#[derive(Clone, Copy, PartialEq, Eq)]
pub enum Kind {
    /// All go through one number, by steps up to 210, so that they share many.
    Shared,
    /// The steps are of any size.
    Any,
    /// They go through numbers that lie close together, so that they may share none.
    Close,
    /// Like `Any`, with one run that is not in its one form, so that all is refused.
    Spoiled,
}

pub const KINDS: [Kind; 4] = [Kind::Shared, Kind::Any, Kind::Close, Kind::Spoiled];

// The range, counted from its low end.
const WIDTH: u32 = 2000000000;

/// What one thing is drawn from, a list or a run of it.
#[derive(Clone, Copy)]
struct Source {
    kind: Kind,
    seed: u64,
}

pub(crate) fn list(alloc: Global, seed: u64, kind: Kind, n: u32) -> Result<Vec<Run>, AllocError> {
    let source = Source { kind, seed };
    let spoiled = source.up_to(1, n.saturating_sub(1));
    let x = source.up_to(2, WIDTH);
    let mut runs = Vec::new(alloc);
    for k in 0..n {
        let own = source.part(k);
        let run = own.lawful(x);
        runs.push(if kind == Kind::Spoiled && k == spoiled {
            own.spoil(run)
        } else {
            run
        })?;
    }
    Ok(runs)
}

impl Source {
    // That of run k.
    fn part(self, k: u32) -> Source {
        let seed = pseudo_random::mixed(self.seed.wrapping_add(10 + u64::from(k)));
        Source { seed, ..self }
    }

    fn lawful(self, x: u32) -> Run
        requires { x ≤ 2000000000 }
    {
        match self.up_to(0, 31) {
            0 => Run::empty(),
            1 => through(0, 1, 0, WIDTH),
            _ => {
                let y = if self.kind == Kind::Close {
                    (x + self.up_to(1, 2)) % (WIDTH + 1)
                } else {
                    x
                };
                let step = self.step();
                let down = self.up_to(4, y / step);
                let up = self.up_to(5, (WIDTH - y) / step);
                through(y, step, down, up)
            }
        }
    }

    // From 1 up.
    fn step(self) -> u32
        ensures positive { 1 ≤ result }
        ensures bounded { result ≤ 2000000000 }
    {
        let sizes = if self.kind == Kind::Shared { 4 } else { 8 };
        let most = match self.up_to(2, sizes - 1) {
            0 => 1,
            1 => 6,
            2 => 30,
            3 => 210,
            4 => 10000,
            5 => 1000000,
            6 => 100000000,
            _ => 2000000000,
        };
        1 + self.up_to(3, most - 1)
    }

    // Out of the range, falling, or too long; and so not in its one form, if it was empty or a single number too.
    fn spoil(self, run: Run) -> Run {
        let mut spoilt = run;
        match self.up_to(6, 2) {
            0 => spoilt.first = run.first.wrapping_add(i64::from(WIDTH) + 1),
            1 => spoilt.step = !run.step,
            _ => spoilt.many = run.many.wrapping_add(WIDTH + 1),
        }
        spoilt
    }

    // A number from 0 on.
    fn up_to(self, place: u64, most: u32) -> u32
        ensures { result ≤ most }
    {
        pseudo_random::up_to(self.seed, place, most)
    }
}

// The run that goes through x, with some numbers below it and some above it.
fn through(x: u32, step: u32, down: u32, up: u32) -> Run
    requires { step ≤ 2000000000 }
{
    let others = down.saturating_add(up);
    Run {
        first: i64::from(x) - i64::from(down) * i64::from(step) - 1000000000,
        step: if others == 0 { 0 } else { i64::from(step) },
        many: others.saturating_add(1),
    }
}
