//! Residue classes and intervals: the members of a class from a low to a high number are a run.

ghost use Rattle.std.specs.Prelude.{◌≡◌, ◌≤◌};
ghost use Rattle.runs.specs.Method.{common, Countable, counted_run, Clippable, clip, progression};

use crate::Run;

/// The whole numbers first + step·k for every whole k.
#[derive(Clone, Copy)]
pub struct Class {
    pub first: i64,
    pub step: i64,
}

/// From a low to a high number, both included.
#[derive(Clone, Copy)]
pub struct Interval {
    pub low: i64,
    pub high: i64,
}

impl Interval {
    /// The numbers in both.
    pub(crate) fn common(self, other: Interval) -> Interval
        ensures { result ≡ common self other }
    {
        Interval {
            low: self.low.max(other.low),
            high: self.high.min(other.high),
        }
    }
}

impl Class {
    /// The run of its first number and `more` that follow it, as far as they lie within ±1,000,000,000. Most often all do.
    pub(crate) fn counted_run(self, more: i64) -> Run
        requires { Countable self more }
        ensures { result ≡ counted_run self more }
    {
        let last = self.first + self.step * more;
        if -1000000000 <= self.first && last <= 1000000000 {
            return progression(self.first, self.step, more as u32);
        }
        let counted = Interval {
            low: self.first,
            high: last,
        };
        self.clip(counted.common(Run::full().span()))
    }

    /// The run of the members in an interval.
    pub(crate) fn clip(self, to: Interval) -> Run
        requires { Clippable self to }
        ensures { result ≡ clip self to }
    {
        let lowest = to.low + ints::remainder(self.first - to.low, self.step);
        if to.high < lowest {
            return Run::empty();
        }
        let steps = ints::quotient(to.high - lowest, self.step);
        progression(lowest, self.step, steps as u32)
    }
}

// A single number has step 0.
fn progression(first: i64, step: i64, more: u32) -> Run
    requires { more ≤ 2000000000 }
    ensures { result ≡ progression first step more }
{
    if more == 0 {
        Run {
            first,
            step: 0,
            many: 1,
        }
    } else {
        Run {
            first,
            step,
            many: more + 1,
        }
    }
}
