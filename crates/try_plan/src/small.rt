//! Small jobs, of at most 5 variables and 6 equations. Each number is within -128..=127, so that its lowest byte says all of it.

ghost use Rattle.std.specs.Prelude.{◌≤◌};

use crate::format;
use crate::format::{Equation, Variable};
use std::alloc::{AllocError, Global};

impl Variable<i8> {
    /// How many numbers are within its bounds.
    pub(crate) fn width(self) -> u64
        ensures { result ≤ 256 }
    {
        if self.low <= self.high {
            1 + u64::from(self.high.abs_diff(self.low))
        } else {
            0
        }
    }
}

impl Equation<i8> {
    /// The variable whose group it belongs to. The search shares no code with the planner, so this stands here again, and so does `read`.
    pub(crate) fn home(self) -> u16 {
        if self.a == 0 && self.b != 0 {
            self.right
        } else {
            self.left
        }
    }
}

#[derive(Drop)]
pub struct Job {
    pub variables: Vec<Variable<i8>>,
    pub equations: Vec<Equation<i8>>,
}

impl Job {
    /// From its bytes.
    pub(crate) fn read(alloc: Global, job: &[u8]) -> Result<Job, AllocError> {
        let n = byte(job, 4);
        let m = byte(job, 6);
        let mut variables = Vec::new(alloc);
        for i in 0..n {
            let at = 24 + 12 * usize::from(i);
            variables.push(Variable {
                low: byte(job, at).cast_signed(),
                high: byte(job, at + 4).cast_signed(),
                weight: byte(job, at + 8).cast_signed(),
            })?;
        }
        let mut equations = Vec::new(alloc);
        for k in 0..m {
            let at = 24 + 12 * usize::from(n) + 20 * usize::from(k);
            equations.push(Equation {
                left: u16::from(byte(job, at)),
                right: u16::from(byte(job, at + 2)),
                a: byte(job, at + 4).cast_signed(),
                b: byte(job, at + 8).cast_signed(),
                c: byte(job, at + 12).cast_signed(),
            })?;
        }
        Ok(Job {
            variables,
            equations,
        })
    }

    /// How many variables it has.
    pub(crate) fn len(&self) -> u16 {
        (self.variables.len() % 65536) as u16
    }

    /// Each variable begins with its own number. Along an equation that joins two the lower number is taken over, for so many rounds that it
    /// can come from any variable to any other.
    pub(crate) fn labels(&self) -> Labels {
        let mut labels = Labels([0, 1, 2, 3, 4]);
        for _ in 0..5 {
            for e in self.equations.iter().take(6) {
                if e.a != 0 && e.b != 0 {
                    labels.join(e.left, e.right);
                }
            }
        }
        labels
    }
}

// The byte at a place, or 0 past the end.
fn byte(job: &[u8], at: usize) -> u8 {
    job.get(at).copied().unwrap_or(0)
}

/// For each variable the lowest one of its group. Five by value: the search hands them on with each part.
#[derive(Clone, Copy)]
pub struct Labels([u16; 5]);

// The label of any further variables: those of a job that is not small are one group.
const FURTHER: u16 = 255;

impl Labels {
    /// All variables are one group.
    pub(crate) fn whole() -> Labels {
        Labels([0; 5])
    }

    pub(crate) fn of(self, i: u16) -> u16 {
        let Labels(labels) = self;
        labels.get(usize::from(i)).copied().unwrap_or(FURTHER)
    }

    fn join(&mut self, left: u16, right: u16) {
        let lower = self.of(left).min(self.of(right));
        for i in [left, right] {
            if i < 5 {
                self.0[usize::from(i)] = lower;
            }
        }
    }

    pub(crate) fn groups_below(self, end: u16) -> u16 {
        format::groups_below(end, |i| self.of(i))
    }
}
