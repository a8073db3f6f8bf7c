//! The job of a line of text, and what the line expects of it.
//!
//! Behind the bar each variable has its group's lowest variable, base, step and fits; behind a further mark, >, are the worth, the
//! numbers of all variables, and each group's chosen k and gain. Without it the weights are 0, and so are the worth and each gain: all
//! members of a group are worth the same, and the last, which has the highest number at the lowest variable, is expected.

use crate::answer::Expected;
use crate::format::{Entry, Equation, Variable};
use crate::text::Line;
use crate::wide::Links;
use crate::{format, wide};
use std::alloc::{AllocError, Global};

impl Line {
    /// How many variables the job has.
    pub(crate) fn variable_count(&self) -> u16 {
        if self.is_wide() {
            return word(self.get(0));
        }
        (self.before(b':') / 2 % 65536) as u16
    }

    /// How many equations it has.
    pub(crate) fn equation_count(&self) -> u16 {
        if self.is_wide() {
            return word(self.after(b':', 1));
        }
        // A semicolon that stands first makes it a number past every limit.
        let end = self.before(if self.has(b';') { b';' } else { b'|' });
        (end.wrapping_sub(self.before(b':')) / 5 % 65536) as u16
    }

    // Which of the variables that the line has says how variable i is: of 256 variables two, in turn.
    fn place(&self, i: u16) -> u16 {
        if self.is_wide() { i % 2 } else { i }
    }

    /// Its bytes.
    pub(crate) fn job(&self, alloc: Global) -> Result<Vec<u8>, AllocError> {
        let n = self.variable_count();
        let m = self.equation_count();
        let mut job = format::job_header(alloc, n, m)?;
        for i in 0..n {
            let at = usize::from(self.place(i));
            let variable = Variable {
                low: self.bound(2 * at),
                high: self.bound(2 * at + 1),
                weight: self.after(b';', at),
            };
            variable.push_to(&mut job)?;
        }
        for k in 0..m {
            self.equation(k).push_to(&mut job)?;
        }
        Ok(job)
    }

    /// Equation k.
    pub(crate) fn equation(&self, k: u16) -> Equation<i64> {
        if self.is_wide() {
            return wide::equation(Links::from(self.after(b':', 0)), self.after(b':', 2), k);
        }
        let at = 5 * usize::from(k);
        Equation {
            a: self.after(b':', at),
            left: word(self.after(b':', at + 1)),
            b: self.after(b':', at + 2),
            right: word(self.after(b':', at + 3)),
            c: self.after(b':', at + 4),
        }
    }

    /// What is expected of it.
    pub(crate) fn expect(&self, alloc: Global) -> Result<Expected, AllocError> {
        let n = self.variable_count();
        let worth = self.after(b'>', 0);
        Expected::of(alloc, n, self.groups_below(n), worth, |i| Ok(self.entry(i)))
    }

    fn entry(&self, i: u16) -> Entry {
        let at = usize::from(self.place(i) % 256);
        let group = self.groups_below(self.lowest(i));
        let base = self.after(b'|', 4 * at + 1);
        let step = self.after(b'|', 4 * at + 2);
        let fits = self.after(b'|', 4 * at + 3);
        let last = fits.wrapping_sub(1);
        let weighed = self.has(b'>');
        let chosen = self.chosen_at(group);
        Entry {
            number: if weighed {
                self.after(b'>', 1 + at)
            } else {
                along(base, step, last)
            },
            base,
            step,
            group,
            fits,
            chosen: if weighed {
                self.after(b'>', chosen)
            } else {
                last
            },
            gain: self.after(b'>', chosen.saturating_add(1)),
        }
    }

    // Where a group's chosen k stands, behind the worth and the numbers.
    fn chosen_at(&self, group: u16) -> usize {
        if self.is_wide() {
            return 3;
        }
        1 + usize::from(self.variable_count()) + 2 * usize::from(group)
    }

    // The lowest variable of the group of variable i. Without equations that is i itself.
    fn lowest(&self, i: u16) -> u16 {
        if self.equation_count() == 0 {
            return i;
        }
        word(self.after(b'|', 4 * usize::from(self.place(i) % 256)))
    }

    fn groups_below(&self, end: u16) -> u16 {
        format::groups_below(end, |i| self.lowest(i))
    }
}

// The lowest 16 bits, as in `try_check`: the programs share `input` and no more.
pub(crate) fn word(x: i64) -> u16 {
    x.rem_euclid(65536) as u16
}

// base + step·k, in the 32 bits that a sheet has for it; k is at most 2,000,000,000.
fn along(base: i64, step: i64, k: i64) -> i64 {
    base.wrapping_add(step.wrapping_mul(k.rem_euclid(2147483648)))
}
