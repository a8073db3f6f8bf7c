//! The p that have a partner in a run of q, where a is above 0.

ghost use Rattle.std.specs.Prelude.{◌≡◌, Some, ◌≤ℤ◌};
ghost use Rattle.runs.specs.Method.{Carriable, AllSolutions, places_with_partner, last_place, partners, step_of, carry_by};

use crate::class::Class;
use crate::{Equation, Run};

/// An equation with a above 0, a run of q that is not empty, and the class of the places at which its numbers have a partner.
#[derive(Clone, Copy)]
pub struct Partners {
    pub e: Equation,
    pub q: Run,
    pub j: Class,
    ghost carriable: { Carriable e q },
    ghost solved: { ∥ AllSolutions (places_with_partner e q) j ∥₁ },
}

impl Partners {
    // The run of the p: one at the first of the places, if it is in the run, and one more for each period up to the last place.
    pub(crate) fn run(self) -> Run
        ensures { result ≡ carry_by (Some self.j) self.e self.q }
    {
        let last = self.q.many as i64 - 1;
        if last < self.j.first {
            return Run::empty();
        }
        let more = ints::quotient(last - self.j.first, self.j.step);
        self.e.rising(self.class(), more).counted_run(more)
    }

    // The class of the p, where the first of the places is in the run.
    fn class(self) -> Class
        requires { self.j.first ≤ℤ last_place self.q }
        ensures { result ≡ partners self.e self.q self.j }
    {
        Class {
            first: ints::quotient(
                self.e.partner_value(self.q.numbers_at(self.j).first),
                self.e.a,
            ),
            step: self.step(),
        }
    }

    // From one p to the next, where q moves by a stride and has a partner once a period.
    fn step(self) -> i64
        ensures { result ≡ step_of self.e self.q self.j }
    {
        ints::quotient(
            self.e.b.abs() * self.q.stride(),
            ints::quotient(self.e.a, self.j.step),
        )
    }
}
