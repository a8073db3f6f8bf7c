//! The congruence u·i ≡ v (mod d).

ghost use Rattle.runs.specs.Reach.{InReach};

use crate::class::Class;
use euclid::Factor;

/// u·i ≡ v (mod d), for an unknown i.
#[derive(Clone, Copy)]
pub struct Congruence {
    pub u: i64,
    pub v: i64,
    pub d: i64,
    ghost in_reach: { InReach u v d },
}

impl Congruence {
    ghost use Rattle.std.specs.Prelude.{◌≡◌, pos};
    ghost use Rattle.ints.specs.Divides.{◌∣ℤ◌};
    ghost use Rattle.euclid.specs.Factor.{IsFactor};
    ghost use Rattle.runs.specs.Method.{congruence_by, AllSolutions, Solves};

    // Its solutions: none, or the numbers of one class, whose first is the least that is not negative. A run that a variable begins
    // with has stride 1, and so have most that are met.
    pub(crate) fn solve(self) -> Option<Class>
        ensures { Solves (congruence_by self) result }
    {
        if self.u == 1 {
            Some(self.class_of_value())
        } else {
            self.by_factor()
        }
    }

    // With u = 1 the solutions are the numbers that are v modulo d.
    fn class_of_value(self) -> Class
        requires { self.u ≡ pos 1 }
        ensures { AllSolutions (congruence_by self) result }
    {
        Class {
            first: ints::remainder(self.v, self.d),
            step: self.d,
        }
    }

    fn by_factor(self) -> Option<Class>
        ensures { Solves (congruence_by self) result }
    {
        let f = Factor::of(self.u, self.d);
        if 0 < ints::remainder(self.v, f.gcd) {
            None
        } else {
            Some(self.class_by(f))
        }
    }

    // The greatest common divisor divides v, and v divided by it, times the cofactor, is a solution. The factors are
    // reduced first, so that the product is at most 4,000,000,000,000,000,000.
    fn class_by(self, f: Factor) -> Class
        requires factor { IsFactor self.u self.d f.gcd f.cofactor }
        requires gcd { f.gcd ∣ℤ self.v }
        ensures { AllSolutions (congruence_by self) result }
    {
        let step = ints::quotient(self.d, f.gcd);
        let x = ints::remainder(f.cofactor, step);
        let y = ints::remainder(ints::quotient(self.v, f.gcd), step);
        Class {
            first: ints::remainder(x * y, step),
            step,
        }
    }
}
