//! The methods of `Equation`: its limits, and the parts of carrying, most of them for an a above 0.

ghost use Rattle.std.specs.Prelude.{◌≡◌, ◌-ℤ◌, ◌*ℤ◌};
ghost use Rattle.ints.specs.Within.{Within};
ghost use Rattle.ints.specs.Division.{limit};
ghost use Rattle.runs.specs.Run.{bound};
ghost use Rattle.runs.specs.Workings.{CarryLimits, carry_limits};
ghost use Rattle.runs.specs.Method.{congruence_by, upright, Carriable, partner_value, places_with_partner, rising};

use crate::class::Class;
use crate::congruence::Congruence;
use crate::{Equation, Run};

// The limits are a clause here and no fact of the type: `carrying` takes any equation and refuses those past them, and a second
// type for the same three numbers would be no plainer.
impl Equation {
    /// Are a, b and c within their limits?
    pub fn in_limits(self) -> bool
        ensures { result ≡ carry_limits self }
    {
        euclid::is_coefficient(self.a)
            && euclid::is_coefficient(self.b)
            && ints::is_within(2000000000000000, self.c)
    }

    // The same equation with a above 0.
    pub(crate) fn upright(self) -> Equation
        requires { CarryLimits self }
        ensures { result ≡ upright self }
    {
        if self.a < 0 {
            Equation {
                a: -self.a,
                b: -self.b,
                c: -self.c,
            }
        } else {
            self
        }
    }

    // The places in a run of the numbers with a partner.
    pub(crate) fn places(self, q: Run) -> Congruence
        requires { Carriable self q }
        ensures { congruence_by result ≡ places_with_partner self q }
    {
        Congruence {
            u: self.b * q.stride(),
            v: self.partner_value(q.first),
            d: self.a,
        }
    }

    // The p from the lowest on: with a positive b they fall where q rises.
    pub(crate) fn rising(self, p: Class, more: i64) -> Class
        requires way { Within limit (p.step *ℤ more) }
        requires lowest { Within limit (p.first -ℤ p.step *ℤ more) }
        ensures { result ≡ rising self p more }
    {
        if 0 < self.b {
            Class {
                first: p.first - p.step * more,
                step: p.step,
            }
        } else {
            p
        }
    }

    // a·p, by its partner q.
    pub(crate) fn partner_value(self, q: i64) -> i64
        requires carry_limits { CarryLimits self }
        requires within { Within bound q }
        ensures { result ≡ partner_value self q }
    {
        self.c - self.b * q
    }
}
