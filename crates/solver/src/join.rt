//! An equation between two components: which members of the two families go together.
//!
//! What is asked of an equation's numbers and of a family's run stays in clauses, as in `cycle` and `parts`. `leads` says which of a
//! pair is meant, and switches no step.

ghost use Rattle.std.specs.Prelude.{◌≡◌, ◌-ℤ◌, ◌*ℤ◌};
ghost use Rattle.ints.specs.Within.{Within};
ghost use Rattle.ints.specs.Floor.{floor_div};
ghost use Rattle.runs.specs.Workings.{CarryLimits};
ghost use Rattle.runs.specs.Search.{meet, carry};
ghost use Rattle.families.specs.FamilyRun.{FamilyRun, upward, ratio, across};
ghost use Rattle.families.specs.Model.{indices_in, leading, directed, join};
ghost use Rattle.solver.specs.Widths.{Turnable, Crossable};
ghost use Rattle.solver.specs.Steps.{indices_by};

use crate::parts;
use runs::{Equation, Run};

/// The indices into the family of an equation's left variable, and those into the family of its right variable, that go
/// together: first with first, and so on.
#[derive(Clone, Copy)]
pub struct Indices {
    pub left: Run,
    pub right: Run,
}

// The members of the two families for which the equation holds. `leads` says that the left variable's component has the lower
// lowest variable, which is that of both together and must rise; it chooses one of the two runs and no step.
pub(crate) fn between(e: Equation, p: Run, q: Run, leads: bool) -> Indices
    requires carry_limits { CarryLimits e }
    requires left_family { FamilyRun p }
    requires right_family { FamilyRun q }
    ensures { indices_by result ≡ join e p q (meet (upward p) (carry e.a e.b e.c (upward q))) leads }
{
    let left = parts::upward(p);
    let right = parts::upward(q);
    let common = left.meet(right.carry(e));
    if common.many == 0 {
        return Indices {
            left: Run::empty(),
            right: Run::empty(),
        };
    }
    Indices {
        left: indices_in(p, common),
        right: indices_in(q, across(e, common)),
    }
    .directed(leads)
}

// Where the numbers of a run stand in a family's run: exact quotients.
fn indices_in(r: Run, numbers: Run) -> Run
    requires family_crossable { Crossable r }
    requires numbers_crossable { Crossable numbers }
    ensures { result ≡ indices_in r numbers }
{
    Run {
        first: ratio(numbers.first - r.first, r.step),
        step: ratio(numbers.step, r.step),
        many: numbers.many,
    }
}

// The quotient; 0 where the divisor is 0, as it is in a family of one member.
fn ratio(n: i64, d: i64) -> i64
    requires small_dividend { Within 4000000000000000000 n }
    requires small_divisor { Within 4000000000000000000 d }
    ensures { result ≡ ratio n d }
{
    if d == 0 { 0 } else { ints::quotient(n, d) }
}

// The partners q of the numbers p of a run, with a·p + b·q = c. The steps go together as the numbers do, with 0 for c.
fn across(e: Equation, r: Run) -> Run
    requires carry_limits { CarryLimits e }
    requires crossable { Crossable r }
    ensures { result ≡ across e.a e.b e.c r }
{
    let steps = Equation { c: 0, ..e };
    Run {
        first: partner(e, r.first),
        step: partner(steps, r.step),
        many: r.many,
    }
}

// The partner of p, where there is a whole one.
fn partner(e: Equation, p: i64) -> i64
    requires carry_limits { CarryLimits e }
    requires small_number { Within 2000000000 p }
    ensures { result ≡ floor_div (e.c -ℤ e.a *ℤ p) e.b }
{
    ints::quotient(e.c - e.a * p, e.b)
}

impl Indices {
    // In the direction in which the new lowest variable rises. The lowest variables of both components rise with their indices.
    fn directed(self, leads: bool) -> Indices
        requires left_turnable { Turnable self.left }
        requires right_turnable { Turnable self.right }
        ensures { indices_by result ≡ directed leads (indices_by self) }
    {
        if self.leading(leads).step < 0 {
            Indices {
                left: parts::turned(self.left),
                right: parts::turned(self.right),
            }
        } else {
            self
        }
    }

    // The indices into the family of the new lowest variable.
    fn leading(self, leads: bool) -> Run
        ensures { result ≡ leading leads (indices_by self) }
    {
        if leads { self.left } else { self.right }
    }
}
