//! An equation inside a component, document 01's ring and document 02's tie that fixes one count: it is redundant, or leaves one
//! candidate, or leaves none.
//!
//! What is asked of an equation's numbers stays in clauses: a type of its own for the same three numbers would be no plainer.

ghost use Rattle.std.specs.Prelude.{◌≡◌, ◌≢◌, pos, ◌+ℤ◌, ◌*ℤ◌};
ghost use Rattle.ints.specs.Within.{Within};
ghost use Rattle.families.specs.FamilyRun.{FamilyRun};
ghost use Rattle.families.specs.Model.{in_range, candidate, cycle};
ghost use Rattle.solver.specs.Widths.{Combinable};
ghost use Rattle.solver.specs.Steps.{remains_by};

use runs::{Equation, Run};

/// What an equation inside a component leaves of the component's family: the members at the indices of a run. None: all of it stays.
///
/// With p = first + step·k, and q likewise, the equation says coefficient·k = value. Both numbers are within the
/// 10,000,000,000,000,000 that `candidate` asks for.
pub(crate) fn inside(e: Equation, p: Run, q: Run) -> Option<Run>
    requires combinable { Combinable e }
    requires left_family { FamilyRun p }
    requires right_family { FamilyRun q }
    ensures { remains_by result ≡ cycle e p q }
{
    let coefficient = combined(e, p.step, q.step);
    let value = e.c - combined(e, p.first, q.first);
    if coefficient != 0 {
        return Some(candidate(value, coefficient, p.many));
    }
    if value != 0 {
        return Some(Run::empty());
    }
    None
}

// a·x + b·y
fn combined(e: Equation, x: i64, y: i64) -> i64
    requires combinable { Combinable e }
    requires small_x { Within 2000000000 x }
    requires small_y { Within 2000000000 y }
    ensures { result ≡ e.a *ℤ x +ℤ e.b *ℤ y }
{
    e.a * x + e.b * y
}

// The one k with coefficient·k = value, if it is whole and an index of the family.
fn candidate(value: i64, coefficient: i64, many: u32) -> Run
    requires small_value { Within 10000000000000000 value }
    requires small_coefficient { Within 10000000000000000 coefficient }
    requires coefficient_nonzero { coefficient ≢ pos 0 }
    ensures { result ≡ candidate value coefficient many }
{
    if ints::remainder(value, coefficient) != 0 {
        return Run::empty();
    }
    in_range(ints::quotient(value, coefficient), many)
}

// The index k alone, if it is one. A run of indices, which need not lie in the range of `runs`.
fn in_range(k: i64, many: u32) -> Run
    ensures { result ≡ in_range k many }
{
    if 0 <= k && k < i64::from(many) {
        Run {
            first: k,
            step: 0,
            many: 1,
        }
    } else {
        Run::empty()
    }
}
