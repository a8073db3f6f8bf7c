//! Runs: arithmetic progressions of whole numbers. The meeting and the carrying workings.
//!
//! Read `specs/Lib.antt` for the definitions, then this file, then the modules in their order.
#![tactic(auto)]

ghost use Rattle.std.specs.Prelude.{◌≡◌};
ghost use Rattle.reasons.specs.Answer.{working_answer_of, RefusedUnless};
ghost use Rattle.runs.specs.Run.{OneForm};
ghost use Rattle.runs.specs.Workings.{CarryLimits, meeting, carrying};

use reasons::Reason;

// a run's one form, meeting and carrying
mod run_methods;
// the limits of an equation, and the parts of carrying
mod equation_methods;
// the p that have a partner in a run
mod partners;
// the members of a residue class in an interval
mod class;
// u·i ≡ v (mod d)
mod congruence;

/// An arithmetic progression, document 01's run: `many` numbers, from `first` on by `step`. Its one form: empty is 0, 0, 0;
/// one number has step 0; otherwise the step is at least 1; and all its numbers lie within ±1,000,000,000.
#[derive(Clone, Copy, PartialEq, Eq)]
pub struct Run {
    pub first: i64,
    pub step: i64,
    pub many: u32,
}

/// The equation a·p + b·q = c between two numbers, document 01's tie.
#[derive(Clone, Copy)]
pub struct Equation {
    pub a: i64,
    pub b: i64,
    pub c: i64,
}

/// Two runs meet in the run of the numbers in both. Refused where one of them is not in its one form.
pub fn meeting(a: Run, b: Run) -> Result<Run, Reason>
    ensures answer { working_answer_of result ≡ meeting a b }
    ensures refused_unless { RefusedUnless (OneForm a × OneForm b) (working_answer_of result) }
{
    if a.is_one_form() && b.is_one_form() {
        Ok(a.meet(b))
    } else {
        Err(Reason::WrongArgument)
    }
}

/// A run of q is carried to the run of all p within ±1,000,000,000 that have a partner q in it, with a·p + b·q = c.
/// Refused where the run is not in its one form, where a or b is 0 or larger than 1,000,000 in size, or where c is larger
/// than 2,000,000,000,000,000.
pub fn carrying(e: Equation, q: Run) -> Result<Run, Reason>
    ensures answer { working_answer_of result ≡ carrying e q }
    ensures refused_unless { RefusedUnless (CarryLimits e × OneForm q) (working_answer_of result) }
{
    if e.in_limits() && q.is_one_form() {
        Ok(q.carry(e))
    } else {
        Err(Reason::WrongArgument)
    }
}
