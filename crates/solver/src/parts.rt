//! Parts of a family, and families the other way round.
//!
//! What is asked of a family's run stays in clauses: it may fall, so `Run` cannot carry the one form, and a type for the runs of families
//! would be no plainer.

ghost use Rattle.std.specs.Prelude.{◌≡◌};
ghost use Rattle.families.specs.FamilyRun.{FamilyRun, turned, upward};
ghost use Rattle.families.specs.Model.{through};
ghost use Rattle.solver.specs.Widths.{Turnable};

use runs::Run;

// The members of a family at the indices of a run, for one variable.
pub(crate) fn through(r: Run, indices: Run) -> Run
    requires before { FamilyRun r }
    requires after { FamilyRun (through r indices) }
    ensures { result ≡ through r indices }
{
    if indices.many == 0 {
        return Run::empty();
    }
    Run {
        first: r.first + r.step * indices.first,
        step: r.step * indices.step,
        many: indices.many,
    }
}

// The same numbers, from the last to the first.
pub(crate) fn turned(r: Run) -> Run
    requires { Turnable r }
    ensures { result ≡ turned r }
{
    Run {
        first: r.first + r.step * (i64::from(r.many) - 1),
        step: -r.step,
        many: r.many,
    }
}

// The same numbers, rising, as `Run::meet` and `Run::carry` take them.
pub(crate) fn upward(r: Run) -> Run
    requires { FamilyRun r }
    ensures { result ≡ upward r }
{
    if r.step < 0 { turned(r) } else { r }
}
