//! The rows of a job, read from its bytes and tested.
//!
//! A pass over rows, here and in `amendments`, is a loop that is left with `break` at the first failing row: document 01 wants that form.

ghost use Rattle.std.specs.Prelude.{◌≡◌, true, ◌↔◌, ◌<◌};
ghost use mathlib.Core.List.{[], flat_map};
ghost use Rattle.lists.specs.Table.{up_to};
ghost use Rattle.reasons.specs.declared.Reason.TheVariants.{VariableRange};
ghost use Rattle.reasons.specs.Answer.{fault_of};
ghost use Rattle.jobs.specs.Call.{lending_nothing};
ghost use Rattle.jobs.specs.Job.{job_of, variable_count, equation_count, variable, equation, form};
ghost use Rattle.jobs.specs.Bounds.{Bounded, variable_bounds};
ghost use Rattle.jobs.specs.ReasonTable.{InRange, Misnamed, Coefficients, equation_checks};
ghost use Rattle.jobs.specs.FirstRow.{FirstRow};
ghost use Rattle.jobs.specs.Decide.{first_where};
ghost use Rattle.jobs.specs.Faults.{breaks?};

use crate::{Bounds, Equation, Job, Variable};
use reasons::Reason;

impl Job<'_> {
    /// The row of variable i.
    pub fn variable(self, i: usize) -> Variable
        requires { i < self.shape.variables }
        ensures { result ≡ variable (job_of self.entry.bytes.now) i }
    {
        let at = 24 + 12 * i;
        Variable {
            low: little_endian::i32_at(self.bytes, at),
            high: little_endian::i32_at(self.bytes, at + 4),
            weight: little_endian::i32_at(self.bytes, at + 8),
        }
    }

    /// Row k of the equations, behind the rows of the variables.
    pub fn equation(self, k: usize) -> Equation
        requires { k < self.shape.equations }
        ensures { result ≡ equation (job_of self.entry.bytes.now) k }
    {
        let at = 24 + 12 * self.shape.variables + 20 * k;
        Equation {
            left: usize::from(little_endian::u16_at(self.bytes, at)),
            right: usize::from(little_endian::u16_at(self.bytes, at + 2)),
            a: little_endian::i32_at(self.bytes, at + 4),
            b: little_endian::i32_at(self.bytes, at + 8),
            c: little_endian::i64_at(self.bytes, at + 12),
        }
    }

    // The first variable whose row breaks a rule, or none.
    pub(crate) fn check_variables(self) -> Result<(), Reason>
        ensures { FirstRow VariableRange (λ i. InRange (variable (job_of self.entry.bytes.now) i) → ⊥) self.entry.shape.variables result }
    {
        'rows: {
            for i in 0..self.shape.variables {
                if !self.variable(i).in_range() {
                    break 'rows Err(Reason::VariableRange(i as u16));
                }
            }
            Ok(())
        }
    }

    // The first equation whose row breaks a rule, or none. In one row the variables come before the coefficients.
    #[tactic(auto, using(crate::proofs::RowChecks::all_left, crate::proofs::RowChecks::none_left, crate::proofs::RowChecks::row_passed, crate::proofs::RowChecks::row_out))]
    pub(crate) fn check_equations(self) -> Result<(), Reason>
        ensures { fault_of result ≡ first_where (breaks? (lending_nothing self.entry.bytes.now [])) (flat_map equation_checks (up_to (equation_count self.entry.bytes.now))) }
    {
        'rows: {
            for k in 0..self.shape.equations {
                let e = self.equation(k);
                if e.is_misnamed(self.shape.variables) {
                    break 'rows Err(Reason::EquationVariables(k as u16));
                }
                if !e.in_limits() {
                    break 'rows Err(Reason::EquationRange(k as u16));
                }
            }
            Ok(())
        }
    }
}

impl Variable {
    // Do the bounds and the weight lie in their ranges?
    fn in_range(self) -> bool
        ensures { (result ≡ true) ↔ InRange self }
    {
        self.bounds().in_range() && ints::is_within(1000000, self.weight)
    }

    /// The bounds in its row, which an amendment may replace.
    pub fn bounds(self) -> Bounds
        ensures { result ≡ variable_bounds self }
    {
        let Variable { low, high, .. } = self;
        Bounds { low, high }
    }
}

impl Bounds {
    // Do both lie in their range?
    pub(crate) fn in_range(self) -> bool
        ensures { (result ≡ true) ↔ Bounded self }
    {
        ints::is_within(1000000000, self.low) && ints::is_within(1000000000, self.high)
    }
}

impl Equation {
    /// a, b and c alone, as `Run::carry` takes them.
    // A method and no `From`: it is public, and `form` is the definition's word.
    pub fn form(self) -> runs::Equation
        ensures { result ≡ form self }
    {
        let Equation { a, b, c, .. } = self;
        runs::Equation { a, b, c }
    }

    // Does it name a variable that is not below n?
    fn is_misnamed(self, n: usize) -> bool
        ensures { (result ≡ true) ↔ Misnamed n self }
    {
        n <= self.left || n <= self.right
    }

    // Are a, b and c within their limits? A row's a and b may be 0, so this is not `runs::Equation::in_limits`.
    fn in_limits(self) -> bool
        ensures { (result ≡ true) ↔ Coefficients self }
    {
        ints::is_within(1000000, self.a)
            && ints::is_within(1000000, self.b)
            && ints::is_within(2000000000000000, self.c)
    }
}
