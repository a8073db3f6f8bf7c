//! The header of a job.

ghost use Rattle.std.specs.Prelude.{◌≡◌, true, ◌↔◌, ◌≤◌, length, IfOk};
ghost use mathlib.Core.List.{[]};
ghost use Rattle.reasons.specs.Answer.{fault_of};
ghost use Rattle.jobs.specs.Call.{lending_nothing};
ghost use Rattle.jobs.specs.Job.{variable_count, equation_count};
ghost use Rattle.jobs.specs.ReasonTable.{Header, header_checks};
ghost use Rattle.jobs.specs.Decide.{first_where};
ghost use Rattle.jobs.specs.Faults.{breaks?};

use crate::{Job, Shape};
use reasons::Reason;

/// How many variables the header names, document 01's n.
pub fn variable_count(job: &[u8]) -> usize
    requires { 24 ≤ length job.now }
    ensures { result ≡ variable_count job.now }
{
    usize::from(little_endian::u16_at(job, 4))
}

/// How many equations, document 01's m.
pub fn equation_count(job: &[u8]) -> usize
    requires { 24 ≤ length job.now }
    ensures { result ≡ equation_count job.now }
{
    usize::from(little_endian::u16_at(job, 6))
}

// The mark of a job.
const MARK: [u8; 4] = *b"FIT1";

impl<'a> Job<'a> {
    /// The job that these bytes are, where the header is right, or the first failing check of reasons 1 to 4.
    #[tactic(auto, using(crate::proofs::HeaderChecks::short, crate::proofs::HeaderChecks::unmarked, crate::proofs::HeaderChecks::ill_laid, crate::proofs::HeaderChecks::well_laid))]
    pub fn open(bytes: &'a [u8]) -> Result<Job<'a>, Reason>
        ensures opened { IfOk result (λ j. j.bytes.now ≡ bytes.now) }
        ensures first_fault { fault_of result ≡ first_where (breaks? (lending_nothing bytes.now [])) header_checks }
    {
        if bytes.len() < 24 {
            return Err(Reason::ShortJob);
        }
        if bytes[..4] != MARK[..] {
            return Err(Reason::WrongMark);
        }
        let variables = variable_count(bytes);
        let equations = equation_count(bytes);
        if 256 < variables || 1024 < equations {
            return Err(Reason::TooMany);
        }
        let shape = Shape {
            variables,
            equations,
        };
        if !is_laid_out(bytes, shape) {
            return Err(Reason::WrongHeader);
        }
        Ok(Job { bytes, shape })
    }
}

// Are the offsets, the length field, the zero bytes and the real length as the numbers of rows make them? It asks for a header, as the two
// readers do, in a clause: what it says yes to is a type, `Job`, and one for the header alone would be left again at once.
fn is_laid_out(job: &[u8], shape: Shape) -> bool
    requires has_header { 24 ≤ length job.now }
    requires variables_counted { shape.variables ≡ variable_count job.now }
    requires equations_counted { shape.equations ≡ equation_count job.now }
    ensures { (result ≡ true) ↔ Header job.now }
{
    let equations = 24 + 12 * shape.variables;
    let whole = equations + 20 * shape.equations;
    little_endian::u32_at(job, 8) == 24
        && little_endian::u32_at(job, 12) as usize == equations
        && little_endian::u32_at(job, 16) as usize == whole
        && little_endian::u32_at(job, 20) == 0
        && job.len() == whole
}
