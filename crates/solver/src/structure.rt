//! How a job hangs together, by one pass over its equations: all that the map shows, and the components by their lowest variables.

ghost use Rattle.std.specs.Prelude.{◌≡◌};
ghost use Rattle.jobs.specs.Job.{job_of};
ghost use Rattle.jobs.specs.Structure.{kind_by};
ghost use Rattle.solver.specs.Structured.{kind_number, Structured, added};

use crate::components::Components;
use jobs::LawfulJob;

/// The kind of an equation, by the numbers that the map has for them.
#[derive(Clone, Copy)]
pub enum Kind {
    /// It joins two components that the equations before it left apart.
    Joins = 1,
    /// Its two variables are in one component already.
    Ring = 2,
    /// It joins no two variables at all, and can but fix the number of one.
    Fixes = 3,
}

/// Its number in the map.
impl From<Kind> for u16 {
    ghost use Rattle.solver.specs.Structured.{kind_number};

    ghost from_gives = { λ kind result. result ≡ kind_number kind };

    fn from(kind: Kind) -> u16 {
        kind as u16
    }
}

impl Kind {
    // The kind of an equation between variables of these components.
    fn of(binary: bool, l: u16, r: u16) -> Kind
        ensures { kind_number result ≡ kind_by binary l r }
    {
        if !binary {
            Kind::Fixes
        } else if l != r {
            Kind::Joins
        } else {
            Kind::Ring
        }
    }
}

/// What the pass finds: of each variable its label, the lowest variable of its component, and how many equations name it; of each
/// equation its home, the variable whose component is its own, and its kind.
// Arrays side by side: `components::count` and `numbers` take the labels alone. Kinds are kept by their numbers, so that `of_job`, which is
// public, takes an array whatever numbers it has.
#[derive(Clone, Copy)]
pub struct Structure {
    pub labels: [u16; 256],
    pub degrees: [u16; 256],
    pub homes: [u16; 1024],
    pub kinds: [u16; 1024],
}

/// The structure of a job, put in `found`, whatever that has.
pub fn of_job(job: LawfulJob, found: &mut Structure)
    ensures { Structured (job_of job.entry.job.bytes.now) job.entry.job.shape.equations job.entry.job.shape.variables found.new }
{
    let job = job.job;
    let mut components = Components::apart(job.shape.variables);
    found.degrees = [0; 256];
    for k in 0..job.shape.equations {
        let e = job.equation(k);
        let row = e.normal();
        let l = components.label(row.left);
        let r = components.label(row.right);
        found.kinds[k] = u16::from(Kind::of(e.is_binary(), l, r));
        found.homes[k] = row.left as u16;
        found.degrees[e.left] += 1;
        found.degrees[e.right] += added(e.left, e.right);
        components.join(l, r);
    }
    found.labels = components.labels;
}

// What an equation adds to its right variable's number, when it has added one to its left one's: one that names a variable twice adds one.
fn added(left: usize, right: usize) -> u16
    ensures { result ≡ added left right }
{
    u16::from(left != right)
}
