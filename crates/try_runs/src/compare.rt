//! All small cases against the search: each of the 205 runs from -6 to 6 is met with each of them, and carried by each of the 64 · 19
//! equations whose a and b are 1 to 4 in size and whose c is within ±9.

use crate::tally::Tally;
use crate::{answer, search};
use reasons::Reason;
use runs::{Equation, Run};
use std::alloc::{AllocError, Global};
use std::io;
use std::iter::{StepBy, Take};
use std::ops::RangeInclusive;

/// The cases that disagree stand on lines above the working's two.
pub(crate) fn meetings(rt: &impl Print, alloc: Global) -> io::Result<()> {
    let small = small_runs(alloc)?;
    let has = |a: SmallRun, b: SmallRun, x: i8| a.numbers().any(|p| p == x)
        && b.numbers().any(|q| q == x);
    let meeting = |a: SmallRun, b: Run| runs::meeting(Run::from(a), b);
    let tally = compared(rt, small.as_slice(), small.as_slice(), has, meeting)?;
    tally.show(rt, "meeting", " pairs ")
}

pub(crate) fn carryings(rt: &impl Print, alloc: Global) -> io::Result<()> {
    let small = small_runs(alloc)?;
    let equations = small_equations(alloc)?;
    let has = |e: SmallEquation, q: SmallRun, p: i8| q.numbers().any(|q| e.holds(p, q));
    let carrying = |e: SmallEquation, q: Run| runs::carrying(Equation::from(e), q);
    let tally = compared(rt, equations.as_slice(), small.as_slice(), has, carrying)?;
    tally.show(rt, "carrying", " cases ")
}

// The answer for each task and each run, against the run of all numbers that it has to have.
fn compared<T: Copy, H: Fn(T, SmallRun, i8) -> bool, W: Fn(T, Run) -> Result<Run, Reason>>(
    rt: &impl Print,
    tasks: &[T],
    runs: &[SmallRun],
    has: H,
    working: W,
) -> io::Result<Tally>
    requires has { H.IsAlwaysCallable has }
    requires working { W.IsAlwaysCallable working }
{
    let mut tally = Tally::default();
    for task in tasks {
        for run in runs {
            let expected = search::all(|x| has(*task, *run, x));
            tally.count(expected.many);
            tally.judge(answer::agree(rt, working(*task, Run::from(*run)), Ok(expected))?);
        }
    }
    Ok(tally)
}

/// What may be a run from -6 to 6: some end further up, or are not in their one form.
#[derive(Clone, Copy)]
struct SmallRun {
    first: i8,
    step: u8,
    many: u8,
}

impl From<SmallRun> for Run {
    fn from(r: SmallRun) -> Run {
        Run {
            first: i64::from(r.first),
            step: i64::from(r.step),
            many: u32::from(r.many),
        }
    }
}

impl SmallRun {
    // As far as 6.
    fn numbers(self) -> Take<StepBy<RangeInclusive<i8>>> {
        (self.first..=6)
            .step_by(usize::from(self.step).max(1))
            .take(usize::from(self.many))
    }

    // Is it in its one form, with no number above 6?
    fn is_run(self) -> bool {
        match self.many {
            0 => self.first == 0 && self.step == 0,
            1 => self.step == 0,
            _ => self.step > 0 && self.numbers().count() == usize::from(self.many),
        }
    }
}

fn small_runs(alloc: Global) -> Result<Vec<SmallRun>, AllocError> {
    let mut runs = Vec::new(alloc);
    for many in 0..=13 {
        for step in 0..=12 {
            for first in -6..=6 {
                let run = SmallRun { first, step, many };
                if run.is_run() {
                    runs.push(run)?;
                }
            }
        }
    }
    Ok(runs)
}

/// a·p + b·q = c with small numbers.
#[derive(Clone, Copy)]
struct SmallEquation {
    a: i8,
    b: i8,
    c: i8,
}

impl From<SmallEquation> for Equation {
    fn from(e: SmallEquation) -> Equation {
        Equation {
            a: i64::from(e.a),
            b: i64::from(e.b),
            c: i64::from(e.c),
        }
    }
}

impl SmallEquation {
    fn holds(self, p: i8, q: i8) -> bool {
        i32::from(times(self.a, p)) + i32::from(times(self.b, q)) == i32::from(self.c)
    }
}

// A step wider each: of products in 64 bits the check did not see that their sum fits.
fn times(x: i8, y: i8) -> i16 {
    i16::from(x) * i16::from(y)
}

fn small_equations(alloc: Global) -> Result<Vec<SmallEquation>, AllocError> {
    let mut equations = Vec::new(alloc);
    for c in -9..=9 {
        for b in -4..=4 {
            for a in -4..=4 {
                if a != 0 && b != 0 {
                    equations.push(SmallEquation { a, b, c })?;
                }
            }
        }
    }
    Ok(equations)
}
