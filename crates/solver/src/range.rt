//! What every variable can be before any equation: the numbers within its bounds.

ghost use Rattle.std.specs.Prelude.{◌≡◌};
ghost use Rattle.families.specs.Model.{interval};
ghost use Rattle.jobs.specs.Bounds.{Bounded, BoundedBy};
ghost use Rattle.solver.specs.VariableArrays.{Begins};

use jobs::{Bounds, Shape};
use runs::Run;

// All numbers from low to high. Written out: `progression` of `runs` takes how many follow the first, and to ask that is this test again.
fn interval(b: Bounds) -> Run
    requires { Bounded b }
    ensures { result ≡ interval b.low b.high }
{
    if b.high < b.low {
        return Run::empty();
    }
    if b.low < b.high {
        return Run {
            first: b.low,
            step: 1,
            many: (b.high - b.low + 1) as u32,
        };
    }
    Run {
        first: b.low,
        step: 0,
        many: 1,
    }
}

// The full range, met with the bounds of each variable.
pub(crate) fn start(bounds: &[Bounds; 256], runs: &mut [Run; 256], shape: Shape)
    requires bounded_by { BoundedBy bounds.now shape.variables }
    ensures { Begins bounds.now shape.variables runs.new }
{
    for i in 0..shape.variables {
        runs[i] = Run::full().meet(interval(bounds[i]));
    }
}
