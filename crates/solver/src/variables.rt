//! The rows of a job's variables, each read once.

ghost use Rattle.std.specs.Prelude.{◌≡◌};
ghost use Rattle.jobs.specs.Amendments.{amended};
ghost use Rattle.solver.specs.VariableArrays.{BoundsOf, WeightsOf};

use jobs::{Accepted, Bounds};

/// What the rows of a job's variables say, put in the two arrays by variable: the weights, and the bounds in force, those of its
/// amendments in place of their own.
// Two arrays: `equations::families` takes the bounds alone, which may come from elsewhere.
pub fn in_force(accepted: Accepted, bounds: &mut [Bounds; 256], weights: &mut [i64; 256])
    ensures bounds_of { BoundsOf (amended accepted.entry.lawful.job.bytes.now accepted.entry.amendments.bytes.now) accepted.entry.lawful.job.shape.variables bounds.new }
    ensures weights_of { WeightsOf (amended accepted.entry.lawful.job.bytes.now accepted.entry.amendments.bytes.now) accepted.entry.lawful.job.shape.variables weights.new }
{
    let job = accepted.lawful.job;
    for i in 0..job.shape.variables {
        let v = job.variable(i);
        bounds[i] = v.bounds();
        weights[i] = v.weight;
    }
    accepted.overlay(bounds);
}
