//! The solver: from a job to its components and the family of each.
//!
//! Read `specs/Lib.antt`, then this file, then the modules in the order in which they are listed. Arrays have 256 or 1,024 places, as many
//! as a job may have rows of a kind: the archive has no heap.
#![tactic(auto)]

use runs::Run;

// the part of a family at a run of indices; a run that falls, turned
mod parts;
// an equation inside a component
mod cycle;
// an equation between two components
mod join;
// components, by their lowest variables
pub mod components;
// how a job hangs together
pub mod structure;
// the variables' rows
pub mod variables;
// where every variable begins
mod range;
// what an equation leaves of its families
mod reduce;
// the equations, one after the other
pub mod equations;

/// What is known when the equations are taken in, for each variable by its number.
///
/// `labels[i]` is the lowest variable of the component of variable i. `runs[i]` is what variable i can be: at k its number is
/// `first + step·k`, for each k below `many`. The k and the `many` are the component's, so that all its variables move together;
/// a step may be negative, but that of the component's lowest variable is not. With two or more members no step is 0, with one every
/// step is, and a component that no numbers fit is 0, 0, 0 throughout.
// Document 01's form, an array of runs and one of labels. It has no invariant, so that any state can be lent to `equations::families`.
#[derive(Clone, Copy)]
pub struct State {
    pub labels: [u16; 256],
    pub runs: [Run; 256],
}
