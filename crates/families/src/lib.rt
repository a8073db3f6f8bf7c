//! Families of solutions, component by component: the mathematics that the planner rests on, without code.
//!
//! Read `specs/Lib.antt` for what is said and the model, then `proofs/Lib.antt` for the theorems.
#![tactic(auto)]
