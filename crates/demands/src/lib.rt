//! What each user of the planner may rely on: one demand to a function, and nothing else promised or done.
//!
//! Beside each `plan` stand variants of it that change nothing: a job turned away that the planner would turn away, an answer
//! passed on, bytes of the sheet written again as they are. Each is proved to keep the demand. The edits in `must-fail/` change
//! one operand of a variant, and so put a sham planner of document 01 in its place. So functions of the same body stand here side by side:
//! what each promises is what they differ in.
#![tactic(auto)]

// a faulty job is turned away, and only a faulty one
pub mod service_port;
// a fit-out is given when one exists, with every other one of each group
pub mod installer;
// no other fit-out of the job is worth more, or as much and comes earlier
pub mod buyer;
// a map area that is lent shows how the job hangs together
pub mod bench;
// bytes of a sheet, for the variants
mod rewrite;
