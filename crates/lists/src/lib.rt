//! Lists, as mathematics only: there is no code here.
//!
//! Read `specs/Lib.antt` for the definitions, then `proofs/Lib.antt` for their laws.
#![tactic(auto)]
