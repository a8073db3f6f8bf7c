//! Whole numbers: the division working, and the laws of ℤ that the proofs of every other crate go by.
//!
//! Read `specs/Lib.antt` for the definitions, then this file; `proofs/Lib.antt` says what other proofs import.
#![tactic(auto)]

ghost use Rattle.std.specs.Prelude.{◌≡◌, ◌≢◌, pos};
ghost use Rattle.reasons.specs.Answer.{working_answer_of};
ghost use Rattle.ints.specs.Within.{Within, is_within};
ghost use Rattle.ints.specs.Floor.{floor_div, floor_mod, ceil_div};
ghost use Rattle.ints.specs.Division.{division, limit, DivisionLimits, division_limits};

use reasons::Reason;

/// n / d rounded towards the lower whole number, also when either is negative. Refused where d is 0, or n or d is
/// larger in size than 4,000,000,000,000,000,000.
pub fn divide(n: i64, d: i64) -> Result<i64, Reason>
    ensures { working_answer_of result ≡ division n d }
{
    if in_limits(n, d) {
        Ok(floor_div(n, d))
    } else {
        Err(Reason::WrongArgument)
    }
}

// The three below ask the same of two numbers: a struct of n and d with that fact would be no shorter than the clause.

/// The quotient alone, for callers that have proved their arguments to be within the limits. A divisor of 1 is frequent.
pub fn quotient(n: i64, d: i64) -> i64
    requires { DivisionLimits n d }
    ensures { result ≡ floor_div n d }
{
    if d == 1 { n } else { floor_div(n, d) }
}

/// The quotient rounded towards the higher whole number.
pub fn ceiling(n: i64, d: i64) -> i64
    requires { DivisionLimits n d }
    ensures { result ≡ ceil_div n d }
{
    -quotient(-n, d)
}

/// What division leaves of n: 0, or of the divisor's sign and smaller in size.
pub fn remainder(n: i64, d: i64) -> i64
    requires { DivisionLimits n d }
    ensures { result ≡ floor_mod n d }
{
    n - d * quotient(n, d)
}

fn in_limits(n: i64, d: i64) -> bool
    ensures { result ≡ division_limits n d }
{
    is_within(LIMIT, n) && is_within(LIMIT, d) && d != 0
}

const LIMIT: u64 = 4000000000000000000;

/// Does x lie within ±most?
pub fn is_within(most: u64, x: i64) -> bool
    ensures { result ≡ is_within most x }
{
    x.unsigned_abs() <= most
}

// `/` rounds towards zero: where the remainder and the divisor have opposite signs, the floor is one less. Document 01 names
// this form; `div_euclid` rounds otherwise for a negative divisor.
fn floor_div(n: i64, d: i64) -> i64
    requires within { Within limit n }
    requires d_nonzero { d ≢ pos 0 }
    ensures { result ≡ floor_div n d }
{
    let q = n / d;
    let r = n % d;
    if 0 < d {
        if r < 0 { q - 1 } else { q }
    } else {
        if 0 < r { q - 1 } else { q }
    }
}
