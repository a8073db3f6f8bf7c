//! The greatest common divisor of two numbers, by remainders of their sizes: an entry for any two numbers, and for the workings on
//! runs `Factor`, with the cofactor of the first.
//!
//! Read `specs/Lib.antt` for the definitions, then this file.
#![tactic(auto)]

ghost use Rattle.std.specs.Prelude.{◌≡◌, pos, nat_abs, ◌<ℤ◌, ◌≤ℤ◌};
ghost use Rattle.reasons.specs.Answer.{working_answer_of, RefusedUnless};
ghost use Rattle.ints.specs.Within.{Within};
ghost use Rattle.euclid.specs.Remainders.{early_divisions};
ghost use Rattle.euclid.specs.Coefficient.{Coefficient, is_coefficient};
ghost use Rattle.euclid.specs.CommonDivisor.{common_divisor};
ghost use Rattle.euclid.specs.Factor.{IsFactor};

use reasons::Reason;

/// The greatest common divisor of two numbers, document 02's factor, and the number of divisions made: by remainders of their sizes, the
/// first divided by the second to begin with, ending at the first remainder that is 0 or 1. Refused where a or b is 0 or larger than
/// 1,000,000 in size.
pub fn common_divisor(a: i64, b: i64) -> Result<(i64, u32), Reason>
    ensures answer { working_answer_of result ≡ common_divisor a b }
    ensures refused_unless { RefusedUnless (Coefficient a × Coefficient b) (working_answer_of result) }
{
    if is_coefficient(a) && is_coefficient(b) {
        let f = Factor::of(a, b.abs());
        Ok((f.gcd, f.divisions))
    } else {
        Err(Reason::WrongArgument)
    }
}

/// The greatest common divisor of a and b: a·cofactor is gcd modulo b, and so many divisions were made to find it.
#[derive(Clone, Copy)]
pub struct Factor {
    pub gcd: i64,
    pub cofactor: i64,
    pub divisions: u32,
}

impl Factor {
    /// For arguments that are known to be within these limits: with them no step leaves 64 bits.
    pub fn of(a: i64, b: i64) -> Factor
        requires first { Within 1000000000000000000 a }
        requires second_above { pos 0 <ℤ b }
        requires second_small { b ≤ℤ pos 2000000000 }
        ensures factor { IsFactor a b result.gcd result.cofactor }
        ensures divisions { result.divisions ≡ early_divisions (nat_abs a) (nat_abs b) }
    {
        if a < 0 {
            let f = Factor::of_size(-a, b);
            Factor {
                cofactor: -f.cofactor,
                ..f
            }
        } else {
            Factor::of_size(a, b)
        }
    }

    // The remainders r0 and r1 go with cofactors: a·s0 is r0 and a·s1 is r1, modulo b. A remainder of 1 ends it as 0 does: the
    // next division would leave 0, and find 1.
    fn of_size(a: i64, b: i64) -> Factor
        requires not_negative { pos 0 ≤ℤ a }
        requires first { Within 1000000000000000000 a }
        requires second_above { pos 0 <ℤ b }
        requires second_small { b ≤ℤ pos 2000000000 }
        ensures factor { IsFactor a b result.gcd result.cofactor }
        ensures divisions { result.divisions ≡ early_divisions (nat_abs a) (nat_abs b) }
    {
        let mut r0 = a;
        let mut r1 = b;
        let mut s0: i64 = 1;
        let mut s1: i64 = 0;
        let mut made: u32 = 0;
        // A loop, since nothing is counted here: the remainders fall until one is 0 or 1.
        'turns: loop {
            let q = r0 / r1;
            let r2 = r0 % r1;
            let s2 = s0 - q * s1;
            if r2 == 1 {
                return Factor::new(r2, s2, made + 1);
            }
            if r2 == 0 {
                return Factor::new(r1, s1, made + 1);
            }
            r0 = r1;
            r1 = r2;
            s0 = s1;
            s1 = s2;
            made += 1;
        }
    }

    // One line at each end of the loop, where a literal would be five.
    fn new(gcd: i64, cofactor: i64, divisions: u32) -> Factor
        ensures { result ≡ record { gcd = gcd; cofactor = cofactor; divisions = divisions } }
    {
        Factor {
            gcd,
            cofactor,
            divisions,
        }
    }
}

/// Is x of a nonzero coefficient's size: 1 to 1,000,000, with either sign?
pub fn is_coefficient(x: i64) -> bool
    ensures { result ≡ is_coefficient x }
{
    ints::is_within(1000000, x) && x != 0
}
