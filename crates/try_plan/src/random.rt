//! Pseudo-random jobs of 1 to 5 variables with up to 7 numbers each, and up to 6 equations. All numbers fit a byte.

ghost use Rattle.std.specs.Prelude.{◌≤◌};

use crate::format;
use crate::format::{Equation, Variable};
use std::alloc::{AllocError, Global};

/// What the equations of a job are like.
#[derive(Clone, Copy, PartialEq, Eq)]
enum Form {
    /// Any c.
    Any,
    /// There is a point at which all equations hold.
    Point,
    /// There is a line of such points.
    Line,
    /// A line, which the last equation crosses at that point or near it.
    Crossed,
}

const FORMS: [Form; 4] = [Form::Any, Form::Point, Form::Line, Form::Crossed];

/// Job i.
pub(crate) fn job(alloc: Global, i: u64) -> Result<Vec<u8>, AllocError> {
    let seed = Seed(pseudo_random::mixed(i));
    let n = 1 + seed.draw(0, 5) % 5;
    let m = if n == 1 { 0 } else { seed.draw(1, 7) };
    let mut job = format::job_header(alloc, u16::from(n), u16::from(m))?;
    for i in 0..n {
        seed.variable(i).push_to(&mut job)?;
    }
    for k in 0..m {
        seed.equation(n, k, seed.form_of(k, m)).push_to(&mut job)?;
    }
    Ok(job)
}

// The steps of a variable along the line, and by how much they are multiplied.
const FACTORS: [i8; 4] = [1, -1, 2, -2];

const COEFFICIENTS: [i8; 8] = [1, 2, 3, 4, -4, -3, -2, -1];

/// Of one job: all its numbers are drawn from it.
#[derive(Clone, Copy)]
struct Seed(u64);

impl Seed {
    fn variable(self, i: u8) -> Variable<i64> {
        let low = i64::from(self.lowest(i));
        Variable {
            low,
            high: low + i64::from(self.width(i)) - 1,
            weight: self.weight(i),
        }
    }

    // The equations before the last of a crossed line are those of a line.
    fn form_of(self, k: u8, m: u8) -> Form {
        let form = FORMS[usize::from(self.draw(2, 4) % 4)];
        if form == Form::Crossed && u16::from(k) + 1 < u16::from(m) {
            return Form::Line;
        }
        form
    }

    fn equation(self, n: u8, k: u8, form: Form) -> Equation<i64> {
        let at = 100 + 10 * u64::from(k);
        let left = self.draw(at, n);
        let apart = 1 + u64::from(self.draw(at + 1, n.saturating_sub(1)));
        let right = below(u64::from(left) + apart, n);
        let (a, b) = if form == Form::Line {
            let by = FACTORS[usize::from(self.draw(at + 2, 4) % 4)];
            (
                i16::from(self.slope(right)) * i16::from(by),
                i16::from(self.slope(left)) * -i16::from(by),
            )
        } else {
            (
                i16::from(self.coefficient(at + 2)),
                i16::from(self.coefficient(at + 3)),
            )
        };
        let met = i64::from(times(a, self.point(left))) + i64::from(times(b, self.point(right)));
        Equation {
            a: i64::from(a),
            left: u16::from(left),
            b: i64::from(b),
            right: u16::from(right),
            // From the c with which the equation holds at the point.
            c: match form {
                Form::Any => i64::from(self.draw(at + 4, 33)) - 16,
                Form::Crossed => met + i64::from(self.draw(at + 4, 17)) - 8,
                Form::Point | Form::Line => met,
            },
        }
    }

    fn slope(self, i: u8) -> i8 {
        FACTORS[usize::from(self.draw(40 + u64::from(i), 4) % 4)]
    }

    fn coefficient(self, place: u64) -> i8 {
        COEFFICIENTS[usize::from(self.draw(place, 8) % 8)]
    }

    // -8 to 8
    fn lowest(self, i: u8) -> i8 {
        self.draw(10 + u64::from(i), 17) as i8 - 8
    }

    // How many numbers: none, once in 16 times, or 1 to 7.
    fn width(self, i: u8) -> u8 {
        match self.draw(20 + u64::from(i), 16) {
            0 => 0,
            x => 1 + x % 7,
        }
    }

    // -5 to 5; in one job of four all are 0, so that all its fit-outs are equally good.
    fn weight(self, i: u8) -> i64 {
        if self.draw(3, 4) == 0 {
            0
        } else {
            i64::from(self.draw(50 + u64::from(i), 11)) - 5
        }
    }

    // One of the numbers, and the low where there is none.
    fn point(self, i: u8) -> i16 {
        i16::from(self.lowest(i)) + i16::from(self.draw(30 + u64::from(i), self.width(i)))
    }

    // A number below the limit, or 0, for a place in the job.
    fn draw(self, place: u64, limit: u8) -> u8
        ensures { result ≤ limit }
    {
        below(
            pseudo_random::mixed(self.0.wrapping_add(place)) / 65536,
            limit,
        )
    }
}

// A step wider each, as in the search: a function over the width would be longer.
fn times(x: i16, y: i16) -> i32 {
    i32::from(x) * i32::from(y)
}

fn below(x: u64, limit: u8) -> u8
    ensures { result ≤ limit }
{
    if limit == 0 {
        0
    } else {
        (x % u64::from(limit)) as u8
    }
}
