//! The plain search: each number from -33 to 33 is tried.
//!
//! No answer lies further out. A meeting of runs from -6 to 6 stays there; where a·p + b·q = c with a and b from 1 to 4 in size, c to 9
//! and q to 6, p is no larger in size than a·p, and that no larger than 9 + 4·6.

use runs::Run;

/// The run of all answers.
pub(crate) fn all<F: Fn(i8) -> bool>(is_answer: F) -> Run
    requires { F.IsAlwaysCallable is_answer }
{
    let mut found = Found {
        // By hand, so that the search rests on no function that it tests.
        run: Run {
            first: 0,
            step: 0,
            many: 0,
        },
        last: 0,
    };
    for x in -33..=33i8 {
        if is_answer(x) {
            found.take(x);
        }
    }
    found.run
}

/// The run that was found so far, and its last number.
#[derive(Clone, Copy)]
struct Found {
    run: Run,
    last: i8,
}

impl Found {
    // One number more. A number that does not follow breaks it: with step 0 it is no run in its one form, and agrees with no answer.
    fn take(&mut self, x: i8) {
        let way = i64::from(x) - i64::from(self.last);
        match self.run.many {
            0 => self.run.first = i64::from(x),
            1 => self.run.step = way,
            _ => if way != self.run.step {
                self.run.step = 0;
            }
        }
        self.run.many = self.run.many.saturating_add(1);
        self.last = x;
    }
}
