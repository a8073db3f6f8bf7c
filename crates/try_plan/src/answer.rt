//! What the planner answers, and what is expected of it.

use crate::format;
use crate::format::Entry;
use planner::{Areas, Lent, Outcome};
use std::alloc::{AllocError, Global};

#[derive(Clone, Copy, PartialEq, Eq)]
pub enum Answer {
    /// The worth.
    Planned(i64),
    /// The lowest variable of the first group without a fit.
    NoFit(u16),
    /// By its numbers, and no `Reason`: a line of the table says only these two, and two of its cases can have both the same.
    Refused { reason: u16, row: u16 },
}

impl From<Outcome> for Answer {
    fn from(outcome: Outcome) -> Answer {
        match outcome {
            Outcome::Planned(worth) => Answer::Planned(worth),
            Outcome::NoFit(variable) => Answer::NoFit(variable),
            Outcome::Refused(reason) => Answer::Refused {
                reason: reason.number(),
                row: reason.row(),
            },
        }
    }
}

/// The planner's own.
pub(crate) fn of(job: &[u8], sheet: &mut [u8]) -> Answer {
    let mut areas = Areas {
        sheet,
        map: &mut [],
        lent: Lent { map: false },
    };
    Answer::from(planner::plan(job, &[], &mut areas))
}

/// What is expected of a job: the answer, the length of its sheet, and the sheet, which counts only where the job is planned.
/// It stands beside the answer, and not in `Planned`, since answers are compared, and the planner's has no sheet of its own.
#[derive(Drop)]
pub struct Expected {
    pub answer: Answer,
    pub length: u32,
    pub sheet: Vec<u8>,
}

impl Expected {
    pub(crate) fn refused(alloc: Global, reason: u16, row: u16) -> Expected {
        Expected {
            answer: Answer::Refused { reason, row },
            length: 24,
            sheet: Vec::new(alloc),
        }
    }

    /// From what the sheet says of each of n variables. There is no fit at the first one whose group has none.
    pub(crate) fn of<F: Fn(u16) -> Result<Entry, AllocError>>(
        alloc: Global,
        n: u16,
        groups: u16,
        worth: i64,
        entry: F,
    ) -> Result<Expected, AllocError>
        requires { F.IsAlwaysCallable entry }
    {
        let length = format::sheet_length(n, groups);
        let mut sheet = format::sheet(alloc, n, groups, worth)?;
        let mut answer = Answer::Planned(worth);
        for i in 0..n {
            let entry = entry(i)?;
            if entry.fits == 0 {
                answer = Answer::NoFit(i);
                break;
            }
            entry.write(sheet.as_mut_slice(), n, i);
        }
        Ok(Expected {
            answer,
            length,
            sheet,
        })
    }

    /// In an area of that size: too short is reason 8, also where there is no fit, but after reasons 1 to 7.
    pub(crate) fn within(&self, size: u32) -> Answer {
        match self.answer {
            Answer::Planned(_) | Answer::NoFit(_) if size < self.length => Answer::Refused {
                reason: 8,
                row: 0,
            },
            answer => answer,
        }
    }
}
