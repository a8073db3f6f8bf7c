//! Why a job or an argument is turned away. One enum for the whole program: every refusal carries a `Reason`.
//!
//! Read `specs/Numbers.antt` beside this file: it gives the papers' number and row of each case; `specs/Answer.antt` says what a
//! working answers.
#![tactic(auto)]

ghost use Rattle.std.specs.Prelude.{◌≡◌};
ghost use Rattle.reasons.specs.Numbers.{number_of, row_of};

/// The reasons of document 01's table, in its order, and those that document 02 adds. A case that the table reports with a row carries that row;
/// two cases may share a number. What the papers call a count is a variable here.
#[derive(Clone, Copy, PartialEq, Eq)]
pub enum Reason {
    /// The job has fewer bytes than its header.
    ShortJob,
    /// The job does not begin with `FIT1`.
    WrongMark,
    /// More variables or more equations than a job may have.
    TooMany,
    /// An offset, the length field, the zero bytes or the real length is not what n and m make it.
    WrongHeader,
    /// The variable's row has a low, a high or a weight out of range.
    VariableRange(u16),
    /// The equation row names a variable that is not below n.
    EquationVariables(u16),
    /// The equation row has an a, a b or a c out of range.
    EquationRange(u16),
    /// The answer area is too short for the sheet.
    ShortArea,
    /// An argument of a working lies outside its limits, or a run is not in its one form.
    WrongArgument,
    /// The map area is too short for the map.
    ShortMap,
    /// The amendments are not of 20 bytes each, or more than 512.
    AmendmentsLength,
    /// The amendment has something in its zero field.
    AmendmentZero(u16),
    /// The amendment's number does not rise, its variable is not below n, or it supersedes what is not an earlier one for its variable.
    AmendmentReference(u16),
    /// The amendment is in force after another one in force for its variable.
    AmendmentTwice(u16),
    /// The amendment has a low or a high out of range.
    AmendmentRange(u16),
}

impl Reason {
    /// The number that the papers give the reason.
    pub fn number(self) -> u16
        ensures { result ≡ number_of self }
    {
        match self {
            Reason::ShortJob => 1,
            Reason::WrongMark => 2,
            Reason::TooMany => 3,
            Reason::WrongHeader => 4,
            Reason::VariableRange(_) | Reason::AmendmentRange(_) => 5,
            Reason::EquationVariables(_) => 6,
            Reason::EquationRange(_) => 7,
            Reason::ShortArea => 8,
            Reason::WrongArgument => 9,
            Reason::ShortMap => 10,
            Reason::AmendmentsLength | Reason::AmendmentZero(_) => 11,
            Reason::AmendmentReference(_) => 12,
            Reason::AmendmentTwice(_) => 13,
        }
    }

    /// The row that is reported with the reason, 0 where the table has none: a number and no Option, as the table and C report it.
    pub fn row(self) -> u16
        ensures { result ≡ row_of self }
    {
        match self {
            Reason::VariableRange(row)
            | Reason::EquationVariables(row)
            | Reason::EquationRange(row)
            | Reason::AmendmentZero(row)
            | Reason::AmendmentReference(row)
            | Reason::AmendmentTwice(row)
            | Reason::AmendmentRange(row) => row,
            _ => 0,
        }
    }
}
