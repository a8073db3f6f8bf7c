//! The structs that C is handed, made of what the planner and the workings answer; and theirs, made of what C hands over.

ghost use Rattle.std.specs.Prelude.{◌≡◌};
ghost use Rattle.host.specs.Answers.{lent_by};

use crate::{FitChecked, FitOutcome, FitQuotient, FitRun, FitWorking};
use planner::{Lent, Outcome};
use reasons::Reason;
use runs::Run;

// Which areas are lent, by the bits of a number: the C interface.
pub(crate) fn lent_by(bits: u32) -> Lent
    ensures { result ≡ lent_by bits }
{
    Lent { map: bits % 2 == 1 }
}

// A run of C's.
impl From<FitRun> for Run {
    ghost use Rattle.host.specs.Answers.{run_for};

    ghost from_gives = { λ run result. result ≡ run_for run };

    fn from(run: FitRun) -> Run {
        let FitRun { first, step, many } = run;
        Run { first, step, many }
    }
}

// And one for C.
impl From<Run> for FitRun {
    ghost use Rattle.host.specs.Answers.{fit_run};

    ghost from_gives = { λ run result. result ≡ fit_run run };

    fn from(run: Run) -> FitRun {
        let Run { first, step, many } = run;
        FitRun { first, step, many }
    }
}

// The numbers of a refusal.
impl From<Reason> for FitChecked {
    ghost use Rattle.host.specs.Answers.{refused_for};

    ghost from_gives = { λ reason result. result ≡ refused_for reason };

    fn from(reason: Reason) -> FitChecked {
        FitChecked {
            reason: u32::from(reason.number()),
            row: u32::from(reason.row()),
        }
    }
}

impl From<Outcome> for FitOutcome {
    ghost use Rattle.planner.specs.Outcome.{verdict_of};
    ghost use Rattle.host.specs.Answers.{outcome_for};

    ghost from_gives = { λ outcome result. result ≡ outcome_for (verdict_of outcome) };

    fn from(outcome: Outcome) -> FitOutcome {
        match outcome {
            Outcome::Planned(worth) => FitOutcome {
                kind: 1,
                count: 0,
                reason: 0,
                row: 0,
                worth,
            },
            Outcome::NoFit(count) => FitOutcome {
                kind: 2,
                count: u32::from(count),
                reason: 0,
                row: 0,
                worth: 0,
            },
            Outcome::Refused(reason) => {
                let FitChecked { reason, row } = FitChecked::from(reason);
                FitOutcome {
                    kind: 3,
                    count: 0,
                    reason,
                    row,
                    worth: 0,
                }
            }
        }
    }
}

// Why an answer is refused: reason 0 where it is not.
impl<T> From<&Result<T, Reason>> for FitChecked {
    ghost use Rattle.jobs.specs.Faults.{answer_of};
    ghost use Rattle.host.specs.Answers.{checked_for};

    ghost from_gives = { λ answer result. result ≡ checked_for (answer_of answer.now) };

    fn from(answer: &Result<T, Reason>) -> FitChecked {
        match answer {
            Ok(_) => FitChecked { reason: 0, row: 0 },
            Err(reason) => FitChecked::from(*reason),
        }
    }
}

impl From<Result<i64, Reason>> for FitQuotient {
    ghost use Rattle.reasons.specs.Answer.{working_answer_of};
    ghost use Rattle.host.specs.Answers.{quotient_for};

    ghost from_gives = { λ division result. result ≡ quotient_for (working_answer_of division) };

    fn from(division: Result<i64, Reason>) -> FitQuotient {
        let FitChecked { reason, row } = FitChecked::from(&division);
        let quotient = division.unwrap_or(0);
        FitQuotient {
            reason,
            row,
            quotient,
        }
    }
}

impl From<Result<Run, Reason>> for FitWorking {
    ghost use Rattle.reasons.specs.Answer.{working_answer_of};
    ghost use Rattle.host.specs.Answers.{working_for};

    ghost from_gives = { λ working result. result ≡ working_for (working_answer_of working) };

    fn from(working: Result<Run, Reason>) -> FitWorking {
        let FitChecked { reason, row } = FitChecked::from(&working);
        let run = FitRun::from(working.unwrap_or(Run::empty()));
        FitWorking { reason, row, run }
    }
}
