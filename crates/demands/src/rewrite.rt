//! Bytes of a sheet or a map, for the variants of the planner.

ghost use Rattle.std.specs.Prelude.{◌≡◌, if◌then◌else◌, slice_set};
ghost use Rattle.std.specs.List.{slice_index_or};
ghost use Rattle.planner.specs.Outcome.{verdict_of};
ghost use Rattle.demands.specs.Rewrite.{is_planned, is_unfit, is_single, is_apart};

use planner::Outcome;

// The byte at a place; past the end it is 0.
pub(crate) fn get(s: &[u8], at: usize) -> u8
    ensures { result ≡ slice_index_or s.now at 0 }
{
    s.get(at).copied().unwrap_or(0)
}

// A byte written at a place, if it is told to; past the end nothing is. The test is an operand and no `if` of the caller's, so that an edit
// changes an operand.
pub(crate) fn put(area: &mut [u8], told: bool, at: usize, x: u8)
    ensures { area.new ≡ (if told then slice_set area.old at x else area.old) }
{
    if told && at < area.len() {
        area[at] = x;
    }
}

// Does a sheet stand in the area?
pub(crate) fn is_planned(outcome: Outcome) -> bool
    ensures { result ≡ is_planned (verdict_of outcome) }
{
    matches!(outcome, Outcome::Planned(_))
}

// Is there no fit?
pub(crate) fn is_unfit(outcome: Outcome) -> bool
    ensures { result ≡ is_unfit (verdict_of outcome) }
{
    matches!(outcome, Outcome::NoFit(_))
}

// Is it the sheet of one count?
pub(crate) fn is_single(outcome: Outcome, area: &[u8]) -> bool
    ensures { result ≡ is_single (verdict_of outcome) area.now }
{
    is_planned(outcome) && get(area, 4) == 1
}

// Is count 1 in another group than count 0, which is in group 0?
pub(crate) fn is_apart(outcome: Outcome, area: &[u8]) -> bool
    ensures { result ≡ is_apart (verdict_of outcome) area.now }
{
    is_planned(outcome) && get(area, 52) != 0
}
