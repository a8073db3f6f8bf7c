//! The methods of `Run`: its one form, and the two workings on runs that are known to be in it.

ghost use Rattle.std.specs.Prelude.{◌≡◌, ◌≤◌};
ghost use Rattle.runs.specs.Run.{OneForm, is_one_form, full, empty};
ghost use Rattle.runs.specs.Search.{meet, carry};
ghost use Rattle.runs.specs.Workings.{CarryLimits};
ghost use Rattle.runs.specs.Method.{congruence_by, places_in, stride, span, numbers_at, Places};

use crate::class::{Class, Interval};
use crate::congruence::Congruence;
use crate::partners::Partners;
use crate::{Equation, Run};

// ±1,000,000,000
const BOUND: u64 = 1000000000;

// How many is widened by `as` here and in `partners`: with `i64::from` their proofs did not close.

// That a run is in its one form, or is not empty, is a clause here and no fact of the type: `meeting` and `carrying` take runs of any
// kind and refuse the others, and a second type for the same three numbers would be no plainer.
impl Run {
    /// The whole range, with which every variable begins.
    pub fn full() -> Run
        ensures { result ≡ full }
    {
        Run {
            first: -1000000000,
            step: 1,
            many: 2000000001,
        }
    }

    /// No number.
    pub fn empty() -> Run
        ensures { result ≡ empty }
    {
        Run {
            first: 0,
            step: 0,
            many: 0,
        }
    }

    // Is the run in its one form?
    pub(crate) fn is_one_form(self) -> bool
        ensures { result ≡ is_one_form self }
    {
        match self.many {
            0 => self.first == 0 && self.step == 0,
            1 => self.step == 0 && ints::is_within(BOUND, self.first),
            _ => self.is_rising(),
        }
    }

    // Of two numbers or more: does it rise, from a first to a last number that lie in the range? A step past 2,000,000,000
    // leaves the range; a smaller one cannot leave 64 bits in as many steps as a u32 holds.
    fn is_rising(self) -> bool
        requires { 2 ≤ self.many }
        ensures { result ≡ is_one_form self }
    {
        1 <= self.step
            && self.step <= 2000000000
            && ints::is_within(BOUND, self.first)
            && ints::is_within(BOUND, self.first + self.step * (self.many as i64 - 1))
    }

    /// The numbers in both: the intersection. For runs that are known to be in their one form; `meeting` takes any.
    pub fn meet(self, other: Run) -> Run
        requires one_form { OneForm self }
        requires other_one_form { OneForm other }
        ensures { result ≡ meet self other }
    {
        if self.many == 0 || other.many == 0 {
            return Run::empty();
        }
        match self.places_in(other).solve() {
            None => Run::empty(),
            Some(i) => self.numbers_at(i).clip(self.span().common(other.span())),
        }
    }

    /// All p within ±1,000,000,000 that have a partner in this run of q: the image under the equation. For arguments that
    /// are known to be within their limits; `carrying` takes any.
    pub fn carry(self, e: Equation) -> Run
        requires one_form { OneForm self }
        requires carry_limits { CarryLimits e }
        ensures { result ≡ carry e.a e.b e.c self }
    {
        if self.many == 0 {
            return Run::empty();
        }
        let up = e.upright();
        match up.places(self).solve() {
            None => Run::empty(),
            Some(j) => Partners { e: up, q: self, j }.run(),
        }
    }

    // The places at which this run's class has the numbers of the other's.
    fn places_in(self, other: Run) -> Congruence
        requires one_form { OneForm self }
        requires not_empty { 1 ≤ self.many }
        requires other_one_form { OneForm other }
        requires other_not_empty { 1 ≤ other.many }
        ensures { congruence_by result ≡ places_in self other }
    {
        Congruence {
            u: self.stride(),
            v: other.first - self.first,
            d: other.stride(),
        }
    }

    // The step, and 1 for a single number.
    pub(crate) fn stride(self) -> i64
        ensures { result ≡ stride self }
    {
        if self.many == 1 { 1 } else { self.step }
    }

    // From the first to the last number.
    pub(crate) fn span(self) -> Interval
        requires one_form { OneForm self }
        requires not_empty { 1 ≤ self.many }
        ensures { result ≡ span self }
    {
        Interval {
            low: self.first,
            high: self.first + self.step * (self.many as i64 - 1),
        }
    }

    // The class of the numbers at the places of a class.
    pub(crate) fn numbers_at(self, places: Class) -> Class
        requires one_form { OneForm self }
        requires not_empty { 1 ≤ self.many }
        requires places { Places places }
        ensures { result ≡ numbers_at self places }
    {
        let s = self.stride();
        Class {
            first: self.first + s * places.first,
            step: s * places.step,
        }
    }
}
