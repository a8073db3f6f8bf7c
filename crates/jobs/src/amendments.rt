//! Amendment sheets, document 02's #105: read, tested, and put over the bounds of a job.

ghost use Rattle.std.specs.Prelude.{◌≡◌, true, ◌↔◌, ◌≢◌, ◌≤◌, ◌<◌, ◌*◌, length, IfOk, OnErr};
ghost use Rattle.reasons.specs.declared.Reason.TheVariants.{AmendmentZero, AmendmentReference, AmendmentTwice, AmendmentRange, AmendmentsLength};
ghost use Rattle.jobs.specs.Bounds.{Bounded};
ghost use Rattle.jobs.specs.Amendments.{amendment_count, amendments_of, amendment, zero_at, amendment_bounds};
ghost use Rattle.jobs.specs.ReasonTable.{MisSized, serial_before, SupersedesEarlier, Misreferenced, Twice};
ghost use Rattle.jobs.specs.FirstRow.{FirstRow, RefusedOn};
ghost use Rattle.jobs.specs.AmendmentPasses.{Referenced, PlaceOf, Marks, Overlaid};

use crate::{Accepted, Amendment, Bounds, Shape};
use reasons::Reason;

/// Sheets of 20 bytes, as many as may be given.
#[derive(Clone, Copy)]
pub struct Amendments<'a> {
    pub bytes: &'a [u8],
    pub count: usize,
    ghost whole: { length bytes.now ≡ 20 * count },
    ghost few: { count ≤ 512 },
    ghost counted: { count ≡ amendment_count bytes.now },
}

// Sheets of which the first `count` keep reason 12's rule for the variables of a job of this shape: so their numbers rise.
#[derive(Clone, Copy)]
struct Rising<'a> {
    amendments: Amendments<'a>,
    shape: Shape,
    count: usize,
    ghost within: { count ≤ amendments.count },
    ghost referenced: { Referenced shape.variables (amendments_of amendments.bytes.now) count },
}

impl Amendment {
    // The sheet in row t.
    #[tactic(auto, using(crate::proofs::AmendmentsInForce::amendment_of))]
    fn read(amendments: &[u8], t: usize) -> Amendment
        requires { t < amendment_count amendments.now }
        ensures { result ≡ amendment (amendments_of amendments.now) t }
    {
        let at = 20 * t;
        Amendment {
            serial: little_endian::u32_at(amendments, at),
            supersedes: little_endian::u32_at(amendments, at + 4),
            variable: usize::from(little_endian::u16_at(amendments, at + 8)),
            low: little_endian::i32_at(amendments, at + 12),
            high: little_endian::i32_at(amendments, at + 16),
        }
    }

    // Do its bounds lie in their range?
    fn in_range(self) -> bool
        ensures { (result ≡ true) ↔ Bounded (amendment_bounds self) }
    {
        self.bounds().in_range()
    }

    /// The bounds that replace those of the variable's row.
    pub fn bounds(self) -> Bounds
        ensures { result ≡ amendment_bounds self }
    {
        let Amendment { low, high, .. } = self;
        Bounds { low, high }
    }
}

impl<'a> Amendments<'a> {
    /// The sheets that these bytes are, or reason 11: a length that no number of sheets has, or too many of them.
    pub fn open(bytes: &'a [u8]) -> Result<Amendments<'a>, Reason>
        ensures opened { IfOk result (λ x. x.bytes.now ≡ bytes.now) }
        ensures refused { RefusedOn AmendmentsLength (MisSized bytes.now) result }
    {
        let count = bytes.len() / 20;
        if bytes.len() % 20 != 0 || 512 < count {
            return Err(Reason::AmendmentsLength);
        }
        Ok(Amendments { bytes, count })
    }

    // The first sheet with something in its zero field: reason 11.
    pub(crate) fn check_zeros(self) -> Result<(), Reason>
        ensures { FirstRow AmendmentZero (λ t. zero_at self.entry.bytes.now t ≢ 0) self.entry.count result }
    {
        'rows: {
            for t in 0..self.count {
                if little_endian::u16_at(self.bytes, 20 * t + 10) != 0 {
                    break 'rows Err(Reason::AmendmentZero(t as u16));
                }
            }
            Ok(())
        }
    }

    // The first sheet whose number does not rise, that names no variable of the job, or that supersedes no earlier one for its variable
    // though it says so: reason 12.
    pub(crate) fn check_references(self, shape: Shape) -> Result<(), Reason>
        ensures { FirstRow AmendmentReference (Misreferenced shape.variables (amendments_of self.entry.bytes.now)) self.entry.count result }
    {
        let mut before = 0;
        'rows: {
            for t in 0..self.count {
                let a = Amendment::read(self.bytes, t);
                let rising = Rising {
                    amendments: self,
                    shape,
                    count: t,
                };
                if rising.is_misreferenced(a, before) {
                    break 'rows Err(Reason::AmendmentReference(t as u16));
                }
                before = a.serial;
            }
            Ok(())
        }
    }

    // The first sheet in force after another in force for its variable: reason 13. It asks in a clause that reason 12's rule is kept: a type
    // that `check_references` gave would hold the same sheets once more, and need a clause that they are these.
    pub(crate) fn check_twice(self, shape: Shape) -> Result<(), Reason>
        requires referenced { Referenced shape.variables (amendments_of self.bytes.now) self.count }
        ensures { FirstRow AmendmentTwice (Twice (amendments_of self.entry.bytes.now)) self.entry.count result }
    {
        let rising = Rising {
            amendments: self,
            shape,
            count: self.count,
        };
        let superseded = rising.superseded();
        let mut taken = [false; 256];
        'rows: {
            for t in 0..self.count {
                let i = Amendment::read(self.bytes, t).variable;
                if !superseded[t] {
                    if taken[i] {
                        break 'rows Err(Reason::AmendmentTwice(t as u16));
                    }
                    taken[i] = true;
                }
            }
            Ok(())
        }
    }

    // The first sheet whose bounds are out of range, in force or not: reason 5.
    pub(crate) fn check_ranges(self) -> Result<(), Reason>
        ensures { FirstRow AmendmentRange (λ t. Bounded (amendment_bounds (amendment (amendments_of self.entry.bytes.now) t)) → ⊥) self.entry.count result }
    {
        'rows: {
            for t in 0..self.count {
                if !Amendment::read(self.bytes, t).in_range() {
                    break 'rows Err(Reason::AmendmentRange(t as u16));
                }
            }
            Ok(())
        }
    }
}

impl Rising<'_> {
    // Does the sheet a that comes next, behind one with the number `before`, break the rule?
    fn is_misreferenced(self, a: Amendment, before: u32) -> bool
        requires in_reach { self.count < self.amendments.count }
        requires sheet_read { a ≡ amendment (amendments_of self.amendments.bytes.now) self.count }
        requires serial_read { before ≡ serial_before (amendments_of self.amendments.bytes.now) self.count }
        ensures { (result ≡ true) ↔ Misreferenced self.entry.shape.variables (amendments_of self.entry.amendments.bytes.now) self.entry.count }
    {
        a.serial <= before
            || self.shape.variables <= a.variable
            || a.supersedes != 0 && !self.supersedes_earlier(a)
    }

    // Is what the sheet a that comes next supersedes an earlier one for its variable?
    fn supersedes_earlier(self, a: Amendment) -> bool
        requires in_reach { self.count < self.amendments.count }
        requires sheet_read { a ≡ amendment (amendments_of self.amendments.bytes.now) self.count }
        ensures { (result ≡ true) ↔ SupersedesEarlier (amendments_of self.entry.amendments.bytes.now) self.entry.count }
    {
        let u = self.place(a.supersedes);
        if u == self.count {
            return false;
        }
        let b = Amendment::read(self.amendments.bytes, u);
        b.serial == a.supersedes && b.variable == a.variable
    }

    // Where a number stands among theirs, or would stand: they rise, so each step halves what is left. The sheets are bytes, which no
    // search of the library's goes through.
    fn place(self, serial: u32) -> usize
        ensures { PlaceOf (amendments_of self.entry.amendments.bytes.now) serial self.entry.count result }
    {
        let mut low = 0;
        let mut high = self.count;
        while low < high {
            let middle = low + (high - low) / 2;
            if Amendment::read(self.amendments.bytes, middle).serial < serial {
                low = middle + 1;
            } else {
                high = middle;
            }
        }
        low
    }

    // Which sheets are superseded, where all of them keep the rule. The 512 bytes go by value, as an array does that a
    // function makes itself: lent, it would have to be cleared first, and its contract say so.
    fn superseded(self) -> [bool; 512]
        requires all { self.count ≡ self.amendments.count }
        ensures { Marks (amendments_of self.entry.amendments.bytes.now) result }
    {
        let mut superseded = [false; 512];
        for t in 0..self.count {
            let serial = Amendment::read(self.amendments.bytes, t).supersedes;
            if serial != 0 {
                let u = self.place(serial);
                superseded[u] = true;
            }
        }
        superseded
    }
}

impl Accepted<'_, '_> {
    /// Puts the bounds of each sheet over those of its variable. Of sheets that the check accepts the last for a variable is the one in
    /// force.
    #[tactic(auto, using(crate::proofs::AmendedJob::faultless_referenced))]
    pub fn overlay(self, bounds: &mut [Bounds; 256])
        ensures { Overlaid (amendments_of self.entry.amendments.bytes.now) bounds.old bounds.new }
    {
        let n = self.lawful.job.shape.variables;
        overlay(self.amendments.bytes, bounds, n);
    }
}

/// Puts the bounds of each sheet over those of its variable, row by row.
// Over bytes and a number, and not over `Accepted`, which would ask more of a caller.
pub fn overlay(amendments: &[u8], bounds: &mut [Bounds; 256], n: usize)
    requires few { n ≤ 256 }
    requires referenced { Referenced n (amendments_of amendments.now) (amendment_count amendments.now) }
    ensures { Overlaid (amendments_of amendments.now) bounds.old bounds.new }
{
    for t in 0..amendments.len() / 20 {
        let a = Amendment::read(amendments, t);
        bounds[a.variable] = a.bounds();
    }
}
