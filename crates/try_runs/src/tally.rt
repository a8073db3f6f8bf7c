//! How many trials agree, and what their results are.

use std::io;

#[derive(Clone, Copy, Default)]
pub struct Tally {
    agree: u64,
    empty: u64,
    single: u64,
    longer: u64,
}

impl Tally {
    /// One trial more.
    pub(crate) fn judge(&mut self, agrees: bool) {
        if agrees {
            self.agree = self.agree.saturating_add(1);
        }
    }

    /// One result more, of so many numbers.
    pub(crate) fn count(&mut self, many: u32) {
        let results = match many {
            0 => &mut self.empty,
            1 => &mut self.single,
            _ => &mut self.longer,
        };
        *results = results.saturating_add(1);
    }

    pub(crate) fn show(&self, rt: &impl Print, working: &str, cases: &str) -> io::Result<()> {
        let Tally {
            agree,
            empty,
            single,
            longer,
        } = *self;
        println!(rt; "{working}{cases}{agree} agree")?;
        println!(rt; "{working} results {empty} empty {single} single {longer} longer")
    }
}
