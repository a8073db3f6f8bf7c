//! The count of a family of jobs.

use std::io;

/// How many jobs, and how many of them came out other than expected.
#[derive(Clone, Copy, Default)]
pub struct Tally {
    pub jobs: u64,
    pub differ: u64,
}

impl Tally {
    /// One job more. If it differs, its place among the family's is printed.
    pub(crate) fn judge(&mut self, rt: &impl Print, right: bool) -> io::Result<()> {
        if !right {
            print!(rt; " differs at {}", self.jobs)?;
            self.differ = self.differ.saturating_add(1);
        }
        self.jobs = self.jobs.saturating_add(1);
        Ok(())
    }

    /// The rest of a family's line, if it has any jobs.
    pub(crate) fn report(&self, rt: &impl Print) -> io::Result<()> {
        if self.jobs > 0 {
            println!(rt; " jobs {} differ {}", self.jobs, self.differ)?;
        }
        Ok(())
    }
}
