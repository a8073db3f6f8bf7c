//! Jobs written as text, one to a line, as
//!
//!     0..9 -1..4: 2c0-3c1=7; 1 -2 | 0 2 3 3, 0 -1 2 3 > 4, 2 -1, 0 -1
//!
//! with the bounds of each variable before the colon; then the equations; behind a semicolon the weights, which are 0 without it; and
//! behind a bar what is expected (`line`). What is read are whole numbers alone: F stands for the two ends of the full range, and a c
//! with no number before it for 1.

use input::Numbers;
use std::alloc::{AllocError, Global};
use std::collections::BTreeMap;

/// What is read of a line: its numbers, and for each mark how many stand before the last one.
#[derive(Drop)]
pub struct Line {
    numbers: Numbers,
    marks: BTreeMap<u8, usize>,
}

impl Line {
    pub(crate) fn read(alloc: Global, text: &[u8]) -> Result<Line, AllocError> {
        let mut numbers = Numbers::new();
        let mut marks = BTreeMap::new(alloc);
        for x in text {
            match *x {
                b'F' => {
                    numbers.push(-1000000000);
                    numbers.push(1000000000);
                }
                b'c' if !numbers.is_open() => numbers.read(b'1'),
                _ => {}
            }
            numbers.read(*x);
            if x.is_ascii_punctuation() {
                marks.insert(*x, numbers.len())?;
            }
        }
        // The end of the line ends its last number.
        numbers.read(b'\n');
        Ok(Line { numbers, marks })
    }

    /// How many numbers stand before a mark; all of them where it is missing.
    pub(crate) fn before(&self, mark: u8) -> usize {
        self.marks.get(&mark).copied().unwrap_or(self.numbers.len())
    }

    /// Is the mark there?
    pub(crate) fn has(&self, mark: u8) -> bool {
        self.marks.contains_key(&mark)
    }

    /// How many numbers are expected.
    pub(crate) fn expected(&self) -> usize {
        self.before(b'>').saturating_sub(self.before(b'|'))
    }

    /// Is it a job of many variables (`wide`)?
    pub(crate) fn is_wide(&self) -> bool {
        self.has(b'*')
    }

    /// Number i of the bounds.
    pub(crate) fn bound(&self, i: usize) -> i64 {
        self.get(if self.is_wide() {
            i.saturating_add(1)
        } else {
            i
        })
    }

    /// Number i; 0 where there is none.
    pub(crate) fn get(&self, i: usize) -> i64 {
        self.numbers.get(i)
    }

    /// Number i behind a mark; 0 where there is none, or no such mark.
    pub(crate) fn after(&self, mark: u8, i: usize) -> i64 {
        match self.marks.get(&mark) {
            Some(before) => self.get(before.saturating_add(i)),
            None => 0,
        }
    }
}
