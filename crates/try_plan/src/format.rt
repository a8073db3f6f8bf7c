//! The bytes of jobs and sheets, as document 01 lays them out. Of a number that is too large for its field the lowest bytes are written.

use std::alloc::{AllocError, Global};

// A mark; how many rows there are of the first kind and of the second; where the rows of each begin; and one number more.
fn header(
    alloc: Global,
    mark: &[u8; 4],
    counts: [u16; 2],
    second: u32,
    last: i64,
) -> Result<Vec<u8>, AllocError> {
    let mut bytes = Vec::new(alloc);
    bytes.extend_from_slice(mark)?;
    bytes.extend_from_slice(&counts[0].to_le_bytes())?;
    bytes.extend_from_slice(&counts[1].to_le_bytes())?;
    bytes.extend_from_slice(&24u32.to_le_bytes())?;
    bytes.extend_from_slice(&second.to_le_bytes())?;
    bytes.extend_from_slice(&last.to_le_bytes())?;
    Ok(bytes)
}

/// The header of a job of n variables and m equations.
pub(crate) fn job_header(alloc: Global, n: u16, m: u16) -> Result<Vec<u8>, AllocError> {
    let equations = 24 + 12 * u32::from(n);
    let length = equations + 20 * u32::from(m);
    header(alloc, b"FIT1", [n, m], equations, i64::from(length))
}

/// The fields of a variable's row: as they are written, or of a small job.
#[derive(Clone, Copy)]
pub struct Variable<T> {
    pub low: T,
    pub high: T,
    pub weight: T,
}

impl Variable<i64> {
    /// Puts its row behind those of the variables before it.
    pub(crate) fn push_to(self, job: &mut Vec<u8>) -> Result<(), AllocError> {
        job.extend_from_slice(&self.low.to_le_bytes()[..4])?;
        job.extend_from_slice(&self.high.to_le_bytes()[..4])?;
        job.extend_from_slice(&self.weight.to_le_bytes()[..4])
    }
}

/// The fields of an equation's row: a·left + b·right = c.
#[derive(Clone, Copy)]
pub struct Equation<T> {
    pub a: T,
    pub left: u16,
    pub b: T,
    pub right: u16,
    pub c: T,
}

impl Equation<i64> {
    /// Puts its row behind those of the equations before it.
    pub(crate) fn push_to(self, job: &mut Vec<u8>) -> Result<(), AllocError> {
        job.extend_from_slice(&self.left.to_le_bytes())?;
        job.extend_from_slice(&self.right.to_le_bytes())?;
        job.extend_from_slice(&self.a.to_le_bytes()[..4])?;
        job.extend_from_slice(&self.b.to_le_bytes()[..4])?;
        job.extend_from_slice(&self.c.to_le_bytes())
    }

    /// Puts its row in the place of the last one.
    pub(crate) fn replace_last(self, job: &mut Vec<u8>) -> Result<(), AllocError> {
        job.truncate(job.len().saturating_sub(20));
        self.push_to(job)
    }
}

/// A sheet that has its header and zeros, for the rows of n variables and g groups.
pub(crate) fn sheet(alloc: Global, n: u16, g: u16, worth: i64) -> Result<Vec<u8>, AllocError> {
    let groups = 24 + 16 * u32::from(n);
    let mut sheet = header(alloc, b"ANS1", [n, g], groups, worth)?;
    sheet.resize(sheet_length(n, g) as usize, 0)?;
    Ok(sheet)
}

/// The search shares no code with the planner, so this stands here again.
pub(crate) fn sheet_length(n: u16, g: u16) -> u32 {
    24 + 16 * u32::from(n) + 16 * u32::from(g)
}

/// How many groups have their lowest variable below the end, where each variable has the lowest one of its group.
pub(crate) fn groups_below<F: Fn(u16) -> u16>(end: u16, lowest: F) -> u16
    requires { F.IsAlwaysCallable lowest }
{
    (0..end).filter(|&i| lowest(i) == i).count() as u16
}

/// What a sheet says of a variable and of its group.
#[derive(Clone, Copy)]
pub struct Entry {
    pub number: i64,
    pub base: i64,
    pub step: i64,
    pub group: u16,
    pub fits: i64,
    pub chosen: i64,
    pub gain: i64,
}

impl Entry {
    /// Writes the rows of variable i and of its group, behind those of n variables. The two bytes behind the group are zero.
    pub(crate) fn write(self, sheet: &mut [u8], n: u16, i: u16) {
        let at = 24 + 16 * usize::from(i);
        let row = 24 + 16 * usize::from(n) + 16 * usize::from(self.group);
        put(sheet, at, &self.number.to_le_bytes()[..4]);
        put(sheet, at + 4, &self.base.to_le_bytes()[..4]);
        put(sheet, at + 8, &self.step.to_le_bytes()[..4]);
        put(sheet, at + 12, &self.group.to_le_bytes());
        put(sheet, row, &self.fits.to_le_bytes()[..4]);
        put(sheet, row + 4, &self.chosen.to_le_bytes()[..4]);
        put(sheet, row + 8, &self.gain.to_le_bytes());
    }
}

/// Puts bytes at a place. What would lie past the end is left out.
// `try_check` has its like: the programs share `input` and no more.
pub(crate) fn put(sheet: &mut [u8], at: usize, bytes: &[u8]) {
    for (to, from) in sheet.iter_mut().skip(at).zip(bytes) {
        *to = *from;
    }
}
