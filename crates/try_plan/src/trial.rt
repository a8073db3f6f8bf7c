//! A job in three areas: the outcome, and every byte of the area and some behind it.

use crate::answer::{Answer, Expected};
use crate::{answer, format};
use std::alloc::{AllocError, Global};
use std::io;

// A longer job is not put to the planner.
const LONGEST: usize = 32896;

// It counts as turned away without a reason. That is an answer, and no `None`, since a line of the table can expect it too, by `| 0 0`.
const UNASKED: Answer = Answer::Refused { reason: 0, row: 0 };

/// Is the job planned as expected? In an area that is just long enough, in a longer one, and in one that is a byte too short.
pub(crate) fn is_right(
    rt: &impl Print,
    alloc: Global,
    job: &[u8],
    x: &Expected,
) -> io::Result<bool> {
    let enough = x.length;
    for size in [enough, enough.saturating_add(9), enough.saturating_sub(1)] {
        if !is_right_in(rt, alloc, job, size, x)? {
            return Ok(false);
        }
    }
    Ok(true)
}

// In an area of one size. If not, what differs is said.
fn is_right_in(
    rt: &impl Print,
    alloc: Global,
    job: &[u8],
    size: u32,
    x: &Expected,
) -> io::Result<bool> {
    let mut area = untouched(alloc, size)?;
    let expected = x.within(size);
    if ask(job, area.as_mut_slice(), size as usize) != expected {
        print!(rt; " outcome")?;
        return Ok(false);
    }
    let mut wanted = untouched(alloc, size)?;
    if let Answer::Planned(_) = expected {
        format::put(wanted.as_mut_slice(), 0, x.sheet.as_slice());
    }
    if let Some(at) = area.iter().zip(wanted.iter()).position(|(x, y)| *x != *y) {
        print!(rt; " byte {at}")?;
        return Ok(false);
    }
    Ok(true)
}

// What stands before in an area and in 16 bytes behind it.
fn untouched(alloc: Global, size: u32) -> Result<Vec<u8>, AllocError> {
    (0..u64::from(size) + 16)
        .map(|i| ((7 * (i % 256) + 13) % 256) as u8)
        .collect(alloc)
}

// The planner's answer in the first bytes of the area.
fn ask(job: &[u8], area: &mut [u8], size: usize) -> Answer {
    match area.get_mut(..size) {
        Some(area) if job.len() <= LONGEST => answer::of(job, area),
        _ => UNASKED,
    }
}
