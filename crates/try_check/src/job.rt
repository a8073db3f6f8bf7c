//! The job of some numbers: how many variables and equations it has; how many of its bytes there are; and for each change of a job without
//! a fault a place, how many bytes it has there, and the number that they hold.

use input::Numbers;
use std::alloc::{AllocError, Global};

// Each variable is 0..9 with weight 1.
const VARIABLE: [u8; 12] = [0, 0, 0, 0, 9, 0, 0, 0, 1, 0, 0, 0];

// Each equation is 2·c0 − 3·c1 = 1.
const EQUATION: [u8; 20] = [
    0, 0, 1, 0, 2, 0, 0, 0, 253, 255, 255, 255, 1, 0, 0, 0, 0, 0, 0, 0,
];

/// What the jobs are written on, each over those before it. As long as a job of 257 variables and 1,025 equations, one of each more than
/// are allowed; what would lie past the end is left out.
#[derive(Drop)]
pub struct Paper {
    bytes: Vec<u8>,
}

impl Paper {
    pub(crate) fn new(alloc: Global) -> Result<Paper, AllocError> {
        Ok(Paper {
            bytes: vec![in alloc; 0; 23608]?,
        })
    }

    /// Its first bytes, if it has so many.
    pub(crate) fn first(&self, length: i64) -> Option<&[u8]> {
        let length = usize::try_from(length).ok()?;
        self.bytes.get(..length)
    }

    /// Writes the job of the numbers.
    pub(crate) fn write(&mut self, alloc: Global, t: &Numbers) -> Result<(), AllocError> {
        let job = lawful(alloc, word(t.get(0)), word(t.get(1)))?;
        self.put(0, job.as_slice());
        // Behind the last of the 64 numbers at most, changes are of 0 bytes.
        for i in (3..64).step_by(3) {
            let width = t.get(i + 1).cast_unsigned() % 9;
            let bytes = t.get(i + 2).to_le_bytes();
            self.put(usize::from(word(t.get(i))), &bytes[..width as usize]);
        }
        Ok(())
    }

    // Bytes at a place. Each by itself and no copy_from_slice, which would ask that all of them lie on the paper.
    fn put(&mut self, at: usize, bytes: &[u8]) {
        for (to, from) in self.bytes.iter_mut().skip(at).zip(bytes) {
            *to = *from;
        }
    }
}

// The lowest 16 bits; `as` alone asks that the number fits.
fn word(x: i64) -> u16 {
    x.rem_euclid(65536) as u16
}

// A job of n variables and m equations, by hand: the crates below read jobs, and write none.
fn lawful(alloc: Global, n: u16, m: u16) -> Result<Vec<u8>, AllocError> {
    let equations = 24 + 12 * u32::from(n);
    let length = equations + 20 * u32::from(m);
    let mut job = Vec::new(alloc);
    job.extend_from_slice(b"FIT1")?;
    job.extend_from_slice(&n.to_le_bytes())?;
    job.extend_from_slice(&m.to_le_bytes())?;
    job.extend_from_slice(&24u32.to_le_bytes())?;
    job.extend_from_slice(&equations.to_le_bytes())?;
    job.extend_from_slice(&u64::from(length).to_le_bytes())?;
    for _ in 0..n {
        job.extend_from_slice(&VARIABLE)?;
    }
    for _ in 0..m {
        job.extend_from_slice(&EQUATION)?;
    }
    Ok(job)
}
