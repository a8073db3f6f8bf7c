//! A page of output: lines are collected on it and written together, since a write for each takes longer than the line itself.

ghost use Rattle.std.specs.Prelude.{◌≡◌, ◌≤◌, OnErr};

use arrayvec::ArrayString;
use std::fmt::{Display, Write};
use std::io;

/// A line with its end. The longest is that of a count: 75 bytes, at three numbers of 11.
type Line = ArrayString<80>;

/// Holds some 270 lines of a sheet.
#[derive(Drop)]
pub(crate) struct Page {
    bytes: [u8; 16384],
    used: usize,
    ghost room: { used ≤ 16384 },
}

impl Page {
    /// One that has nothing.
    pub(crate) fn new() -> Page {
        Page {
            bytes: [0; 16384],
            used: 0,
        }
    }

    /// Puts a line with this text behind those that the page has. It fails where a full page is to be written first and that write does, and
    /// for a text of more than 79 bytes, which none is; the page is then as it was.
    pub(crate) fn line(&mut self, rt: &impl Print, text: impl Display + Drop) -> io::Result<()>
        ensures unwritten { OnErr result (self.new ≡ self.old) }
    {
        let mut line = Line::new();
        writeln!(line, "{text}")?;
        self.add(rt, line)
    }

    /// Puts a line behind those that the page has. Where the longest would not fit, the page is written first and begun anew.
    fn add(&mut self, rt: &impl Print, line: Line) -> io::Result<()>
        ensures unwritten { OnErr result (self.new ≡ self.old) }
    {
        // 80 bytes less than it holds
        if self.used > 16304 {
            self.write(rt)?;
            self.used = 0;
        }
        let end = self.used + line.len();
        self.bytes[self.used..end].copy_from_slice(line.as_str().as_bytes());
        self.used = end;
        Ok(())
    }

    /// Writes what the page has.
    pub(crate) fn write(&self, rt: &impl Print) -> io::Result<()> {
        rt.write_all(&self.bytes[..self.used])
    }
}
