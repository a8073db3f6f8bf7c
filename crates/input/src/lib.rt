//! What the programs read: as many bytes as are wanted, and for the test programs the whole numbers that stand in a text.
#![tactic(auto)]

ghost use Rattle.std.specs.Prelude.{◌≡◌, ◌≢◌, ◌≤◌, ◌<◌, None, IfErr, IfOk, vec_len};
ghost use Rattle.std.specs.Io.{ReadsAtMost};
ghost use Rattle.std.specs.IoError.{error_kind};

use std::alloc::Global;
use std::io;
use std::io::{ErrorKind, Read};

/// Reads until the buffer is full or there is no more, and gives how many bytes there are. Each read asks for as much as there is room for,
/// so that of input that comes in packets none is cut that fits. It fails where a read does, and after 2^64 tries, as std's readers do, with
/// `TimedOut`; what the buffer has then is not told. A read that a signal interrupts is tried again.
pub fn fill(reader: &mut impl Read, buffer: &mut [u8]) -> io::Result<usize>
    ensures prefix { ReadsAtMost result buffer.new }
    ensures retried { IfErr result (λ e. error_kind e ≢ ErrorKind.Interrupted) }
{
    let mut done = 0;
    for _ in 0..u64::MAX {
        if done >= buffer.len() {
            return Ok(done);
        }
        match reader.read(&mut buffer[done..]) {
            Ok(0) => return Ok(done),
            Ok(n) => done += n,
            Err(e) => {
                if e.kind() != ErrorKind::Interrupted {
                    return Err(e);
                }
            }
        }
    }
    // So many reads take longer than any machine lives.
    Err(io::Error::from(ErrorKind::TimedOut))
}

/// What a reader has left, or the first `most` bytes of it, for which memory is taken first. It fails where `fill` does or memory runs out.
pub fn read_up_to(reader: impl Read + Drop, most: usize, alloc: Global) -> io::Result<Vec<u8>>
    ensures limit { IfOk result (λ bytes. vec_len bytes ≤ most) }
    ensures retried { IfErr result (λ e. error_kind e ≢ ErrorKind.Interrupted) }
{
    let mut reader = reader;
    let mut bytes = vec![in alloc; 0; most]?;
    let length = fill(&mut reader, bytes.as_mut_slice())?;
    bytes.truncate(length);
    Ok(bytes)
}

/// As much of a text as the test programs read.
pub type Text = [u8; 16384];

/// Reads the text on standard input, as far as there is room. What is given is its length. It fails as `fill` does.
pub fn read(rt: &impl Input, text: &mut Text) -> io::Result<usize>
    ensures prefix { ReadsAtMost result text.new }
    ensures retried { IfErr result (λ e. error_kind e ≢ ErrorKind.Interrupted) }
{
    fill(&mut rt.reader(), text)
}

/// The text on standard input, or as much of it as a `Text` has room for. It fails where `fill` does or memory runs out.
pub fn read_text(rt: &impl Input, alloc: Global) -> io::Result<Vec<u8>>
    ensures limit { IfOk result (λ text. vec_len text ≤ 16384) }
    ensures retried { IfErr result (λ e. error_kind e ≢ ErrorKind.Interrupted) }
{
    read_up_to(rt.reader(), 16384, alloc)
}

/// The whole numbers of a text, as far as it is read, and the one that is open. A minus sign stands just before its number. Past the 64th
/// they are left out.
// Numbers are copied, which a list of the library is not.
#[derive(Clone, Copy)]
pub struct Numbers {
    closed: [i64; 64],
    count: usize,
    // What the digits say that are read so far.
    begun: Option<u64>,
    is_negative: bool,
    ghost few: { count ≤ 64 },
}

impl Numbers {
    /// Those of no text.
    pub fn new() -> Numbers
        ensures closed { result.begun ≡ None }
    {
        Numbers {
            closed: [0; 64],
            count: 0,
            begun: None,
            is_negative: false,
        }
    }

    /// Those of a whole text, whose end closes the last.
    pub fn of(text: &[u8]) -> Numbers
        ensures closed { result.begun ≡ None }
    {
        let mut numbers = Numbers::new();
        for x in text {
            numbers.read(*x);
        }
        numbers.close();
        numbers
    }

    /// Reads one byte more. Of a longer number the last 19 digits count, in two's complement.
    pub fn read(&mut self, x: u8)
        ensures closed { x < 48 → self.new.begun ≡ None }
    {
        if x.is_ascii_digit() {
            let size = self.begun.unwrap_or(0) % 1000000000000000000;
            self.begun = Some(10 * size + u64::from(x - b'0'));
        } else {
            self.close();
            self.is_negative = x == b'-';
        }
    }

    // Puts the open number among the others.
    fn close(&mut self)
        ensures closed { self.new.begun ≡ None }
    {
        if let Some(size) = self.begun {
            let x = size.cast_signed();
            self.push(if self.is_negative {
                x.wrapping_neg()
            } else {
                x
            });
        }
    }

    /// Puts one number more, in the place of the open one.
    pub fn push(&mut self, x: i64)
        ensures closed { self.new.begun ≡ None }
    {
        // A full list stays as it is.
        if let Some(place) = self.closed.get_mut(self.count) {
            *place = x;
            self.count += 1;
        }
        self.begun = None;
        self.is_negative = false;
    }

    /// Is a number open?
    pub fn is_open(&self) -> bool {
        self.begun.is_some()
    }

    /// How many there are, without the open one.
    pub fn len(&self) -> usize
        ensures { result ≤ 64 }
    {
        // By a name of its own, so that an edit finds it: `self.count` stands here more than once.
        let Numbers { count, .. } = self;
        *count
    }

    /// Number i, or 0 where there is none: a number and no Option, since the texts may leave numbers out.
    pub fn get(&self, i: usize) -> i64 {
        if i < self.count { self.closed[i] } else { 0 }
    }
}
