//! Little-endian numbers in bytes, read and written.
#![tactic(auto)]

ghost use Rattle.std.specs.Prelude.{◌≡◌, ◌+◌, ◌≤◌, ◌<◌, ◌^◌, length};
ghost use Rattle.little_endian.specs.LittleEndian.{unsigned, u16, u32, i32, i64, bytes_of};
ghost use Rattle.little_endian.specs.Over.{over};

// Four readers, since the width is the number's type: a trait for the four would be longer than they are.

/// The number from 0 to 65,535 in the two bytes of s at a place. Both lie within s.
#[tactic(auto, unfolding(crate::specs::LittleEndian::unsigned))]
pub fn u16_at(s: &[u8], at: usize) -> u16
    requires { at + 2 ≤ length s.now }
    ensures { result ≡ u16 s.now at }
{
    u16::from_le_bytes([s[at], s[at + 1]])
}

/// The number from 0 to 4,294,967,295 in the four bytes of s at a place. All four lie within s.
#[tactic(auto, unfolding(crate::specs::LittleEndian::unsigned))]
pub fn u32_at(s: &[u8], at: usize) -> u32
    requires { at + 4 ≤ length s.now }
    ensures { result ≡ u32 s.now at }
{
    u32::from_le_bytes([s[at], s[at + 1], s[at + 2], s[at + 3]])
}

/// The number of either sign in the four bytes of s at a place, as 64 bits. All four lie within s.
#[tactic(auto, unfolding(crate::specs::LittleEndian::unsigned))]
pub fn i32_at(s: &[u8], at: usize) -> i64
    requires { at + 4 ≤ length s.now }
    ensures { result ≡ i32 s.now at }
{
    i64::from(i32::from_le_bytes([s[at], s[at + 1], s[at + 2], s[at + 3]]))
}

/// The number of either sign in the eight bytes of s at a place. All eight lie within s.
#[tactic(auto, unfolding(crate::specs::LittleEndian::unsigned))]
pub fn i64_at(s: &[u8], at: usize) -> i64
    requires { at + 8 ≤ length s.now }
    ensures { result ≡ i64 s.now at }
{
    i64::from_le_bytes([
        s[at],
        s[at + 1],
        s[at + 2],
        s[at + 3],
        s[at + 4],
        s[at + 5],
        s[at + 6],
        s[at + 7],
    ])
}

/// The number in `width` bytes from a place on, for widths that no type has too: at most 8. The bytes lie within s.
pub fn get(s: &[u8], at: usize, width: usize) -> u64
    requires inside { at + width ≤ length s.now }
    requires at_most_8 { width ≤ 8 }
    ensures value { result ≡ unsigned width s.now at }
    ensures upper_bound { result < 256 ^ width }
{
    let mut x = 0;
    for i in 0..width {
        x = 256 * x + u64::from(s[at + (width - 1 - i)]);
    }
    x
}

/// The lowest `width` bytes of x written over those of an area, from a place on, the lowest first; where the width is above 8, zeros behind
/// them. They lie within the area.
pub fn put(area: &mut [u8], at: usize, width: usize, x: u64)
    requires { at + width ≤ length area.old }
    ensures { area.new ≡ over at (bytes_of width x) area.old }
{
    let mut rest = x;
    for i in 0..width {
        area[at + i] = (rest % 256) as u8;
        rest /= 256;
    }
}

/// Bytes written over those of an area, from a place on: a mark, or a number as `to_le_bytes` gives it.
#[tactic(auto, unfolding(crate::specs::Over::over))]
pub fn put_bytes(area: &mut [u8], at: usize, bytes: &[u8])
    requires { at + length bytes.now ≤ length area.old }
    ensures { area.new ≡ over at bytes.now area.old }
{
    area[at..at + bytes.len()].copy_from_slice(bytes);
}
