//! What the headers of the sheet and of the map begin with.

ghost use Rattle.std.specs.Prelude.{◌≡◌, ◌++◌, ◌≤◌, length};
ghost use Rattle.little_endian.specs.LittleEndian.{bytes_of};
ghost use Rattle.little_endian.specs.Over.{over};

// The mark, how many first and second rows follow, and where the second ones begin: the first ones begin behind the header, at 24.
pub(crate) fn begin(area: &mut [u8], mark: &[u8; 4], first: u16, second: u16, rows: u32)
    requires { 16 ≤ length area.old }
    ensures { area.new ≡ over 0 ((((mark.now ++ bytes_of 2 first) ++ bytes_of 2 second) ++ bytes_of 4 24) ++ bytes_of 4 rows) area.old }
{
    little_endian::put_bytes(area, 0, mark);
    little_endian::put_bytes(area, 4, &first.to_le_bytes());
    little_endian::put_bytes(area, 6, &second.to_le_bytes());
    little_endian::put_bytes(area, 8, &24_u32.to_le_bytes());
    little_endian::put_bytes(area, 12, &rows.to_le_bytes());
}
