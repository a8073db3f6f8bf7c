//! What is printed of a map: a line for its header, for each count and for each equation, read off its bytes.

ghost use Rattle.std.specs.Prelude.{◌≡◌, length};

use crate::page::Page;
use little_endian::u16_at;
use planner::Outcome;
use std::fmt::{Display, Formatter};
use std::{fmt, io};

/// As long as the longest map: 24 + 4·256 + 4·1,024.
pub type Map = [u8; 5144];

/// What an equation does to the sets of counts that those before it joined. It is read off the map's bytes, with no enum of the planner's.
/// Any number but 1 and 2 is said as `fixes`, since a `TryFrom` would leave an error to print.
#[derive(Drop)]
enum Kind {
    Joins,
    Ring,
    Fixes,
}

impl From<u16> for Kind {
    fn from(kind: u16) -> Kind {
        match kind {
            1 => Kind::Joins,
            2 => Kind::Ring,
            _ => Kind::Fixes,
        }
    }
}

impl Display for Kind {
    fn fmt<W: fmt::Write>(&self, f: &mut Formatter<W>) -> fmt::Result {
        f.write_str(match self {
            Kind::Joins => "joins",
            Kind::Ring => "ring",
            Kind::Fixes => "fixes",
        })
    }
}

/// Nothing where the job is refused: then there is no map.
pub(crate) fn show(
    rt: &impl Print,
    page: &mut Page,
    outcome: Outcome,
    map: &Map,
) -> io::Result<()> {
    if let Outcome::Refused(_) = outcome {
        return Ok(());
    }
    let n = usize::from(u16_at(map, 4)).min(256);
    let m = usize::from(u16_at(map, 6)).min(1024);
    let g = u16_at(map, 16);
    page.line(rt, format_args!("map counts {n} equations {m} groups {g}"))?;
    // Rows of counts and of equations take 4 bytes, and stand one behind the other. One function for these two loops and those over a
    // sheet's rows (`report`) would take a width and two closures, and be no plainer.
    let (counts, equations) = map[24..].split_at(4 * n);
    for (i, row) in counts.chunks_exact(4).enumerate() {
        show_count(rt, page, i, row)?;
    }
    for (k, row) in equations.chunks_exact(4).take(m).enumerate() {
        show_equation(rt, page, k, row)?;
    }
    Ok(())
}

fn show_count(rt: &impl Print, page: &mut Page, i: usize, row: &[u8]) -> io::Result<()>
    requires { length row.now ≡ 4 }
{
    let group = u16_at(row, 0);
    let equations = u16_at(row, 2);
    page.line(
        rt,
        format_args!("map count {i} group {group} equations {equations}"),
    )
}

fn show_equation(rt: &impl Print, page: &mut Page, k: usize, row: &[u8]) -> io::Result<()>
    requires { length row.now ≡ 4 }
{
    let group = u16_at(row, 0);
    let kind = Kind::from(u16_at(row, 2));
    page.line(
        rt,
        format_args!("map equation {k} group {group} kind {kind}"),
    )
}
