//! What is printed of a plan, as document 01 shows it. A sheet's lines are read off its bytes.

ghost use Rattle.std.specs.Prelude.{◌≡◌, length};

use crate::page::Page;
use little_endian::{i32_at, i64_at, u16_at, u32_at};
use planner::Outcome;
use std::io;

/// As long as the longest sheet: 24 + 16·256 + 16·256.
pub type Sheet = [u8; 8216];

// The numbers of a refusal one by one: `Reason` is in the archive, which formats no text.
pub(crate) fn show(
    rt: &impl Print,
    page: &mut Page,
    outcome: Outcome,
    sheet: &Sheet,
) -> io::Result<()> {
    match outcome {
        Outcome::Planned(_) => show_sheet(rt, page, sheet),
        Outcome::NoFit(variable) => page.line(rt, format_args!("no fit at count {variable}")),
        Outcome::Refused(reason) => {
            page.line(
                rt,
                format_args!("refused {} row {}", reason.number(), reason.row()),
            )
        }
    }
}

// A line for each row. Those of counts and of groups take 16 bytes, and stand one behind the other.
fn show_sheet(rt: &impl Print, page: &mut Page, sheet: &Sheet) -> io::Result<()> {
    let n = usize::from(u16_at(sheet, 4)).min(256);
    let g = usize::from(u16_at(sheet, 6)).min(256);
    page.line(rt, format_args!("worth {}", i64_at(sheet, 16)))?;
    let (counts, groups) = sheet[24..].split_at(16 * n);
    for (i, row) in counts.chunks_exact(16).enumerate() {
        show_count(rt, page, i, row)?;
    }
    for (i, row) in groups.chunks_exact(16).take(g).enumerate() {
        show_group(rt, page, i, row)?;
    }
    Ok(())
}

fn show_count(rt: &impl Print, page: &mut Page, i: usize, row: &[u8]) -> io::Result<()>
    requires { length row.now ≡ 16 }
{
    let number = i32_at(row, 0);
    let base = i32_at(row, 4);
    let step = i32_at(row, 8);
    let group = u16_at(row, 12);
    page.line(
        rt,
        format_args!("count {i} number {number} base {base} step {step} group {group}"),
    )
}

fn show_group(rt: &impl Print, page: &mut Page, i: usize, row: &[u8]) -> io::Result<()>
    requires { length row.now ≡ 16 }
{
    let fits = u32_at(row, 0);
    let chosen = u32_at(row, 4);
    let gain = i64_at(row, 8);
    page.line(
        rt,
        format_args!("group {i} fits {fits} at {chosen} gain {gain}"),
    )
}
