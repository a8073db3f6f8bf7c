//! The sheet, written into the answer area: a header, a row for each variable, and a row for each group.

ghost use Rattle.std.specs.Prelude.{◌≡◌, ◌+◌, ◌*◌, ◌≤◌, ◌<◌, length};
ghost use Rattle.std.specs.List.{slice_index_or};
ghost use Rattle.ints.specs.Within.{Within};
ghost use Rattle.jobs.specs.Solution.{number};
ghost use Rattle.jobs.specs.SheetLayout.{sheet_header, sheet_variable, sheet_group, sheet_variables, sheet_groups, sheet_of};
ghost use Rattle.families.specs.FamilyRun.{FamilyRun};
ghost use Rattle.families.specs.Family.{choice};
ghost use Rattle.families.specs.ModelFindings.{leads_by};
ghost use Rattle.solver.specs.StateArrays.{label_in, run_in};
ghost use Rattle.little_endian.specs.Over.{over};
ghost use Rattle.planner.specs.Choice.{chosen_in};
ghost use Rattle.planner.specs.Chosen.{findings_of};

use crate::choose::{self, Chosen, Families};
use crate::header;
use jobs::Shape;
use runs::Run;
use solver::components;

// The mark of a sheet.
const MARK: [u8; 4] = *b"ANS1";

// How long it is, for a job of this shape with g components.
pub(crate) fn length(shape: Shape, g: usize) -> usize
    requires { g ≤ 256 }
    ensures { result ≡ 24 + 16 * shape.variables + 16 * g }
{
    24 + 16 * shape.variables + 16 * g
}

// All of it. What lies behind it stays. Functions and no methods of `Chosen`: each writes into what is lent first, as those of the map do.
pub(crate) fn write(area: &mut [u8], chosen: Chosen)
    requires { 24 + 16 * chosen.families.variables + 16 * chosen.families.components ≤ length area.old }
    ensures { area.new ≡ over 0 (sheet_of (findings_of chosen.entry)) area.old }
{
    let n = chosen.families.variables;
    let components = components::numbers(&chosen.families.state.labels, n);
    header(area, chosen);
    variables(area, chosen, &components);
    let rows = 24 + 16 * n;
    group_rows(&mut area[rows..], chosen);
}

fn header(area: &mut [u8], chosen: Chosen)
    requires { 24 ≤ length area.old }
    ensures { area.new ≡ over 0 (sheet_header chosen.entry.families.variables chosen.entry.families.components chosen.entry.worth) area.old }
{
    let Families {
        variables,
        components,
        ..
    } = chosen.families;
    let rows = 24 + 16 * variables as u32;
    header::begin(area, &MARK, variables as u16, components as u16, rows);
    little_endian::put_bytes(area, 16, &chosen.worth.to_le_bytes());
}

// The row of a variable, from a place on.
fn variable(area: &mut [u8], at: usize, number: i64, run: Run, group: u16)
    requires room { at + 16 ≤ length area.old }
    requires small_number { Within 1000000000 number }
    requires family_run { FamilyRun run }
    ensures { area.new ≡ over at (sheet_variable number run group) area.old }
{
    little_endian::put_bytes(area, at, &(number as i32).to_le_bytes());
    little_endian::put_bytes(area, at + 4, &(run.first as i32).to_le_bytes());
    little_endian::put_bytes(area, at + 8, &(run.step as i32).to_le_bytes());
    little_endian::put_bytes(area, at + 12, &group.to_le_bytes());
    little_endian::put_bytes(area, at + 14, &[0; 2]);
}

// The rows of the variables, with the numbers of their components.
fn variables(area: &mut [u8], chosen: Chosen, components: &[u16; 256])
    requires { 24 + 16 * chosen.families.variables ≤ length area.old }
    ensures { area.new ≡ over 24 (sheet_variables (number chosen.entry.numbers.now) (run_in chosen.entry.families.state.now.runs) (λ i. slice_index_or components.now i 0) chosen.entry.families.variables) area.old }
{
    for i in 0..chosen.families.variables {
        variable(
            area,
            24 + 16 * i,
            chosen.numbers[i],
            chosen.families.state.runs[i],
            components[i],
        );
    }
}

// The row of a group, from a place on.
fn group(area: &mut [u8], at: usize, many: u32, slope: i64)
    requires room { at + 16 ≤ length area.old }
    requires not_empty { 1 ≤ many }
    ensures { area.new ≡ over at (sheet_group many (choice slope many) slope) area.old }
{
    little_endian::put_bytes(area, at, &many.to_le_bytes());
    little_endian::put_bytes(area, at + 4, &choose::choice(slope, many).to_le_bytes());
    little_endian::put_bytes(area, at + 8, &slope.to_le_bytes());
}

// The rows of the groups, into the part of the answer area that they fill. Only the lowest variable of a group has a row, so the row's
// place is counted and not zipped with the variables.
fn group_rows(part: &mut [u8], chosen: Chosen)
    requires { 16 * length (leads_by (label_in chosen.families.state.now.labels) chosen.families.variables) ≤ length part.old }
    ensures { part.new ≡ over 0 (sheet_groups (run_in chosen.entry.families.state.now.runs) (chosen_in chosen.entry.families.state.now.runs chosen.entry.slopes.now) (number chosen.entry.slopes.now) (leads_by (label_in chosen.entry.families.state.now.labels) chosen.entry.families.variables)) part.old }
{
    let state = chosen.families.state;
    let mut at = 0;
    for i in 0..chosen.families.variables {
        if state.labels[i] as usize == i {
            group(part, at, state.runs[i].many, chosen.slopes[i]);
            at += 16;
        }
    }
}
