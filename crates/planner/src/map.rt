//! The map, written into the map area where one is lent: a header, a row for each variable, and a row for each equation.

ghost use Rattle.std.specs.Prelude.{◌≡◌, ◌+◌, ◌*◌, ◌≤◌, length};
ghost use Rattle.little_endian.specs.Over.{over};
ghost use Rattle.jobs.specs.MapLayout.{map_header, map_row, map_of};
ghost use Rattle.families.specs.ModelFindings.{leads_by};
ghost use Rattle.solver.specs.StateArrays.{label_in};
ghost use Rattle.solver.specs.Labels.{Lowest};
ghost use Rattle.planner.specs.Mapping.{AllBelow, structure_in};

use crate::header;
use jobs::Shape;
use solver::components;
use solver::structure::Structure;

// The mark of a map.
const MARK: [u8; 4] = *b"MAP1";

// How long it is.
pub(crate) fn length(shape: Shape) -> usize
    ensures { result ≡ 24 + 4 * shape.variables + 4 * shape.equations }
{
    24 + 4 * shape.variables + 4 * shape.equations
}

// All of it, for a job of this shape with g components. What lies behind it stays. A variable's label is in its own component.
pub(crate) fn write(map: &mut [u8], structure: &Structure, shape: Shape, g: usize)
    requires lowest { Lowest structure.now.labels shape.variables }
    requires all_below { AllBelow shape.variables structure.now.homes shape.equations }
    requires counted { g ≡ length (leads_by (label_in structure.now.labels) shape.variables) }
    requires room { 24 + 4 * shape.variables + 4 * shape.equations ≤ length map.old }
    ensures { map.new ≡ over 0 (map_of (structure_in structure.now shape.variables shape.equations)) map.old }
{
    let numbers = components::numbers(&structure.labels, shape.variables);
    header(map, shape, g);
    for i in 0..shape.variables {
        let group = numbers[structure.labels[i] as usize];
        row(map, 24 + 4 * i, group, structure.degrees[i]);
    }
    let rows = 24 + 4 * shape.variables;
    for k in 0..shape.equations {
        let group = numbers[structure.homes[k] as usize];
        row(map, rows + 4 * k, group, structure.kinds[k]);
    }
}

fn header(map: &mut [u8], shape: Shape, g: usize)
    requires few_components { g ≤ 256 }
    requires room { 24 ≤ length map.old }
    ensures { map.new ≡ over 0 (map_header shape.variables shape.equations g) map.old }
{
    let variables = shape.variables as u16;
    let equations = shape.equations as u16;
    let rows = 24 + 4 * shape.variables as u32;
    header::begin(map, &MARK, variables, equations, rows);
    little_endian::put_bytes(map, 16, &(g as u16).to_le_bytes());
    little_endian::put_bytes(map, 18, &[0; 6]);
}

// The row of a variable or of an equation: the number of its component, and how many equations name it, or its kind.
fn row(map: &mut [u8], at: usize, group: u16, second: u16)
    requires { at + 4 ≤ length map.old }
    ensures { map.new ≡ over at (map_row group second) map.old }
{
    little_endian::put_bytes(map, at, &group.to_le_bytes());
    little_endian::put_bytes(map, at + 2, &second.to_le_bytes());
}
