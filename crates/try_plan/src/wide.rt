//! Jobs of 256 variables, as lines
//!
//!     256 * -9..9 -9..9: 2 1023 0 | 0 -4 1 9, 0 8 -2 9 > 0, -4 8, 0 0
//!
//! in which two variables stand for all, in turn, and all groups have the same chosen k and gain. In the place of the equations are how
//! the variables are linked, by how many rows, and the c of the last one.
//!
//! Links: 1 each variable is equal to the next; 2 each is -2 times the one before or the one after it, in turn; 3 the same from the last
//! variable to the first, with the higher one on the left. Rows 255 to 1,022 are rings that are redundant: variables an even distance
//! apart, up to 8, are equal. Row 1,023 is c254 - c255 = c.

use crate::format::Equation;

/// How each variable is linked to the next.
#[derive(Clone, Copy)]
pub enum Links {
    Equal,
    Doubled,
    DoubledBack,
}

/// Any other number is as good as 3.
impl From<i64> for Links {
    fn from(number: i64) -> Links {
        match number {
            1 => Links::Equal,
            2 => Links::Doubled,
            _ => Links::DoubledBack,
        }
    }
}

/// Row k, where c is that of the last one.
pub(crate) fn equation(links: Links, c: i64, k: u16) -> Equation<i64> {
    match (k, links) {
        (1023, _) => equal(254, 255, c),
        (0..=254, Links::Equal) => equal(k, k + 1, 0),
        (0..=254, Links::Doubled) => link(k, k + 1),
        (0..=254, Links::DoubledBack) => link(255 - k, 254 - k),
        _ => {
            let left = (k - 255) % 248;
            equal(left, left + 2 + 2 * ((k - 255) / 248), 0)
        }
    }
}

fn equal(left: u16, right: u16, c: i64) -> Equation<i64> {
    Equation {
        a: 1,
        left,
        b: -1,
        right,
        c,
    }
}

// Twice the even one of two variables next to each other, and the odd one, are 0 together.
fn link(left: u16, right: u16) -> Equation<i64> {
    let (a, b) = if left % 2 == 0 { (2, 1) } else { (1, 2) };
    Equation {
        a,
        left,
        b,
        right,
        c: 0,
    }
}
