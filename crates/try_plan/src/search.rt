//! The plan of a small job by plain search, through all lists of numbers within the bounds, of which there are at most 32,768. It shares
//! no code with what it is to try, nor with the other programs.

use crate::answer::Expected;
use crate::format::{Entry, Equation, Variable};
use crate::small::{Job, Labels};
use std::alloc::{AllocError, Global};

/// A number for each variable. Five by value, since up to 32,768 of them are made, and a `Vec` for each would be an allocation.
pub type List = [i8; 5];

// The numbers of variables that there are none of. Where a group has no list it stands for one, so that the entry, whose fits say that
// there is none, has numbers all the same.
const NOTHING: List = [-128; 5];

// What is left of a code at a variable without a number, so that no list comes of it. The other variables of the group use it up only where
// they have more lists than this, and then lists come that there are none of.
const PAST: u64 = 65536;

// Further variables, which a small job does not have, have the number of the last.
fn number(list: List, i: u16) -> i8 {
    list[usize::from(i.min(4))]
}

// A step wider each, so that sums of products fit.
fn times(x: i8, y: i8) -> i16 {
    i16::from(x) * i16::from(y)
}

fn holds(e: Equation<i8>, list: List) -> bool {
    let left = times(e.a, number(list, e.left));
    let right = times(e.b, number(list, e.right));
    i32::from(left) + i32::from(right) == i32::from(e.c)
}

/// A group of variables, and a list that has the numbers of all others.
#[derive(Clone, Copy)]
struct Part<'a> {
    job: &'a Job,
    labels: Labels,
    group: u16,
    others: List,
}

impl Part<'_> {
    // Variable i, if it is in the group.
    fn member(self, i: u16) -> Option<Variable<i8>> {
        if self.labels.of(i) == self.group {
            self.job.variables.get(usize::from(i)).copied()
        } else {
            None
        }
    }

    // The list of a code, which has a digit for each variable of the group, the last one's lowest: how far it stands above its low.
    fn list(self, code: u64) -> Option<List> {
        let mut list = self.others;
        let mut rest = code;
        for i in (0..5u16).rev() {
            if let Some(variable) = self.member(i) {
                let width = variable.width();
                if width == 0 {
                    list[usize::from(i)] = 0;
                    rest = PAST;
                } else {
                    let above = (rest % width) as u8;
                    list[usize::from(i)] = variable.low.wrapping_add(above.cast_signed());
                    rest /= width;
                }
            }
        }
        if rest == 0 { Some(list) } else { None }
    }

    // Does every equation of the group hold?
    fn holds(self, list: List) -> bool {
        self.job
            .equations
            .iter()
            .all(|e| self.member(e.home()).is_none() || holds(*e, list))
    }

    // All lists in which the equations of the group hold, in their order: the number at the lowest variable decides first.
    fn lists(self, alloc: Global) -> Result<Vec<List>, AllocError> {
        (0..32768)
            .map_while(|code| self.list(code))
            .filter(|list| self.holds(*list))
            .collect(alloc)
    }

    // The sum of weight times number over the group.
    fn worth(self, list: List) -> i32 {
        let mut sum: i32 = 0;
        for i in 0..5u16 {
            if let Some(variable) = self.member(i) {
                sum = sum.saturating_add(i32::from(times(variable.weight, number(list, i))));
            }
        }
        sum
    }
}

// The best of the lists in which every equation of the job holds; `None` where there are none.
fn best_of(alloc: Global, job: &Job) -> Result<Option<Best>, AllocError> {
    let whole = Part {
        job,
        labels: Labels::whole(),
        group: 0,
        others: NOTHING,
    };
    let mut best: Option<Best> = None;
    for list in whole.lists(alloc)?.iter() {
        best = Some(Best::after(best, *list, whole.worth(*list)));
    }
    Ok(best)
}

/// The last of the lists that are worth most, what it is worth, and how many are worth as much.
#[derive(Clone, Copy)]
pub struct Best {
    list: List,
    worth: i32,
    equals: u32,
}

impl Best {
    // The best after one list more.
    fn after(best: Option<Best>, list: List, worth: i32) -> Best {
        match best {
            Some(best) if worth < best.worth => best,
            Some(best) if worth == best.worth => Best {
                list,
                worth,
                equals: best.equals.saturating_add(1),
            },
            _ => Best {
                list,
                worth,
                equals: 1,
            },
        }
    }
}

// ---- the plan

/// How many lists are best.
pub(crate) fn best_lists(alloc: Global, job: &Job) -> Result<u32, AllocError> {
    Ok(best_of(alloc, job)?.map_or(0, |best| best.equals))
}

/// What is expected of the job.
pub(crate) fn expect(alloc: Global, job: &Job) -> Result<Expected, AllocError> {
    let labels = job.labels();
    let best = best_of(alloc, job)?;
    let n = job.len();
    let worth = best.map_or(0, |best| i64::from(best.worth));
    let list = best.map(|best| best.list);
    Expected::of(
        alloc,
        n,
        labels.groups_below(n),
        worth,
        |i| entry(alloc, job, labels, list, i),
    )
}

// Solutions that are not evenly spaced would be more than a sheet can say; and where there is a list, no group is without.
fn entry(
    alloc: Global,
    job: &Job,
    labels: Labels,
    best: Option<List>,
    i: u16,
) -> Result<Entry, AllocError> {
    let part = Part {
        job,
        labels,
        group: labels.of(i),
        others: best.unwrap_or(NOTHING),
    };
    let lists = part.lists(alloc)?;
    let first = lists.first().copied().unwrap_or(NOTHING);
    let second = lists.get(1).copied().unwrap_or(first);
    let base = number(first, i);
    let is_possible = if lists.is_empty() {
        best.is_none()
    } else {
        are_even(lists.as_slice(), first, second)
    };
    let chosen = lists.iter().position(|list| *list == part.others);
    Ok(Entry {
        number: i64::from(number(part.others, i)),
        base: i64::from(base),
        step: i64::from(number(second, i).wrapping_sub(base)),
        group: labels.groups_below(part.group),
        fits: if is_possible {
            lists.len() as i64
        } else {
            UNSAID
        },
        chosen: chosen.map_or(UNSAID, |k| k as i64),
        gain: i64::from(part.worth(second)) - i64::from(part.worth(first)),
    })
}

// What no sheet says. It is a number, since what is expected are bytes.
const UNSAID: i64 = 4294967295;

// Is it as far from each to the next as from the first to the second?
fn are_even(lists: &[List], first: List, second: List) -> bool {
    lists.windows(2).all(|pair| (0..5).all(|i| way(pair[0], pair[1], i) == way(first, second, i)))
}

fn way(from: List, to: List, i: u16) -> i16 {
    i16::from(number(to, i)) - i16::from(number(from, i))
}
