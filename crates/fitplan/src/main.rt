//! The print program: reads a job from standard input, plans it, and prints the sheet or why there is none.
//!
//!     fitplan [plan|map [AMENDMENTS]] <JOB
//!
//! With the word `map` the map stands behind it. AMENDMENTS is a file with the job's amendments.
#![tactic(auto)]

use page::Page;
use planner::{Areas, Lent};
use std::io;

// the program's words, the job and its amendments
mod given;
// lines of output, collected and written together
mod page;
// what is printed of a plan
mod report;
// what is printed of a map
mod map;

fn main(rt: HostRuntime) -> io::Result<()> {
    let mut job: given::Job = [0; 23577];
    let mut amendments: given::Amendments = [0; 10241];
    let mut sheet: report::Sheet = [0; 8216];
    let mut map: map::Map = [0; 5144];
    let mut page = Page::new();
    let lent = Lent {
        map: given::asks_for_map(&rt),
    };
    let Ok(file) = given::open_amendments(&rt) else {
        return Ok(());
    };
    let sheets = match given::read_amendments(file, &mut amendments) {
        Ok(sheets) => sheets,
        Err(e) => return eprintln!(rt; "amendments: {e}"),
    };
    let length = given::read_job(&rt, &mut job)?;
    let mut areas = Areas {
        sheet: &mut sheet,
        map: &mut map,
        lent,
    };
    let outcome = planner::plan(&job[..length], &amendments[..sheets], &mut areas);
    report::show(&rt, &mut page, outcome, &sheet)?;
    if lent.map {
        map::show(&rt, &mut page, outcome, &map)?;
    }
    page.write(&rt)
}
