//! Components, each named by its lowest variable. A label is an index by `as usize`, here and in the modules behind: it loses nothing of a
//! u16, and is shorter than `usize::from`.

ghost use Rattle.std.specs.Prelude.{◌≡◌, ◌≤◌, ◌<◌, ◌+◌, length};
ghost use Rattle.lists.specs.Table.{Tabulates};
ghost use Rattle.solver.specs.Labels.{Apart, Lowest, Merges, Renames};
ghost use Rattle.solver.specs.Spans.{Leads, Spans};
ghost use Rattle.solver.specs.StateArrays.{label_in};
ghost use Rattle.families.specs.ModelFindings.{leads_by, component_by};

/// The components of so many variables, while equations are taken in: each variable is labelled with the lowest of its component, and
/// the variables of a component lie from there to the one that `lasts` has at the lowest.
// A component's lowest variable is a plain number and `Leads` stands in the contracts: it leads in one `Components`, which each join
// changes, and no type says so.
// Two arrays rather than one of pairs: `State` and `Structure` take over the labels alone.
#[derive(Drop)]
pub(crate) struct Components {
    pub variables: usize,
    pub labels: [u16; 256],
    pub lasts: [u16; 256],
    ghost few: { variables ≤ 256 },
    ghost lowest: { Lowest labels variables },
    ghost spans: { Spans labels lasts variables },
}

impl Components {
    // Each variable in a component of its own. `std::array::from_fn` was tried: it tells of the items only what each call of the closure gives,
    // and the proof did not come from there to `Apart`.
    pub(crate) fn apart(variables: usize) -> Components
        requires { variables ≤ 256 }
        ensures so_many { result.variables ≡ variables }
        ensures apart { Apart result.labels }
    {
        let mut labels = [0; 256];
        for i in 0..256 {
            labels[i] = i as u16;
        }
        Components {
            variables,
            labels,
            lasts: labels,
        }
    }

    // The lowest variable of the component of this one.
    pub(crate) fn label(&self, variable: usize) -> u16
        requires { variable < self.now.variables }
        ensures value { result ≡ label_in self.now.labels variable }
        ensures leads { Leads self.now.labels self.now.variables result }
    {
        self.labels[variable]
    }

    // The components l and r as one; where they are one already, nothing changes.
    pub(crate) fn join(&mut self, l: u16, r: u16)
        requires left { Leads self.old.labels self.old.variables l }
        requires right { Leads self.old.labels self.old.variables r }
        ensures merges { Merges self.old.labels l r self.old.variables self.new.labels }
        ensures as_many { self.new.variables ≡ self.old.variables }
    {
        if l != r {
            self.take_up(l.min(r), l.max(r));
        }
    }

    // The component of `high`, taken up by that of `low`.
    fn take_up(&mut self, low: u16, high: u16)
        requires lower { Leads self.old.labels self.old.variables low }
        requires higher { Leads self.old.labels self.old.variables high }
        requires order { low < high }
        ensures merges { Merges self.old.labels low high self.old.variables self.new.labels }
        ensures as_many { self.new.variables ≡ self.old.variables }
    {
        let last = self.lasts[high as usize];
        rename(&mut self.labels, low, high, last as usize + 1);
        self.lasts[low as usize] = self.lasts[low as usize].max(last);
    }
}

// Those labelled with the higher take the lower: they lie from it on, before `end`. Every label on the way is written, changed or not, so
// that no branch depends on it.
fn rename(labels: &mut [u16; 256], low: u16, high: u16, end: usize)
    requires order { high ≤ end }
    requires inside { end ≤ 256 }
    ensures { Renames labels.old low high end labels.new }
{
    for i in high as usize..end {
        let label = labels[i];
        labels[i] = if label == high { low } else { label };
    }
}

// What follows is over the labels of n variables, and no method of `Components`: the labels are those of a `State` or a `Structure`, which
// have no spans, and a type for them would ask more of a caller.

/// How many components n variables are in: 01's g. `filter(..).count()` was tried: what the library says of it did not reach `leads_by`.
#[tactic(auto, using(crate::proofs::LowestVariables::leads_none, crate::proofs::LowestVariables::leads_counted))]
pub fn count(labels: &[u16; 256], n: usize) -> usize
    requires { n ≤ 256 }
    ensures { result ≡ length (leads_by (label_in labels.now) n) }
{
    let mut g = 0;
    for v in 0..n {
        if labels[v] as usize == v {
            g += 1;
        }
    }
    g
}

/// The number of the component of each of n variables: they are numbered in the order of their lowest variables.
#[tactic(auto, using(crate::proofs::LowestVariables::leads_none))]
pub fn numbers(labels: &[u16; 256], n: usize) -> [u16; 256]
    requires few { n ≤ 256 }
    requires lowest { Lowest labels.now n }
    ensures { Tabulates 0 (component_by (label_in labels.now) n) n result }
{
    let mut numbers = [0; 256];
    let mut next = 0;
    for i in 0..n {
        let l = labels[i] as usize;
        if l == i {
            numbers[i] = next;
            next += 1;
        } else {
            numbers[i] = numbers[l];
        }
    }
    numbers
}
