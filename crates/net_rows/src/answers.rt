// What a net answers.
ghost use Rattle.gadara_net.specs.Flows.{NamesResources};

use crate::lines::written;
use certificate::{Line, LineKind};
use gadara_net::{Net, Work};
use place_sets::{BitRow, ListSet, PlaceSet};
use std::alloc::{AllocError, Global};

/// The text without blanks at its end.
pub fn trimmed(alloc: Global, text: &str) -> Result<String, AllocError> {
    String::from_str(alloc, text.trim_end())
}

/// The members of a set of resources, in ascending order.
pub fn members(alloc: Global, before: &str, resources: u64) -> Result<String, AllocError> {
    let mut text = String::new(alloc);
    for r in 0..64u32 {
        if resources >> r & 1 == 1 {
            text.push_str(format!(in alloc; "{before}{r} ")?.as_str())?;
        }
    }
    Ok(text)
}

/// The places of a set, in ascending order: the numbers of points, and resources as `r2`.
fn places<S: PlaceSet>(alloc: Global, set: &S, points: u32) -> Result<String, AllocError> {
    let mut text = String::new(alloc);
    for place in 0..set.size() {
        if set.has(place) {
            let word = match place.checked_sub(points) {
                Some(r) => format!(in alloc; "r{r} ")?,
                None => format!(in alloc; "{place} ")?,
            };
            text.push_str(word.as_str())?;
        }
    }
    trimmed(alloc, text.as_str())
}

/// The least siphon of a set of resources, in a set of this kind, as it is found anew within itself.
fn siphon_in<S: PlaceSet>(alloc: Global, net: &Net, resources: u64) -> Result<String, AllocError>
    requires { NamesResources net.now resources }
{
    let mut work = Work::new(alloc, net.points())?;
    let mut least: S = S::empty(alloc, net.places())?;
    net.least_siphon(resources, &mut least, &mut work);
    let mut again: S = S::empty(alloc, net.places())?;
    net.least_siphon_within(resources, &least, &mut again, &mut work);
    if !again.equal(&least) {
        return String::from_str(alloc, "another within it");
    }
    places(alloc, &least, net.points())
}

/// The least siphon of a set of resources, where both kinds of sets say the same.
pub fn siphon(alloc: Global, net: &Net, resources: u64) -> Result<String, AllocError>
    requires { NamesResources net.now resources }
{
    let row = siphon_in::<BitRow>(alloc, net, resources)?;
    let list = siphon_in::<ListSet>(alloc, net, resources)?;
    if list != row {
        return String::from_str(alloc, "others in a list");
    }
    Ok(row)
}

/// The arcs of hold-and-wait.
pub fn arcs(alloc: Global, net: &Net) -> Result<String, AllocError> {
    let mut text = String::new(alloc);
    for (r, targets) in net.hold_wait().iter().enumerate() {
        let before = format!(in alloc; "{r}-")?;
        text.push_str(members(alloc, before.as_str(), *targets)?.as_str())?;
    }
    trimmed(alloc, text.as_str())
}

/// The strong component of a resource, if the net has it.
pub fn component(alloc: Global, net: &Net, r: u32) -> Result<String, AllocError> {
    if r >= net.resources() {
        return String::from_str(alloc, "no resource");
    }
    let text = members(alloc, "", net.component(r))?;
    trimmed(alloc, text.as_str())
}

/// Whether a line holds.
pub fn judged(
    alloc: Global,
    net: &Net,
    resources: u64,
    kind: LineKind,
) -> Result<String, AllocError> {
    let line = Line { resources, kind };
    let mut work = Work::new(alloc, net.points())?;
    let mut scratch = BitRow::empty(alloc, net.places())?;
    let holds = net.line_holds(&line, &mut scratch, &mut work);
    String::from_str(alloc, if holds { "holds" } else { "fails" })
}

/// The first line that holds for a set of resources, and as a general line.
pub fn first(alloc: Global, net: &Net, resources: u64) -> Result<String, AllocError>
    requires { NamesResources net.now resources }
{
    let mut work = Work::new(alloc, net.points())?;
    let mut scratch = BitRow::empty(alloc, net.places())?;
    let Some(line) = net.first_line(resources, &mut scratch, &mut work) else {
        return String::from_str(alloc, "none");
    };
    let general = net.general(alloc, &line)?;
    if !net.line_holds(&general, &mut scratch, &mut work) {
        return String::from_str(alloc, "its general line fails");
    }
    let simple = written(alloc, &line.kind)?;
    let general = written(alloc, &general.kind)?;
    format!(in alloc; "{simple}; {general}")
}
