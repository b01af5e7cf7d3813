// How long calls take.
ghost use Rattle.gadara_net.specs.Flows.{NamesResources};

use crate::checks::checks;
use crate::items::{number, worded};
use crate::lines::mask_of;
use crate::siphons::minimal_time;
use flow_checks::names_resources;
use gadara_net::{Net, Work};
use monitor_synth::{moved, weights};
use place_sets::{BitRow, PlaceSet};
use std::io;
use std::time::{Duration, Instant};

/// How long so many calls for a least siphon take. What they need is made before.
fn siphons(rt: &HostRuntime, net: &Net, resources: u64, times: u32) -> io::Result<Duration>
    requires { NamesResources net.now resources }
{
    let mut work = Work::new(rt.alloc(), net.points())?;
    let mut out = BitRow::empty(rt.alloc(), net.places())?;
    let start = Instant::now(rt)?;
    for _ in 0..times {
        net.least_siphon(resources, &mut out, &mut work);
    }
    start.elapsed(rt)
}

/// How long so many calls for a first line take.
fn first_lines(rt: &HostRuntime, net: &Net, resources: u64, times: u32) -> io::Result<Duration>
    requires { NamesResources net.now resources }
{
    let mut work = Work::new(rt.alloc(), net.points())?;
    let mut scratch = BitRow::empty(rt.alloc(), net.places())?;
    let start = Instant::now(rt)?;
    for _ in 0..times {
        let _ = net.first_line(resources, &mut scratch, &mut work);
    }
    start.elapsed(rt)
}

/// How long a check takes, in nanoseconds, of so many.
fn checks_measured(rt: &HostRuntime, net: &Net, times: u32, lines: &str) -> io::Result<String> {
    let spent = checks(rt, net, lines, times)?;
    let nanos = spent.as_nanos() / u128::from(times.max(1));
    Ok(format!(in rt.alloc(); "check: {nanos} ns")?)
}

/// How long so many calls for weights take, with what they make.
fn many_weights(rt: &HostRuntime, net: &Net, resources: u64, times: u32) -> io::Result<Duration>
    requires { NamesResources net.now resources }
{
    let start = Instant::now(rt)?;
    for _ in 0..times {
        let _ = weights(rt.alloc(), net, resources)?;
    }
    start.elapsed(rt)
}

/// How long so many calls for moved weights take, with what they make. The weights are made before.
fn many_moved(rt: &HostRuntime, net: &Net, resources: u64, times: u32) -> io::Result<Duration>
    requires { NamesResources net.now resources }
{
    let weights = weights(rt.alloc(), net, resources)?;
    let start = Instant::now(rt)?;
    for _ in 0..times {
        let _ = moved(rt.alloc(), net, &weights)?;
    }
    start.elapsed(rt)
}

/// How long a call takes, in nanoseconds, of its number of times, its name and a set.
pub fn measured(rt: &HostRuntime, net: &Net, text: &str) -> io::Result<String> {
    let alloc = rt.alloc();
    let (times, call) = worded(text);
    let (word, set) = worded(call);
    if word == "check" {
        return checks_measured(rt, net, number(times).unwrap_or(0), set);
    }
    if word == "minimal" {
        let limit = number(set).unwrap_or(u32::MAX);
        return minimal_time(rt, net, number(times).unwrap_or(0), limit);
    }
    let (Some(times), Some(resources)) = (number(times), mask_of(set)) else {
        return Ok(String::from_str(alloc, "no call")?);
    };
    if !names_resources(net, resources) {
        return Ok(String::from_str(alloc, "no resources")?);
    }
    let spent = match word {
        "siphon" => siphons(rt, net, resources, times)?,
        "first" => first_lines(rt, net, resources, times)?,
        "weights" => many_weights(rt, net, resources, times)?,
        "moved" => many_moved(rt, net, resources, times)?,
        _ => return Ok(String::from_str(alloc, "no call")?),
    };
    let nanos = spent.as_nanos() / u128::from(times.max(1));
    Ok(format!(in alloc; "{call}: {nanos} ns")?)
}
