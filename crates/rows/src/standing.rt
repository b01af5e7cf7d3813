// Where the threads of a run may stand among the points of its program.
ghost use Rattle.state_parts.specs.Accepted.{Accepted};
ghost use Rattle.state_parts.specs.Small.{AreSmall};

use c_meaning::Did;
use c_tree::Program;
use context_walk::Functions;
use edges::{Edge, EdgeOp};
use flow_graph::{Shape, push_shapes};
use outline_pieces::FlowParts;
use std::alloc::{AllocError, Global};

/// Where a thread may stand, and what it holds.
#[derive(Drop)]
struct Stand {
    /// The points, by their numbers.
    points: Vec<u32>,
    /// How many tokens of each resource.
    held: Vec<u32>,
}

/// Where each thread of a run may stand, by what it did so far.
#[derive(Drop)]
pub struct Standing<'f> {
    /// The points and edges.
    flow: &'f FlowParts,
    /// The lines of calls at which a thread stands for as long as it is in the function.
    calls: Vec<u32>,
    /// How many tokens there are of each resource.
    tokens: Vec<u32>,
    /// How many of the resources are mutexes.
    mutexes: u32,
    /// The threads.
    stands: Vec<Stand>,
}

/// Whether a function that is called by a name bears locks.
fn bears(functions: &Functions, name: &[u8]) -> bool {
    let Some(k) = functions.place(name) else {
        return false;
    };
    match functions.functions.get(k) {
        Some(f) => f.bears,
        None => false,
    }
}

/// The lines of the calls of functions that bear no locks. The one error is want of memory.
fn plain_calls(alloc: Global, p: &Program) -> Result<Vec<u32>, AllocError>
    requires accepted { Accepted p.now }
    requires small { AreSmall p.now }
{
    let functions = Functions::new(alloc, p)?;
    let mut shapes = Vec::new(alloc);
    for f in p.functions.as_slice() {
        push_shapes(&mut shapes, f.body.as_slice())?;
    }
    let mut lines = Vec::new(alloc);
    for shape in shapes.iter() {
        if let Shape::Call(line, name) = shape {
            if !bears(&functions, *name) {
                lines.push(*line)?;
            }
        }
    }
    Ok(lines)
}

/// The tokens of so many mutexes, one each, and those of the monitors. The one error is want of memory.
fn all_tokens(alloc: Global, mutexes: u32, capacities: &[u32]) -> Result<Vec<u32>, AllocError> {
    let mut tokens = Vec::new(alloc);
    for _ in 0..mutexes {
        tokens.push(1)?;
    }
    tokens.extend_from_slice(capacities)?;
    Ok(tokens)
}

/// The first point of a thread, if it has one.
fn first_point(flow: &FlowParts, thread: u32) -> Option<u32> {
    let at = flow
        .points
        .as_slice()
        .iter()
        .position(|point| point.thread == thread)?;
    u32::try_from(at).ok()
}

/// A thread that holds nothing of these tokens and stands at its first point. The one error is want of memory.
fn first_stand(
    alloc: Global,
    flow: &FlowParts,
    thread: u32,
    tokens: &[u32],
) -> Result<Stand, AllocError> {
    let mut points = Vec::new(alloc);
    if let Some(point) = first_point(flow, thread) {
        points.push(point)?;
    }
    let mut held = Vec::new(alloc);
    for _ in tokens {
        held.push(0)?;
    }
    Ok(Stand { points, held })
}

/// Whether a thread can do this within a function that bears no locks.
fn is_inner(did: Did) -> bool {
    matches!(
        did,
        Did::Step | Did::Read | Did::Print | Did::Signal(_) | Did::Broadcast
    )
}

/// The resource of which a thread that did this holds one token more.
fn taken(did: Did, mutexes: u32) -> Option<u32> {
    match did {
        Did::Lock(m) | Did::Retake(m) => Some(m),
        Did::Take(k) => Some(mutexes.saturating_add(k)),
        _ => None,
    }
}

/// The resource of which a thread that did this holds one token less.
fn given(did: Did, mutexes: u32) -> Option<u32> {
    match did {
        Did::Unlock(m) | Did::Wait(m) => Some(m),
        Did::Give(k) => Some(mutexes.saturating_add(k)),
        _ => None,
    }
}

/// Whether what a thread did is what is done along an edge.
fn is_done(did: Did, op: EdgeOp, mutexes: u32) -> bool {
    match op {
        EdgeOp::Plain => taken(did, mutexes).is_none() && given(did, mutexes).is_none(),
        EdgeOp::Acquire(r) => did != Did::Retake(r) && taken(did, mutexes) == Some(r),
        EdgeOp::Try(r) => did == Did::Lock(r),
        EdgeOp::Reacquire(r) => did == Did::Retake(r),
        EdgeOp::Release(r) => given(did, mutexes) == Some(r),
    }
}

impl Stand {
    /// Counts the tokens anew that the thread holds once it did this.
    fn count(&mut self, did: Did, mutexes: u32) {
        if let Some(r) = taken(did, mutexes) {
            if let Some(count) = self.held.get_mut(r as usize) {
                *count = count.saturating_add(1);
            }
        }
        if let Some(r) = given(did, mutexes) {
            if let Some(count) = self.held.get_mut(r as usize) {
                *count = count.saturating_sub(1);
            }
        }
    }

    /// How many tokens of a resource the thread holds.
    fn holds(&self, resource: u32) -> u32 {
        self.held.get(resource as usize).copied().unwrap_or(0)
    }
}

/// Adds a point, if it isn't there. The one error is want of memory.
fn add(points: &mut Vec<u32>, point: u32) -> Result<(), AllocError> {
    if points.contains(&point) {
        return Ok(());
    }
    points.push(point)?;
    Ok(())
}

impl<'f> Standing<'f> {
    /// All threads at their first points, where they hold nothing. The one error is want of memory.
    pub fn new(
        alloc: Global,
        p: &Program,
        flow: &'f FlowParts,
        mutexes: u32,
    ) -> Result<Standing<'f>, AllocError>
        requires accepted { Accepted p.now }
        requires small { AreSmall p.now }
    {
        let tokens = all_tokens(alloc, mutexes, p.monitors.as_slice())?;
        let mut stands = Vec::new(alloc);
        for thread in 0..flow.threads {
            stands.push(first_stand(alloc, flow, thread, tokens.as_slice())?)?;
        }
        Ok(Standing {
            flow,
            calls: plain_calls(alloc, p)?,
            tokens,
            mutexes,
            stands,
        })
    }

    /// How many threads there are.
    pub fn threads(&self) -> u32 {
        self.flow.threads
    }

    /// Whether a thread waits for a signal at a point.
    fn waits(&self, point: u32) -> bool {
        match self.flow.points.get(point as usize) {
            Some(point) => point.waiting,
            None => false,
        }
    }

    /// Whether a thread that did this may stand at a point as before.
    fn may_stay(&self, did: Did, point: u32) -> bool {
        match self.flow.points.get(point as usize) {
            Some(point) => is_inner(did) && self.calls.contains(&point.line),
            None => false,
        }
    }

    /// Whether a thread that did this went along an edge.
    fn went(&self, did: Did, edge: &Edge) -> bool {
        is_done(did, edge.op, self.mutexes)
            && self.waits(edge.to) == matches!(did, Did::Wait(_))
            && self.waits(edge.from) == (did == Did::Wake)
    }

    /// Adds the points to which a thread at a point comes that did this. The one error is want of memory.
    fn add_ways(&self, did: Did, from: u32, points: &mut Vec<u32>) -> Result<(), AllocError> {
        if self.may_stay(did, from) {
            add(points, from)?;
        }
        for edge in self.flow.edges.as_slice() {
            if edge.from == from && self.went(did, edge) {
                add(points, edge.to)?;
            }
        }
        Ok(())
    }

    /// The points where a thread may stand that did this. The one error is want of memory.
    fn ways(&self, alloc: Global, thread: u32, did: Did) -> Result<Vec<u32>, AllocError> {
        let mut points = Vec::new(alloc);
        let Some(stand) = self.stands.get(thread as usize) else {
            return Ok(points);
        };
        for from in stand.points.iter() {
            self.add_ways(did, *from, &mut points)?;
        }
        Ok(points)
    }

    /// A thread did this. The one error is want of memory.
    fn go(&mut self, alloc: Global, thread: u32, did: Did) -> Result<(), AllocError> {
        let points = self.ways(alloc, thread, did)?;
        let mutexes = self.mutexes;
        if let Some(stand) = self.stands.get_mut(thread as usize) {
            stand.points = points;
            stand.count(did, mutexes);
        }
        Ok(())
    }

    /// A thread may have been woken. The one error is want of memory.
    fn may_wake(&mut self, alloc: Global, thread: u32) -> Result<(), AllocError> {
        let woken = self.ways(alloc, thread, Did::Wake)?;
        if let Some(stand) = self.stands.get_mut(thread as usize) {
            for point in woken.iter() {
                add(&mut stand.points, *point)?;
            }
        }
        Ok(())
    }

    /// What a thread did moves other threads: one that begins, one that is woken, or all that wait on a
    /// condition. The one error is want of memory.
    fn move_others(&mut self, alloc: Global, did: Did) -> Result<(), AllocError> {
        match did {
            Did::Create(other) => self.go(alloc, other, Did::Step),
            Did::Signal(Some(other)) => self.go(alloc, other, Did::Wake),
            Did::Broadcast => {
                for other in 0..self.threads() {
                    self.may_wake(alloc, other)?;
                }
                Ok(())
            }
            _ => Ok(()),
        }
    }

    /// A thread did this, and other threads may be moved by it. The one error is want of memory.
    pub fn follow(&mut self, alloc: Global, thread: u32, did: Did) -> Result<(), AllocError> {
        self.go(alloc, thread, did)?;
        self.move_others(alloc, did)
    }

    /// Whether no token of a resource is free.
    fn is_taken(&self, resource: u32) -> bool {
        let all = self.tokens.get(resource as usize).copied().unwrap_or(0);
        let mut held = 0u32;
        for stand in self.stands.iter() {
            held = held.saturating_add(stand.holds(resource));
        }
        held >= all
    }

    /// The resource for which a thread at a point is blocked, if it is.
    fn blocked_at(&self, point: u32) -> Option<u32> {
        for edge in self.flow.edges.as_slice() {
            match edge.op {
                EdgeOp::Acquire(r) | EdgeOp::Reacquire(r)
                    if edge.from == point && self.is_taken(r) => {
                    return Some(r);
                }
                _ => {}
            }
        }
        None
    }

    /// Whether a thread that is blocked for this may stand at a point, by what it holds there and by what blocks it.
    fn agrees(&self, held: &[u32], blocked: Option<u32>, point: u32) -> bool {
        match self.flow.points.get(point as usize) {
            Some(there) => { there.held.as_slice() == held && self.blocked_at(point) == blocked }
            None => false,
        }
    }

    /// The points where a thread may stand that is blocked for this. The one error is want of memory.
    fn agreeing(
        &self,
        alloc: Global,
        thread: u32,
        blocked: Option<u32>,
    ) -> Result<Vec<u32>, AllocError> {
        let mut points = Vec::new(alloc);
        let Some(stand) = self.stands.get(thread as usize) else {
            return Ok(points);
        };
        for point in stand.points.iter() {
            if self.agrees(stand.held.as_slice(), blocked, *point) {
                points.push(*point)?;
            }
        }
        Ok(points)
    }

    /// A thread is blocked for this: it stands where that is so, and where what it holds is held. The one error is
    /// want of memory.
    pub fn narrow(
        &mut self,
        alloc: Global,
        thread: u32,
        blocked: Option<u32>,
    ) -> Result<(), AllocError> {
        let points = self.agreeing(alloc, thread, blocked)?;
        if let Some(stand) = self.stands.get_mut(thread as usize) {
            stand.points = points;
        }
        Ok(())
    }

    /// The first thread that can't stand anywhere, if there is one.
    pub fn lost(&self) -> Option<usize> {
        self.stands.iter().position(|stand| stand.points.is_empty())
    }

    /// The points of a thread, in words: alternatives are parted by a stroke.
    fn words_at(alloc: Global, stand: &Stand) -> Result<String, AllocError> {
        let mut words = String::new(alloc);
        for point in stand.points.iter() {
            if !words.is_empty() {
                words.push('/')?;
            }
            words.push_str(format!(in alloc; "{point}")?.as_str())?;
        }
        if words.is_empty() {
            words.push_str("nowhere")?;
        }
        Ok(words)
    }

    /// The points of all threads, in words.
    pub fn words(&self, alloc: Global) -> Result<String, AllocError> {
        let mut words = String::new(alloc);
        for stand in self.stands.iter() {
            if !words.is_empty() {
                words.push(' ')?;
            }
            words.push_str(Standing::words_at(alloc, stand)?.as_str())?;
        }
        Ok(words)
    }
}
