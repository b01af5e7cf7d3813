// The functions of a program, each as a list of shapes with the functions that it enters.
ghost use Rattle.std.specs.Prelude.{◌≡◌, ◌+◌, ◌<◌, if◌then◌else◌, ℕ, List, Some, None, All, IfOk, OnOk, length, bytes_eq, slice_get};
ghost use Rattle.c_tree.specs.Lined.{bare_program, function_of};
ghost use Rattle.c_tree.specs.Numbering.{mutex_count};
ghost use Rattle.context_walk.specs.Prepared.{count_in, placed, program_in, ArePrepared, IsFormed};
ghost use Rattle.flow_graph.specs.Weaving.{function_shapes};
ghost use Rattle.flow_graph.specs.Routes.{shown_stops, callee_by, AreRoutes, ArePlaces, IsStop};

use crate::shapes::{Shape, push_shapes};
use c_tree::Function;
use context_locals::mutex_count;
use context_walk::Functions;
use indexmap::IndexMap;
use std::alloc::{AllocError, Global};

/// The places of functions by their names.
type Places<'p> = IndexMap<&'p [u8], usize>;

/// A shape of a function. A call of a function that bears locks has the place of that function.
#[derive(Clone, Copy, Debug)]
pub struct Stop<'p> {
    /// The shape.
    pub shape: Shape<'p>,
    /// The function that is entered here.
    pub callee: Option<usize>,
}

/// The stops of each function, in the order of the functions.
#[derive(Drop)]
pub struct Routes<'a, 'p> {
    /// The functions.
    pub functions: &'a Functions<'p>,
    /// Their stops.
    pub routes: Vec<Vec<Stop<'p>>>,
    /// How many mutexes there are.
    pub mutexes: u32,
}

/// Says where the last function of a name stands. The one error is want of memory.
fn put<'p>(places: &mut Places<'p>, name: &'p [u8], k: usize) -> Result<(), AllocError>
    ensures { OnOk result ((q : List ℕ) → placed places.new q ≡ (if bytes_eq name.now q then Some k else placed places.old q)) }
{
    places.insert(name, k)?;
    Ok(())
}

/// The function that a call of a name enters, where these stand above: none where it bears no locks.
fn callee<'p>(functions: &Functions<'p>, places: &Places<'p>, name: &[u8]) -> Option<usize>
    ensures { result ≡ callee_by functions.now places.now name.now }
{
    let k = *places.get(name)?;
    let f = functions.functions.get(k)?;
    if f.bears { Some(k) } else { None }
}

/// A shape with the function that it enters.
fn stop_at<'p>(functions: &Functions<'p>, places: &Places<'p>, here: Shape<'p>) -> Stop<'p>
    ensures shape { result.shape ≡ here.entry }
    ensures callee { IsStop (callee_by functions.now places.now) result }
{
    let callee = match here {
        Shape::Call(_, name) => callee(functions, places, name),
        _ => None,
    };
    Stop {
        shape: here,
        callee,
    }
}

/// The stops of a function, whose end is its last. The one error is want of memory.
fn stops_of<'p>(
    alloc: Global,
    functions: &Functions<'p>,
    places: &Places<'p>,
    f: &'p Function,
) -> Result<Vec<Stop<'p>>, AllocError>
    ensures shapes { IfOk result (λ stops. shown_stops stops.items ≡ function_shapes (function_of f.now)) }
    ensures stops { IfOk result (λ stops. All (IsStop (callee_by functions.now places.now)) stops.items) }
{
    let mut shapes = Vec::new(alloc);
    push_shapes(&mut shapes, f.body.as_slice())?;
    shapes.push(Shape::Leave(f.end_line))?;
    let mut stops = Vec::with_capacity(alloc, shapes.len())?;
    for shape in shapes.iter() {
        stops.push(stop_at(functions, places, *shape))?;
    }
    Ok(stops)
}

impl<'a, 'p> Routes<'a, 'p> {
    /// Adds the stops of the function that comes next, and its place. The one error is want of
    /// memory.
    fn add(
        &mut self,
        alloc: Global,
        places: &mut Places<'p>,
        f: &'p Function,
    ) -> Result<(), AllocError>
        requires prepared { ArePrepared self.old.functions.now }
        requires formed { IsFormed self.old.functions.now.program.now }
        requires routes { AreRoutes self.old }
        requires places { ArePlaces (program_in self.old.functions.now) (length self.old.routes.items) places.old }
        requires next { slice_get (program_in self.old.functions.now).functions (length self.old.routes.items) ≡ Some (function_of f.now) }
        ensures routes { OnOk result (AreRoutes self.new) }
        ensures places { OnOk result (ArePlaces (program_in self.new.functions.now) (length self.new.routes.items) places.new) }
        ensures functions { OnOk result (self.new.functions ≡ self.old.functions) }
        ensures mutexes { OnOk result (self.new.mutexes ≡ self.old.mutexes) }
        ensures count { OnOk result (length self.new.routes.items ≡ length self.old.routes.items + 1) }
    {
        let k = self.routes.len();
        let stops = stops_of(alloc, self.functions, places, f)?;
        self.routes.push(stops)?;
        put(places, f.name.as_slice(), k)
    }

    /// The stops of all functions. The one error is want of memory.
    pub fn new(alloc: Global, functions: &'a Functions<'p>) -> Result<Routes<'a, 'p>, AllocError>
        requires prepared { ArePrepared functions.now }
        requires formed { IsFormed functions.now.program.now }
        ensures routes { IfOk result AreRoutes }
        ensures mutexes { IfOk result (λ r. r.mutexes ≡ mutex_count (bare_program (program_in functions.now))) }
        ensures functions { IfOk result (λ r. r.functions.now ≡ functions.now) }
        ensures count { IfOk result (λ r. length r.routes.items ≡ count_in functions.now) }
    {
        let mut places = IndexMap::new(alloc);
        let mut routes = Routes {
            functions,
            routes: Vec::with_capacity(alloc, functions.functions.len())?,
            mutexes: u32::from(mutex_count(functions.program)),
        };
        for f in functions.program.functions.as_slice() {
            routes.add(alloc, &mut places, f)?;
        }
        Ok(routes)
    }
}
