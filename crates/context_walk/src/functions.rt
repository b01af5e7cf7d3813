// The functions of a program, prepared to be walked.
ghost use Rattle.std.specs.Prelude.{◌≡◌, ◌+◌, ◌^◌, ◌<◌, ◌++◌, ◌&&◌, ◌||◌, ◌∷◌, [], not, if◌then◌else◌, ℕ, List, Some, None, All, IfOk, OnOk, length, bytes_eq, slice_get};
ghost use Rattle.c_tree.specs.Lined.{function_of};
ghost use Rattle.c_tree.specs.Numbering.{mutex_count, resource_count};
ghost use Rattle.c_meaning.specs.Shown.{shown};
ghost use Rattle.contexts.specs.Constants.{among};
ghost use Rattle.context_locals.specs.Known.{is_in};
ghost use Rattle.context_locals.specs.Writes.{writes_in, AreIntNames};
ghost use Rattle.state_parts.specs.Small.{AreSmall};
ghost use Rattle.context_walk.specs.Places.{items_of};
ghost use Rattle.context_walk.specs.Shown.{shown_item, shown_items};
ghost use Rattle.context_walk.specs.Steps.{declared_in, shown_step, shown_steps, FitsItem, IsStep};
ghost use Rattle.context_walk.specs.Prepared.{callee_in, count_in, placed, program_in, ArePrepared, AreSoFar, IsFormed, IsPrepared};

use crate::items::{Item, push_items};
use crate::steps::{Step, bear};
use c_names::Scope;
use c_tree::{Function, Program};
use context_locals::{ConstantNames, Writes, int_names, mutex_count};
use indexmap::IndexMap;
use std::alloc::{AllocError, Global};

/// The places of functions by their names.
type Places<'p> = IndexMap<&'p [u8], usize>;

/// A function, prepared to be walked.
#[derive(Drop)]
pub struct Prepared<'p> {
    /// The function.
    pub function: &'p Function,
    /// Its locals that can be constant in a context.
    pub names: ConstantNames<'p>,
    /// Its statements that matter for contexts, with the numbers of what they name.
    pub steps: Vec<Step<'p>>,
    /// Whether it takes or gives something, waits, or calls a function that does.
    pub bears: bool,
}

/// The functions of a program, prepared to be walked.
#[derive(Drop)]
pub struct Functions<'p> {
    /// The program.
    pub program: &'p Program,
    /// Its functions in the order of the text.
    pub functions: Vec<Prepared<'p>>,
    /// The place of the last function of each name.
    places: Places<'p>,
    /// How many mutexes there are.
    mutexes: u8,
}

/// Says where the last function of a name stands. The one error is want of memory.
fn put<'p>(places: &mut Places<'p>, name: &'p [u8], k: usize) -> Result<(), AllocError>
    ensures { OnOk result ((q : List ℕ) → placed places.new q ≡ (if bytes_eq name.now q then Some k else placed places.old q)) }
{
    places.insert(name, k)?;
    Ok(())
}

/// Makes a local that an item declares one of the names, unless something is written into it. The
/// one error is want of memory.
fn add_declared<'p>(
    names: &mut ConstantNames<'p>,
    writes: &Writes<'_, 'p>,
    item: &Item<'p>,
) -> Result<(), AllocError>
    ensures { OnOk result ((q : List ℕ) → is_in names.new q ≡ (is_in names.old q || (among (declared_in (shown_item item.now ∷ [])) q && not (writes_in writes.now q)))) }
{
    match item {
        Item::Declares(name, _) => names.add(writes, name),
        _ => Ok(()),
    }
}

/// The locals of a function that can be constant: those of its parameters, and of what its items
/// declare, that nothing writes into. The one error is want of memory.
fn constant_names<'p>(
    alloc: Global,
    writes: &Writes<'_, 'p>,
    f: &'p Function,
    items: &[Item<'p>],
) -> Result<ConstantNames<'p>, AllocError>
    ensures { IfOk result (λ names. (q : List ℕ) → is_in names q ≡ (among (f.now.params ++ declared_in (shown_items items.now)) q && not (writes_in writes.now q))) }
{
    let mut names = ConstantNames::new(alloc);
    names.add_all(writes, f.params.as_slice())?;
    for item in items {
        add_declared(&mut names, writes, item)?;
    }
    Ok(names)
}

impl<'p> Functions<'p> {
    /// The place of the last function of a name.
    pub fn place(&self, name: &[u8]) -> Option<usize>
        ensures { result ≡ placed self.now.places name.now }
    {
        self.places.get(name).copied()
    }

    /// The place of the function that a call of a name enters: none where it bears no locks.
    fn callee(&self, name: &[u8]) -> Option<usize>
        ensures { result ≡ callee_in self.now name.now }
    {
        let k = self.place(name)?;
        let f = self.functions.get(k)?;
        if f.bears { Some(k) } else { None }
    }

    /// An item of the function that comes next, with the numbers of what it names.
    fn step(&self, names: &ConstantNames<'p>, item: &Item<'p>) -> Step<'p>
        requires so_far { AreSoFar self.now }
        requires few { resource_count (shown self.now.program.now) < 2 ^ 8 }
        requires fits { FitsItem (length self.now.program.now.monitors) (shown_item item.now) }
        ensures item { shown_step result ≡ shown_item item.now }
        ensures step { IsStep (program_in self.now) (count_in self.now) names.now result }
    {
        match item {
            Item::Opens => Step::Opens,
            Item::Closes => Step::Closes,
            Item::Declares(name, value) => Step::Declares {
                name,
                value,
                local: names.place(name),
                operand: names.operand_if_any(value),
            },
            Item::Locks(line, place) => Step::Locks {
                line: *line,
                place,
                mutex: names.mutex_place(self.program, place),
            },
            Item::Holds(monitor) => Step::Holds {
                monitor: *monitor,
                resource: self.mutexes + *monitor as u8,
            },
            Item::Calls(name, args) => Step::Calls {
                name,
                args,
                callee: self.callee(name),
            },
        }
    }

    /// The items of the function that comes next, with the numbers of what they name. The one error
    /// is want of memory.
    fn steps(
        &self,
        alloc: Global,
        names: &ConstantNames<'p>,
        items: &[Item<'p>],
    ) -> Result<Vec<Step<'p>>, AllocError>
        requires so_far { AreSoFar self.now }
        requires few { resource_count (shown self.now.program.now) < 2 ^ 8 }
        requires fits { All (FitsItem (length self.now.program.now.monitors)) (shown_items items.now) }
        ensures items { IfOk result (λ steps. shown_steps steps.items ≡ shown_items items.now) }
        ensures steps { IfOk result (λ steps. All (IsStep (program_in self.now) (count_in self.now) names.now) steps.items) }
    {
        let mut steps = Vec::with_capacity(alloc, items.len())?;
        for item in items {
            steps.push(self.step(names, item))?;
        }
        Ok(steps)
    }

    /// The function that comes next, prepared. The one error is want of memory.
    fn prepare(
        &self,
        alloc: Global,
        ints: &Scope<'p>,
        f: &'p Function,
    ) -> Result<Prepared<'p>, AllocError>
        requires so_far { AreSoFar self.now }
        requires few { resource_count (shown self.now.program.now) < 2 ^ 8 }
        requires ints { AreIntNames (shown self.now.program.now) ints.now }
        requires next { slice_get (program_in self.now).functions (count_in self.now) ≡ Some (function_of f.now) }
        requires fits { All (FitsItem (length self.now.program.now.monitors)) (items_of (function_of f.now)) }
        ensures { IfOk result (IsPrepared (program_in self.now) (count_in self.now)) }
    {
        let writes = Writes::new(alloc, f, ints)?;
        let mut items = Vec::new(alloc);
        push_items(&mut items, f.body.as_slice())?;
        let names = constant_names(alloc, &writes, f, items.as_slice())?;
        let steps = self.steps(alloc, &names, items.as_slice())?;
        let bears = bear(steps.as_slice());
        Ok(Prepared {
            function: f,
            names,
            steps,
            bears,
        })
    }

    /// Prepares the function that comes next. The one error is want of memory.
    fn add(&mut self, alloc: Global, ints: &Scope<'p>, f: &'p Function) -> Result<(), AllocError>
        requires so_far { AreSoFar self.old }
        requires few { resource_count (shown self.old.program.now) < 2 ^ 8 }
        requires ints { AreIntNames (shown self.old.program.now) ints.now }
        requires next { slice_get (program_in self.old).functions (count_in self.old) ≡ Some (function_of f.now) }
        requires fits { All (FitsItem (length self.old.program.now.monitors)) (items_of (function_of f.now)) }
        ensures so_far { OnOk result (AreSoFar self.new) }
        ensures program { OnOk result (self.new.program ≡ self.old.program) }
        ensures count { OnOk result (count_in self.new ≡ count_in self.old + 1) }
    {
        let k = self.functions.len();
        let prepared = self.prepare(alloc, ints, f)?;
        self.functions.push(prepared)?;
        put(&mut self.places, f.name.as_slice(), k)
    }

    /// The functions of a program. The one error is want of memory.
    pub fn new(alloc: Global, p: &'p Program) -> Result<Functions<'p>, AllocError>
        requires formed { IsFormed p.now }
        requires small { AreSmall p.now }
        ensures prepared { IfOk result ArePrepared }
        ensures program { IfOk result (λ functions. functions.program.now ≡ p.now) }
    {
        let ints = int_names(alloc, p.ints.as_slice())?;
        let mut functions = Functions {
            program: p,
            functions: Vec::with_capacity(alloc, p.functions.as_slice().len())?,
            places: IndexMap::new(alloc),
            mutexes: mutex_count(p),
        };
        for f in p.functions.as_slice() {
            functions.add(alloc, &ints, f)?;
        }
        Ok(functions)
    }
}
