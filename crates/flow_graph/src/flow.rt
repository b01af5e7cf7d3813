// The points and edges of a program.
ghost use Rattle.std.specs.Prelude.{◌≡◌, ◌<◌, ◌^◌, ◌∷◌, [], true, List, ℕ, Some, IfErr, IfOk, OnOk, length, option_map, slice_get};
ghost use Rattle.c_tree.specs.Bare as bare;
ghost use Rattle.c_tree.specs.Lined.{program_of, Function};
ghost use Rattle.c_tree.specs.Numbering.{creations_of, resource_count};
ghost use Rattle.c_meaning.specs.Shown.{shown, shown_body, shown_stmt};
ghost use Rattle.context_items.specs.Marks.{Mark as AnyMark};
ghost use Rattle.contexts.specs.Outlines.{outlines};
ghost use Rattle.rule_facts.specs.FromLast.{from_last, named_in, StartsNamed};
ghost use Rattle.rule_facts.specs.Regular.{Regular};
ghost use Rattle.state_parts.specs.Small.{AreSmall};
ghost use Rattle.context_walk.specs.Found.{AreContexts};
ghost use Rattle.context_walk.specs.Prepared.{program_in, IsFormed};
ghost use Rattle.flow_graph.specs.Flow.{IsFlow, IsFlowError};
ghost use Rattle.flow_graph.specs.Left.{left_in};
ghost use Rattle.flow_graph.specs.Weaving.{behind_next, function_shapes, program_pieces, thread_of};
ghost use Rattle.flow_graph.specs.Walking.{created_names, started, threads_at, woven_at, AddsThreads, IsReady};
ghost use Rattle.outline_pieces.specs.declared.pieces.Piece.{Piece as AnyPiece};

use crate::marks::Marks;
use crate::routes::Routes;
use c_tree::{Act, Program, Stmt};
use context_locals::mutex_count;
use context_walk::{Contexts, Functions};
use outline_pieces::{Builder, FlowError, FlowParts, Piece};
use std::alloc::{AllocError, Global};

/// The start function of the thread that a statement creates, if it is a create statement.
fn started<'p>(s: &'p Stmt) -> Option<&'p [u8]>
    ensures { option_map (λ name. name.now) result ≡ started (shown_stmt s.now) }
{
    match &s.act {
        Act::Create { function, .. } => Some(function.as_slice()),
        _ => None,
    }
}

impl<'a, 'p> Routes<'a, 'p> {
    /// Walks along a thread that begins with the function at a place. The one error is want of
    /// memory.
    fn thread_at(
        &self,
        alloc: Global,
        marks: &mut Marks<'_>,
        k: usize,
        builder: &mut Builder,
    ) -> Result<(), AllocError>
        requires ready { IsReady self.now }
        requires within { k < length self.now.routes.items }
        ensures { OnOk result ((f : Function) → slice_get (program_in self.now.functions.now).functions k ≡ Some f → (behind : List AnyMark → List AnyPiece)
            → AddsThreads (thread_of (f.line, f.end_line) (woven_at self.now k (function_shapes f) (behind_next (left_in marks.old))) behind) (behind (left_in marks.new)) builder.old builder.new) }
    {
        let start = self.functions.functions[k].function;
        builder.push(Piece::Begin { line: start.line });
        marks.next_resource();
        self.enter(alloc, marks, k, builder)?;
        builder.push(Piece::Finish {
            line: start.end_line,
        });
        Ok(())
    }

    /// Walks along a thread that begins with the last function of a name. The one error is want of
    /// memory.
    fn thread(
        &self,
        alloc: Global,
        marks: &mut Marks<'_>,
        name: &[u8],
        builder: &mut Builder,
    ) -> Result<(), AllocError>
        requires ready { IsReady self.now }
        requires named { named_in (from_last (program_in self.now.functions.now)) name.now ≡ true }
        ensures { OnOk result ((names : List (List ℕ)) → AddsThreads (threads_at self.now (name.now ∷ names) (left_in marks.old)) (threads_at self.now names (left_in marks.new)) builder.old builder.new) }
    {
        match self.functions.place(name) {
            Some(k) => self.thread_at(alloc, marks, k, builder),
            None => unreachable!(),
        }
    }

    /// Walks along the thread that a statement creates, if it is a create statement. The one error
    /// is want of memory.
    fn created_thread(
        &self,
        alloc: Global,
        marks: &mut Marks<'_>,
        s: &Stmt,
        builder: &mut Builder,
    ) -> Result<(), AllocError>
        requires ready { IsReady self.now }
        requires named { StartsNamed (named_in (from_last (program_in self.now.functions.now))) (creations_of (bare.Cons (shown_stmt s.now) bare.Nil)) }
        ensures { OnOk result ((more : bare.Stmts) → AddsThreads (threads_at self.now (created_names (bare.Cons (shown_stmt s.now) more)) (left_in marks.old)) (threads_at self.now (created_names more) (left_in marks.new)) builder.old builder.new) }
    {
        match started(s) {
            Some(name) => self.thread(alloc, marks, name, builder),
            None => Ok(()),
        }
    }

    /// Walks along the threads that the create statements of a list create. The one error is want
    /// of memory.
    fn created_threads(
        &self,
        alloc: Global,
        marks: &mut Marks<'_>,
        body: &[Stmt],
        builder: &mut Builder,
    ) -> Result<(), AllocError>
        requires ready { IsReady self.now }
        requires named { StartsNamed (named_in (from_last (program_in self.now.functions.now))) (creations_of (shown_body body.now)) }
        ensures { OnOk result (AddsThreads (threads_at self.now (created_names (shown_body body.now)) (left_in marks.old)) [] builder.old builder.new) }
    {
        for s in body {
            self.created_thread(alloc, marks, s, builder)?;
        }
        Ok(())
    }

    /// Walks along all threads, main first. The one error is want of memory.
    fn threads(
        &self,
        alloc: Global,
        marks: &mut Marks<'_>,
        builder: &mut Builder,
    ) -> Result<(), AllocError>
        requires ready { IsReady self.now }
        requires regular { Regular (program_in self.now.functions.now) }
        requires small { AreSmall self.now.functions.now.program.now }
        ensures { OnOk result (AddsThreads (program_pieces (program_in self.now.functions.now) (left_in marks.old)) [] builder.old builder.new) }
    {
        self.thread(alloc, marks, b"main", builder)?;
        let main = self.functions.main();
        self.created_threads(alloc, marks, main.body.as_slice(), builder)
    }
}

/// How many resources a program has, where there are few: its mutexes and its monitors.
fn resource_count(p: &Program) -> u32
    requires { resource_count (shown p.now) < 2 ^ 8 }
    ensures { result ≡ resource_count (shown p.now) }
{
    u32::from(mutex_count(p)) + p.monitors.len() as u32
}

/// The points and edges of the threads of a well-formed program with these contexts, which are its
/// own, and what is held at each point.
///
/// The errors are that there are more than 4,096 points; else that what is held is refused, by the
/// first refusal in the order of the text, with its line; and want of memory.
pub fn flow_of(alloc: Global, p: &Program, contexts: &Contexts) -> Result<FlowParts, FlowError>
    requires formed { IsFormed p.now }
    requires small { AreSmall p.now }
    requires contexts { AreContexts (outlines (program_of p.now)) contexts.now }
    ensures found { IfOk result (IsFlow (program_of p.now)) }
    ensures refused { IfErr result (IsFlowError (program_of p.now)) }
{
    let functions = Functions::new(alloc, p)?;
    let routes = Routes::new(alloc, &functions)?;
    let resources = resource_count(p);
    let mut builder = Builder::new(alloc, routes.mutexes, resources);
    let mut marks = Marks::new(contexts.marks.as_slice());
    routes.threads(alloc, &mut marks, &mut builder)?;
    builder.finish()
}
