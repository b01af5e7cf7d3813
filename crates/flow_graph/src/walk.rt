// A walk along the stops of functions, which calls itself where a function is entered.
ghost use Rattle.std.specs.Prelude.{◌≡◌, ◌+◌, ◌<◌, ◌^◌, ◌∷◌, ℕ, List, Some, Contains, IfOk, OnOk, length, map};
ghost use Rattle.c_tree.specs.Bare as bare;
ghost use Rattle.context_walk.specs.Places.{callee_at};
ghost use Rattle.context_walk.specs.Prepared.{program_in};
ghost use Rattle.flow_graph.specs.Shapes as spec;
ghost use Rattle.flow_graph.specs.Shown.{shown_shape};
ghost use Rattle.flow_graph.specs.Left.{left_in};
ghost use Rattle.flow_graph.specs.Routes.{FitsShape, IsStop};
ghost use Rattle.flow_graph.specs.Weaving.{weave, next_resource, Entries};
ghost use Rattle.flow_graph.specs.Walking.{left_behind, piece_of, woven_at, Adds, AddsEntered, IsOne, IsReady};

use crate::marks::Marks;
use crate::routes::{Routes, Stop};
use crate::shapes::Shape;
use outline_pieces::{Builder, Deed, Piece};
use std::alloc::{AllocError, Global};

/// The numbers of monitors among the resources, behind so many mutexes. The one error is want of
/// memory.
fn resources_of(alloc: Global, mutexes: u32, monitors: &[u32]) -> Result<Vec<u32>, AllocError>
    requires few { mutexes < 2 ^ 8 }
    requires fits { (k : ℕ) → Contains monitors.now k → k < 2 ^ 8 }
    ensures { IfOk result (λ resources. resources.items ≡ map (λ k. mutexes + k) monitors.now) }
{
    let mut resources = Vec::with_capacity(alloc, monitors.len())?;
    for k in monitors {
        resources.push(mutexes + *k)?;
    }
    Ok(resources)
}

/// The resource that a shape is about: that of the next mark, if it is about one, which is taken.
fn resource_for<'p>(marks: &mut Marks<'_>, shape: &Shape<'p>) -> u32
    ensures resource { piece_of (shown_shape shape.now) result ≡ piece_of (shown_shape shape.now) (next_resource (left_in marks.old)) }
    ensures left { left_in marks.new ≡ left_behind (shown_shape shape.now) (left_in marks.old) }
{
    match shape {
        Shape::Acquire(_) | Shape::Release(_) | Shape::Wait(_, _) | Shape::Try(_) => {
            marks.next_resource()
        }
        Shape::Step(_)
        | Shape::Join(_)
        | Shape::Leave(_)
        | Shape::Branch(_)
        | Shape::Else
        | Shape::ArmsEnd
        | Shape::Loop(_)
        | Shape::LoopEnd
        | Shape::Call(_, _) => 0,
    }
}

/// The piece of a shape at a resource. A wait has more pieces, and a call may enter a function.
fn piece_of<'p>(shape: &Shape<'p>, resource: u32) -> Piece
    ensures { result ≡ piece_of (shown_shape shape.now) resource }
{
    let pass = |line, deed| Piece::Pass { line, deed };
    match *shape {
        Shape::Step(line) | Shape::Call(line, _) => pass(line, Deed::Plain),
        Shape::Join(line) => pass(line, Deed::Join),
        Shape::Leave(line) => Piece::Leave { line },
        Shape::Acquire(line) => pass(line, Deed::Acquire(resource)),
        Shape::Release(line) => pass(line, Deed::Release(resource)),
        Shape::Wait(line, _) => pass(line, Deed::Wait(resource)),
        Shape::Try(line) => Piece::Fork {
            line,
            tried: Some(resource),
        },
        Shape::Branch(line) => Piece::Fork { line, tried: None },
        Shape::Else => Piece::Else,
        Shape::ArmsEnd => Piece::ArmsEnd,
        Shape::Loop(line) => Piece::Loop { line },
        Shape::LoopEnd => Piece::LoopEnd,
    }
}

/// Passes a shape that is one piece.
fn pass_one<'p>(marks: &mut Marks<'_>, shape: &Shape<'p>, builder: &mut Builder)
    requires { IsOne (shown_shape shape.now) }
    ensures { (p : bare.Program) (c : Entries) (more : List spec.Shape) → Adds (weave p c (shown_shape shape.now ∷ more) (left_in marks.old)) (weave p c more (left_in marks.new)) builder.old builder.new }
{
    let resource = resource_for(marks, shape);
    builder.push(piece_of(shape, resource));
}

impl<'a, 'p> Routes<'a, 'p> {
    /// Passes a wait of the function at a place. The one error is want of memory.
    fn pass_wait(
        &self,
        alloc: Global,
        marks: &mut Marks<'_>,
        line: u32,
        takes: &[u32],
        builder: &mut Builder,
    ) -> Result<(), AllocError>
        requires ready { IsReady self.now }
        requires fits { FitsShape (length (program_in self.now.functions.now).monitors) (spec.Shape.Wait line takes.now) }
        ensures { OnOk result ((k : ℕ) (more : List spec.Shape) → Adds (woven_at self.now k (spec.Shape.Wait line takes.now ∷ more) (left_in marks.old)) (woven_at self.now k more (left_in marks.new)) builder.old builder.new) }
    {
        let resource = marks.next_resource();
        let takes = resources_of(alloc, self.mutexes, takes)?;
        builder.wait(line, resource, takes.as_slice());
        Ok(())
    }

    /// Calls the function at a place above that of the caller. The one error is want of memory.
    #[cycle(walk)]
    fn call(
        &self,
        alloc: Global,
        marks: &mut Marks<'_>,
        k: usize,
        line: u32,
        callee: usize,
        builder: &mut Builder,
    ) -> Result<(), AllocError>
        requires ready { IsReady self.now }
        requires within { k < length self.now.routes.items }
        requires above { callee < k }
        ensures { OnOk result ((more : List spec.Shape) (name : List ℕ) → callee_at (program_in self.now.functions.now) k name ≡ Some callee
            → Adds (woven_at self.now k (spec.Shape.Call line name ∷ more) (left_in marks.old)) (woven_at self.now k more (left_in marks.new)) builder.old builder.new) }
    {
        marks.next_resource();
        builder.push(Piece::Inner { line });
        self.enter(alloc, marks, callee, builder)?;
        builder.push(Piece::InnerEnd);
        Ok(())
    }

    /// Passes a stop of the function at a place. The one error is want of memory.
    #[cycle(walk)]
    fn pass(
        &self,
        alloc: Global,
        marks: &mut Marks<'_>,
        k: usize,
        stop: &Stop<'p>,
        builder: &mut Builder,
    ) -> Result<(), AllocError>
        requires ready { IsReady self.now }
        requires within { k < length self.now.routes.items }
        requires stop { IsStop (callee_at (program_in self.now.functions.now) k) stop.now }
        requires fits { FitsShape (length (program_in self.now.functions.now).monitors) (shown_shape stop.now.shape) }
        ensures { OnOk result ((more : List spec.Shape) → Adds (woven_at self.now k (shown_shape stop.now.shape ∷ more) (left_in marks.old)) (woven_at self.now k more (left_in marks.new)) builder.old builder.new) }
    {
        match stop.shape {
            Shape::Wait(line, takes) => self.pass_wait(alloc, marks, line, takes, builder),
            Shape::Call(line, _) => match stop.callee {
                Some(callee) => self.call(alloc, marks, k, line, callee, builder),
                None => {
                    let deed = Deed::Plain;
                    builder.push(Piece::Pass { line, deed });
                    Ok(())
                }
            },
            _ => {
                pass_one(marks, &stop.shape, builder);
                Ok(())
            }
        }
    }

    /// Walks along the function at a place. The one error is want of memory.
    #[cycle(walk)]
    pub(crate) fn enter(
        &self,
        alloc: Global,
        marks: &mut Marks<'_>,
        k: usize,
        builder: &mut Builder,
    ) -> Result<(), AllocError>
        requires ready { IsReady self.now }
        requires within { k < length self.now.routes.items }
        ensures { OnOk result (AddsEntered self.now k (left_in marks.old) (left_in marks.new) builder.old builder.new) }
    {
        for stop in self.routes[k].as_slice() {
            self.pass(alloc, marks, k, stop, builder)?;
        }
        Ok(())
    }
}
