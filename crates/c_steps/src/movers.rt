// How a state changes: a thread goes on, or does something else.
ghost use Rattle.std.specs.Prelude.{◌≡◌, ◌∷◌, Some, slice_get};
ghost use Rattle.c_tree.specs.Bare as bare;
ghost use Rattle.c_tree.specs.declared.program.Program as tree;
ghost use Rattle.c_meaning.specs.State.{frame, with_status, goes_on};
ghost use Rattle.state_parts.specs.declared.threads.Thread as thread;
ghost use Rattle.state_parts.specs.Threads.{status_with, frames_in};
ghost use Rattle.c_steps.specs.Model.{state_of};
ghost use Rattle.c_steps.specs.Kept.{IsStateOf};
ghost use Rattle.c_frames.specs.LocalValues.{changed};
ghost use Rattle.c_meaning.specs.Setting as setting;
ghost use Rattle.c_steps.specs.Standing.{At};
ghost use Rattle.c_steps.specs.Setting.{MaySet, MaySetTarget};
ghost use Rattle.state_parts.specs.Targets.{shown_target};
ghost use Rattle.state_parts.specs.Onward.{onward};

use crate::state::State;
use c_tree::Program;
use state_parts::frames::Onward;
use state_parts::target::Target;
use state_parts::threads::Doing;

impl State {
    /// A thread goes on from its first statement.
    pub(crate) fn go_on(&mut self, p: &Program, t: u32, to: Onward)
        requires { IsStateOf p.now self.old }
        ensures goes { (act : bare.Stmt) (at : At p.now self.old t act)
            → state_of p.now self.new ≡ goes_on (state_of p.now self.old) t (frame at.locals (onward to act at.rest) ∷ at.more) }
        ensures kept { IsStateOf p.now self.new }
        ensures tables { self.new.tables ≡ self.old.tables }
    {
        if let Some(thread) = self.threads.get_mut(t as usize) {
            thread.go_on(p, &self.tables, to);
        }
    }

    /// A thread does something else, in the same frames.
    pub(crate) fn turn(&mut self, t: u32, doing: Doing)
        ensures turns { (p : tree.Program) (thread : thread.Thread) → slice_get self.old.threads.items t ≡ Some thread
            → state_of p self.new ≡ with_status (state_of p self.old) t (status_with doing (frames_in p self.old.tables thread.frames.items)) }
        ensures kept { (p : tree.Program) → IsStateOf p self.old → IsStateOf p self.new }
    {
        if let Some(thread) = self.threads.get_mut(t as usize) {
            thread.doing = doing;
        }
    }

    /// A thread gives a local a value, or takes its value away, and goes on from its first statement.
    pub(crate) fn set_local(
        &mut self,
        p: &Program,
        t: u32,
        name: &[u8],
        value: Option<i32>,
        to: Onward,
    )
        requires state { IsStateOf p.now self.old }
        requires may { MaySet self.old t name.now }
        ensures goes { (act : bare.Stmt) (at : At p.now self.old t act)
            → state_of p.now self.new ≡ goes_on (state_of p.now self.old) t (frame (changed at.locals name.now value) (onward to act at.rest) ∷ at.more) }
        ensures kept { IsStateOf p.now self.new }
    {
        if let Some(thread) = self.threads.get_mut(t as usize) {
            thread.set(p, &self.tables, name, value, to);
        }
    }

    /// A thread gives a target a value, and goes on from its first statement.
    pub(crate) fn set(&mut self, p: &Program, t: u32, target: Target, z: i32, to: Onward)
        requires state { IsStateOf p.now self.old }
        requires may { MaySetTarget self.old t target }
        ensures goes { (act : bare.Stmt) (at : At p.now self.old t act)
            → state_of p.now self.new ≡ setting.set (state_of p.now self.old) t at.locals (onward to act at.rest) at.more (shown_target target.entry) z }
        ensures kept { IsStateOf p.now self.new }
    {
        match target {
            Target::Local(name) => self.set_local(p, t, name, Some(z), to),
            Target::Cell(cell) => {
                self.go_on(p, t, to);
                if cell < self.cells.len() {
                    self.cells[cell] = z;
                }
            }
        }
    }
}
