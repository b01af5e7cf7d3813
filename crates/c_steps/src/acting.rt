// What a running thread does.
ghost use Rattle.std.specs.Prelude.{true};
ghost use Rattle.c_tree.specs.Bare as bare;
ghost use Rattle.c_tree.specs.Expressions.{expr_of, place_of};
ghost use Rattle.c_meaning.specs.Numbers.{HasSmallNumbers};
ghost use Rattle.c_frames.specs.Positions.{first_of};
ghost use Rattle.c_meaning.specs.Shown.{shown_stmt};
ghost use Rattle.c_steps.specs.Answers.{Steps};
ghost use Rattle.c_steps.specs.Asking.{asks_at};
ghost use Rattle.state_parts.specs.First.{OfEach};
ghost use Rattle.c_steps.specs.Kept.{IsStateOf};
ghost use Rattle.c_steps.specs.Model.{state_of};
ghost use Rattle.c_steps.specs.Setting.{MaySets};
ghost use Rattle.state_parts.specs.Small.{IsSmall};
ghost use Rattle.c_steps.specs.Standing.{At, does};

use crate::state::{State, Stepped};
use c_tree::{Act, Expr, Name, Place, Program, Stmt};
use state_parts::frames::Onward;

impl State {
    /// A create, with the memory of the state.
    fn create_here(&mut self, p: &Program, t: u32, slot: &Place, name: &Name, arg: &Expr) -> Stepped
        requires state { IsStateOf p.now self.old }
        requires small { HasSmallNumbers (expr_of arg.now) }
        ensures is { (at : At p.now self.old t (bare.Create (place_of slot.now) name.now (expr_of arg.now)))
            → Steps p.now self.old self.new result true (does p.now self.old t (bare.Create (place_of slot.now) name.now (expr_of arg.now)) at) }
        ensures kept { IsStateOf p.now self.new }
    {
        let alloc = *self.threads.allocator();
        self.create(alloc, p, t, slot, name.as_slice(), arg)
    }

    /// A running thread does its first statement, which is the loop of a `for` whose first part is done, or itself.
    pub(crate) fn act(&mut self, p: &Program, t: u32, s: &Stmt, begun: bool) -> Stepped
        requires state { IsStateOf p.now self.old }
        requires small { OfEach IsSmall (shown_stmt s.now) }
        requires may { OfEach (MaySets self.old t) (shown_stmt s.now) }
        ensures is { (at : At p.now self.old t (first_of begun (shown_stmt s.now)))
            → Steps p.now self.old self.new result (asks_at (first_of begun (shown_stmt s.now))) (does p.now self.old t (first_of begun (shown_stmt s.now)) at) }
        ensures kept { At p.now self.old t (first_of begun (shown_stmt s.now)) → IsStateOf p.now self.new }
    {
        match &s.act {
            Act::Declare { name, value } => self.declare(p, t, name, value, Onward::Past),
            Act::Assign { target, value } => self.assign(p, t, target, value, Onward::Past),
            Act::Call { function, args, .. } => self.call(p, t, function, args),
            Act::If { test, .. } => self.branch(p, t, test),
            Act::While { test, .. } => self.repeat(p, t, test),
            Act::For { first, test, .. } => self.go_round(p, t, first, test, begun),
            Act::Return { value } => self.return_from(p, t, value),
            Act::Read { target } => self.read(p, t, target),
            Act::Print { format, args } => self.print(p, t, format, args),
            Act::Create {
                slot,
                function,
                arg,
            } => self.create_here(p, t, slot, function, arg),
            Act::Join { slot } => self.join(p, t, slot),
            Act::InitMutex { place } => self.init_mutex(p, t, place),
            Act::InitCond { place } => self.init_condition(p, t, place),
            Act::Lock { place } => self.lock(p, t, place),
            Act::TryLock { place, .. } => self.try_lock(p, t, place),
            Act::Unlock { place } => self.unlock(p, t, place),
            Act::Wait { cond, mutex, .. } => self.wait(p, t, cond, mutex),
            Act::Signal { cond } => self.signal(p, t, cond),
            Act::Broadcast { cond } => self.broadcast(p, t, cond),
            Act::Take { monitor } => self.take(p, t, *monitor),
            Act::Give { monitor } => self.give(p, t, *monitor),
        }
    }
}
