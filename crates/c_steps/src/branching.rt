// What picks the statements that come next.
ghost use Rattle.std.specs.Prelude.{◌≡◌, false};
ghost use Rattle.c_tree.specs.Bare as bare;
ghost use Rattle.c_tree.specs.Bare.{Nil, Cons};
ghost use Rattle.c_tree.specs.Expressions.{expr_of};
ghost use Rattle.c_tree.specs.Values.{is_true};
ghost use Rattle.c_meaning.specs.Numbers.{HasSmallNumbers};
ghost use Rattle.c_tree.specs.Expressions as tree;
ghost use Rattle.c_meaning.specs.Branching.{for_begun};
ghost use Rattle.c_meaning.specs.Shown.{shown, shown_body, shown_stmt};
ghost use Rattle.c_tree.specs.Everywhere.{Everywhere};
ghost use Rattle.state_parts.specs.Small.{IsSmall};
ghost use Rattle.c_steps.specs.Setting.{MaySets};
ghost use Rattle.state_parts.specs.Onward.{onward};
ghost use Rattle.c_frames.specs.Positions.{first_of};
ghost use Rattle.c_steps.specs.Answers.{Steps};
ghost use Rattle.c_steps.specs.Model.{state_of};
ghost use Rattle.c_steps.specs.Kept.{IsStateOf};
ghost use Rattle.c_steps.specs.Standing.{At, does};

use crate::state::{State, Stepped};
use c_frames::Arm;
use c_meaning::Did;
use c_tree::{Act, Expr, Program, Stmt, Stmts};
use state_parts::frames::Onward;

/// Whether a number counts as true.
fn is_true(number: i32) -> bool
    ensures { result ≡ is_true number }
{
    number != 0
}

impl State {
    /// An `if`: goes into the arm that the test picks.
    pub(crate) fn branch(&mut self, p: &Program, t: u32, test: &Expr) -> Stepped
        requires state { IsStateOf p.now self.old }
        requires small { HasSmallNumbers (expr_of test.now) }
        ensures is { (then_arm else_arm : bare.Stmts) (at : At p.now self.old t (bare.If (expr_of test.now) then_arm else_arm))
            → Steps p.now self.old self.new result false (does p.now self.old t (bare.If (expr_of test.now) then_arm else_arm) at) }
        ensures kept { IsStateOf p.now self.new }
    {
        let Some(z) = self.evaluated(p, t, test) else {
            return Stepped::Undefined;
        };
        if is_true(z) {
            self.go_on(p, t, Onward::Into(Arm::Then));
        } else {
            self.go_on(p, t, Onward::Into(Arm::Else));
        }
        Stepped::Done(Did::Step)
    }

    /// A loop: goes into its body where the test isn't 0, and else behind it.
    pub(crate) fn repeat(&mut self, p: &Program, t: u32, test: &Expr) -> Stepped
        requires state { IsStateOf p.now self.old }
        requires small { HasSmallNumbers (expr_of test.now) }
        ensures is { (body : bare.Stmts) (at : At p.now self.old t (bare.While (expr_of test.now) body))
            → Steps p.now self.old self.new result false (does p.now self.old t (bare.While (expr_of test.now) body) at) }
        ensures kept { IsStateOf p.now self.new }
    {
        let Some(z) = self.evaluated(p, t, test) else {
            return Stepped::Undefined;
        };
        if is_true(z) {
            self.go_on(p, t, Onward::Into(Arm::Body));
        } else {
            self.go_on(p, t, Onward::Past);
        }
        Stepped::Done(Did::Step)
    }

    /// A `for` whose first part isn't done: does it, and goes on at the loop.
    pub(crate) fn begin_for(&mut self, p: &Program, t: u32, first: &Stmts) -> Stepped
        requires state { IsStateOf p.now self.old }
        requires small { Everywhere IsSmall (shown_body first.now) }
        requires may { Everywhere (MaySets self.old t) (shown_body first.now) }
        ensures is { (test : tree.Expr) (step body : bare.Stmts) (at : At p.now self.old t (bare.For (shown_body first.now) test step body))
            → Steps p.now self.old self.new result false (does p.now self.old t (bare.For (shown_body first.now) test step body) at) }
        ensures kept { IsStateOf p.now self.new }
    {
        match first.as_slice() {
            [] => {
                self.go_on(p, t, Onward::Loop);
                Stepped::Done(Did::Step)
            }
            [s] => self.begin_by(p, t, s),
            _ => Stepped::Undefined,
        }
    }

    /// The first part of a `for`, which is one statement.
    fn begin_by(&mut self, p: &Program, t: u32, s: &Stmt) -> Stepped
        requires state { IsStateOf p.now self.old }
        requires small { IsSmall (shown_stmt s.now) }
        requires may { MaySets self.old t (shown_stmt s.now) }
        ensures is { (act : bare.Stmt) (at : At p.now self.old t act)
            → Steps p.now self.old self.new result false (for_begun (shown p.now) (state_of p.now self.old) t at.locals (onward Onward.Loop act at.rest) at.more (Cons (shown_stmt s.now) Nil)) }
        ensures kept { IsStateOf p.now self.new }
    {
        match &s.act {
            Act::Declare { name, value } => self.declare(p, t, name, value, Onward::Loop),
            Act::Assign { target, value } => self.assign(p, t, target, value, Onward::Loop),
            _ => Stepped::Undefined,
        }
    }

    /// A `for`: its loop, where its first part is done, and else its first part.
    pub(crate) fn go_round(
        &mut self,
        p: &Program,
        t: u32,
        first: &Stmts,
        test: &Expr,
        begun: bool,
    ) -> Stepped
        requires state { IsStateOf p.now self.old }
        requires small_test { HasSmallNumbers (expr_of test.now) }
        requires small { Everywhere IsSmall (shown_body first.now) }
        requires may { Everywhere (MaySets self.old t) (shown_body first.now) }
        ensures is { (step body : bare.Stmts) (at : At p.now self.old t (first_of begun (bare.For (shown_body first.now) (expr_of test.now) step body)))
            → Steps p.now self.old self.new result false (does p.now self.old t (first_of begun (bare.For (shown_body first.now) (expr_of test.now) step body)) at) }
        ensures kept { IsStateOf p.now self.new }
    {
        if begun {
            self.repeat(p, t, test)
        } else {
            self.begin_for(p, t, first)
        }
    }
}
