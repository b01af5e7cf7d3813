// Where a frame stands in the statements of its function.
ghost use Rattle.std.specs.Prelude.{◌≡◌, ◌≤◌, ◌<◌, ◌+◌, ◌^◌, true, length, IfSome, IsSome, IsNone};
ghost use Rattle.c_frames.specs.declared.positions.After.TheVariants as after;
ghost use Rattle.c_frames.specs.declared.positions.Part.TheVariants as parts;
ghost use Rattle.c_tree.specs.Bare as bare;
ghost use Rattle.c_tree.specs.Bare.{Stmts, Nil, Cons};
ghost use Rattle.smallvec.specs.SmallVec.{HasRoomFor};
ghost use Rattle.c_tree.specs.Bare.{before};
ghost use Rattle.c_meaning.specs.Shown.{shown_stmt, shown_body};
ghost use Rattle.c_frames.specs.Positions.{from, part_of, after_part, entered, left, inside, behind, resumed, todo_at, first_of, rest_at, StandsAt, weight, weight_of, IsSettled, Descends};

use c_tree::{Act, Stmt};
use smallvec::SmallVec;

/// A part of a statement that is a list of statements.
#[derive(Clone, Copy, Debug, Default, PartialEq, Eq)]
pub enum Part {
    /// The arm of an `if` whose test isn't 0, or of a trylock that takes the mutex.
    #[default]
    Then,
    /// The other arm.
    Else,
    /// The body of a loop.
    Body,
    /// The step of a `for`.
    Step,
}

/// A statement that a frame is inside of: its place in its list, and the part that was entered.
#[derive(Clone, Copy, Debug, Default, PartialEq, Eq)]
pub struct Entered {
    /// The statement's place.
    pub index: usize,
    /// The part.
    pub part: Part,
}

/// The list that is a part of a statement; it has no other parts.
fn part_of(s: &Stmt, part: Part) -> &[Stmt]
    ensures { shown_body result.now ≡ part_of part (shown_stmt s.now) }
{
    match (&s.act, part) {
        (Act::If { then_arm, .. }, Part::Then) => then_arm.as_slice(),
        (Act::If { else_arm, .. }, Part::Else) => else_arm.as_slice(),
        (Act::TryLock { taken, .. }, Part::Then) => taken.as_slice(),
        (Act::TryLock { busy, .. }, Part::Else) => busy.as_slice(),
        (Act::While { body, .. }, Part::Body) => body.as_slice(),
        (Act::For { body, .. }, Part::Body) => body.as_slice(),
        (Act::For { step, .. }, Part::Step) => step.as_slice(),
        _ => &[],
    }
}

/// The part of the statement at a place, where there is one.
fn list_in(list: &[Stmt], q: Entered) -> &[Stmt]
    ensures { shown_body result.now ≡ entered q.part (from q.index (shown_body list.now)) }
{
    match list.get(q.index) {
        Some(s) => part_of(s, q.part),
        None => &[],
    }
}

/// The innermost of the lists that were entered.
fn inside<'a>(body: &'a [Stmt], at: &[Entered]) -> &'a [Stmt]
    ensures { shown_body result.now ≡ inside (shown_body body.now) at.now }
{
    let mut list = body;
    for q in at {
        list = list_in(list, *q);
    }
    list
}

/// What comes where a part of a statement is done.
#[derive(Clone, Copy, Debug, PartialEq, Eq)]
pub enum After {
    /// What stands behind the statement.
    Past,
    /// The statement again.
    Again,
    /// The loop of a `for`.
    Test,
    /// The step of a `for`.
    Stepping,
}

/// What comes where a part of a statement is done.
fn leaving(s: &Stmt, part: Part) -> After
    ensures steps { result ≡ after.Stepping → part ≡ parts.Body }
    ensures resumes { (rest : Stmts) → after_part part (shown_stmt s.now) rest ≡ resumed result (shown_stmt s.now) rest }
{
    match (&s.act, part) {
        (Act::While { .. }, Part::Body) => After::Again,
        (Act::For { .. }, Part::Body) => After::Stepping,
        (Act::For { .. }, Part::Step) => After::Test,
        _ => After::Past,
    }
}

/// Where a frame stands in the statements of its function.
#[derive(Debug, Drop)]
pub struct Standing {
    /// The statements that it is inside of, the outermost first.
    pub entered: SmallVec<Entered, 8>,
    /// The place in the innermost list.
    pub index: usize,
    /// Whether the statement there is a `for` whose first part is done.
    pub begun: bool,
}

impl Standing {
    /// Leaves the lists in which nothing is left; what is still to do is the same.
    pub fn settle(&mut self, body: &[Stmt])
        requires { HasRoomFor self.old.entered 0 }
        ensures same { todo_at (shown_body body.now) self.new ≡ todo_at (shown_body body.now) self.old }
        ensures settled { IsSettled (shown_body body.now) self.new }
        ensures capacity { self.new.entered.capacity ≡ self.old.entered.capacity }
        ensures descends { Descends (shown_body body.now) self.old.entered.items → Descends (shown_body body.now) self.new.entered.items }
    {
        while inside(body, self.entered.as_slice()).len() <= self.index {
            let Some(q) = self.entered.pop() else {
                return;
            };
            let outer = inside(body, self.entered.as_slice());
            self.resume(outer, q);
        }
    }

    /// Goes on behind a part of a statement of the innermost list.
    fn resume(&mut self, list: &[Stmt], q: Entered)
        requires { HasRoomFor self.old.entered 1 }
        ensures resumes { (body : Stmts) → inside body self.old.entered.items ≡ shown_body list.now
            → todo_at body self.new ≡ before (left q.part (from q.index (shown_body list.now))) (behind body self.old.entered.items) }
        ensures capacity { self.new.entered.capacity ≡ self.old.entered.capacity }
        ensures shorter { weight self.new.entered.items < weight self.old.entered.items + weight_of q.part }
        ensures room { length self.new.entered.items ≤ length self.old.entered.items + 1 }
        ensures descends { (body : Stmts) → inside body self.old.entered.items ≡ shown_body list.now → Descends body self.old.entered.items → Descends body self.new.entered.items }
    {
        self.begun = false;
        self.index = q.index;
        if let Some(s) = list.get(q.index) {
            match leaving(s, q.part) {
                After::Past => self.index = q.index + 1,
                After::Again => {}
                After::Test => self.begun = true,
                After::Stepping => {
                    self.index = 0;
                    self.entered.push_reserved(Entered {
                        index: q.index,
                        part: Part::Step,
                    });
                }
            }
        }
    }

    /// The statement that comes next. Where `begun` is set and it is a `for`, its loop comes next.
    pub fn next<'a>(&self, body: &'a [Stmt]) -> Option<&'a Stmt>
        requires { IsSettled (shown_body body.now) self.now }
        ensures some { IfSome result (λ s. StandsAt (shown_body body.now) self.now (shown_stmt s.now)) }
        ensures none { IsNone result → todo_at (shown_body body.now) self.now ≡ Nil }
        ensures within { IsSome result → self.now.index + 1 < 2 ^ 64 }
    {
        match inside(body, self.entered.as_slice()).get(self.index) {
            Some(s) => Some(s),
            None => None,
        }
    }

    /// Goes past the statement that comes next.
    pub fn pass(&mut self)
        requires { self.old.index + 1 < 2 ^ 64 }
        ensures passes { (body : Stmts) → todo_at body self.new ≡ rest_at body self.old }
        ensures entered { self.new.entered ≡ self.old.entered }
    {
        self.index += 1;
        self.begun = false;
    }

    /// Goes into a part of the statement that comes next.
    pub fn enter(&mut self, part: Part)
        requires { HasRoomFor self.old.entered 1 }
        ensures enters { (body : Stmts) (s : bare.Stmt) → StandsAt body self.old s
            → todo_at body self.new ≡ before (part_of part s) (after_part part s (rest_at body self.old)) }
        ensures capacity { self.new.entered.capacity ≡ self.old.entered.capacity }
        ensures descends { (body : Stmts) (s : bare.Stmt) → StandsAt body self.old s → Descends body self.old.entered.items → Descends body self.new.entered.items }
    {
        self.entered.push_reserved(Entered {
            index: self.index,
            part,
        });
        self.index = 0;
        self.begun = false;
    }

    /// Says that the first part of the `for` that comes next is done.
    pub fn begin(&mut self)
        ensures begins { (body : Stmts) (s : bare.Stmt) → StandsAt body self.old s → todo_at body self.new ≡ Cons (first_of true s) (rest_at body self.old) }
        ensures index { self.new.index ≡ self.old.index }
        ensures entered { self.new.entered ≡ self.old.entered }
    {
        self.begun = true;
    }
}
