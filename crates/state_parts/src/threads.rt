// What threads do, with the frames of their calls.
ghost use Rattle.std.specs.Prelude.{◌≡◌, List, ◌∷◌, map, reverse, slice_get, option_map, IfSome, Contains, Some};
ghost use Rattle.c_frames.specs.declared.frames.Frame.{Frame};
ghost use Rattle.c_tree.specs.Bare as bare;
ghost use Rattle.c_tree.specs.Bare.{Stmts, Cons};
ghost use Rattle.c_meaning.specs.State as run;
ghost use Rattle.c_frames.specs.Names.{IsAmong};
ghost use Rattle.c_frames.specs.LocalValues.{changed};
ghost use Rattle.state_parts.specs.First.{NamesHave};
ghost use Rattle.state_parts.specs.Threads.{frames_in};
ghost use Rattle.state_parts.specs.Valid.{AreFramesIn};
ghost use Rattle.state_parts.specs.Onward.{onward};

use crate::frames::{Onward, go_on, set_and_go_on};
use crate::tables::Tables;
use c_frames::Frame;
use c_tree::Program;

/// What a thread does.
#[derive(Clone, Copy, Debug, PartialEq, Eq)]
pub enum Doing {
    /// It hasn't begun.
    NotBegun,
    /// It runs.
    Running,
    /// It waits for a signal on a condition, and has released a mutex meanwhile.
    Waiting {
        /// The condition.
        condition: u128,
        /// The mutex.
        mutex: u32,
    },
    /// It was woken, takes the tokens of its wait, and then its mutex.
    Reacquiring {
        /// The mutex.
        mutex: u32,
        /// How many of the tokens it has taken.
        taken: usize,
    },
    /// It has ended.
    Ended,
}

/// A thread: what it does, and the frames of its calls, the newest last.
#[derive(Debug, Drop)]
pub struct Thread {
    /// What it does.
    pub doing: Doing,
    /// The frames.
    pub frames: Vec<Frame>,
}

impl Thread {
    /// The newest frame, or the one that is so many below it.
    pub fn frame(&self, below: usize) -> Option<&Frame>
        ensures is { (view : Frame → run.Frame) → option_map (λ x. view x.now) result ≡ slice_get (map view (reverse self.now.frames.items)) below }
        ensures same { option_map (λ x. x.now) result ≡ slice_get (reverse self.now.frames.items) below }
        ensures there { IfSome result (λ x. Contains self.now.frames.items x.now) }
    {
        if below < self.frames.len() {
            self.frames.get(self.frames.len() - 1 - below)
        } else {
            None
        }
    }

    /// The newest frame goes on from its first statement.
    pub fn go_on(&mut self, p: &Program, tables: &Tables, to: Onward)
        requires { AreFramesIn p.now tables.now self.old.frames.items }
        ensures goes { (locals : run.Locals) (s : bare.Stmt) (rest : Stmts) (more : List run.Frame)
            → frames_in p.now tables.now self.old.frames.items ≡ run.frame locals (Cons s rest) ∷ more
            → frames_in p.now tables.now self.new.frames.items ≡ run.frame locals (onward to s rest) ∷ more }
        ensures valid { AreFramesIn p.now tables.now self.new.frames.items }
        ensures same { self.new.doing ≡ self.old.doing }
    {
        if let Some(x) = self.frames.last_mut() {
            go_on(p, tables, x, to);
        }
    }

    /// The newest frame gives a local a value, or takes its value away, and goes on from its first statement.
    pub fn set(&mut self, p: &Program, tables: &Tables, name: &[u8], value: Option<i32>, to: Onward)
        requires frames { AreFramesIn p.now tables.now self.old.frames.items }
        requires among { (x : Frame) → slice_get (reverse self.old.frames.items) 0 ≡ Some x → NamesHave tables.now x (λ names. IsAmong names name.now) }
        ensures goes { (locals : run.Locals) (s : bare.Stmt) (rest : Stmts) (more : List run.Frame)
            → frames_in p.now tables.now self.old.frames.items ≡ run.frame locals (Cons s rest) ∷ more
            → frames_in p.now tables.now self.new.frames.items ≡ run.frame (changed locals name.now value) (onward to s rest) ∷ more }
        ensures valid { AreFramesIn p.now tables.now self.new.frames.items }
        ensures same { self.new.doing ≡ self.old.doing }
    {
        if let Some(x) = self.frames.last_mut() {
            set_and_go_on(p, tables, x, name, value, to);
        }
    }
}
