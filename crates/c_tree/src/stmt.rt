// Statements.

use crate::expr::{Expr, Exprs, Name, Place};
use crate::program::Numbers;
use sqlite_items::Items;

/// Statements in the order of the text.
pub type Stmts = Items<Stmt>;

/// A statement and where it stands.
#[cycle(stmt)]
#[derive(Debug, Drop)]
pub struct Stmt {
    /// The line, from 1, of its first token; of a Declare, of the name that is declared. It stands
    /// outside equality of programs.
    pub line: u32,
    /// What it does.
    pub act: Act,
}

/// What a statement does.
#[cycle(stmt)]
#[derive(Debug, Drop)]
pub enum Act {
    /// Declares a local of type `int`, with a value or without.
    Declare {
        /// The local.
        name: Name,
        /// Its first value.
        value: Option<Expr>,
    },
    /// Gives a scalar or a member a value.
    Assign {
        /// What changes.
        target: Place,
        /// What it becomes.
        value: Expr,
    },
    /// Calls a function of the program.
    Call {
        /// What its result is put into.
        target: Option<Place>,
        /// The function.
        function: Name,
        /// Its arguments.
        args: Exprs,
    },
    /// `if`, with an empty `else_arm` where the text has no `else`.
    If {
        /// What is tested.
        test: Expr,
        /// What is done where the test isn't 0.
        then_arm: Stmts,
        /// What is done where the test is 0.
        else_arm: Stmts,
    },
    /// `while`
    While {
        /// What is tested.
        test: Expr,
        /// What is done while the test isn't 0.
        body: Stmts,
    },
    /// `for`
    For {
        /// What is done first: nothing, one Assign, or one Declare with a value.
        first: Stmts,
        /// What is tested; the number 1 where the text has no test.
        test: Expr,
        /// What is done after the body: nothing, or one Assign.
        step: Stmts,
        /// What is done while the test isn't 0.
        body: Stmts,
    },
    /// `return`; without a value in a function that gives none and in a thread function.
    Return {
        /// What the function gives.
        value: Option<Expr>,
    },
    /// `scanf` of one number.
    Read {
        /// What the number is put into.
        target: Place,
    },
    /// `printf`
    Print {
        /// The bytes between the quotes, as they are written.
        format: Name,
        /// One argument for each `%d`.
        args: Exprs,
    },
    /// `pthread_create`
    Create {
        /// The thread.
        slot: Place,
        /// Its start function.
        function: Name,
        /// The argument of the start function; the number 0 for `NULL`.
        arg: Expr,
    },
    /// `pthread_join`
    Join {
        /// The thread that is waited for.
        slot: Place,
    },
    /// `pthread_mutex_init`
    InitMutex {
        /// The mutex.
        place: Place,
    },
    /// `pthread_cond_init`
    InitCond {
        /// The condition.
        place: Place,
    },
    /// `pthread_mutex_lock`
    Lock {
        /// The mutex.
        place: Place,
    },
    /// `if` over `pthread_mutex_trylock`
    TryLock {
        /// The mutex.
        place: Place,
        /// What is done where the mutex was free and is locked now.
        taken: Stmts,
        /// What is done where the mutex has an owner.
        busy: Stmts,
    },
    /// `pthread_mutex_unlock`
    Unlock {
        /// The mutex.
        place: Place,
    },
    /// `pthread_cond_wait`, or `gd_cond_wait` where it takes tokens.
    Wait {
        /// The condition.
        cond: Place,
        /// The mutex that is released meanwhile.
        mutex: Place,
        /// The monitors, counted from 0, of which the thread takes a token each after it wakes, in
        /// this order, before it takes the mutex.
        takes: Numbers,
    },
    /// `pthread_cond_signal`
    Signal {
        /// The condition.
        cond: Place,
    },
    /// `pthread_cond_broadcast`
    Broadcast {
        /// The condition.
        cond: Place,
    },
    /// `gd_take`: takes a token of a monitor.
    Take {
        /// The monitor, counted from 0.
        monitor: u32,
    },
    /// `gd_give`: gives a token of a monitor back.
    Give {
        /// The monitor, counted from 0.
        monitor: u32,
    },
}
