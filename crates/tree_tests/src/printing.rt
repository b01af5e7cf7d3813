// One program, printed.

use c_print::print;
use c_tree::{Act, Expr, Function, Functions, Kind, Name, Op, Place, Program, Stmt, Stmts};
use sqlite_items::{Boxed, Items};
use std::alloc::{AllocError, Global};

fn name(alloc: Global, bytes: &[u8]) -> Result<Name, AllocError> {
    Items::from_slice(alloc, bytes)
}

fn scalar(alloc: Global, bytes: &[u8]) -> Result<Place, AllocError> {
    Ok(Place {
        name: name(alloc, bytes)?,
        index: None,
    })
}

fn one(alloc: Global, act: Act) -> Result<Stmts, AllocError> {
    let mut list = Items::new(alloc);
    list.push(Stmt { line: 1, act })?;
    Ok(list)
}

fn binary(alloc: Global, op: Op, left: Expr, right: Expr) -> Result<Expr, AllocError> {
    Ok(Expr::Binary {
        op,
        left: Boxed::new(alloc, left)?,
        right: Boxed::new(alloc, right)?,
    })
}

/// `k - (1 - - -k)`
fn difference(alloc: Global) -> Result<Expr, AllocError> {
    let inner = Expr::Minus(Boxed::new(alloc, Expr::Name(name(alloc, b"k")?))?);
    let outer = Expr::Minus(Boxed::new(alloc, inner)?);
    let right = binary(alloc, Op::Sub, Expr::Number(1), outer)?;
    binary(alloc, Op::Sub, Expr::Name(name(alloc, b"k")?), right)
}

/// `if (k) { gd_give(0); } else if (k == 2) { k = k - (1 - - -k); }`
fn choice(alloc: Global) -> Result<Act, AllocError> {
    let assign = Act::Assign {
        target: scalar(alloc, b"k")?,
        value: difference(alloc)?,
    };
    let second = Act::If {
        test: binary(
            alloc,
            Op::Eq,
            Expr::Name(name(alloc, b"k")?),
            Expr::Number(2),
        )?,
        then_arm: one(alloc, assign)?,
        else_arm: Items::new(alloc),
    };
    Ok(Act::If {
        test: Expr::Name(name(alloc, b"k")?),
        then_arm: one(alloc, Act::Give { monitor: 0 })?,
        else_arm: one(alloc, second)?,
    })
}

/// `gd_cond_wait(&c, &a, 1, 0, -1);`
fn wait(alloc: Global) -> Result<Act, AllocError> {
    Ok(Act::Wait {
        cond: scalar(alloc, b"c")?,
        mutex: scalar(alloc, b"a")?,
        takes: Items::from_slice(alloc, &[1, 0])?,
    })
}

/// `if (pthread_mutex_trylock(&a) == 0) { TAKEN }`
fn trial(alloc: Global, taken: Stmts) -> Result<Act, AllocError> {
    Ok(Act::TryLock {
        place: scalar(alloc, b"a")?,
        taken,
        busy: Items::new(alloc),
    })
}

/// `if (k) { } else OTHERWISE`
fn unless(alloc: Global, otherwise: Stmts) -> Result<Act, AllocError> {
    Ok(Act::If {
        test: Expr::Name(name(alloc, b"k")?),
        then_arm: Items::new(alloc),
        else_arm: otherwise,
    })
}

/// `if (k) { } else if (pthread_mutex_trylock(&a) == 0) { WAIT }`
fn attempt(alloc: Global) -> Result<Act, AllocError> {
    let taken = one(alloc, wait(alloc)?)?;
    let second = one(alloc, trial(alloc, taken)?)?;
    unless(alloc, second)
}

fn thread(alloc: Global) -> Result<Function, AllocError> {
    let mut body = one(alloc, choice(alloc)?)?;
    body.push(Stmt {
        line: 2,
        act: attempt(alloc)?,
    })?;
    body.push(Stmt {
        line: 2,
        act: Act::Return { value: None },
    })?;
    let mut params = Items::new(alloc);
    params.push(name(alloc, b"arg")?)?;
    Ok(Function {
        name: name(alloc, b"one")?,
        kind: Kind::Thread,
        params,
        body,
        line: 1,
        end_line: 3,
    })
}

fn with_functions(alloc: Global, functions: Functions) -> Program {
    Program {
        ints: Items::new(alloc),
        arrays: Items::new(alloc),
        mutexes: Items::new(alloc),
        conds: Items::new(alloc),
        threads: Items::new(alloc),
        monitors: Items::new(alloc),
        functions,
        cap_len: 2,
        cap_line: 0,
        end_line: 9,
    }
}

fn printed(alloc: Global, monitors: &[u32]) -> Result<Vec<u8>, AllocError> {
    let mut functions = Items::new(alloc);
    functions.push(thread(alloc)?)?;
    let mut program = with_functions(alloc, functions);
    program.monitors = Items::from_slice(alloc, monitors)?;
    print(alloc, &program)
}

const HEAD: &[u8] = b"#include <pthread.h>
#include <stdio.h>
";

const MONITORS: &[u8] = b"int gd_cap[2] = {1, 3};
void gd_take(int k);
void gd_give(int k);
void gd_cond_wait(pthread_cond_t *c, pthread_mutex_t *m, ...);
";

const THREAD: &[u8] = b"
void *one(void *arg) {
    if (k) {
        gd_give(0);
    } else if (k == 2) {
        k = k - (1 - - -k);
    }
    if (k) {
    } else if (pthread_mutex_trylock(&a) == 0) {
        gd_cond_wait(&c, &a, 1, 0, -1);
    }
    return NULL;
}
";

/// Whether a program with these monitors is printed as these lines between its head and its function.
fn shows(alloc: Global, monitors: &[u32], lines: &[u8]) -> bool {
    match printed(alloc, monitors) {
        Ok(bytes) => {
            let behind = bytes
                .strip_prefix(HEAD)
                .and_then(|rest| rest.strip_suffix(THREAD));
            behind == Some(lines)
        }
        Err(_) => false,
    }
}

#[test]
fn prints_canonical_texts(rt: HostRuntime) {
    assert!(rt; shows(rt.alloc(), &[1, 3], MONITORS));
    assert!(rt; shows(rt.alloc(), &[], b""));
}
