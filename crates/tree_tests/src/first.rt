// Programs of the first form, and those that miss it by one thing.

use c_tree::{
    Act, Cell, Expr, Function, Kind, Name, Object, Op, Place, Program, Slot, Stmt, Stmts,
};
use first_form::{first_nested, is_first_form};
use sqlite_items::{Boxed, Items};
use std::alloc::{AllocError, Global};

fn name(alloc: Global, text: &[u8]) -> Result<Name, AllocError> {
    Items::from_slice(alloc, text)
}

fn scalar(alloc: Global, text: &[u8]) -> Result<Place, AllocError> {
    Ok(Place {
        name: name(alloc, text)?,
        index: None,
    })
}

fn slot(alloc: Global, index: u32) -> Result<Place, AllocError> {
    Ok(Place {
        name: name(alloc, b"t")?,
        index: Some(Expr::Number(index)),
    })
}

/// `x = x + 1`
fn add(alloc: Global) -> Result<Act, AllocError> {
    Ok(Act::Assign {
        target: scalar(alloc, b"x")?,
        value: Expr::Binary {
            op: Op::Add,
            left: Boxed::new(alloc, Expr::Name(name(alloc, b"x")?))?,
            right: Boxed::new(alloc, Expr::Number(1))?,
        },
    })
}

fn lock(alloc: Global, text: &[u8]) -> Result<Act, AllocError> {
    Ok(Act::Lock {
        place: scalar(alloc, text)?,
    })
}

fn unlock(alloc: Global, text: &[u8]) -> Result<Act, AllocError> {
    Ok(Act::Unlock {
        place: scalar(alloc, text)?,
    })
}

fn create(alloc: Global, index: u32) -> Result<Act, AllocError> {
    Ok(Act::Create {
        slot: slot(alloc, index)?,
        function: name(alloc, b"f")?,
        arg: Expr::Number(0),
    })
}

fn join(alloc: Global, index: u32) -> Result<Act, AllocError> {
    Ok(Act::Join {
        slot: slot(alloc, index)?,
    })
}

/// The act that a letter stands for: brackets lock and unlock, capitals create and others join.
fn act(alloc: Global, letter: u8) -> Result<Act, AllocError> {
    match letter {
        b'(' => lock(alloc, b"m"),
        b')' => unlock(alloc, b"m"),
        b'[' => lock(alloc, b"n"),
        b']' => unlock(alloc, b"n"),
        b'A' => create(alloc, 0),
        b'B' => create(alloc, 1),
        b'C' => create(alloc, 2),
        b'a' => join(alloc, 0),
        b'b' => join(alloc, 1),
        _ => add(alloc),
    }
}

/// Acts on the lines from 1 on, and a return.
fn body(alloc: Global, letters: &[u8], value: Option<Expr>) -> Result<Stmts, AllocError> {
    let mut stmts = Items::new(alloc);
    let mut line = 0u32;
    for letter in letters {
        line = line.saturating_add(1);
        stmts.push(Stmt {
            line,
            act: act(alloc, *letter)?,
        })?;
    }
    stmts.push(Stmt {
        line,
        act: Act::Return { value },
    })?;
    Ok(stmts)
}

fn thread(
    alloc: Global,
    text: &[u8],
    parameter: &[u8],
    acts: &[u8],
) -> Result<Function, AllocError> {
    let mut params = Items::new(alloc);
    params.push(name(alloc, parameter)?)?;
    Ok(Function {
        name: name(alloc, text)?,
        kind: Kind::Thread,
        params,
        body: body(alloc, acts, None)?,
        line: 0,
        end_line: 0,
    })
}

fn main_function(alloc: Global, calls: &[u8]) -> Result<Function, AllocError> {
    Ok(Function {
        name: name(alloc, b"main")?,
        kind: Kind::Main,
        params: Items::new(alloc),
        body: body(alloc, calls, Some(Expr::Number(0)))?,
        line: 0,
        end_line: 0,
    })
}

fn mutex(alloc: Global, text: &[u8]) -> Result<Object, AllocError> {
    Ok(Object {
        name: name(alloc, text)?,
        len: None,
        ready: true,
        given: 1,
        line: 0,
    })
}

/// An int `x`, mutexes `m` and `n`, `pthread_t t[2]`, the function `f`, another one and main.
fn program(
    alloc: Global,
    other: &[u8],
    parameter: &[u8],
    acts: &[u8],
    calls: &[u8],
) -> Result<Program, AllocError> {
    let mut ints = Items::new(alloc);
    ints.push(Cell {
        name: name(alloc, b"x")?,
        value: 0,
        line: 0,
    })?;
    let mut mutexes = Items::new(alloc);
    mutexes.push(mutex(alloc, b"m")?)?;
    mutexes.push(mutex(alloc, b"n")?)?;
    let mut threads = Items::new(alloc);
    threads.push(Slot {
        name: name(alloc, b"t")?,
        len: Some(2),
        line: 0,
    })?;
    let mut functions = Items::new(alloc);
    functions.push(thread(alloc, b"f", b"p", b"+")?)?;
    functions.push(thread(alloc, other, parameter, acts)?)?;
    functions.push(main_function(alloc, calls)?)?;
    Ok(Program {
        ints,
        arrays: Items::new(alloc),
        mutexes,
        conds: Items::new(alloc),
        threads,
        monitors: Items::new(alloc),
        functions,
        cap_len: 0,
        cap_line: 0,
        end_line: 1,
    })
}

#[test]
fn programs(rt: HostRuntime) -> Result<(), AllocError> {
    let alloc = rt.alloc();
    let cases: [(&str, &str, &str, &str, bool, Option<u32>); 14] = [
        ("g", "p", "(+)[+]", "ABab", true, None),
        ("g", "p", "(+)[(+)]", "Aa", true, Some(5)),
        ("g", "p", "((+)", "A", true, Some(2)),
        ("f", "p", "+", "Aa", false, None),
        ("x", "p", "+", "Aa", false, None),
        ("g_gd1", "p", "+", "Aa", false, None),
        ("g", "m", "+", "Aa", false, None),
        ("g", "p", "(+", "Aa", false, None),
        ("g", "p", "+)", "Aa", false, None),
        ("g", "p", "(+))", "Aa", false, None),
        ("g", "p", "+", "AAa", false, None),
        ("g", "p", "+", "Aaa", false, None),
        ("g", "p", "+", "Ab", false, None),
        ("g", "p", "+", "C", false, None),
    ];
    for (other, parameter, acts, calls, accepted, line) in cases {
        let p = program(
            alloc,
            other.as_bytes(),
            parameter.as_bytes(),
            acts.as_bytes(),
            calls.as_bytes(),
        )?;
        assert_eq!(rt;
            is_first_form(alloc, &p)?,
            accepted,
            "{other} {parameter} {acts} {calls}"
        );
        assert_eq!(rt; first_nested(alloc, &p)?, line, "{acts}");
    }
    Ok(())
}
