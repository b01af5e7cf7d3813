// A call of one function, from its beginning to its end.
ghost use Rattle.c_frames.specs.Frames.{IsPlaced};
ghost use Rattle.c_frames.specs.Names.{shown_function};

use c_frames::{Arm, Frame, local_names};
use c_tree::{Act, Expr, Function, Kind, Name, Place, Stmt, Stmts};
use sqlite_items::Items;
use std::alloc::{AllocError, Global};

fn name(alloc: Global, text: &[u8]) -> Result<Name, AllocError> {
    Items::from_slice(alloc, text)
}

/// A list of one statement.
fn alone(alloc: Global, line: u32, act: Act) -> Result<Stmts, AllocError> {
    let mut list = Items::new(alloc);
    list.push(Stmt { line, act })?;
    Ok(list)
}

fn scalar(alloc: Global, text: &[u8]) -> Result<Place, AllocError> {
    Ok(Place {
        name: name(alloc, text)?,
        index: None,
    })
}

/// The assignment `i = n;`, or `n = n;`, at a line.
fn assignment(alloc: Global, target: &[u8], line: u32) -> Result<Stmts, AllocError> {
    alone(
        alloc,
        line,
        Act::Assign {
            target: scalar(alloc, target)?,
            value: Expr::Name(name(alloc, b"n")?),
        },
    )
}

/// `if (pthread_mutex_trylock(&a) == 0) { gd_take(0); } else { j = n; }`
fn trying(alloc: Global) -> Result<Stmts, AllocError> {
    alone(
        alloc,
        4,
        Act::TryLock {
            place: scalar(alloc, b"a")?,
            taken: alone(alloc, 5, Act::Take { monitor: 0 })?,
            busy: assignment(alloc, b"j", 6)?,
        },
    )
}

/// `void f(int n) { for (i = n; n; n = n) { if .. } gd_give(0); }`
fn looping(alloc: Global) -> Result<Function, AllocError> {
    let mut list = alone(
        alloc,
        2,
        Act::For {
            first: assignment(alloc, b"i", 2)?,
            test: Expr::Name(name(alloc, b"n")?),
            step: assignment(alloc, b"n", 3)?,
            body: trying(alloc)?,
        },
    )?;
    list.push(Stmt {
        line: 7,
        act: Act::Give { monitor: 0 },
    })?;
    let mut params = Items::new(alloc);
    params.push(name(alloc, b"n")?)?;
    Ok(Function {
        name: name(alloc, b"f")?,
        kind: Kind::Void,
        params,
        body: list,
        line: 1,
        end_line: 8,
    })
}

/// The line of the statement that comes next, or 0 at the end.
fn next_line(frame: &Frame, f: &Function) -> u32
    requires { IsPlaced (shown_function f.now) frame.now }
{
    match frame.next(f) {
        Some(s) => s.line,
        None => 0,
    }
}

#[test]
fn a_call_goes_through_a_loop(rt: HostRuntime) -> Result<(), AllocError> {
    let alloc = rt.alloc();
    let f = looping(alloc)?;
    let names = local_names(alloc, &f)?;
    let mut frame = Frame::new(alloc, &names, 7, &f, &[3])?;
    assert!(rt; frame.function() == 7);
    assert!(rt; frame.local(&names, b"n") == Some(3));
    assert!(rt; frame.local(&names, b"j").is_none());
    assert!(rt; next_line(&frame, &f) == 2 && !frame.begun());
    frame.begin(&f);
    assert!(rt; next_line(&frame, &f) == 2 && frame.begun());
    frame.enter(&f, Arm::Body);
    assert!(rt; next_line(&frame, &f) == 4);
    frame.enter(&f, Arm::Then);
    assert!(rt; next_line(&frame, &f) == 5);
    frame.pass(&f);
    assert!(rt; next_line(&frame, &f) == 3);
    frame.pass(&f);
    assert!(rt; next_line(&frame, &f) == 2 && frame.begun());
    frame.enter(&f, Arm::Body);
    frame.enter(&f, Arm::Else);
    assert!(rt; next_line(&frame, &f) == 6);
    frame.pass(&f);
    frame.pass(&f);
    frame.pass(&f);
    assert!(rt; next_line(&frame, &f) == 7);
    frame.pass(&f);
    assert!(rt; next_line(&frame, &f) == 0);
    Ok(())
}
