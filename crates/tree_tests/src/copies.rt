// One program, copied and searched.

use c_tree::{Act, Expr, Function, Functions, Kind, Name, Program, Stmt};
use sqlite_items::Items;
use std::alloc::{AllocError, Global};

fn function(alloc: Global, name: &[u8], kind: Kind, line: u32) -> Result<Function, AllocError> {
    Ok(Function {
        name: Items::from_slice(alloc, name)?,
        kind,
        params: Items::new(alloc),
        body: Items::new(alloc),
        line,
        end_line: line,
    })
}

/// `if (k) {} else { return; }`
fn choice(alloc: Global, name: Name) -> Result<Stmt, AllocError> {
    let mut else_arm = Items::new(alloc);
    else_arm.push(Stmt {
        line: 3,
        act: Act::Return { value: None },
    })?;
    Ok(Stmt {
        line: 2,
        act: Act::If {
            test: Expr::Name(name),
            then_arm: Items::new(alloc),
            else_arm,
        },
    })
}

fn with_functions(alloc: Global, functions: Functions) -> Program {
    Program {
        ints: Items::new(alloc),
        arrays: Items::new(alloc),
        mutexes: Items::new(alloc),
        conds: Items::new(alloc),
        threads: Items::new(alloc),
        monitors: Items::new(alloc),
        functions,
        cap_len: 0,
        cap_line: 0,
        end_line: 9,
    }
}

fn program(alloc: Global) -> Result<Program, AllocError> {
    let mut first = function(alloc, b"add", Kind::Void, 1)?;
    first
        .body
        .push(choice(alloc, Items::from_slice(alloc, b"k")?)?)?;
    let mut functions = Items::new(alloc);
    functions.push(first)?;
    functions.push(function(alloc, b"main", Kind::Main, 5)?)?;
    Ok(with_functions(alloc, functions))
}

/// The lines of the else arm of the first statement of the first function.
fn else_lines(p: &Program) -> Option<u32> {
    let function = p.functions.get(0)?;
    match &function.body.get(0)?.act {
        Act::If { else_arm, .. } => Some(else_arm.get(0)?.line),
        _ => None,
    }
}

#[test]
fn copies_and_finds(rt: HostRuntime) {
    let alloc = rt.alloc();
    let Ok(first) = program(alloc) else {
        assert!(rt; false, "no memory");
        return;
    };
    let Ok(second) = first.copy(alloc) else {
        assert!(rt; false, "no memory");
        return;
    };
    assert!(rt; else_lines(&second) == Some(3));
    assert!(rt; second.end_line == 9);
    assert!(rt; second.find_function(b"main") == Some(1));
    assert!(rt; second.find_function(b"mai").is_none());
}
