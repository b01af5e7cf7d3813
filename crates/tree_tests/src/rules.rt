// A small program with one main after another, and the numbers that its table has. The rules
// themselves are tried on samples in `c_rules`, which are proved, and on rows.

use c_check::{CheckError, Count, Rule, check};
use c_tree::{
    Act, Array, Cell, Expr, Function, Kind, Mode, Name, Object, Place, Program, Slot, Stmt, Stmts,
};
use sqlite_items::Items;
use std::alloc::{AllocError, Global};

fn name(alloc: Global, text: &[u8]) -> Result<Name, AllocError> {
    Items::from_slice(alloc, text)
}

fn member(alloc: Global, text: &[u8], index: u32) -> Result<Place, AllocError> {
    Ok(Place {
        name: name(alloc, text)?,
        index: Some(Expr::Number(index)),
    })
}

fn create(alloc: Global, index: u32) -> Result<Act, AllocError> {
    Ok(Act::Create {
        slot: member(alloc, b"t", index)?,
        function: name(alloc, b"run")?,
        arg: Expr::Number(7),
    })
}

fn join(alloc: Global, index: u32) -> Result<Act, AllocError> {
    Ok(Act::Join {
        slot: member(alloc, b"t", index)?,
    })
}

/// The act that a letter stands for: capitals create and others join.
fn act(alloc: Global, letter: u8) -> Result<Act, AllocError> {
    match letter {
        b'A' => create(alloc, 0),
        b'B' => create(alloc, 1),
        b'a' => join(alloc, 0),
        b'b' => join(alloc, 1),
        b'?' => create(alloc, 99),
        _ => Ok(Act::InitMutex {
            place: member(alloc, b"m", 1)?,
        }),
    }
}

/// Acts on the lines from 21 on.
fn acts(alloc: Global, letters: &[u8]) -> Result<Stmts, AllocError> {
    let mut stmts = Items::new(alloc);
    let mut line = 20u32;
    for letter in letters {
        line = line.saturating_add(1);
        stmts.push(Stmt {
            line,
            act: act(alloc, *letter)?,
        })?;
    }
    Ok(stmts)
}

/// Creates of so many threads.
fn creates(alloc: Global, count: u32) -> Result<Stmts, AllocError> {
    let mut stmts = Items::new(alloc);
    for index in 0..count {
        stmts.push(Stmt {
            line: 21,
            act: create(alloc, index)?,
        })?;
    }
    Ok(stmts)
}

fn mutex(alloc: Global, text: &[u8], len: Option<u32>) -> Result<Object, AllocError> {
    Ok(Object {
        name: name(alloc, text)?,
        len,
        ready: false,
        given: 0,
        line: 1,
    })
}

/// `void *run(void *arg)`
fn run(alloc: Global) -> Result<Function, AllocError> {
    let mut params = Items::new(alloc);
    params.push(name(alloc, b"arg")?)?;
    Ok(Function {
        name: name(alloc, b"run")?,
        kind: Kind::Thread,
        params,
        body: Items::new(alloc),
        line: 10,
        end_line: 19,
    })
}

/// The mutexes `a` and `m[2]`, threads `t[40]`, and this main.
fn program(alloc: Global, body: Stmts) -> Result<Program, AllocError> {
    let mut mutexes = Items::new(alloc);
    mutexes.push(mutex(alloc, b"a", None)?)?;
    mutexes.push(mutex(alloc, b"m", Some(2))?)?;
    let mut threads = Items::new(alloc);
    threads.push(Slot {
        name: name(alloc, b"t")?,
        len: Some(40),
        line: 3,
    })?;
    let mut functions = Items::new(alloc);
    functions.push(run(alloc)?)?;
    functions.push(Function {
        name: name(alloc, b"main")?,
        kind: Kind::Main,
        params: Items::new(alloc),
        body,
        line: 20,
        end_line: 29,
    })?;
    Ok(Program {
        ints: Items::<Cell>::new(alloc),
        arrays: Items::<Array>::new(alloc),
        mutexes,
        conds: Items::new(alloc),
        threads,
        monitors: Items::new(alloc),
        functions,
        cap_len: 0,
        cap_line: 0,
        end_line: 30,
    })
}

/// The rule and the line that a main of these acts is refused with, if it is.
fn refusal(alloc: Global, letters: &[u8]) -> Option<(Rule, u32)> {
    let Ok(body) = acts(alloc, letters) else {
        return None;
    };
    let Ok(p) = program(alloc, body) else {
        return None;
    };
    if p.functions.len() >= 1000000 {
        return None;
    }
    match check(alloc, &p, Mode::Source) {
        Err(CheckError::Rule { rule, line }) => Some((rule, line)),
        _ => None,
    }
}

#[test]
fn mains_are_refused(rt: HostRuntime) {
    let alloc = rt.alloc();
    assert!(rt; refusal(alloc, b"iABba") == None);
    assert!(rt; refusal(alloc, b"ABA") == Some((Rule::CreateNotFixed, 23)));
    assert!(rt; refusal(alloc, b"A?a") == Some((Rule::CreateNotFixed, 22)));
    assert!(rt; refusal(alloc, b"aA") == Some((Rule::JoinNotFixed, 21)));
    assert!(rt; refusal(alloc, b"Aaa") == Some((Rule::JoinNotFixed, 23)));
    assert!(rt; refusal(alloc, b"AiB") == Some((Rule::InitLate, 22)));
    assert!(rt; refusal(alloc, b"AiA") == Some((Rule::InitLate, 22)));
}

#[test]
fn threads_are_counted(rt: HostRuntime) {
    let alloc = rt.alloc();
    for count in [31u32, 32] {
        let Ok(body) = creates(alloc, count) else {
            assert!(rt; false, "no memory");
            return;
        };
        let Ok(p) = program(alloc, body) else {
            assert!(rt; false, "no memory");
            return;
        };
        if p.functions.len() >= 1000000 {
            return;
        }
        match check(alloc, &p, Mode::Any) {
            Ok(table) => assert!(rt; count == 31 && table.threads() == 32),
            Err(CheckError::TooMany { what, limit }) => {
                assert!(rt; count == 32 && what == Count::Threads && limit == 32);
            }
            _ => assert!(rt; false, "another refusal"),
        }
    }
}

#[test]
fn a_table_has_its_numbers(rt: HostRuntime) {
    let alloc = rt.alloc();
    let Ok(body) = acts(alloc, b"ABba") else {
        assert!(rt; false, "no memory");
        return;
    };
    let Ok(p) = program(alloc, body) else {
        assert!(rt; false, "no memory");
        return;
    };
    if p.functions.len() >= 1000000 {
        return;
    }
    let Ok(table) = check(alloc, &p, Mode::Source) else {
        assert!(rt; false, "refused");
        return;
    };
    assert!(rt; table.threads() == 3 && table.mutexes() == 3 && table.monitors() == 0);
    assert!(rt; table.resource(b"m", Some(1)) == Some(2));
    assert!(rt; table.resource(b"m", Some(2)) == None && table.resource(b"a", Some(0)) == None);
    for (r, text) in [(0u32, b"a".as_slice()), (2, b"m[1]"), (4, b"gd[1]")] {
        match table.write_name(alloc, r) {
            Ok(written) => assert!(rt; written.as_slice() == text),
            Err(_) => assert!(rt; false, "no memory"),
        }
    }
}
