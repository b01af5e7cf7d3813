// Trees of programs that are read: names, numbers, kinds and lines.

use c_parser::parse;
use c_tree::{Act, Expr, Kind, Name, Op, Program, Stmt};
use std::alloc::Global;

// The program of a text, if it is read.
fn program(alloc: Global, text: &str) -> Option<Program> {
    if text.len() > 10000 {
        return None;
    }
    parse(alloc, text.as_bytes()).ok()
}

// Whether these names are these letters.
fn are(names: &[&Name], letters: &[u8]) -> bool {
    for (name, letter) in names.iter().zip(letters) {
        if name.as_slice() != [*letter].as_slice() {
            return false;
        }
    }
    true
}

const DECLARATIONS: &str = "int gd_cap\n[3] = {1, 2}; void gd_take(int k); void gd_give(int k);
static int x = -7,
    q[4] = {1, -2};
int y;
pthread_mutex_t a = PTHREAD_MUTEX_INITIALIZER, m[2] = {
    PTHREAD_MUTEX_INITIALIZER };
pthread_cond_t c[5];
static pthread_t t;
#define N 9
int z[N];
int main(void) { static pthread_t u, v[N]; }

";

fn ints(p: &Program) -> Option<bool> {
    let x = p.ints.get(0)?;
    let y = p.ints.get(1)?;
    let q = p.arrays.get(0)?;
    let z = p.arrays.get(1)?;
    let lines = [x.line, y.line, q.line, z.line, q.len, z.len];
    let values = [x.value, y.value];
    Some(
        are(&[&x.name, &y.name, &q.name, &z.name], b"xyqz")
            && lines.as_slice() == [3, 5, 4, 11, 4, 9].as_slice()
            && values.as_slice() == [-7, 0].as_slice()
            && q.values.as_slice() == [1, -2].as_slice(),
    )
}

fn objects(p: &Program) -> Option<bool> {
    let a = p.mutexes.get(0)?;
    let m = p.mutexes.get(1)?;
    let c = p.conds.get(0)?;
    let numbers = [a.line, m.line, c.line, a.given, m.given, c.given];
    let lens = [a.len, m.len, c.len];
    Some(
        are(&[&a.name, &m.name, &c.name], b"amc")
            && numbers.as_slice() == [6, 6, 8, 1, 1, 0].as_slice()
            && lens.as_slice() == [None, Some(2), Some(5)].as_slice(),
    )
}

fn threads(p: &Program) -> Option<bool> {
    let t = p.threads.get(0)?;
    let u = p.threads.get(1)?;
    let v = p.threads.get(2)?;
    let lines = [t.line, u.line, v.line];
    let lens = [t.len, u.len, v.len];
    Some(
        are(&[&t.name, &u.name, &v.name], b"tuv")
            && lines.as_slice() == [9, 12, 12].as_slice()
            && lens.as_slice() == [None, None, Some(9)].as_slice(),
    )
}

fn capacities(p: &Program) -> bool {
    let numbers = [p.cap_len, p.cap_line, p.end_line];
    p.monitors.as_slice() == [1, 2].as_slice() && numbers.as_slice() == [3, 1, 14].as_slice()
}

const FUNCTIONS: &str = "void g() { }
static int
f(int a,
  int b) {
}
void *h(void *arg)
{
}
int main() {
} ";

fn functions(p: &Program) -> Option<bool> {
    let mut lines = [0; 9];
    let mut kinds = [Kind::Void; 4];
    for (k, f) in p.functions.as_slice().iter().take(4).enumerate() {
        lines[k] = f.line;
        lines[k + 4] = f.end_line;
        kinds[k] = f.kind;
    }
    lines[8] = p.end_line;
    Some(
        lines.as_slice() == [1, 2, 6, 9, 1, 5, 8, 10, 10].as_slice()
            && kinds.as_slice() == [Kind::Void, Kind::Int, Kind::Thread, Kind::Main].as_slice(),
    )
}

const STATEMENTS: &str = "int main() {
    int a, b =
        2, c = f(1);
    q[1] -= a - b - c;
    x++; ;
    if (a) if (b) ; else a = 1;
    for (;;) { }
    pthread_create(&t[0], NULL, h, NULL);
    x = (int)(long)arg + !y * NULL;
    return 0;
}
";

fn declared(body: &[Stmt]) -> Option<bool> {
    let b = body.get(1)?;
    let c = body.get(2)?;
    let call = body.get(3)?;
    let number = matches!(
        &b.act,
        Act::Declare {
            value: Some(Expr::Number(2)),
            ..
        }
    );
    let none = matches!(&c.act, Act::Declare { value: None, .. });
    let target = matches!(
        &call.act,
        Act::Call {
            target: Some(_),
            ..
        }
    );
    Some(number && none && target && b.line == 2 && c.line == 3 && call.line == 3)
}

// `q[1] - ((a - b) - c)`
fn changed(body: &[Stmt]) -> Option<bool> {
    let Act::Assign { value, .. } = &body.get(4)?.act else {
        return None;
    };
    let Expr::Binary {
        op: Op::Sub,
        right,
        ..
    } = value
    else {
        return None;
    };
    let Expr::Binary {
        op: Op::Sub,
        left,
        right,
    } = right.get()
    else {
        return None;
    };
    let last = matches!(right.get(), Expr::Name(_));
    Some(last && matches!(left.get(), Expr::Binary { op: Op::Sub, .. }))
}

// An `if` whose arm is an `if` with two arms, and an endless loop.
fn chosen(body: &[Stmt]) -> Option<bool> {
    let Act::If {
        then_arm,
        else_arm,
        ..
    } = &body.get(6)?.act
    else {
        return None;
    };
    let Act::If {
        else_arm: inner,
        ..
    } = &then_arm.get(0)?.act
    else {
        return None;
    };
    let Act::For {
        first,
        test,
        step,
        body: arm,
    } = &body.get(7)?.act
    else {
        return None;
    };
    let endless = matches!(test, Expr::Number(1));
    let empty = first.is_empty() && step.is_empty() && arm.is_empty();
    Some(else_arm.is_empty() && inner.len() == 1 && endless && empty)
}

// A create, a cast and the result of main.
fn others(body: &[Stmt]) -> Option<bool> {
    let create = matches!(
        &body.get(8)?.act,
        Act::Create {
            arg: Expr::Number(0),
            ..
        }
    );
    let Act::Assign { value, .. } = &body.get(9)?.act else {
        return None;
    };
    let Expr::Binary {
        op: Op::Add,
        left,
        right,
    } = value
    else {
        return None;
    };
    let cast = matches!(left.get(), Expr::Arg(_));
    let product = matches!(right.get(), Expr::Binary { op: Op::Mul, .. });
    let end = body.get(10)?;
    let zero = matches!(
        &end.act,
        Act::Return {
            value: Some(Expr::Number(0))
        }
    );
    Some(create && cast && product && zero && end.line == 10)
}

fn declarations_right(p: &Program) -> Option<bool> {
    let right = [ints(p)?, objects(p)?, threads(p)?, capacities(p)];
    Some(right.as_slice() == [true; 4].as_slice())
}

fn statements_right(p: &Program) -> Option<bool> {
    let body = p.functions.get(0)?.body.as_slice();
    let right = [
        declared(body)?,
        changed(body)?,
        chosen(body)?,
        others(body)?,
    ];
    Some(body.len() == 11 && right.as_slice() == [true; 4].as_slice())
}

#[test]
fn declarations(rt: HostRuntime) {
    let read = program(rt.alloc(), DECLARATIONS);
    assert!(rt; read.as_ref().and_then(declarations_right) == Some(true));
}

#[test]
fn heads(rt: HostRuntime) {
    let read = program(rt.alloc(), FUNCTIONS);
    assert!(rt; read.as_ref().and_then(functions) == Some(true));
}

#[test]
fn statements(rt: HostRuntime) {
    let read = program(rt.alloc(), STATEMENTS);
    assert!(rt; read.as_ref().and_then(statements_right) == Some(true));
}
