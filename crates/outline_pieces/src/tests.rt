// Tests of builders.
use crate::builder::Builder;
use crate::error::FlowError;
use crate::flow_parts::FlowParts;
use crate::pieces::{Deed, Piece};
use edges::EdgeOp;
use held_counts::HeldKind;
use std::alloc::Global;

/// A point with one way on.
fn pass(line: u32, deed: Deed) -> Piece {
    Piece::Pass { line, deed }
}

/// The points and edges of two threads: main locks in front of a loop, and the other waits, and
/// takes a monitor when it is woken.
fn two_threads(alloc: Global) -> Result<FlowParts, FlowError> {
    let mut builder = Builder::new(alloc, 1, 2);
    for piece in [
        Piece::Begin { line: 1 },
        pass(2, Deed::Acquire(0)),
        Piece::Loop { line: 3 },
        pass(4, Deed::Plain),
        Piece::LoopEnd,
        pass(5, Deed::Release(0)),
        Piece::Leave { line: 6 },
        pass(7, Deed::Acquire(0)),
        Piece::Finish { line: 8 },
        Piece::Begin { line: 10 },
        pass(11, Deed::Acquire(0)),
    ] {
        builder.push(piece);
    }
    builder.wait(12, 0, &[1]);
    for piece in [
        pass(13, Deed::Release(1)),
        pass(14, Deed::Release(0)),
        Piece::Leave { line: 15 },
        Piece::Finish { line: 16 },
    ] {
        builder.push(piece);
    }
    builder.finish()
}

#[test]
fn two_threads_have_points(rt: HostRuntime) {
    let Ok(flow) = two_threads(rt.alloc()) else {
        assert!(rt; false, "an error");
        return;
    };
    let lines = [2, 3, 4, 5, 6, 8, 10, 11, 12, 12, 12, 12, 13, 14, 15, 16];
    let mutex = [0, 1, 1, 1, 0, 0, 0, 0, 1, 0, 0, 0, 1, 1, 0, 0];
    let monitor = [0, 0, 0, 0, 0, 0, 0, 0, 0, 0, 0, 1, 1, 0, 0, 0];
    assert!(rt; flow.threads == 2 && flow.points.len() == 16);
    for (k, point) in flow.points.as_slice().iter().enumerate() {
        assert!(rt; point.thread == if k < 6 { 0 } else { 1 });
        assert!(rt; Some(&point.line) == lines.get(k));
        assert!(rt; point.waiting == (k == 9));
        assert!(rt; point.held.get(0) == mutex.get(k));
        assert!(rt; point.held.get(1) == monitor.get(k));
    }
}

#[test]
fn two_threads_have_edges(rt: HostRuntime) {
    let Ok(flow) = two_threads(rt.alloc()) else {
        assert!(rt; false, "an error");
        return;
    };
    let edges = [
        (0, 1, EdgeOp::Acquire(0)),
        (1, 2, EdgeOp::Plain),
        (1, 3, EdgeOp::Plain),
        (2, 1, EdgeOp::Plain),
        (3, 4, EdgeOp::Release(0)),
        (4, 5, EdgeOp::Plain),
        (6, 7, EdgeOp::Plain),
        (7, 8, EdgeOp::Acquire(0)),
        (8, 9, EdgeOp::Release(0)),
        (9, 10, EdgeOp::Plain),
        (10, 11, EdgeOp::Acquire(1)),
        (11, 12, EdgeOp::Reacquire(0)),
        (12, 13, EdgeOp::Release(1)),
        (13, 14, EdgeOp::Release(0)),
        (14, 15, EdgeOp::Plain),
    ];
    assert!(rt; flow.edges.len() == 15);
    for (edge, (from, to, op)) in flow.edges.as_slice().iter().zip(&edges) {
        assert!(rt; edge.from == *from && edge.to == *to && edge.op == *op);
    }
}

#[test]
fn a_relock_comes_behind_too_many_points(rt: HostRuntime) {
    for (steps, error) in [
        (
            4092,
            FlowError::Held {
                kind: HeldKind::Relock,
                line: 3,
            },
        ),
        (4093, FlowError::TooManyPoints),
    ] {
        let mut builder = Builder::new(rt.alloc(), 1, 1);
        builder.push(Piece::Begin { line: 1 });
        builder.push(pass(2, Deed::Acquire(0)));
        builder.push(pass(3, Deed::Acquire(0)));
        for _ in 0..steps {
            builder.push(pass(4, Deed::Plain));
        }
        builder.push(Piece::Leave { line: 5 });
        builder.push(Piece::Finish { line: 6 });
        match builder.finish() {
            Ok(_) => assert!(rt; false, "no error"),
            Err(found) => assert!(rt; found == error),
        }
    }
}
