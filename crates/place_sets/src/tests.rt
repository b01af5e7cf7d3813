// Both members of the trait, each through its bound, beside what arithmetic says.
ghost use Rattle.std.specs.Prelude.{◌≡◌, ◌<◌, IfOk};

use crate::{BitRow, ListSet, PlaceSet};
use std::alloc::{AllocError, Global};

const SIZES: [u32; 9] = [0, 1, 63, 64, 65, 511, 512, 513, 4160];

// Two numbers whose multiples are compared.
const STEPS: [(u32, u32); 6] = [(1, 1), (2, 1), (1, 2), (64, 2), (63, 64), (700, 7)];

/// What a set answers.
#[derive(PartialEq, Eq, Debug, Clone, Copy)]
struct Answers {
    size: u32,
    has_multiples_alone: bool,
    count: u32,
    is_within_others: bool,
    equals_others: bool,
    has_last: bool,
    is_within_itself_with_last: bool,
    count_after_clear: u32,
}

/// The multiples of a step below the size, put in from the last to the first.
fn multiples<S: PlaceSet>(alloc: Global, size: u32, step: u32) -> Result<S, AllocError>
    requires { 0 < step }
    ensures { IfOk result (λ set. S.bound set ≡ size) }
{
    let mut set = S::empty(alloc, size)?;
    for above in 0..size {
        let place = size - 1 - above;
        if place % step == 0 {
            set.insert(place);
        }
    }
    Ok(set)
}

fn has_multiples_alone<S: PlaceSet>(set: &S, step: u32) -> bool
    requires { 0 < step }
{
    for place in 0..set.size() {
        if set.has(place) != (place % step == 0) {
            return false;
        }
    }
    true
}

/// What a set of the multiples of a step answers, beside one of the multiples of another step.
fn answers_of<S: PlaceSet>(
    alloc: Global,
    size: u32,
    step: u32,
    other: u32,
) -> Result<Answers, AllocError>
    requires step { 0 < step }
    requires other { 0 < other }
{
    let set: S = multiples(alloc, size, step)?;
    let others: S = multiples(alloc, size, other)?;
    let mut more: S = multiples(alloc, size, step)?;
    if size > 0 {
        more.insert(size - 1);
    }
    let has_last = more.subset(&set);
    let is_within_itself_with_last = set.subset(&more);
    more.clear();
    Ok(Answers {
        size: set.size(),
        has_multiples_alone: has_multiples_alone(&set, step),
        count: set.count(),
        is_within_others: set.subset(&others),
        equals_others: set.equal(&others),
        has_last,
        is_within_itself_with_last,
        count_after_clear: more.count(),
    })
}

/// What arithmetic says.
fn wanted(size: u32, step: u32, other: u32) -> Answers
    requires step { 0 < step }
    requires other { 0 < other }
{
    Answers {
        size,
        has_multiples_alone: true,
        count: size.div_ceil(step),
        is_within_others: size <= step || step % other == 0,
        equals_others: step == other || size <= step.min(other),
        has_last: size == 0 || (size - 1) % step == 0,
        is_within_itself_with_last: true,
        count_after_clear: 0,
    }
}

#[test]
fn both_members_are_right_at_every_size(rt: HostRuntime) -> Result<(), AllocError> {
    let alloc = rt.alloc();
    for size in SIZES {
        for (step, other) in STEPS {
            if step > 0 && other > 0 {
                let wanted = wanted(size, step, other);
                let list = answers_of::<ListSet>(alloc, size, step, other)?;
                assert_eq!(rt;
                    list,
                    wanted,
                    "a list of {size}, multiples of {step} and {other}"
                );
                let row = answers_of::<BitRow>(alloc, size, step, other)?;
                assert_eq!(rt;
                    row,
                    wanted,
                    "a row of {size}, multiples of {step} and {other}"
                );
            }
        }
    }
    Ok(())
}
