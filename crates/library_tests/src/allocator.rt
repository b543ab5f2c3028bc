//! Which allocations the allocator refuses, and what it counts.

use refusing_alloc::Refusing;
use std::alloc::{AllocError, Allocator, Global};
use std::test::*;

// What a hundred pushes did with one allocation failing.
#[derive(Clone, Copy)]
struct Pushes {
    refused: bool,
    // Whether the items that were there before are there still.
    kept: bool,
    growths: u64,
    refusals: u64,
    // The blocks that are out after the pushes.
    blocks: u64,
}

fn push_hundred<A: Allocator>(bytes: &mut Vec<u8, A>) -> Result<(), AllocError> {
    for byte in 0..100 {
        bytes.push(byte)?;
    }
    Ok(())
}

fn push_after<A: Allocator>(heap: &Refusing<A>, n: u64) -> Result<Pushes, AllocError> {
    let mut bytes = Vec::from_slice(heap, b"before")?;
    heap.refuse_nth(n);
    let done = push_hundred(&mut bytes);
    Ok(Pushes {
        refused: done.is_err(),
        kept: bytes.starts_with(b"before"),
        growths: heap.growths(),
        refusals: heap.refusals(),
        blocks: heap.blocks(),
    })
}

// Whether the pushes with allocation `n` failing went as they should, and no block is left. Those
// that are not refused told how many they ask for.
fn growths_of_pushes(alloc: Global, n: u64) -> Result<(bool, Option<u64>), AllocError> {
    let heap = Refusing::none(alloc);
    let pushes = push_after(&heap, n)?;
    let is_right = pushes.refused == (pushes.refusals == 1)
        && pushes.kept
        && pushes.blocks == 1
        && heap.blocks() == 0;
    if pushes.refused {
        Ok((is_right && pushes.growths == n, None))
    } else {
        Ok((is_right, Some(pushes.growths)))
    }
}

// Each allocation of the pushes failing in turn: the items that were there stay, and no block
// leaks.
#[test]
fn each_growth_refused(rt: HostRuntime) -> Result<(), Fail> {
    let mut met = None;
    for n in 1..100 {
        let (is_right, growths) = growths_of_pushes(rt.alloc(), n)?;
        assert!(rt; is_right, "at {n}");
        if growths.is_some() {
            met = growths;
            break;
        }
    }
    assert!(rt; met > Some(1), "{met:?}");
    Ok(())
}

#[derive(Clone, Copy)]
enum Step {
    Push(u8),
    RefusedPush(u8),
    // To a capacity of 1.
    Shrink,
    RefuseFromFirst,
    RefuseNone,
}

// What is done one after another with a vector that has a room of 50, if the second allocation
// fails, and how many allocations, refusals and blocks are counted then. A shrink passes and is no
// allocation.
const STEPS: &[(Step, (u64, u64, u64))] = &[
    (Step::Push(7), (1, 0, 1)),
    (Step::Shrink, (1, 0, 1)),
    (Step::RefusedPush(8), (2, 1, 1)),
    (Step::RefuseFromFirst, (0, 0, 1)),
    (Step::RefusedPush(8), (1, 1, 1)),
    (Step::RefusedPush(8), (2, 2, 1)),
    (Step::RefuseNone, (0, 0, 1)),
    (Step::Push(8), (1, 0, 1)),
];

// Whether a step went as it should.
fn takes<A: Allocator>(heap: &Refusing<A>, bytes: &mut Vec<u8, &Refusing<A>>, step: Step) -> bool {
    match step {
        Step::Push(byte) => bytes.push(byte).is_ok(),
        Step::RefusedPush(byte) => bytes.push(byte).is_err(),
        Step::Shrink => {
            bytes.shrink_to_fit();
            bytes.capacity() == 1
        }
        Step::RefuseFromFirst => {
            heap.refuse_from_nth(1);
            true
        }
        Step::RefuseNone => {
            heap.refuse_none();
            true
        }
    }
}

#[test]
fn counts(rt: HostRuntime) -> Result<(), Fail> {
    let heap = Refusing::nth(rt.alloc(), 2);
    let mut bytes = Vec::with_capacity(&heap, 50)?;
    for (n, (step, wanted)) in STEPS.iter().enumerate() {
        let right = takes(&heap, &mut bytes, *step);
        let counts = (heap.growths(), heap.refusals(), heap.blocks());
        assert!(rt; right && counts == *wanted, "at {n}");
    }
    assert!(rt; bytes.as_slice() == [7, 8].as_slice());
    Ok(())
}

#[test]
fn the_first_growth_of_all(rt: HostRuntime) {
    let heap = Refusing::from_nth(rt.alloc(), 1);
    assert!(rt; Box::new(&heap, 1u8).is_err());
    assert!(rt; (heap.growths(), heap.refusals(), heap.blocks()) == (1, 1, 0));
}
