// A run on an aisle of three shuttles with three moves: lists, pushes and tests with 0.1 -> 1.1 and 1.2 -> 2.0.
use runs::calls::{Answer, Ask, Call, Outcome};
use runs::replays::replay;
use std::alloc::Global;
use std::test::Fail;
use stores::loose::Loose;
use stores::wait::Wait;
use tables::plain::Plain;
use words::Refusal;
use words::aisles::Aisle;

// A call with a slice of so many codes, all 7.
fn call(heap: Global, ask: Ask, size: usize) -> Result<Call, Fail> {
    let slice = Vec::from_elem(heap, 7u16, size)?;
    Ok(Call {
        ask,
        slice,
        answer: None,
    })
}

fn add(calls: &mut Vec<Call>, heap: Global, ask: Ask, size: usize) -> Result<(), Fail> {
    calls.push(call(heap, ask, size)?)?;
    Ok(())
}

// Runs the calls on a board over a plain table and a loose list.
fn run(calls: &mut [Call]) {
    let mut cells = [0u16; 27];
    let mut records = [Wait {
        first: 9,
        second: 9,
    }; 4];
    let table = Plain::make(Aisle::new(3, 3), &mut cells);
    replay(table, Loose::make(&mut records), calls);
}

// Whether the call left this, and its slice holds these codes.
fn is(calls: &[Call], i: usize, outcome: Outcome, codes: &[u16]) -> bool {
    match calls.get(i) {
        Some(call) => call.answer == Some(outcome) && call.slice.as_slice() == codes,
        None => false,
    }
}

#[test]
fn lists_and_pushes(rt: HostRuntime) -> Result<(), Fail> {
    let heap = rt.alloc();
    let mut calls: Vec<Call> = Vec::new(heap);
    add(&mut calls, heap, Ask::Place(1, 4097), 0)?;
    add(&mut calls, heap, Ask::Place(4098, 8192), 1)?;
    add(&mut calls, heap, Ask::List, 10)?;
    add(&mut calls, heap, Ask::Push(8192), 9)?;
    add(&mut calls, heap, Ask::List, 8)?;
    add(&mut calls, heap, Ask::Push(3), 0)?;
    add(&mut calls, heap, Ask::Test, 9)?;
    run(calls.as_mut_slice());
    assert!(rt;
        is(calls.as_slice(), 1, Ok(Answer::Done), &[7]),
        "a placement leaves its slice"
    );
    assert!(rt;
        is(
            calls.as_slice(),
            2,
            Ok(Answer::Listed(9)),
            &[0, 1, 2, 4096, 4097, 4098, 8192, 8193, 8194, 7],
        )
    );
    assert!(rt;
        is(
            calls.as_slice(),
            3,
            Ok(Answer::Listed(9)),
            &[0, 1, 4096, 4097, 4098, 8192, 2, 8193, 8194],
        )
    );
    assert!(rt;
        is(
            calls.as_slice(),
            4,
            Err(Refusal::TooShort),
            &[7, 7, 7, 7, 7, 7, 7, 7]
        ),
        "a short slice stays"
    );
    assert!(rt;
        is(calls.as_slice(), 5, Err(Refusal::NoSuchPlace), &[]),
        "the move before the slice"
    );
    assert!(rt;
        is(
            calls.as_slice(),
            6,
            Ok(Answer::Tested(false)),
            &[7, 7, 7, 7, 7, 7, 7, 7, 7]
        )
    );
    Ok(())
}

// A call that tests these codes.
fn test_call(heap: Global, codes: &[u16]) -> Result<Call, Fail> {
    let mut slice = Vec::new(heap);
    slice.extend_from_slice(codes)?;
    Ok(Call {
        ask: Ask::Test,
        slice,
        answer: None,
    })
}

#[test]
fn tests(rt: HostRuntime) -> Result<(), Fail> {
    let heap = rt.alloc();
    let mut calls: Vec<Call> = Vec::new(heap);
    add(&mut calls, heap, Ask::Place(1, 4097), 0)?;
    calls.push(test_call(heap, &[4096, 0, 1, 8192, 8193, 2, 4097, 4098, 8194])?)?;
    calls.push(test_call(heap, &[4096, 0, 4097, 8192, 8193, 2, 1, 4098, 8194])?)?;
    calls.push(test_call(heap, &[4096, 0, 1, 8192, 8193, 2, 4097, 4098])?)?;
    calls.push(test_call(heap, &[4096, 0, 1, 8192, 8193, 2, 4097, 4098, 4098])?)?;
    run(calls.as_mut_slice());
    assert!(rt; calls.len() == 5);
    assert_eq!(rt; calls[1].answer, Some(Ok(Answer::Tested(true))));
    assert_eq!(rt;
        calls[2].answer,
        Some(Ok(Answer::Tested(false))),
        "the wait is not kept"
    );
    assert_eq!(rt;
        calls[3].answer,
        Some(Ok(Answer::Tested(false))),
        "another length"
    );
    assert_eq!(rt;
        calls[4].answer,
        Some(Ok(Answer::Tested(false))),
        "a move twice"
    );
    Ok(())
}
