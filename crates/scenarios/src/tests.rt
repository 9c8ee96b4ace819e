use engine::assignment::{Assignment, BYTES};
use filter::answer::{Added, Answer, Reply};
use flat::flat_kind::FlatKind;
use kind::rule::Action;
use run::call::Call;
use run::run::{run, run_both, run_pair};
use std::alloc::{AllocError, Global};
use std::process::Abort;
use std::test::Fail;
use word::word::WordEngine;

// The number of variables that a flat frame needs.
const BITS: u8 = 6;

// An answer, its refusal by number and place.
type Told = Result<Reply, (u8, usize)>;

const COMMITTED: Told = Ok(Reply::Committed);

const WITHDRAWN: Told = Ok(Reply::Withdrawn);

const ALIKE: Told = Ok(Reply::Alike);

const BLOCKS: Told = Ok(Reply::Verdict(Action::Block));

const PASSES: Told = Ok(Reply::Verdict(Action::Pass));

// The place of a compare; no answer shows what it holds before.
const PLACE: Assignment = [0xff; BYTES];

// A rule of this number that decides some frame.
fn acts(number: usize) -> Told {
    Ok(Reply::Added(Added {
        number,
        idle: false,
    }))
}

// A rule of this number that decides none.
fn idle(number: usize) -> Told {
    Ok(Reply::Added(Added { number, idle: true }))
}

// A place of this first byte, and else zeros.
fn differs(frame: u8) -> Told {
    let mut place = [0; BYTES];
    place[0] = frame;
    Ok(Reply::Differs(place))
}

// What the answer tells.
fn tell(answer: &Answer) -> Told {
    answer.map_err(|fault| (fault.number(), fault.place()))
}

// The answers tell what is expected, one by one.
fn check_answers(rt: &impl Abort, answers: &[Answer], expected: &[Told]) {
    assert_eq!(rt; answers.len(), expected.len());
    for (answer, want) in answers.iter().zip(expected) {
        assert_eq!(rt; tell(answer), *want);
    }
}

// A new filter on an engine of n variables answers the calls as expected.
fn check_run(
    rt: &impl Abort,
    heap: Global,
    n: u8,
    calls: &[Call],
    expected: &[Told],
) -> Result<(), Fail> {
    let answers = run(heap, FlatKind, WordEngine::new(n), calls)?;
    check_answers(rt, &answers, expected);
    Ok(())
}

#[test]
fn the_first_rule_that_matches_decides(rt: HostRuntime) -> Result<(), Fail> {
    check_run(
        &rt,
        rt.alloc(),
        BITS,
        &[
            Call::Add(b"block 3 *"),
            Call::Add(b"pass 3 5"),
            Call::Commit,
            Call::Judge(&[0x1d]),
        ],
        &[acts(1), idle(2), COMMITTED, BLOCKS],
    )?;
    check_run(
        &rt,
        rt.alloc(),
        BITS,
        &[
            Call::Add(b"pass 3 5"),
            Call::Add(b"block 3 *"),
            Call::Commit,
            Call::Judge(&[0x1d]),
        ],
        &[acts(1), acts(2), COMMITTED, PASSES],
    )
}

#[test]
fn a_rule_that_decides_no_frame_is_idle(rt: HostRuntime) -> Result<(), Fail> {
    check_run(
        &rt,
        rt.alloc(),
        BITS,
        &[
            Call::Add(b"block 3 *"),
            Call::Add(b"block 3 5"),
            Call::Commit,
            Call::Judge(&[0x1d]),
            Call::Judge(&[0x08]),
            Call::Add(b"pass * *"),
            Call::Add(b"block * *"),
            Call::Commit,
            Call::Judge(&[0x1d]),
            Call::Judge(&[0x08]),
        ],
        &[
            acts(1),
            idle(2),
            COMMITTED,
            BLOCKS,
            PASSES,
            acts(3),
            idle(4),
            COMMITTED,
            BLOCKS,
            PASSES,
        ],
    )
}

#[test]
fn a_rule_acts_once_the_one_before_it_is_withdrawn(rt: HostRuntime) -> Result<(), Fail> {
    check_run(
        &rt,
        rt.alloc(),
        BITS,
        &[
            Call::Add(b"block 3 *"),
            Call::Add(b"block 3 5"),
            Call::Commit,
            Call::Withdraw(1),
            // the live book still has both
            Call::Judge(&[0x18]),
            Call::Commit,
            Call::Judge(&[0x1d]),
            Call::Judge(&[0x18]),
            Call::Add(b"block 3 *"),
        ],
        &[
            acts(1),
            idle(2),
            COMMITTED,
            WITHDRAWN,
            BLOCKS,
            COMMITTED,
            BLOCKS,
            PASSES,
            acts(2),
        ],
    )
}

#[test]
fn compare_gives_the_least_frame(rt: HostRuntime) -> Result<(), Fail> {
    check_run(
        &rt,
        rt.alloc(),
        BITS,
        &[
            Call::Compare(PLACE),
            Call::Add(b"block 3 *"),
            Call::Commit,
            Call::Compare(PLACE),
            Call::Add(b"block 1 *"),
            Call::Compare(PLACE),
            Call::Commit,
            Call::Compare(PLACE),
            Call::Withdraw(2),
            Call::Compare(PLACE),
        ],
        &[
            ALIKE,
            acts(1),
            COMMITTED,
            ALIKE,
            acts(2),
            differs(0x08),
            COMMITTED,
            ALIKE,
            WITHDRAWN,
            differs(0x08),
        ],
    )
}

// 65 adds; then a rule is withdrawn and two more are added.
fn filling(heap: Global) -> Result<Vec<Call<'static>>, AllocError> {
    let mut calls = vec![in heap; Call::Add(b"block 3 *"); 65]?;
    calls.push(Call::Withdraw(64))?;
    calls.push(Call::Add(b"pass 1 *"))?;
    calls.push(Call::Add(b"block 3 *"))?;
    Ok(calls)
}

// What they tell: a draft holds 64 rules, and a withdraw makes room for one.
fn filled(heap: Global) -> Result<Vec<Told>, AllocError> {
    let mut expected = Vec::new(heap);
    expected.push(acts(1))?;
    for number in 2..65 {
        expected.push(idle(number))?;
    }
    expected.push(Err((15, 0)))?;
    expected.push(WITHDRAWN)?;
    expected.push(acts(64))?;
    expected.push(Err((15, 0)))?;
    Ok(expected)
}

#[test]
fn a_draft_holds_64_rules(rt: HostRuntime) -> Result<(), Fail> {
    let calls = filling(rt.alloc())?;
    let expected = filled(rt.alloc())?;
    check_run(&rt, rt.alloc(), BITS, &calls, &expected)
}

#[test]
fn only_a_rule_of_the_draft_is_withdrawn(rt: HostRuntime) -> Result<(), Fail> {
    check_run(
        &rt,
        rt.alloc(),
        BITS,
        &[
            Call::Withdraw(0),
            Call::Withdraw(1),
            Call::Add(b"block 3 *"),
            Call::Commit,
            Call::Compare(PLACE),
            Call::Withdraw(0),
            Call::Withdraw(2),
            Call::Withdraw(usize::MAX),
            Call::Compare(PLACE),
            Call::Add(b"block 1 *"),
        ],
        &[
            Err((16, 0)),
            Err((16, 0)),
            acts(1),
            COMMITTED,
            ALIKE,
            Err((16, 0)),
            Err((16, 0)),
            Err((16, 0)),
            ALIKE,
            acts(2),
        ],
    )
}

#[test]
fn an_engine_of_five_variables_is_refused(rt: HostRuntime) -> Result<(), Fail> {
    check_run(
        &rt,
        rt.alloc(),
        5,
        &[
            Call::Add(b"block 3 *"),
            Call::Add(b"drop 1 2"),
            Call::Withdraw(1),
            Call::Withdraw(0),
            Call::Commit,
            Call::Judge(&[0x1d]),
            Call::Judge(&[64]),
            Call::Compare(PLACE),
        ],
        &[Err((14, 0)); 8],
    )
}

#[test]
fn a_refused_call_changes_nothing(rt: HostRuntime) -> Result<(), Fail> {
    check_run(
        &rt,
        rt.alloc(),
        BITS,
        &[
            Call::Add(b""),
            Call::Add(b"block  1"),
            Call::Add(b"drop 1 2"),
            Call::Add(b"pass 9 1"),
            Call::Judge(&[64]),
            Call::Judge(&[]),
            Call::Judge(&[1, 2]),
            Call::Compare(PLACE),
            Call::Add(b"block 3 *"),
        ],
        &[
            Err((1, 0)),
            Err((2, 6)),
            Err((3, 0)),
            Err((9, 5)),
            Err((10, 0)),
            Err((10, 0)),
            Err((10, 0)),
            ALIKE,
            acts(1),
        ],
    )
}

// The calls that two engines are asked.
fn both_asked(place: Assignment) -> [Call<'static>; 8] {
    [
        Call::Add(b"block 3 *"),
        Call::Add(b"pass 3 5"),
        Call::Add(b"drop 1 2"),
        Call::Compare(place),
        Call::Commit,
        Call::Judge(&[0x1d]),
        Call::Withdraw(1),
        Call::Compare(place),
    ]
}

// The answers of both engines to them.
fn check_both(rt: &impl Abort, one: &[Answer], two: &[Answer]) {
    let expected = [
        acts(1),
        idle(2),
        Err((3, 0)),
        differs(0x18),
        COMMITTED,
        BLOCKS,
        WITHDRAWN,
        differs(0x18),
    ];
    check_answers(rt, one, &expected);
    check_answers(rt, two, &expected);
    for (a, b) in one.iter().zip(two.iter()) {
        assert_eq!(rt; tell(a), tell(b));
    }
}

#[test]
fn two_engines_answer_alike(rt: HostRuntime) -> Result<(), Fail> {
    let (one, two) = run_both(
        rt.alloc(),
        FlatKind,
        WordEngine::new(BITS),
        WordEngine::new(BITS),
        &both_asked(PLACE),
    )?;
    check_both(&rt, &one, &two);
    Ok(())
}

#[test]
fn what_a_place_holds_bears_on_no_answer(rt: HostRuntime) -> Result<(), Fail> {
    let (one, two) = run_pair(
        rt.alloc(),
        FlatKind,
        WordEngine::new(BITS),
        WordEngine::new(BITS),
        &both_asked(PLACE),
        &both_asked([0; BYTES]),
    )?;
    check_both(&rt, &one, &two);
    Ok(())
}
