use crate::word::WordEngine;
use engine::calls::{DecidingEngine, Engine};

#[test]
fn variable_1_is_the_top_bit(rt: HostRuntime) {
    let mut engine = WordEngine::new(6);
    assert_eq!(rt; engine.literal(3, 1), Ok(()));
    let mut bits = [0; 18];
    bits[0] = 0x80;
    assert_eq!(rt; engine.evaluate(3, &bits), Ok(true));
    bits[0] = 0x7f;
    assert_eq!(rt; engine.evaluate(3, &bits), Ok(false));
    assert_eq!(rt; engine.word(3), Ok(0xffff_ffff_0000_0000));
}

#[test]
fn refusals_and_ends(rt: HostRuntime) {
    let mut engine = WordEngine::new(9);
    assert_eq!(rt; engine.variables(), 6);
    assert_eq!(rt; engine.clear(16).map_err(|fault| fault.number()), Err(11));
    assert_eq!(rt;
        engine.literal(0, 7).map_err(|fault| fault.number()),
        Err(12)
    );
    assert_eq!(rt; WordEngine::new(0).variables(), 1);
}

#[test]
fn holding_a_variable(rt: HostRuntime) {
    let mut engine = WordEngine::new(2);
    assert_eq!(rt; engine.literal(0, 1), Ok(()));
    assert_eq!(rt; engine.literal(1, 2), Ok(()));
    assert_eq!(rt; engine.meet(2, 0, 1), Ok(()));
    assert_eq!(rt; engine.word(2), Ok(0b1000));
    assert_eq!(rt; engine.fix(3, 2, 1, true), Ok(()));
    assert_eq!(rt; engine.word(3), Ok(0b1010));
    assert_eq!(rt; engine.forall(4, 2, 2), Ok(()));
    assert_eq!(rt; engine.empty(4), Ok(true));
}
