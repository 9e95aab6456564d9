// Worked frames through the functions for C, and refusals.
use crate::*;

#[test]
fn width_7(rt: HostRuntime) {
    let mut frame = [0u8; 5];
    let sealed = lekhundra_seal_7(&[6, 3], &[0, 1, 2, 9], &mut frame);
    assert_eq!(rt; (sealed.refusal, sealed.used), (0, 3));
    assert_eq!(rt; frame, [0x86, 0xc1, 0xc1, 0x40, 0x00]);
    let mut word = [0u32; 2];
    frame[1] ^= 4;
    let opened = lekhundra_open_7(&frame, &mut word);
    assert_eq!(rt; (opened.refusal, opened.salt), (0, 2));
    assert_eq!(rt; (opened.part, opened.block, opened.bit), (1, 2, 3));
    assert_eq!(rt; word, [6, 3]);
}

#[test]
fn width_17(rt: HostRuntime) {
    let mut frame = [0u8; 39];
    let sealed = lekhundra_seal_17(&[0; 16], &[2, 0, 0], &mut frame);
    assert_eq!(rt; (sealed.refusal, sealed.used), (0, 3));
    assert!(rt; frame[34..] == [0x02, 0x00, 0x0a, 0x09, 0x80]);
    let mut word = [1u32; 16];
    frame[0] = 3;
    let opened = lekhundra_open_17(&frame, &mut word);
    assert_eq!(rt; (opened.refusal, opened.part, opened.salt), (6, 0, 0));
    assert_eq!(rt; word, [1; 16]);
}

#[test]
fn refusals(rt: HostRuntime) {
    let mut frame = [7u8; 5];
    let none = lekhundra_seal_7(&[6, 3], &[0, 1], &mut frame);
    assert_eq!(rt; (none.refusal, none.used), (10, 0));
    let wide = lekhundra_seal_7(&[6, 128], &[2], &mut frame);
    assert_eq!(rt; (wide.refusal, wide.used), (3, 1));
    assert_eq!(rt; frame, [7; 5]);
}
