// Frames sealed and opened: worked ones, and what is refused. The salts come from noise that was chosen for them.
use crate::{OpenFault, SealFault, Verdict, open, seal};
use columns::{RuleSet, TableSet};
use salt::{DrawFault, Noise};
use std::test::Fail;

// One word in two frames, each with a salt of its own; a salt that is not used on an early way out is thrown away by name.
// The gate's misuses of a salt are one edit away from here.
fn seal_twice(noise: &mut Noise, first: &mut [u8], second: &mut [u8]) -> Result<bool, DrawFault> {
    let one = noise.draw::<field::Gf7>(2)?;
    let two = match noise.draw::<field::Gf7>(2) {
        Ok(two) => two,
        Err(fault) => {
            one.discard();
            return Err(fault);
        }
    };
    let a = seal::<field::Gf7, TableSet>(&TableSet, &[6, 3], one, first);
    let b = seal::<field::Gf7, TableSet>(&TableSet, &[6, 3], two, second);
    Ok(a.is_ok() && b.is_ok())
}

#[test]
fn one_word_twice(rt: HostRuntime) -> Result<(), Fail> {
    let mut noise = Noise::new(&[2, 3]);
    let mut first = [0u8; 5];
    let mut second = [0u8; 5];
    assert!(rt; seal_twice(&mut noise, &mut first, &mut second)?);
    assert_eq!(rt; first, [0x86, 0xc1, 0xc1, 0x40, 0x00]);
    let mut row = [0u32; 2];
    let answer = open::<field::Gf7, TableSet>(&TableSet, &second, &mut row);
    assert_eq!(rt; answer, Ok((Verdict::Clean, 3)));
    assert_eq!(rt; row, [6, 3]);
    Ok(())
}

#[test]
fn blocks_of_seven_bits(rt: HostRuntime) -> Result<(), Fail> {
    let mut noise = Noise::new(&[2, 2]);
    let mut frame = [0u8; 5];
    let one = noise.draw::<field::Gf7>(2)?;
    let most = seal::<field::Gf7, TableSet>(&TableSet, &[127, 0], one, &mut frame);
    assert_eq!(rt; most, Ok(()));
    let kept = frame;
    let two = noise.draw::<field::Gf7>(2)?;
    let more = seal::<field::Gf7, TableSet>(&TableSet, &[128, 0], two, &mut frame);
    assert_eq!(rt; more, Err(SealFault::Block));
    assert_eq!(rt; SealFault::Block.number(), 3);
    assert_eq!(rt; frame, kept);
    Ok(())
}

#[test]
fn a_salt_for_fewer_blocks(rt: HostRuntime) -> Result<(), Fail> {
    let mut noise = Noise::new(&[1]);
    let mut frame = [0u8; 5];
    let one = noise.draw::<field::Gf7>(1)?;
    let answer = seal::<field::Gf7, TableSet>(&TableSet, &[6, 3], one, &mut frame);
    assert_eq!(rt; answer, Err(SealFault::Salt));
    assert_eq!(rt; frame, [0; 5]);
    Ok(())
}

#[test]
fn salt_1_for_one_block_alone(rt: HostRuntime) -> Result<(), Fail> {
    let mut noise = Noise::new(&[1, 1]);
    let one = noise.draw::<field::Gf7>(1)?;
    let mut short = [0u8; 4];
    let answer = seal::<field::Gf7, TableSet>(&TableSet, &[127], one, &mut short);
    assert_eq!(rt; answer, Ok(()));
    assert_eq!(rt; short, [0x7f, 0x3f, 0xfb, 0x03]);
    let two = noise.draw::<field::Gf7>(1)?;
    let mut frame = [0u8; 5];
    let answer = seal::<field::Gf7, TableSet>(&TableSet, &[6, 3], two, &mut frame);
    assert_eq!(rt; answer, Err(SealFault::Salt));
    assert_eq!(rt; frame, [0; 5]);
    Ok(())
}

#[test]
fn sixteen_zero_blocks(rt: HostRuntime) -> Result<(), Fail> {
    let mut noise = Noise::new(&[2, 0, 0]);
    let mut frame = [0u8; 39];
    let salt = noise.draw::<field::Gf17>(16)?;
    let sealed = seal::<field::Gf17, RuleSet>(&RuleSet, &[0; 16], salt, &mut frame);
    assert_eq!(rt; sealed, Ok(()));
    assert!(rt; frame[34..] == [0x02, 0x00, 0x0a, 0x09, 0x80]);
    let mut row = [1u32; 16];
    frame[0] = 3;
    let answer = open::<field::Gf17, RuleSet>(&RuleSet, &frame, &mut row);
    assert_eq!(rt; answer, Err(OpenFault::Even));
    assert_eq!(rt; row, [1; 16]);
    Ok(())
}
