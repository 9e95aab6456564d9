// Draws by example, and which salts are admitted.
use crate::*;
use field::{Field, Gf7, Gf17};
use std::test::Fail;

// Two salts for two uses; on the way out between them the first is thrown away by name.
fn two_salts(noise: &mut Noise) -> Result<(Salt, Salt), DrawFault> {
    let first = noise.draw::<Gf7>(2)?;
    match noise.draw::<Gf7>(2) {
        Ok(second) => Ok((first, second)),
        Err(fault) => {
            first.discard();
            Err(fault)
        }
    }
}

// The number of the next salt.
fn next_number<F: Field>(noise: &mut Noise, b: usize) -> Result<u32, DrawFault> {
    let salt = noise.draw::<F>(b)?;
    let number = salt.value();
    salt.discard();
    Ok(number)
}

#[test]
fn passes_over_groups(rt: HostRuntime) {
    let mut noise = Noise::new(&[0x00, 0x01, 0x82]);
    assert_eq!(rt; next_number::<Gf7>(&mut noise, 2), Ok(2));
    assert_eq!(rt; noise.place(), 3);
    let mut short = Noise::new(&[0x00, 0x01]);
    assert_eq!(rt; next_number::<Gf7>(&mut short, 2), Err(DrawFault::NoNoise));
    assert_eq!(rt; next_number::<Gf7>(&mut short, 17), Err(DrawFault::Blocks));
    assert_eq!(rt; short.place(), 0);
}

#[test]
fn wide_groups_have_three_bytes(rt: HostRuntime) {
    let mut noise = Noise::new(&[0x05, 0x00, 0x02, 0x07, 0x00]);
    assert_eq!(rt; next_number::<Gf17>(&mut noise, 1), Ok(5));
    assert_eq!(rt; next_number::<Gf17>(&mut noise, 1), Err(DrawFault::NoNoise));
    assert_eq!(rt; noise.place(), 3);
}

#[test]
fn draws_two_salts(rt: HostRuntime) -> Result<(), Fail> {
    let mut noise = Noise::new(&[0x02, 0x01, 0x03]);
    let (one, other) = two_salts(&mut noise)?;
    let numbers = (one.value(), other.value());
    one.discard();
    other.discard();
    assert_eq!(rt; numbers, (2, 3));
    Ok(())
}

#[test]
fn admits_one_for_one_block(rt: HostRuntime) {
    assert!(rt; admits::<Gf7>(1, 1));
    assert!(rt; !admits::<Gf7>(1, 2));
    assert!(rt; admits::<Gf17>(131071, 16));
    assert!(rt; !admits::<Gf7>(128, 1));
}
