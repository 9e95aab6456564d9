// What an office and the world do to a vault. The salts come from noise that was chosen for them.
use bank::{Bank, Joined, Lent, Owned};
use columns::{ColumnSet, RuleSet, TableSet};
use field::{Field, Gf7, Gf17};
use frame::{OpenFault, Unfit, Verdict};
use salt::{DrawFault, Noise, Salt};
use std::process::Abort;
use std::test::Fail;
use vault::{Counts, InjectFault, ReadFault, Vault, WriteFault};

#[test]
fn cells_that_fit(rt: HostRuntime) {
    let mut bytes = [0; 8190];
    let vault = Vault::<Gf17, RuleSet, Lent>::new(RuleSet, Lent::new(&mut bytes), 16, 210);
    let all = vault.fit();
    let (_, _) = vault.into_parts();
    let mut short = [0; 8189];
    let vault = Vault::<Gf17, RuleSet, Lent>::new(RuleSet, Lent::new(&mut short), 16, 210);
    let less = vault.fit();
    let (_, _) = vault.into_parts();
    assert_eq!(rt; all, Ok(()));
    assert_eq!(rt; less, Err(Unfit));
}

// The word of a cell, and two patterns that strike it in one bit each.
#[derive(Clone, Copy)]
struct Story<'a> {
    cell: usize,
    word: &'a [u32],
    one: &'a [u8],
    other: &'a [u8],
}

// A word is written into a cell, struck in one bit and read twice; then swept, struck in another bit and read; then struck in a
// second bit, and refused.
fn life<F: Field, C: ColumnSet, B: Bank>(
    rt: &impl Abort,
    vault: &mut Vault<F, C, B>,
    salt: Salt,
    story: Story,
    places: &mut [u32],
) -> Result<Counts, Fail> {
    let Story {
        cell,
        word,
        one,
        other,
    } = story;
    assert_eq!(rt; vault.write(cell, word, salt), Ok(()));
    assert_eq!(rt; vault.inject(cell, one), Ok(()));
    assert!(rt; vault.read(cell, places).is_ok() && places[..] == word[..]);
    assert!(rt; vault.read(cell, places).is_ok() && places[..] == word[..]);
    let counts = vault.sweep();
    assert_eq!(rt; vault.read(cell, places), Ok(Verdict::Clean));
    assert_eq!(rt; vault.inject(cell, other), Ok(()));
    assert!(rt; vault.read(cell, places).is_ok() && places[..] == word[..]);
    assert_eq!(rt; vault.inject(cell, one), Ok(()));
    assert_eq!(rt;
        vault.read(cell, places),
        Err(ReadFault::Frame(cell, OpenFault::Even))
    );
    assert_eq!(rt; ReadFault::Frame(cell, OpenFault::Even).number(), 6);
    Ok(counts)
}

#[test]
fn life_at_width_17(rt: HostRuntime) -> Result<(), Fail> {
    let salt = Noise::new(&[2, 0, 0]).draw::<Gf17>(16)?;
    let mut bytes = [0; 117];
    let mut vault = Vault::<Gf17, RuleSet, Lent>::new(RuleSet, Lent::new(&mut bytes), 16, 3);
    let word = [131071, 0, 2, 3, 4, 5, 6, 7, 8, 9, 10, 11, 12, 13, 14, 15];
    let mut one = [0; 39];
    one[0] = 1;
    let mut other = [0; 39];
    other[38] = 128;
    let mut places = [0; 16];
    let story = Story {
        cell: 1,
        word: &word,
        one: &one,
        other: &other,
    };
    let told = life(&rt, &mut vault, salt, story, &mut places);
    let (_, _) = vault.into_parts();
    assert_eq!(rt;
        told?,
        Counts {
            clean: 0,
            mended: 1,
            refused: 2,
        }
    );
    Ok(())
}

// Cell 102 has two bytes in the first bank and three in the second.
#[test]
fn life_across_a_seam_at_width_7(rt: HostRuntime) -> Result<(), Fail> {
    let salt = Noise::new(&[2]).draw::<Gf7>(2)?;
    let bank = Joined::new(Owned::new(), Owned::new());
    let mut vault = Vault::<Gf7, TableSet, Joined<Owned, Owned>>::new(TableSet, bank, 2, 204);
    let mut places = [0; 2];
    let story = Story {
        cell: 102,
        word: &[6, 3],
        one: &[1, 0, 0, 0, 0],
        other: &[0, 0, 0, 0, 1],
    };
    let told = life(&rt, &mut vault, salt, story, &mut places);
    let (_, bank) = vault.into_parts();
    let (first, second) = bank.into_parts();
    let (first, second) = (first.into_bytes(), second.into_bytes());
    assert_eq!(rt;
        told?,
        Counts {
            clean: 0,
            mended: 1,
            refused: 203,
        }
    );
    assert!(rt; first[508..] == [0, 0, 0x87, 0xc1]);
    assert!(rt; second[0..5] == [0xc1, 0x40, 0x01, 0, 0]);
    Ok(())
}

// A flip in the check block is refused, and the row stays as it was.
fn check_block_struck(
    rt: &impl Abort,
    vault: &mut Vault<Gf17, RuleSet, Owned>,
    salt: Salt,
) -> Result<(), Fail> {
    let mut pattern = [0; 39];
    pattern[36] = 64;
    assert_eq!(rt; vault.write(0, &[5; 16], salt), Ok(()));
    assert_eq!(rt; vault.inject(0, &pattern), Ok(()));
    let mut places = [1; 16];
    let fault = ReadFault::Frame(0, OpenFault::Unmended);
    assert_eq!(rt; vault.read(0, &mut places), Err(fault));
    assert_eq!(rt; fault.number(), 8);
    assert_eq!(rt; places, [1; 16]);
    Ok(())
}

#[test]
fn check_block_refused(rt: HostRuntime) -> Result<(), Fail> {
    let salt = Noise::new(&[2, 0, 0]).draw::<Gf17>(16)?;
    let mut vault = Vault::<Gf17, RuleSet, Owned>::new(RuleSet, Owned::new(), 16, 13);
    let told = check_block_struck(&rt, &mut vault, salt);
    let (_, _) = vault.into_parts();
    told
}

// The next salt for two blocks of seven bits writes a word into a cell of a vault.
fn write(
    vault: &mut Vault<Gf7, TableSet, Lent>,
    noise: &mut Noise,
    cell: usize,
    word: &[u32],
) -> Result<u8, DrawFault> {
    let salt = noise.draw::<Gf7>(2)?;
    let refused = vault.write(cell, word, salt).err();
    Ok(refused.map_or(0, WriteFault::number))
}

// What is refused, with its numbers.
fn refusals(rt: &impl Abort, vault: &mut Vault<Gf7, TableSet, Lent>) -> Result<(), Fail> {
    let mut noise = Noise::new(&[2, 2, 2, 2]);
    assert_eq!(rt; write(vault, &mut noise, 0, &[6, 3])?, 0);
    assert_eq!(rt; write(vault, &mut noise, 2, &[6, 3])?, 1);
    assert_eq!(rt; write(vault, &mut noise, 0, &[6, 3, 1])?, 2);
    assert_eq!(rt; write(vault, &mut noise, 0, &[128, 0])?, 3);
    assert_eq!(rt; vault.inject(2, &[0; 5]), Err(InjectFault::Cell));
    assert_eq!(rt; vault.inject(0, &[1; 4]), Err(InjectFault::Size));
    let mut places = [1; 3];
    assert_eq!(rt; vault.read(2, &mut places), Err(ReadFault::Cell));
    assert_eq!(rt; vault.read(0, &mut places), Err(ReadFault::Size));
    assert_eq!(rt; places, [1; 3]);
    Ok(())
}

#[test]
fn refusals_leave_the_bank(rt: HostRuntime) -> Result<(), Fail> {
    let mut bytes = [0; 12];
    let mut vault = Vault::<Gf7, TableSet, Lent>::new(TableSet, Lent::new(&mut bytes), 2, 2);
    let told = refusals(&rt, &mut vault);
    let (_, bank) = vault.into_parts();
    let left = bank.into_bytes();
    told?;
    assert!(rt; left[..] == [0x86, 0xc1, 0xc1, 0x40, 0x00, 0, 0, 0, 0, 0, 0, 0]);
    Ok(())
}

// One word in two cells, each with a salt of its own; a salt that is not used on an early way out is thrown away by name.
// The gate's misuses of a salt are one edit away from here.
fn write_twice(
    vault: &mut Vault<Gf7, TableSet, Lent>,
    noise: &mut Noise,
    word: &[u32],
) -> Result<bool, DrawFault> {
    let one = noise.draw::<Gf7>(2)?;
    let two = match noise.draw::<Gf7>(2) {
        Ok(two) => two,
        Err(fault) => {
            one.discard();
            return Err(fault);
        }
    };
    let first = vault.write(0, word, one);
    let second = vault.write(1, word, two);
    Ok(first.is_ok() && second.is_ok())
}

// Noise for one salt is too little; noise for two puts the word into both cells.
fn two_cells(rt: &impl Abort, vault: &mut Vault<Gf7, TableSet, Lent>) -> Result<(), Fail> {
    assert!(rt; write_twice(vault, &mut Noise::new(&[2]), &[1, 1]).is_err());
    assert!(rt; write_twice(vault, &mut Noise::new(&[2, 3]), &[6, 3])?);
    let mut places = [0; 2];
    assert_eq!(rt; vault.read(0, &mut places), Ok(Verdict::Clean));
    assert_eq!(rt; places, [6, 3]);
    let mut others = [0; 2];
    assert_eq!(rt; vault.read(1, &mut others), Ok(Verdict::Clean));
    assert_eq!(rt; others, [6, 3]);
    Ok(())
}

#[test]
fn one_word_in_two_cells(rt: HostRuntime) -> Result<(), Fail> {
    let mut bytes = [0; 10];
    let mut vault = Vault::<Gf7, TableSet, Lent>::new(TableSet, Lent::new(&mut bytes), 2, 2);
    let told = two_cells(&rt, &mut vault);
    let (_, bank) = vault.into_parts();
    let left = bank.into_bytes();
    told?;
    assert!(rt; left[..] == [0x86, 0xc1, 0xc1, 0x40, 0x00, 0x86, 0x81, 0x41, 0x6d, 0x00]);
    Ok(())
}
