// Banks by example: the first and the last place, the first place outside, the seams of joined banks, and the greatest length.
use crate::*;

#[test]
fn owned_edges(rt: HostRuntime) {
    let mut bank = Owned::new();
    assert_eq!(rt; bank.len(), 512);
    assert_eq!(rt; bank.get(0), Ok(0));
    assert_eq!(rt; bank.get(511), Ok(0));
    assert_eq!(rt; bank.get(512), Err(BankFault::Outside));
    assert_eq!(rt; bank.put(511, 9), Ok(()));
    assert_eq!(rt; bank.put(512, 7), Err(BankFault::Outside));
    assert_eq!(rt; bank.get(511), Ok(9));
    assert_eq!(rt; bank.get(510), Ok(0));
}

#[test]
fn empty_bank(rt: HostRuntime) {
    let mut none: [u8; 0] = [];
    let mut bank = Lent::new(&mut none);
    assert_eq!(rt; bank.len(), 0);
    assert_eq!(rt; bank.get(0), Err(BankFault::Outside));
    assert_eq!(rt; bank.put(0, 1), Err(BankFault::Outside));
}

#[test]
fn longest_lent(rt: HostRuntime) {
    let mut bytes = [0; 65536];
    let mut bank = Lent::new(&mut bytes);
    assert_eq!(rt; bank.len(), 65536);
    assert_eq!(rt; bank.put(65535, 8), Ok(()));
    assert_eq!(rt; bank.put(65536, 8), Err(BankFault::Outside));
    assert_eq!(rt; bank.into_bytes().last().copied(), Some(8));
}

#[test]
fn too_long(rt: HostRuntime) {
    let mut bytes = [0; 65537];
    let bank = Lent::new(&mut bytes);
    assert_eq!(rt; bank.len(), 0);
    assert_eq!(rt; bank.get(0), Err(BankFault::Outside));
}

#[test]
fn longest_pair(rt: HostRuntime) {
    let mut bytes = [0; 65024];
    let mut bank = Joined::new(Lent::new(&mut bytes), Owned::new());
    assert_eq!(rt; bank.len(), 65536);
    assert_eq!(rt; bank.put(65535, 8), Ok(()));
    assert_eq!(rt; bank.put(65536, 8), Err(BankFault::Outside));
    let (_, owned) = bank.into_parts();
    assert_eq!(rt; owned.get(511), Ok(8));
}

#[test]
fn too_long_pair(rt: HostRuntime) {
    let mut bytes = [0; 65025];
    let bank = Joined::new(Lent::new(&mut bytes), Owned::new());
    assert_eq!(rt; bank.len(), 0);
    assert_eq!(rt; bank.get(0), Err(BankFault::Outside));
}

#[test]
fn nested_seams(rt: HostRuntime) {
    let mut bytes = [1, 2, 3, 4];
    let left = Joined::new(Owned::new(), Lent::new(&mut bytes));
    let mut bank = Joined::new(left, Joined::new(Owned::new(), Owned::new()));
    assert_eq!(rt; bank.len(), 1540);
    assert_eq!(rt; bank.put(511, 5), Ok(()));
    assert_eq!(rt; bank.get(511), Ok(5));
    assert_eq!(rt; bank.get(512), Ok(1));
    assert_eq!(rt; bank.put(515, 6), Ok(()));
    assert_eq!(rt; bank.put(516, 7), Ok(()));
    assert_eq!(rt; bank.get(515), Ok(6));
    assert_eq!(rt; bank.put(1539, 8), Ok(()));
    assert_eq!(rt; bank.put(1540, 9), Err(BankFault::Outside));
    let (_, right) = bank.into_parts();
    assert_eq!(rt; right.get(0), Ok(7));
    assert_eq!(rt; right.get(1023), Ok(8));
}
