// The two sets by example: columns, sums, and searches that hit and that miss.
use crate::*;

#[test]
fn table_set(rt: HostRuntime) {
    let set = TableSet;
    assert_eq!(rt; set.column(0), 12);
    assert_eq!(rt; set.column(6), 3);
    assert_eq!(rt; set.column(7), 0);
    assert_eq!(rt; column_sum(&set, 0b1111111), 6);
    assert_eq!(rt; column_sum(&set, 0xffff_ff80), 0);
    assert_eq!(rt; find(&set, 13), Some(5));
    assert_eq!(rt; find(&set, 7), None);
}

#[test]
fn rule_set(rt: HostRuntime) {
    let set = RuleSet;
    assert_eq!(rt; set.column(0), 3);
    assert_eq!(rt; set.column(1), 5);
    assert_eq!(rt; set.column(10), 15);
    assert_eq!(rt; set.column(16), 22);
    assert_eq!(rt; column_sum(&set, 0x1_0801), 4);
    assert_eq!(rt; find(&set, 22), Some(16));
    assert_eq!(rt; find(&set, 16), None);
}
