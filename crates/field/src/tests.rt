// Known products at both widths, and the ends of the range of numbers.
use crate::{Binary, ByTables, Field, Gf7, Gf17, evaluate};

// The number of the product of the elements with the numbers x and y.
fn product_of<F: Field>(x: u32, y: u32) -> Option<u32> {
    let a = F::element(x)?;
    let b = F::element(y)?;
    Some(F::number_of(F::multiply(a, b)))
}

// The number of the value at x of a polynomial of degree 2, at width 17.
fn value_of(a: u32, b: u32, c: u32, x: u32) -> Option<u32> {
    let coefficients = [
        <Gf17 as Field>::element(a)?,
        <Gf17 as Field>::element(b)?,
        <Gf17 as Field>::element(c)?,
    ];
    Some(<Gf17 as Field>::number_of(evaluate::<Gf17>(&coefficients, <Gf17 as Field>::element(x)?)))
}

#[test]
fn width_7(rt: HostRuntime) {
    assert_eq!(rt; <Gf7 as Field>::degree(), 7);
    assert_eq!(rt; product_of::<Gf7>(64, 2), Some(9));
    assert_eq!(rt; product_of::<Gf7>(127, 127), Some(61));
    assert_eq!(rt; product_of::<Gf7>(85, 42), Some(50));
    assert_eq!(rt; product_of::<Gf7>(0, 99), Some(0));
    assert_eq!(rt; product_of::<Gf7>(128, 1), None);
}

#[test]
fn width_17(rt: HostRuntime) {
    assert_eq!(rt; <Gf17 as Field>::degree(), 17);
    assert_eq!(rt; product_of::<Gf17>(65536, 2), Some(9));
    assert_eq!(rt; product_of::<Gf17>(131071, 131071), Some(43709));
    assert_eq!(rt; product_of::<Gf17>(74565, 99999), Some(94952));
    assert_eq!(rt; product_of::<Gf17>(1, 77777), Some(77777));
    assert_eq!(rt; product_of::<Gf17>(131072, 1), None);
}

// (X + 3) (X + 70000) has just these two roots.
#[test]
fn roots(rt: HostRuntime) {
    assert_eq!(rt; value_of(78745, 70003, 1, 3), Some(0));
    assert_eq!(rt; value_of(78745, 70003, 1, 70000), Some(0));
    assert_eq!(rt; value_of(78745, 70003, 1, 4), Some(95831));
}

// The name of a field is a value too, which is let go by that name.
#[test]
fn names(rt: HostRuntime) {
    let (Gf7, Gf17) = (Gf7, Gf17);
    assert_eq!(rt; product_of::<Binary<7, ByTables>>(64, 2), Some(9));
}
