use crate::tests::asserting::{displays, same};
use amount::{Amount, ColumnFault};
use std::alloc::AllocError;

#[test]
fn a_column_has_the_greatest_byte_first(rt: HostRuntime) {
    let mut one = [0; 16];
    one[15] = 1;
    for (case, amount, column) in [
        ("one", Amount::new(1), one),
        ("the largest", Amount::MAX, [0xff; 16]),
    ] {
        same(&rt, case, amount.to_column(), column);
        same(&rt, case, Amount::from_column(&column), Ok(amount));
    }
}

#[test]
fn a_column_has_sixteen_bytes(rt: HostRuntime) -> Result<(), AllocError> {
    let less = Amount::from_column(&[0; 15]);
    same(&rt, "one less", less, Err(ColumnFault));
    let more = Amount::from_column(&[0; 17]);
    same(&rt, "one more", more, Err(ColumnFault));
    let words = "a column of an amount has 16 bytes";
    displays(&rt, rt.alloc(), &ColumnFault, words)
}
