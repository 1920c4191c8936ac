use crate::tests::asserting::same;
use failing_streams::{Narrow, Pieces};
use records::{Failed, Source, Streamed, put_all};

#[test]
fn reads_until_the_reader_fails(rt: HostRuntime) -> Result<(), Failed> {
    let (mut front, mut back) = ([0u8; 2], [0u8; 2]);
    let mut bytes = Streamed::new([7u8, 8, 9].as_slice());
    let first = bytes.take(&mut front)?;
    let second = bytes.take(&mut back)?;
    let end = bytes.take(&mut [0u8; 4])?;
    let all = ([2, 1, 0], [[7, 8], [9, 0]]);
    same(
        &rt,
        "three bytes",
        ([first, second, end], [front, back]),
        all,
    );
    let mut piece = [0u8; 4];
    let mut failing = Streamed::new(Pieces {
        bytes: &[1],
        piece: 1,
        fails: true,
    });
    let first = failing.take(&mut piece)?;
    let told = (first, failing.take(&mut piece));
    same(&rt, "a failing reader", told, (1, Err(Failed)));
    Ok(())
}

#[test]
fn writes_all_or_a_beginning(rt: HostRuntime) {
    let text = [1u8, 2, 3, 4, 5];
    for (case, room, fails, want) in [
        ("room", 9, false, Ok(())),
        ("just room, then a failure", 5, true, Ok(())),
        ("a failure behind two pieces", 4, true, Err(Failed)),
        ("stuck in a piece", 3, false, Err(Failed)),
        ("a failure at once", 0, true, Err(Failed)),
        ("stuck at once", 0, false, Err(Failed)),
    ] {
        let mut writer = Streamed::new(Narrow {
            taken: Vec::new(rt.alloc()),
            piece: 2,
            room,
            fails,
        });
        same(&rt, case, put_all(&mut writer, &text), want);
        let Narrow { taken, .. } = writer.into_inner();
        same(&rt, case, taken.as_slice(), &text[..room.min(5)]);
    }
}
