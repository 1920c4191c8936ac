//! What each read answers. A filter is an account, flags, a limit and two times.

use super::commands::{Text, put_word, shown};
use super::playing::play_from_base;
use std::alloc::Global;

/// After 'posted in part', after 'posted too late' and a transfer, and after 'balancing'.
const READS: &str = "\
North transfers 100: 1>2 100 pending; 101: post=100 40; 102: post=100 60 => clock 7: 0@5 0@6 32@7
North account 2 9 1 2 => clock 7: ([2, 7, 10, 0, 2], [0, 0, 0, 40]) \
([1, 7, 10, 0, 1], [0, 40, 0, 0]) ([2, 7, 10, 0, 2], [0, 0, 0, 40])
North transfer 101 9 100 => clock 7: [101, 1, 2, 40, 100, 7, 1, 4, 0, 6, 7] \
[100, 1, 2, 100, 0, 7, 1, 2, 0, 5, 7]
South transfer 101 100 => clock 4:
North statement 1 3 10 => Ok(()) 5,100,debit,Pending,100,100,0,0,0 6,101,debit,Post,40,0,40,0,0
North statement 1 7 10 => Ok(()) 6,101,debit,Post,40,0,40,0,0 5,100,debit,Pending,100,100,0,0,0
North statement 1 7 1 => Err(Sink(Write)) 6,101,debit,Post,40,0,40,0,0
North statement 2 3 10 => Ok(()) 5,100,credit,Pending,100,0,0,100,0 6,101,credit,Post,40,0,0,0,40
North history 9 3 10 => NoAccount
North balances 9 3 10 => NoAccount
North statement 9 3 10 => Err(NoAccount)
North history 1 3 10 => clock 7: 100 101
North balances 1 3 10 => NoHistory
Nobody account 1 => UnknownKey
Nobody transfer 100 => UnknownKey
Nobody history 1 3 10 => UnknownKey
Nobody balances 1 3 10 => UnknownKey
Nobody statement 1 3 10 => Err(UnknownKey)

North transfers 100: 1>2 100 pending timeout=1 => clock 5: 0@5
North transfers at 1000000004 101: post=100 MAX => clock 1000000005: 34@1000000005
North transfers 102: 1>2 10 => clock 1000000006: 0@1000000006
North statement 1 3 10 => Ok(()) 5,100,debit,Pending,100,100,0,0,0 \
1000000006,102,debit,Single,10,0,10,0,0

North transfers 100: 1>3 50; 101: 3>2 20; 102: 3>2 MAX flags=16 => clock 7: 0@5 0@6 0@7
North history 3 7 2 => clock 7: 102 101
North history 3 7 1 => clock 7: 102
North history 3 3 1 => clock 7: 100
North history 3 3 3 => clock 7: 100 101 102
North history 3 7 3 => clock 7: 102 101 100
North history 3 3 4 => clock 7: 100 101 102
North history 3 1 1 => clock 7: 101
North history 3 1 2 => clock 7: 101 102
North history 3 2 1 => clock 7: 100
North history 3 5 1 => clock 7: 102
North history 3 5 2 => clock 7: 102 101
North history 3 6 1 => clock 7: 100
North history 1 3 10 => clock 7: 100
North history 3 1 10 => clock 7: 101 102
North history 3 2 10 => clock 7: 100
North history 3 5 10 => clock 7: 102 101
North history 3 6 10 => clock 7: 100
North history 3 0 10 => clock 7:
North history 3 4 10 => clock 7:
North history 3 3 10 6 6 => clock 7: 101
North history 3 3 10 6 0 => clock 7: 101 102
North history 3 7 10 0 6 => clock 7: 101 100
North history 3 3 10 7 6 => clock 7:
North history 3 3 10 0 9223372036854775808 => clock 7: 100 101 102
North history 3 7 10 0 MAX => clock 7: 102 101 100
North history 3 3 10 9223372036854775808 0 => clock 7:
North history 3 7 10 9223372036854775808 0 => clock 7:
North history 3 3 10 9223372036854775808 MAX => clock 7:
North history 3 7 10 9223372036854775808 6 => clock 7:
North balances 3 3 10 => clock 7: (5, [0, 0, 0, 50]) (6, [0, 20, 0, 50]) (7, [0, 50, 0, 50])
North balances 3 7 1 => clock 7: (7, [0, 50, 0, 50])
North balances 3 2 10 0 MAX => clock 7: (5, [0, 0, 0, 50])
North balances 1 3 10 => NoHistory
North history 9 3 10 => NoAccount
North balances 9 3 10 => NoAccount
North statement 9 3 10 => Err(NoAccount)
North rows clock => 1 rows: 7";

#[test]
fn answers_of_reads(rt: HostRuntime) {
    play_from_base(&rt, rt.alloc(), READS);
}

/// A history of 1,001 entries, in two batches since one has a thousand events at most; and pages of
/// one entry, from both ends.
const LONG: &str = "\
North ones 1000 2000 => true
North ones 2000 2001 => true
North history 3 3 1 => clock 1005: 1000
North history 3 7 1 => clock 1005: 2000
North balances 3 3 1 => clock 1005: (5, [0, 0, 0, 1])
North balances 3 7 1 => clock 1005: (1005, [0, 0, 0, 1001])";

/// Pages of one side, where a thousand entries of the other are passed over.
const ONE_SIDE: &str = "\
North history 3 1 1 => clock 1005:
North history 3 5 1 => clock 1005:
North transfers 3000: 3>1 1 => clock 1006: 0@1006
North history 3 1 1 => clock 1006: 3000
North history 3 5 1 => clock 1006: 3000
North balances 3 6 1 => clock 1006: (1005, [0, 0, 0, 1001])";

/// A page of a thousand ids: from the first one on, or the other way round.
fn page(alloc: Global, first: u64, newest_first: bool) -> Text {
    let mut text = format!(in alloc; "clock 1005:")?;
    for place in 0..1000u64 {
        let further = if newest_first { 999 - place } else { place };
        put_word(&mut text, shown(alloc, &first.saturating_add(further))?)?;
    }
    Ok(text)
}

/// The history, pages of a thousand entries from both ends, and those of one side.
fn paged(alloc: Global) -> Text {
    let oldest = page(alloc, 1000, false)?;
    let newest = page(alloc, 1001, true)?;
    format!(in alloc;
        "{LONG}\nNorth history 3 3 1000 => {oldest}\nNorth history 3 7 1000 => {newest}\n{ONE_SIDE}"
    )
}

#[test]
fn pages_of_a_long_history(rt: HostRuntime) {
    let script = paged(rt.alloc()).expect(&rt, "no memory");
    play_from_base(&rt, rt.alloc(), &script);
}
