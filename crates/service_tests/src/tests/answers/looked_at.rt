//! Pages that end because they have looked at as many records as they may: 2,000.
use super::events::add;
use super::messages::post;
use super::scripts::{Answers, base, exchange, parts};
use crate::tests::messages::FIRST;
use std::alloc::{AllocError, Global};
use std::test::Fail;

/// The last of 2,100 transfers, which alone is marked. Their ids go on from 1, their timestamps
/// from 5.
const MARKED: u64 = 2100;

/// It as a page shows it.
const SHOWN: &str = concat!(
    r#"{"amount":"1","code":1,"credit_account_id":"2","debit_account_id":"1","flags":0,"#,
    r#""id":"2100","ledger":7,"pending_id":"0","timeout":0,"timestamp":"2104","#,
    r#""user_data_128":"0","user_data_32":0,"user_data_64":"4711"}"#
);

/// The rest of each transfer.
const ONE: &str = concat!(
    r#""debit_account_id":"1","credit_account_id":"2","amount":"1","#,
    r#""ledger":7,"code":1"#
);

/// What is asked, `next`, and whether the marked one is shown.
const PAGES: &str = r#"# The first 2,000 have 5 to 2004, and none is marked.
North POST /query/transfers {"limit":2,"user_data_64":"4711"} => 2005
North POST /query/transfers {"limit":2,"timestamp_min":"2005","user_data_64":"4711"} => 0 shown
North POST /query/transfers {"limit":1,"timestamp_min":"2005","user_data_64":"4711"} => 2105 shown
# From 105 on there are 2,000, of which it is the last; from 104 on one more, from 106 on one less.
North POST /query/transfers {"limit":2,"timestamp_min":"104","user_data_64":"4711"} => 2104
North POST /query/transfers {"limit":2,"timestamp_min":"105","user_data_64":"4711"} => 2105 shown
North POST /query/transfers {"limit":2,"timestamp_min":"106","user_data_64":"4711"} => 0 shown
North POST /query/transfers {"limit":2,"timestamp_min":"2105","user_data_64":"4711"} => 0
# The newest 2,000 have 2104 to 105, and those behind 2004 have 2004 to 5.
North POST /query/transfers {"flags":1,"limit":2,"user_data_64":"4711"} => 104 shown
North POST /query/transfers {"flags":1,"limit":2,"timestamp_max":"2004","user_data_64":"4711"} => 4
North POST /query/transfers {"flags":1,"limit":2,"timestamp_max":"2003","user_data_64":"4711"} => 0"#;

/// The transfers from one id up to before another one, each of 1 from account 1 to account 2.
fn transfers(alloc: Global, first: u64, end: u64) -> Result<String, AllocError> {
    let mut list = String::new(alloc);
    let rest = ONE;
    for id in first..end {
        let mark = if id == MARKED { 4711 } else { 0 };
        let event = format!(in alloc; "{{\"id\":\"{id}\",{rest},\"user_data_64\":\"{mark}\"}}")?;
        add(&mut list, &event)?;
    }
    format!(in alloc; "[{list}]")
}

/// Sends these transfers.
pub(crate) fn send<A: Answers>(
    alloc: Global,
    firms: &mut A,
    first: u64,
    end: u64,
) -> Result<(), AllocError> {
    let body = transfers(alloc, first, end)?;
    firms.answer(alloc, &post(alloc, "/transfers", FIRST, &body)?, 0);
    Ok(())
}

#[test]
fn ends_pages_where_enough_is_looked_at(rt: HostRuntime) -> Result<(), Fail> {
    let mut firms = base(&rt, rt.alloc())?;
    for (first, end) in [(1, 701), (701, 1401), (1401, 2101)] {
        send(rt.alloc(), &mut firms, first, end)?;
    }
    for line in PAGES.lines() {
        let (asked, want) = parts(line);
        let (next, shown) = match want.split_once(' ') {
            Some((next, _)) => (next, SHOWN),
            None => (want, ""),
        };
        let line = format!(in rt.alloc();
            "{asked} => {{\"clock\":\"2104\",\"next\":\"{next}\",\"transfers\":[{shown}]}}"
        )?;
        exchange(&rt, rt.alloc(), &mut firms, &line)?;
    }
    Ok(())
}
