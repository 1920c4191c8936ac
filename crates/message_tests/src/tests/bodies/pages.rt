//! What the bodies of queries mean, which are refused, and what their pages spell.
use super::reading::{NO_LIMITS, meant, refuses};
use super::writing::{PLAIN, SMALL, is_json, items};
use ledger_http::{Refusal, Route};
use records::{Hold, PageFilter, PageFlags, PendingState, QueryFilter, Tags};
use std::test::Fail;
use wire::{Entries, Outcome, Query, Read, Request};

/// Other bodies that ask for no page at all.
const BAD_PAGES: [&[u8]; 12] = [
    br#"{"limit":1,"flags":2}"#,
    br#"{"limit":1,"flags":3}"#,
    br#"{"limit":1,"flags":65537}"#,
    br#"{"limit":1,"flags":-1}"#,
    br#"{"limit":1,"flags":"1"}"#,
    br#"{"limit":1,"timestamp_min":1}"#,
    br#"{"limit":1,"timestamp_min":"01"}"#,
    br#"{"limit":1,"timestamp_min":"18446744073709551616"}"#,
    br#"{"limit":1,"timestamp_max":1}"#,
    br#"{"limit":1,"timestamp_max":"18446744073709551616"}"#,
    br#"{"limit":1,"account_id":"1"}"#,
    br#"{"limit":1,"timestamp":"1"}"#,
];

/// Bodies that ask for records by values that no record has.
const BAD_TAGS: [&[u8]; 10] = [
    br#"{"limit":1,"user_data_128":1}"#,
    br#"{"limit":1,"user_data_128":"340282366920938463463374607431768211456"}"#,
    br#"{"limit":1,"user_data_64":1}"#,
    br#"{"limit":1,"user_data_64":"18446744073709551616"}"#,
    br#"{"limit":1,"user_data_32":"1"}"#,
    br#"{"limit":1,"user_data_32":4294967296}"#,
    br#"{"limit":1,"ledger":"7"}"#,
    br#"{"limit":1,"ledger":4294967296}"#,
    br#"{"limit":1,"code":"1"}"#,
    br#"{"limit":1,"code":65536}"#,
];

/// What a query may have, and an open page may not.
const TAGS: [&[u8]; 5] = [
    br#"{"limit":1,"user_data_128":"0"}"#,
    br#"{"limit":1,"user_data_64":"0"}"#,
    br#"{"limit":1,"user_data_32":0}"#,
    br#"{"limit":1,"ledger":0}"#,
    br#"{"limit":1,"code":0}"#,
];

/// The most that a query may say.
const FULL: &[u8] = br#"{"user_data_128":"340282366920938463463374607431768211455",
    "user_data_64":"18446744073709551615","user_data_32":4294967295,"ledger":4294967294,
    "code":65535,"timestamp_min":"3","timestamp_max":"18446744073709551614","flags":1,
    "limit":1000}"#;

const FULL_TAGS: Tags = Tags {
    user_data_128: u128::MAX,
    user_data_64: u64::MAX,
    user_data_32: u32::MAX,
    ledger: u32::MAX - 1,
    code: u16::MAX,
};

const FULL_PAGE: PageFilter = PageFilter {
    timestamp_min: 3,
    timestamp_max: u64::MAX - 1,
    limit: 1000,
    flags: PageFlags(1),
};

const NO_TAGS: Tags = Tags {
    user_data_128: 0,
    user_data_64: 0,
    user_data_32: 0,
    ledger: 0,
    code: 0,
};

const LEAST_PAGE: PageFilter = PageFilter {
    timestamp_min: 0,
    timestamp_max: 0,
    limit: 1,
    flags: PageFlags(0),
};

// The query of a request.
fn query(request: Request) -> Option<Query> {
    match request {
        Request::Read(Read::Query(query)) => Some(query),
        _ => None,
    }
}

#[test]
fn understands_queries(rt: HostRuntime) -> Result<(), Fail> {
    for (body, tags, page) in [
        (FULL, FULL_TAGS, FULL_PAGE),
        (br#"{"limit":1}"#.as_slice(), NO_TAGS, LEAST_PAGE),
    ] {
        let want = QueryFilter { tags, page };
        let asked = query(meant(&rt, Route::QueryAccounts, body)?);
        assert_eq!(rt; asked, Some(Query::Accounts(want)));
        let asked = query(meant(&rt, Route::QueryTransfers, body)?);
        assert_eq!(rt; asked, Some(Query::Transfers(want)));
    }
    Ok(())
}

#[test]
fn understands_open_pages(rt: HostRuntime) -> Result<(), Fail> {
    let full = br#"{"flags":1,"limit":1000,"timestamp_max":"18446744073709551614",
        "timestamp_min":"3"}"#;
    for (body, page) in [
        (full.as_slice(), FULL_PAGE),
        (br#"{"limit":1}"#.as_slice(), LEAST_PAGE),
    ] {
        let asked = query(meant(&rt, Route::OpenPending, body)?);
        assert_eq!(rt; asked, Some(Query::OpenPending(page)));
    }
    Ok(())
}

#[test]
fn refuses_bad_queries(rt: HostRuntime) {
    for route in [
        Route::QueryAccounts,
        Route::QueryTransfers,
        Route::OpenPending,
    ] {
        for bodies in [NO_LIMITS.as_slice(), &BAD_PAGES, &BAD_TAGS] {
            refuses(&rt, route, bodies, Refusal::BadField);
        }
    }
    refuses(&rt, Route::OpenPending, &TAGS, Refusal::BadField);
}

#[test]
fn tells_pages_of_accounts(rt: HostRuntime) -> Result<(), Fail> {
    let entries = Entries::Accounts(items(rt.alloc(), &[])?);
    let outcome = Outcome::Page {
        clock: 4,
        next: 0,
        entries,
    };
    is_json(
        &rt,
        outcome,
        "38",
        r#"{"accounts":[],"clock":"4","next":"0"}"#,
    )?;
    let outcome = Outcome::Page {
        clock: 4,
        next: 2,
        entries: Entries::Accounts(items(rt.alloc(), &[PLAIN])?),
    };
    let body = concat!(
        r#"{"accounts":[{"code":10,"credits_pending":"0","credits_posted":"0","#,
        r#""debits_pending":"0","debits_posted":"0","flags":0,"id":"1","ledger":7,"#,
        r#""timestamp":"1","user_data_128":"0","user_data_32":0,"user_data_64":"0"}],"#,
        r#""clock":"4","next":"2"}"#
    );
    is_json(&rt, outcome, "235", body)
}

#[test]
fn tells_pages_of_transfers(rt: HostRuntime) -> Result<(), Fail> {
    let outcome = Outcome::Page {
        clock: 9,
        next: 0,
        entries: Entries::Transfers(items(rt.alloc(), &[])?),
    };
    is_json(
        &rt,
        outcome,
        "39",
        r#"{"clock":"9","next":"0","transfers":[]}"#,
    )?;
    let outcome = Outcome::Page {
        clock: 9,
        next: u64::MAX,
        entries: Entries::Transfers(items(rt.alloc(), &[SMALL])?),
    };
    let body = concat!(
        r#"{"clock":"9","next":"18446744073709551615","transfers":["#,
        r#"{"amount":"340282366920938463463374607431768211455","code":1,"#,
        r#""credit_account_id":"2","debit_account_id":"3","flags":4,"id":"5","#,
        r#""ledger":6,"pending_id":"7","timeout":8,"timestamp":"9","user_data_128":"10","#,
        r#""user_data_32":11,"user_data_64":"12"}]}"#
    );
    is_json(&rt, outcome, "300", body)
}

// A hold, accepted at this time and due at that one.
fn hold(id: u128, timestamp: u64, due: u64, state: PendingState) -> Hold {
    Hold {
        id,
        timestamp,
        due,
        state,
    }
}

#[test]
fn tells_holds(rt: HostRuntime) -> Result<(), Fail> {
    let holds = [
        hold(100, 5, 0, PendingState::Open),
        hold(101, 6, 1_000_000_005, PendingState::Posted),
        hold(102, 7, 0, PendingState::Voided),
        hold(u128::MAX, 8, 7, PendingState::Expired),
    ];
    let outcome = Outcome::Holds {
        clock: 9,
        holds: items(rt.alloc(), &holds)?,
    };
    let body = concat!(
        r#"{"clock":"9","pending":["#,
        r#"{"due":"0","id":"100","state":"open"},"#,
        r#"{"due":"1000000005","id":"101","state":"posted"},"#,
        r#"{"due":"0","id":"102","state":"voided"},"#,
        r#"{"due":"7","id":"340282366920938463463374607431768211455","state":"expired"}]}"#
    );
    is_json(&rt, outcome, "229", body)
}

#[test]
fn tells_open_holds(rt: HostRuntime) -> Result<(), Fail> {
    let holds = [
        hold(100, 5, 0, PendingState::Open),
        hold(u128::MAX, u64::MAX - 1, u64::MAX, PendingState::Open),
    ];
    let outcome = Outcome::Page {
        clock: 9,
        next: 6,
        entries: Entries::OpenHolds(items(rt.alloc(), &holds)?),
    };
    let body = concat!(
        r#"{"clock":"9","next":"6","pending":["#,
        r#"{"due":"0","id":"100","state":"open","timestamp":"5"},"#,
        r#"{"due":"18446744073709551615","id":"340282366920938463463374607431768211455","#,
        r#""state":"open","timestamp":"18446744073709551614"}]}"#
    );
    is_json(&rt, outcome, "218", body)
}
