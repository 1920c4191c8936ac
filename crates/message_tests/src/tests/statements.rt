//! Statements as CSV, row by row and over a period, in other forms, and where the writer fails.

use crate::tests::asserting::same;
use amount::Amount;
use failing_streams::Narrow;
use records::{Balances, Kind, RowSink, Side, SinkFault, StatementRow, Streamed, Sums, Transfer};
use statement::{
    Extract, Form, Layout, Period, StatementFault, StatementWriter, extract_text, write_statement,
};
use std::alloc::Global;

const HEADER: &str = "timestamp,transfer_id,side,kind,amount,debits_pending,debits_posted,\
    credits_pending,credits_posted\n";

fn sums(pending: u128, posted: u128) -> Sums {
    Sums {
        pending: Amount::new(pending),
        posted: Amount::new(posted),
    }
}

// A row of a debit, with these sums of debits and none of credits.
fn debit(
    timestamp: u64,
    transfer_id: u128,
    kind: Kind,
    amount: u128,
    debits: Sums,
) -> StatementRow {
    StatementRow {
        timestamp,
        transfer_id,
        side: Side::Debit,
        kind,
        amount: Amount::new(amount),
        balances: Balances {
            debits,
            credits: Sums::ZERO,
        },
    }
}

fn pending_and_post() -> [StatementRow; 2] {
    [
        debit(5, 100, Kind::Pending, 100, sums(100, 0)),
        debit(6, 101, Kind::Post, 40, sums(0, 40)),
    ]
}

const PENDING_AND_POST: &str = "timestamp,transfer_id,side,kind,amount,debits_pending,\
    debits_posted,credits_pending,credits_posted\n\
    5,100,debit,pending,100,100,0,0,0\n\
    6,101,debit,post,40,0,40,0,0\n";

fn statement_of(alloc: Global, rows: &[StatementRow]) -> Result<Vec<u8>, StatementFault> {
    let mut out = Streamed::new(Vec::new(alloc));
    write_statement(alloc, &mut out, rows)?;
    Ok(out.into_inner())
}

const RELEASED: &str = "timestamp,transfer_id,side,kind,amount,debits_pending,\
    debits_posted,credits_pending,credits_posted\n\
    5,100,debit,pending,100,100,0,0,0\n\
    1000000006,102,debit,single,10,0,10,0,0\n";

#[test]
fn writes_the_worked_statements(rt: HostRuntime) {
    let alloc = rt.alloc();
    let posted = statement_of(alloc, &pending_and_post()).expect(&rt, "a statement");
    assert_eq!(rt; posted.as_slice(), PENDING_AND_POST.as_bytes());
    let released = [
        debit(5, 100, Kind::Pending, 100, sums(100, 0)),
        debit(1000000006, 102, Kind::Single, 10, sums(0, 10)),
    ];
    let released = statement_of(alloc, &released).expect(&rt, "a statement");
    assert_eq!(rt; released.as_slice(), RELEASED.as_bytes());
    let none = statement_of(alloc, &[]).expect(&rt, "a statement");
    assert_eq!(rt; none.as_slice(), HEADER.as_bytes());
}

const WIDEST: &str = "timestamp,transfer_id,side,kind,amount,debits_pending,debits_posted,\
    credits_pending,credits_posted\n\
    18446744073709551615,340282366920938463463374607431768211455,credit,void,\
    340282366920938463463374607431768211455,340282366920938463463374607431768211455,\
    340282366920938463463374607431768211455,340282366920938463463374607431768211455,\
    340282366920938463463374607431768211455\n";

#[test]
fn writes_the_widest_row(rt: HostRuntime) {
    let row = StatementRow {
        timestamp: u64::MAX,
        transfer_id: u128::MAX,
        side: Side::Credit,
        kind: Kind::Void,
        amount: Amount::MAX,
        balances: Balances {
            debits: sums(u128::MAX, u128::MAX),
            credits: sums(u128::MAX, u128::MAX),
        },
    };
    let text = statement_of(rt.alloc(), &[row]).expect(&rt, "a statement");
    assert_eq!(rt; text.as_slice(), WIDEST.as_bytes());
}

// Hands rows to a sink until it refuses one.
fn hand<S: RowSink>(sink: &mut S, rows: &[StatementRow]) -> Result<(), SinkFault> {
    for row in rows {
        sink.row(row)?;
    }
    Ok(())
}

// The statement of a writer that takes each row alone.
fn row_by_row(alloc: Global, rows: &[StatementRow]) -> Option<Vec<u8>> {
    let mut writer = StatementWriter::new(alloc, Streamed::new(Vec::new(alloc)));
    match hand(&mut writer, rows) {
        Ok(()) => {
            let (out, ended) = writer.finish();
            ended.ok()?;
            Some(out.into_inner())
        }
        Err(_) => None,
    }
}

#[test]
fn writes_row_by_row(rt: HostRuntime) {
    let text = row_by_row(rt.alloc(), &pending_and_post()).expect(&rt, "a statement");
    assert_eq!(rt; text.as_slice(), PENDING_AND_POST.as_bytes());
    let none = row_by_row(rt.alloc(), &[]).expect(&rt, "a statement");
    assert_eq!(rt; none.as_slice(), HEADER.as_bytes());
}

// What lies in a period, of the rows of a pending transfer and its post.
fn extract(alloc: Global, from: u64, to: u64) -> Option<Extract> {
    let mut extract = Extract::new(alloc, Period { from, to });
    hand(&mut extract, &pending_and_post()).ok()?;
    Some(extract)
}

fn layout(form: Form, is_wide: bool, with_sums: bool) -> Layout {
    Layout {
        form,
        is_wide,
        with_sums,
    }
}

// The sums of an account after a pending transfer of 100, and after its post of 40.
fn held() -> Balances {
    let [pending, _] = pending_and_post();
    pending.balances
}

fn posted() -> Balances {
    let [_, post] = pending_and_post();
    post.balances
}

// Periods, the ids of the entries in each, and the sums before it and at its end.
fn periods() -> [(u64, u64, &'static [u128], Balances, Balances); 5] {
    [
        (5, 6, &[100, 101], Balances::ZERO, posted()),
        (6, u64::MAX, &[101], held(), posted()),
        (0, 5, &[100], Balances::ZERO, held()),
        (7, 8, &[], posted(), posted()),
        (1, 4, &[], Balances::ZERO, Balances::ZERO),
    ]
}

#[test]
fn keeps_what_lies_in_a_period(rt: HostRuntime) {
    for (from, to, want, before, behind) in periods() {
        let kept = extract(rt.alloc(), from, to).expect(&rt, "an extract");
        let ids = kept.ids(rt.alloc()).expect(&rt, "ids");
        assert_eq!(rt; ids.as_slice(), want);
        assert_eq!(rt; kept.opening(), before);
        assert_eq!(rt; kept.closing(), behind);
    }
}

const WITH_SUMS: &str = "timestamp,transfer_id,side,kind,amount,debits_pending,debits_posted,\
    credits_pending,credits_posted\n\
    0,0,,opening,0,0,0,0,0\n\
    6,101,debit,post,40,0,40,0,0\n\
    5,100,debit,pending,100,100,0,0,0\n\
    0,0,,closing,0,0,40,0,0\n";

#[test]
fn writes_sums_first_and_last(rt: HostRuntime) {
    let mut all = extract(rt.alloc(), 0, u64::MAX).expect(&rt, "an extract");
    all.turn();
    let text = extract_text(rt.alloc(), layout(Form::Csv, false, true), &all, &[]);
    assert_eq!(rt; text.expect(&rt, "a text").as_slice(), WITH_SUMS.as_bytes());
}

// The widest numbers that a spreadsheet would cut.
const WIDE_SHEET: &str = "timestamp,transfer_id,side,kind,amount,debits_pending,debits_posted,\
    credits_pending,credits_posted,other_account,pending_id,code,user_data_128,user_data_64,\
    user_data_32\n\
    \"=\"\"6\"\"\",\"=\"\"101\"\"\",debit,post,\"=\"\"40\"\"\",\"=\"\"0\"\"\",\
    \"=\"\"40\"\"\",\"=\"\"0\"\"\",\"=\"\"0\"\"\",\"=\"\"2\"\"\",\"=\"\"100\"\"\",\
    \"=\"\"65535\"\"\",\"=\"\"340282366920938463463374607431768211455\"\"\",\
    \"=\"\"18446744073709551615\"\"\",\"=\"\"4294967295\"\"\"\n";

const WIDE_JSON: &str = "{\"timestamp\":\"6\",\"transfer_id\":\"101\",\"side\":\"debit\",\
    \"kind\":\"post\",\"amount\":\"40\",\"debits_pending\":\"0\",\
    \"debits_posted\":\"40\",\"credits_pending\":\"0\",\"credits_posted\":\"0\",\
    \"other_account\":\"2\",\"pending_id\":\"100\",\"code\":\"65535\",\
    \"user_data_128\":\"340282366920938463463374607431768211455\",\
    \"user_data_64\":\"18446744073709551615\",\"user_data_32\":\"4294967295\"}\n";

#[test]
fn writes_wide_lines(rt: HostRuntime) {
    let last = extract(rt.alloc(), 6, 6).expect(&rt, "an extract");
    let post = Transfer {
        id: 101,
        debit_account_id: 1,
        credit_account_id: 2,
        pending_id: 100,
        code: u16::MAX,
        user_data_128: u128::MAX,
        user_data_64: u64::MAX,
        user_data_32: u32::MAX,
        ..Transfer::default()
    };
    let posts = [post];
    let sheet = extract_text(rt.alloc(), layout(Form::Sheet, true, false), &last, &posts);
    assert_eq!(rt;
        sheet.expect(&rt, "a text").as_slice(),
        WIDE_SHEET.as_bytes()
    );
    let json = extract_text(rt.alloc(), layout(Form::Json, true, false), &last, &posts);
    assert_eq!(rt; json.expect(&rt, "a text").as_slice(), WIDE_JSON.as_bytes());
}

#[test]
fn reads_forms(rt: HostRuntime) {
    let forms = [
        ("csv", Form::Csv),
        ("sheet", Form::Sheet),
        ("json", Form::Json),
    ];
    for (name, form) in forms {
        assert_eq!(rt; Form::read(name), Some(form));
    }
    for name in ["", "CSV", "csv ", "xml"] {
        assert_eq!(rt; Form::read(name), None);
    }
}

// Takes so many bytes, 7 a call, and fails behind them.
fn with_room(alloc: Global, room: usize) -> Streamed<Narrow> {
    Streamed::new(Narrow {
        taken: Vec::new(alloc),
        piece: 7,
        room,
        fails: true,
    })
}

#[test]
fn leaves_a_beginning_where_the_writer_fails(rt: HostRuntime) {
    let text = PENDING_AND_POST.as_bytes();
    for room in 0..text.len() {
        let mut out = with_room(rt.alloc(), room);
        let written = write_statement(rt.alloc(), &mut out, &pending_and_post());
        same(&rt, room, written, Err(StatementFault::Write));
        let Narrow { taken, .. } = out.into_inner();
        same(&rt, room, taken.as_slice(), &text[..room]);
    }
    let mut out = with_room(rt.alloc(), text.len());
    let written = write_statement(rt.alloc(), &mut out, &pending_and_post());
    assert_eq!(rt; written, Ok(()));
}

#[test]
fn refuses_a_row_where_the_writer_fails(rt: HostRuntime) {
    let mut writer = StatementWriter::new(rt.alloc(), with_room(rt.alloc(), 140));
    let handed = hand(&mut writer, &pending_and_post());
    assert_eq!(rt; handed, Err(SinkFault::Write));
    let Narrow { taken, .. } = writer.into_inner().into_inner();
    assert!(rt; taken.len() == 140 && PENDING_AND_POST.as_bytes().starts_with(&taken));
    let writer = StatementWriter::new(rt.alloc(), with_room(rt.alloc(), 96));
    let (_out, ended) = writer.finish();
    assert_eq!(rt; ended, Err(StatementFault::Write));
}

// Passes with any allocation refused: the writer needs no memory.
#[test]
fn survives_want_of_memory(rt: HostRuntime) {
    let text = PENDING_AND_POST.as_bytes();
    let mut bytes = [0u8; 200];
    let mut out = Streamed::new(bytes.as_mut_slice());
    let written = write_statement(rt.alloc(), &mut out, &pending_and_post());
    let left = out.into_inner().len();
    let len = bytes.len().saturating_sub(left);
    assert!(rt; bytes.iter().take(len).eq(text.iter().take(len)));
    match written {
        Ok(()) => assert_eq!(rt; len, text.len()),
        Err(fault) => assert_eq!(rt; fault, StatementFault::Memory),
    }
}
