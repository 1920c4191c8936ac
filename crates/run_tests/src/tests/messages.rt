//! Messages of tenants and the replies to them, from texts in few words.
use std::alloc::{AllocError, AllocFailed, Global};
use std::num::ParseIntError;
use tenants::{Key, TenantName, digest};
use whole_runs::Step;

/// Why a message is not made from a text.
#[derive(Debug, Drop)]
pub enum Unmade {
    Memory,
    /// The text means no message.
    Text,
}

impl From<AllocError> for Unmade {
    fn from(_error: AllocError) -> Unmade {
        Unmade::Memory
    }
}

impl<T: Drop> From<AllocFailed<T>> for Unmade {
    fn from(_error: AllocFailed<T>) -> Unmade {
        Unmade::Memory
    }
}

impl From<ParseIntError> for Unmade {
    fn from(_error: ParseIntError) -> Unmade {
        Unmade::Text
    }
}

/// Accounts 1 to 4 of ledger 7 and code 10, the third with a limit on its debits and a history.
const BASE: &str = concat!(
    r#"[{"id":"1","ledger":7,"code":10},{"id":"2","ledger":7,"code":10},"#,
    r#"{"id":"3","ledger":7,"code":10,"flags":10},{"id":"4","ledger":7,"code":10}]"#
);

/// The first line of a statement.
const HEADER: &str = concat!(
    "timestamp,transfer_id,side,kind,amount,",
    "debits_pending,debits_posted,credits_pending,credits_posted\n"
);

/// The results that are met, each by its number and by its name.
static RESULTS: [(&str, &str); 24] = [
    ("0", "ok"),
    ("1", "linked_event_chain_open"),
    ("2", "linked_event_failed"),
    ("4", "reserved_flag"),
    ("7", "exists_with_different_flags"),
    ("12", "exists_with_different_amount"),
    ("18", "exists"),
    ("19", "ledger_must_not_be_zero"),
    ("24", "pending_transfer_not_found"),
    ("26", "pending_transfer_has_different_debit_account_id"),
    ("31", "pending_transfer_has_different_amount"),
    ("32", "pending_transfer_already_posted"),
    ("34", "pending_transfer_expired"),
    ("44", "debit_account_not_found"),
    ("45", "credit_account_not_found"),
    ("48", "overflows_debits_pending"),
    ("49", "overflows_credits_pending"),
    ("50", "overflows_debits_posted"),
    ("51", "overflows_credits_posted"),
    ("52", "overflows_debits"),
    ("53", "overflows_credits"),
    ("55", "exceeds_credits"),
    ("56", "exceeds_debits"),
    ("60", "id_already_failed"),
];

/// The name of the result with this number.
fn name_of(number: &str) -> &'static str {
    for (other, name) in &RESULTS {
        if *other == number {
            return name;
        }
    }
    "no result of these tests"
}

/// What stands before each of a transfer's columns.
static FIELDS: [&str; 7] = [
    r#"{"id":""#,
    r#"","debit_account_id":""#,
    r#"","credit_account_id":""#,
    r#"","amount":""#,
    r#"","flags":"#,
    r#","pending_id":""#,
    r#"","timeout":"#,
];

/// The value of a column. What is left out is 0, and `MAX` is the greatest amount.
fn value_of(column: Option<&str>) -> &str {
    match column.unwrap_or("0") {
        "MAX" => "340282366920938463463374607431768211455",
        value => value,
    }
}

/// The ledger and the code of a transfer: none where it ends a pending one.
fn ledger_of(pending: &str) -> &'static str {
    match pending {
        "0" => r#","ledger":7,"code":1}"#,
        _ => r#","ledger":0}"#,
    }
}

/// A transfer: id, debit account, credit account, amount, flags, pending id, timeout.
fn transfer(alloc: Global, columns: &str) -> Result<String, AllocError> {
    let mut columns_left = columns.split_whitespace();
    let mut transfer = String::new(alloc);
    for field in &FIELDS {
        transfer.push_str(field)?;
        transfer.push_str(value_of(columns_left.next()))?;
    }
    transfer.push_str(ledger_of(value_of(columns.split_whitespace().nth(5))))?;
    Ok(transfer)
}

/// A body of transfers, each behind a semicolon but the first.
fn transfers(alloc: Global, text: &str) -> Result<String, AllocError> {
    let mut body = format!(in alloc; "[")?;
    for columns in text.split(';') {
        let comma = if body.len() == 1 { "" } else { "," };
        let transfer = transfer(alloc, columns)?;
        body.push_str(&format!(in alloc; "{comma}{transfer}")?)?;
    }
    body.push_str("]")?;
    Ok(body)
}

/// A result, from its number and its timestamp.
fn result(alloc: Global, text: &str) -> Result<String, AllocError> {
    let (number, timestamp) = text.split_once('@').unwrap_or((text, ""));
    let name = name_of(number);
    format!(in alloc; "{{\"number\":{number},\"result\":\"{name}\",\"timestamp\":\"{timestamp}\"}}")
}

/// The body of a reply with these results, each a number and a timestamp, of which the last is the
/// clock.
fn results(alloc: Global, text: &str) -> Result<String, AllocError> {
    let (_, clock) = text.rsplit_once('@').unwrap_or((text, ""));
    let mut list = String::new(alloc);
    for word in text.split_whitespace() {
        let comma = if list.is_empty() { "" } else { "," };
        let result = result(alloc, word)?;
        list.push_str(&format!(in alloc; "{comma}{result}")?)?;
    }
    format!(in alloc; "{{\"clock\":\"{clock}\",\"results\":[{list}]}}")
}

/// A whole reply.
fn reply(alloc: Global, status: &str, kind: &str, body: &str) -> Result<String, AllocError> {
    let length = body.len();
    format!(in alloc;
        "HTTP/1.1 {status}\r\ncontent-length: {length}\r\ncontent-type: {kind}\r\n\r\n{body}"
    )
}

/// A reply of status 200 with a JSON body.
fn json(alloc: Global, body: &str) -> Result<String, AllocError> {
    reply(alloc, "200 OK", "application/json", body)
}

/// A reply with a statement of a few lines, each a word, which are one chunk (RFC 9112, 7.1).
fn statement(alloc: Global, lines: &str) -> Result<String, AllocError> {
    let mut csv = HEADER.to_string(alloc)?;
    for line in lines.split_whitespace() {
        csv.push_str(line)?;
        csv.push_str("\n")?;
    }
    let length = csv.len();
    format!(in alloc;
        "HTTP/1.1 200 OK\r\ncontent-type: text/csv\r\ntransfer-encoding: chunked\r\n\r\n\
        {length:x}\r\n{csv}\r\n0\r\n\r\n"
    )
}

/// A refusal, by its name and its status.
fn refusal(alloc: Global, name: &str, status: &str) -> Result<String, AllocError> {
    let body = format!(in alloc; "{{\"error\":\"{name}\"}}")?;
    reply(alloc, status, "application/json", &body)
}

/// What a step is to be told. A text in braces is the body of a reply of status 200; others are
/// results, a statement, the name of a refusal with its status, or a word for what is no message.
pub fn wanted(alloc: Global, text: &str) -> Result<String, AllocError> {
    if text.starts_with('{') {
        return json(alloc, text);
    }
    if text.find('@').is_some() {
        return json(alloc, &results(alloc, text)?);
    }
    if let Some(lines) = text.strip_prefix("csv") {
        return statement(alloc, lines);
    }
    match text.split_once(' ') {
        Some((name, status)) => refusal(alloc, name, status),
        None => format!(in alloc; "{text}"),
    }
}

/// A key's 64 digits, from its number.
fn key(alloc: Global, number: &str) -> Result<String, Unmade> {
    let number: u64 = number.parse()?;
    Ok(format!(in alloc; "{number:064}")?)
}

/// A message: the first line, the number of its key, and the body.
fn message(alloc: Global, line: &str, number: &str, body: &str) -> Result<String, Unmade> {
    let length = body.len();
    let key = key(alloc, number)?;
    Ok(format!(in alloc;
        "{line} HTTP/1.1\r\nx-ledger-key: {key}\r\ncontent-length: {length}\r\n\r\n{body}"
    )?)
}

/// 1,001 accounts.
fn many(alloc: Global) -> Result<String, AllocError> {
    let account = r#"{"id":"9","ledger":7,"code":10}"#;
    let mut body = format!(in alloc; "[{account}")?;
    for _ in 0..1000 {
        body.push_str(",")?;
        body.push_str(account)?;
    }
    body.push_str("]")?;
    Ok(body)
}

/// A message of the tenant of this number: transfers, accounts, or a method, a path and a body; or
/// a message as it is written, with bars for the ends of lines.
pub fn asked(alloc: Global, number: &str, text: &str) -> Result<String, Unmade> {
    let (word, rest) = text.split_once(' ').unwrap_or((text, ""));
    match word {
        "raw" => Ok(rest.replace(alloc, "|", "\r\n")?),
        "base" => message(alloc, "POST /accounts", number, BASE),
        "many" => message(alloc, "POST /accounts", number, &many(alloc)?),
        "transfers" => message(alloc, "POST /transfers", number, &transfers(alloc, rest)?),
        _ => {
            let (path, body) = rest.split_once(' ').unwrap_or((rest, ""));
            message(alloc, &format!(in alloc; "{word} {path}")?, number, body)
        }
    }
}

/// The digest of the key with this number.
fn digest_of(alloc: Global, number: &str) -> Result<[u8; 32], Unmade> {
    let key = Key::read(key(alloc, number)?.as_bytes()).ok_or(Unmade::Text)?;
    Ok(digest(&key))
}

/// The name with this number.
fn tenant_name(alloc: Global, number: &str) -> Result<TenantName, Unmade> {
    TenantName::read(&format!(in alloc; "tenant-{number}")?).ok_or(Unmade::Text)
}

/// A new tenant, with the numbers of its key and of its name.
fn adds(alloc: Global, text: &str) -> Result<Step, Unmade> {
    let (number, name) = text.split_once(" named ").unwrap_or((text, text));
    Ok(Step::AddTenant(tenant_name(alloc, name)?, digest_of(alloc, number)?))
}

/// Another key for a tenant, with the numbers of the key and of the tenant's name.
fn keys(alloc: Global, text: &str) -> Result<Step, Unmade> {
    let (number, name) = text.split_once(" of ").ok_or(Unmade::Text)?;
    Ok(Step::ChangeKey(tenant_name(alloc, name)?, digest_of(alloc, number)?))
}

/// A step: a new tenant, another key, a reopening, or a message of a tenant at a moment.
pub fn step(alloc: Global, text: &str) -> Result<Step, Unmade> {
    let (who, what) = text.split_once(' ').unwrap_or((text, ""));
    match who.split_once('@') {
        Some((number, moment)) => {
            let message = asked(alloc, number, what)?;
            Ok(Step::Request(message.into_bytes(), moment.parse()?))
        }
        None if who == "tenant" => adds(alloc, what),
        None if who == "key" => keys(alloc, what),
        None => Ok(Step::Reopen),
    }
}
