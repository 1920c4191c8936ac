//! Transfers in the words of `docs/MODEL.md`, as bodies send them, and results as they are told.
use std::alloc::{AllocError, Global};
use std::fmt::{self, Display};

/// The fields of a transfer.
#[derive(Clone, Copy)]
struct Fields {
    id: u128,
    debit: u128,
    credit: u128,
    amount: u128,
    pending_id: u128,
    ledger: u32,
    code: u16,
    flags: u16,
    timeout: u32,
}

/// What a text leaves out of a transfer.
const LEFT_OUT: Fields = Fields {
    id: 0,
    debit: 0,
    credit: 0,
    amount: 0,
    pending_id: 0,
    ledger: 7,
    code: 1,
    flags: 0,
    timeout: 0,
};

impl Display for Fields {
    fn fmt<W: fmt::Write>(&self, f: &mut fmt::Formatter<W>) -> fmt::Result {
        let Fields {
            id,
            debit,
            credit,
            amount,
            pending_id,
            ..
        } = self;
        write!(f, "{{\"id\":\"{id}\",\"debit_account_id\":\"{debit}\",")?;
        write!(
            f,
            "\"credit_account_id\":\"{credit}\",\"amount\":\"{amount}\","
        )?;
        let Fields {
            ledger,
            code,
            flags,
            timeout,
            ..
        } = self;
        write!(
            f,
            "\"pending_id\":\"{pending_id}\",\"ledger\":{ledger},\"code\":{code},"
        )?;
        write!(f, "\"flags\":{flags},\"timeout\":{timeout}}}")
    }
}

/// A number, of which `MAX` is the greatest.
fn number(word: &str) -> u128 {
    word.parse().unwrap_or(u128::MAX)
}

fn flags(word: &str) -> u16 {
    word.parse().unwrap_or(u16::MAX)
}

/// A transfer of ledger 7 and code 1, as `100: 1>2 10 pending`, or the end of a pending one.
fn transfer(words: &str) -> Fields {
    let mut fields = LEFT_OUT;
    for word in words.split_whitespace() {
        if let Some((id, _)) = word.split_once(':') {
            fields.id = number(id);
        } else if let Some((debit, credit)) = word.split_once('>') {
            fields.debit = number(debit);
            fields.credit = number(credit);
        } else if let Some((key, value)) = word.split_once('=') {
            put(&mut fields, key, value);
        } else {
            mark(&mut fields, word);
        }
    }
    fields
}

fn put(fields: &mut Fields, key: &str, value: &str) {
    match key {
        "post" => end(fields, 4, value),
        "void" => end(fields, 8, value),
        "timeout" => fields.timeout = u32::from(flags(value)),
        _ => fields.flags = flags(value),
    }
}

/// Makes a transfer the end of a pending one, which names no ledger.
fn end(fields: &mut Fields, flag: u16, pending: &str) {
    fields.pending_id = number(pending);
    fields.flags = flag;
    fields.ledger = 0;
    fields.code = 0;
}

fn mark(fields: &mut Fields, word: &str) {
    match word {
        "linked" => fields.flags = 1,
        "pending" => fields.flags = 2,
        _ => fields.amount = number(word),
    }
}

/// Adds an item to the list of a body.
pub(crate) fn add(list: &mut String, item: &str) -> Result<(), AllocError> {
    if !list.is_empty() {
        list.push_str(",")?;
    }
    list.push_str(item)
}

/// A body of transfers, each behind a semicolon but the first.
pub(crate) fn transfers(alloc: Global, text: &str) -> Result<String, AllocError> {
    let mut list = String::new(alloc);
    for words in text.split(';') {
        if !words.is_empty() {
            let fields = transfer(words);
            add(&mut list, &format!(in alloc; "{fields}")?)?;
        }
    }
    format!(in alloc; "[{list}]")
}

/// The results that the examples meet.
static RESULTS: [(&str, &str); 23] = [
    ("0", "ok"),
    ("1", "linked_event_chain_open"),
    ("2", "linked_event_failed"),
    ("4", "reserved_flag"),
    ("7", "exists_with_different_flags"),
    ("12", "exists_with_different_amount"),
    ("18", "exists"),
    ("24", "pending_transfer_not_found"),
    ("26", "pending_transfer_has_different_debit_account_id"),
    ("31", "pending_transfer_has_different_amount"),
    ("32", "pending_transfer_already_posted"),
    ("34", "pending_transfer_expired"),
    ("44", "debit_account_not_found"),
    ("45", "credit_account_not_found"),
    ("48", "overflows_debits_pending"),
    ("49", "overflows_credits_pending"),
    ("50", "overflows_debits_posted"),
    ("51", "overflows_credits_posted"),
    ("52", "overflows_debits"),
    ("53", "overflows_credits"),
    ("55", "exceeds_credits"),
    ("56", "exceeds_debits"),
    ("60", "id_already_failed"),
];

/// The name of the result with this number.
fn name_of(number: &str) -> &'static str {
    for (other, name) in &RESULTS {
        if *other == number {
            return name;
        }
    }
    "no result of the examples"
}

/// A result and its timestamp, as `50@6`.
fn result(alloc: Global, text: &str) -> Result<String, AllocError> {
    let (number, timestamp) = text.split_once('@').unwrap_or((text, ""));
    let name = name_of(number);
    format!(in alloc; "{{\"number\":{number},\"result\":\"{name}\",\"timestamp\":\"{timestamp}\"}}")
}

/// The body of a reply, from a clock and results, as `6: 0@5 50@6`.
pub(crate) fn results(alloc: Global, text: &str) -> Result<String, AllocError> {
    let (clock, told) = text.split_once(':').unwrap_or((text, ""));
    let mut list = String::new(alloc);
    for word in told.split_whitespace() {
        add(&mut list, &result(alloc, word)?)?;
    }
    format!(in alloc; "{{\"clock\":\"{clock}\",\"results\":[{list}]}}")
}
