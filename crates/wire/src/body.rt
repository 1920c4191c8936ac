ghost use Rattle.std.specs.Prelude.{◌≡◌, ◌≢◌, ◌≤◌, length, is_some, Some, None, Ok, Err, IfOk};
ghost use Rattle.std.specs.Prelude.{IfErr};
ghost use Rattle.wire.specs.Body.{each_of, list_in, transfers_in, accounts_in, ids_in};
ghost use Rattle.wire.specs.Body.{object_in};
ghost use Rattle.wire.specs.Trees.{items_data};
ghost use Rattle.wire.specs.Fields.{known_names, object_of};

use crate::item::Item;
use crate::object::{Object, read_object};
use crate::tree::{items, read_json};
use json::{Scratch, Value};
use ledger_http::Refusal;
use records::{AccountEvent, MOST_AT_ONCE, TransferEvent};
use std::alloc::Global;

/// How many events or ids a list may have.
pub(crate) const MAX_ITEMS: usize = MOST_AT_ONCE as usize;

/// Reads the body of a batch of transfers: a JSON list of objects.
pub fn read_transfers(alloc: Global, body: &[u8]) -> Result<Vec<TransferEvent>, Refusal>
    ensures ok { IfOk result (λ events. transfers_in body.now ≡ Ok events.items) }
    ensures few { IfOk result (λ events. length events.items ≤ 1000) }
    ensures err { IfErr result (λ e. e ≢ Refusal.Unavailable → transfers_in body.now ≡ Err e) }
{
    read_list(alloc, body)
}

/// Reads the body of a batch of accounts: a JSON list of objects.
pub fn read_accounts(alloc: Global, body: &[u8]) -> Result<Vec<AccountEvent>, Refusal>
    ensures ok { IfOk result (λ events. accounts_in body.now ≡ Ok events.items) }
    ensures few { IfOk result (λ events. length events.items ≤ 1000) }
    ensures err { IfErr result (λ e. e ≢ Refusal.Unavailable → accounts_in body.now ≡ Err e) }
{
    read_list(alloc, body)
}

/// Reads the body of a lookup: a JSON list of ids.
pub(crate) fn read_ids(alloc: Global, body: &[u8]) -> Result<Vec<u128>, Refusal>
    ensures ok { IfOk result (λ ids. ids_in body.now ≡ Ok ids.items) }
    ensures few { IfOk result (λ ids. length ids.items ≤ 1000) }
    ensures err { IfErr result (λ e. e ≢ Refusal.Unavailable → ids_in body.now ≡ Err e) }
{
    read_list(alloc, body)
}

/// Reads the body of a history or a query: one JSON object.
pub(crate) fn read_one<O: Object>(alloc: Global, body: &[u8]) -> Result<O, Refusal>
    ensures ok { IfOk result (λ asked.
        object_in (object_of (known_names O.fields) O.from_fields) body.now ≡ Ok asked) }
    ensures err { IfErr result (λ e. e ≢ Refusal.Unavailable
        → object_in (object_of (known_names O.fields) O.from_fields) body.now ≡ Err e) }
{
    let mut scratch = Scratch::new(alloc);
    let value = read_json(alloc, body, &mut scratch)?;
    read_object(&value).map_err(|_| Refusal::BadField)
}

fn read_list<I: Item>(alloc: Global, body: &[u8]) -> Result<Vec<I>, Refusal>
    ensures ok { IfOk result (λ list. list_in I.means body.now ≡ Ok list.items) }
    ensures few { IfOk result (λ list. length list.items ≤ 1000) }
    ensures err { IfErr result (λ e. e ≢ Refusal.Unavailable → list_in I.means body.now ≡ Err e) }
{
    let mut scratch = Scratch::new(alloc);
    let value = read_json(alloc, body, &mut scratch)?;
    let items = items(&value).ok_or(Refusal::BadField)?;
    if items.len() <= MAX_ITEMS {
        return read_items(alloc, items);
    }

    // More items are judged and not kept: two megabytes may hold 700,000 of them.
    if are_items::<I>(items) {
        Err(Refusal::TooManyEvents)
    } else {
        Err(Refusal::BadField)
    }
}

fn are_items<I: Item>(items: &[Value<'_>]) -> bool
    ensures { result ≡ is_some (each_of I.means (items_data items.now)) }
{
    items.iter().all(|item| I::read(item).is_ok())
}

fn read_items<I: Item>(alloc: Global, items: &[Value<'_>]) -> Result<Vec<I>, Refusal>
    ensures ok { IfOk result (λ list. each_of I.means (items_data items.now) ≡ Some list.items) }
    ensures err { IfErr result (λ e. e ≢ Refusal.Unavailable → (e ≡ Refusal.BadField)
        × (each_of I.means (items_data items.now) ≡ None)) }
{
    let mut list = Vec::new(alloc);
    for item in items {
        let Ok(next) = I::read(item) else {
            return Err(Refusal::BadField);
        };
        list.push(next)?;
    }
    Ok(list)
}
