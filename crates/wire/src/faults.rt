//! Where the service refuses a body.
ghost use Rattle.std.specs.Prelude.{◌≡◌, ◌<◌, ◌≢◌, IfOk, IfSome, List, length, ℕ, option_map};
ghost use Rattle.wire.specs.Body.{list_in, object_in};
ghost use Rattle.wire.specs.Fields.{known_names, object_of};
ghost use Rattle.wire.specs.Meaning.{meaning_of};
ghost use Rattle.wire.specs.Misfits.{IsMisfitAt, first_bad};
ghost use Rattle.wire.specs.Faults.{fault_on, list_fault, object_fault, refusal_in, refused};
ghost use Rattle.wire.specs.Faults.{told_refusal};
ghost use Rattle.wire.specs.Trees.{items_data};
ghost use Rattle.ledger_http.specs.declared.route.Route.{Route as ARoute};

use crate::body::MAX_ITEMS;
use crate::item::Item;
use crate::misfit::Misfit;
use crate::object::{Object, read_object};
use crate::tree::{items, read_json};
use crate::{BodyFault, Wanted};
use json::{Scratch, Value};
use ledger_http::{Refusal, Route};
use records::{AccountEvent, AccountFilter, PageFilter, QueryFilter, TransferEvent, Unavailable};
use std::alloc::Global;

/// What the service refuses of a body on a route, and where; nothing where it takes the body. It
/// does not look at the body of a statement.
pub fn fault_in(alloc: Global, route: Route, body: &[u8]) -> Result<Option<BodyFault>, Unavailable>
    ensures refusal { IfOk result (λ fault. told_refusal fault ≡ refusal_in route body.now) }
    ensures fault { IfOk result (λ fault. fault ≡ fault_on route body.now) }
{
    match route {
        Route::Accounts | Route::LintAccounts => list_fault::<AccountEvent>(alloc, body),
        Route::Transfers | Route::LintTransfers => list_fault::<TransferEvent>(alloc, body),
        Route::LookupAccounts | Route::LookupTransfers | Route::LookupPending => list_fault::<u128>(
            alloc, body,
        ),
        Route::HistoryTransfers | Route::HistoryBalances => object_fault::<AccountFilter>(
            alloc, body,
        ),
        Route::QueryAccounts | Route::QueryTransfers => object_fault::<QueryFilter>(alloc, body),
        Route::OpenPending => object_fault::<PageFilter>(alloc, body),
        Route::Statement => Ok(None),
    }
}

/// What `fault_in` tells is what `meaning` refuses: of each route but that of a statement, whose
/// body counts for nothing. It does nothing.
pub fn tells_what_is_refused()
    ensures { (route : ARoute) (account body : List ℕ) → route ≢ Route.Statement
        → refusal_in route body ≡ refused (meaning_of route account body) }
{}

fn list_fault<I: Item>(alloc: Global, body: &[u8]) -> Result<Option<BodyFault>, Unavailable>
    ensures refusal { IfOk result (λ fault.
        told_refusal fault ≡ refused (list_in I.means body.now)) }
    ensures fault { IfOk result (λ fault. fault ≡ list_fault I.means I.expected body.now) }
{
    let mut scratch = Scratch::new(alloc);
    let value = match read_json(alloc, body, &mut scratch) {
        Ok(value) => value,
        Err(Refusal::Unavailable) => return Err(Unavailable::Memory),
        Err(_) => return Ok(Some(BodyFault::of_body(Wanted::Json))),
    };
    let Some(items) = items(&value) else {
        return Ok(Some(BodyFault::of_body(Wanted::List)));
    };
    if let Some(fault) = first_fault::<I>(items) {
        return Ok(Some(BodyFault::of(alloc, Some(fault.place + 1), fault.misfit)?));
    }
    if items.len() <= MAX_ITEMS {
        Ok(None)
    } else {
        Ok(Some(BodyFault::of_body(Wanted::Few)))
    }
}

// An item of a list that is refused, by its place in the list, counted from 0.
#[derive(Clone, Copy)]
struct ItemFault<'a> {
    place: usize,
    misfit: Misfit<'a>,
}

fn first_fault<'a, I: Item>(items: &[Value<'a>]) -> Option<ItemFault<'a>>
    ensures place { option_map (λ fault. fault.place) result
        ≡ first_bad I.means 0 (items_data items.now) }
    ensures within { IfSome result (λ fault. fault.place < length items.now) }
    ensures misfit { IfSome result (λ fault.
        IsMisfitAt I.expected (items_data items.now) fault.place fault.misfit) }
{
    for (place, item) in items.iter().enumerate() {
        if let Err(misfit) = I::read(item) {
            return Some(ItemFault { place, misfit });
        }
    }
    None
}

fn object_fault<O: Object>(alloc: Global, body: &[u8]) -> Result<Option<BodyFault>, Unavailable>
    ensures refusal { IfOk result (λ fault. told_refusal fault
        ≡ refused (object_in (object_of (known_names O.fields) O.from_fields) body.now)) }
    ensures fault { IfOk result (λ fault. fault
        ≡ object_fault (object_of (known_names O.fields) O.from_fields) O.fields body.now) }
{
    let mut scratch = Scratch::new(alloc);
    let value = match read_json(alloc, body, &mut scratch) {
        Ok(value) => value,
        Err(Refusal::Unavailable) => return Err(Unavailable::Memory),
        Err(_) => return Ok(Some(BodyFault::of_body(Wanted::Json))),
    };
    match read_object::<O>(&value) {
        Ok(_) => Ok(None),
        Err(misfit) => Ok(Some(BodyFault::of(alloc, None, misfit)?)),
    }
}
