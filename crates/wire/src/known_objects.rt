//! The events, filters and queries that an object in a body tells.

ghost use Rattle.std.specs.Prelude.{◌≡◌, IfErr, option_map};
ghost use Rattle.std.specs.Result.{result_err, result_ok};
ghost use Rattle.wire.specs.KnownObjects.{account_fields, account_from, filter_fields, filter_from};
ghost use Rattle.wire.specs.KnownObjects.{page_fields, page_from, query_fields, query_from};
ghost use Rattle.wire.specs.KnownObjects.{tag_fields, tags_from, transfer_fields, transfer_from};
ghost use Rattle.wire.specs.Misfits.{bad_number, told_by};
ghost use Rattle.wire.specs.Trees.{tree_data};

use crate::fields::{flags_field, limit_field, u16_field, u32_field, u64_field, u128_field};
use crate::misfit::Misfit;
use crate::object::Object;
use amount::Amount;
use json::Value;
use records::{
    AccountEvent, AccountFilter, AccountFlags, FilterFlags, PageFilter, PageFlags, QueryFilter,
    Tags, TransferEvent, TransferFlags,
};

/// The flags that mean something: in the filter of a history debits, credits, newest first.
const FILTER_FLAGS: u16 = 0b111;

/// In a page, newest first.
const PAGE_FLAGS: u16 = 0b1;

impl Object for AccountEvent {
    ghost fields = { account_fields };

    ghost from_fields = { account_from };

    fn has_field(name: &str) -> bool {
        matches!(
            name,
            "user_data_128"
                | "user_data_64"
                | "user_data_32"
                | "ledger"
                | "code"
                | "id"
                | "debits_pending"
                | "debits_posted"
                | "credits_pending"
                | "credits_posted"
                | "flags"
                | "timestamp"
        )
    }

    #[tactic(auto, unfolding(crate::specs::KnownObjects::account_from))]
    fn read_fields(object: &Value<'_>) -> Result<AccountEvent, Misfit<'static>> {
        let tags = read_tags(object)?;
        Ok(AccountEvent {
            id: u128_field(object, "id")?,
            debits_pending: Amount::new(u128_field(object, "debits_pending")?),
            debits_posted: Amount::new(u128_field(object, "debits_posted")?),
            credits_pending: Amount::new(u128_field(object, "credits_pending")?),
            credits_posted: Amount::new(u128_field(object, "credits_posted")?),
            user_data_128: tags.user_data_128,
            user_data_64: tags.user_data_64,
            user_data_32: tags.user_data_32,
            ledger: tags.ledger,
            code: tags.code,
            flags: AccountFlags(u16_field(object, "flags")?),
            timestamp: u64_field(object, "timestamp")?,
        })
    }
}

impl Object for TransferEvent {
    ghost fields = { transfer_fields };

    ghost from_fields = { transfer_from };

    fn has_field(name: &str) -> bool {
        matches!(
            name,
            "user_data_128"
                | "user_data_64"
                | "user_data_32"
                | "ledger"
                | "code"
                | "id"
                | "debit_account_id"
                | "credit_account_id"
                | "amount"
                | "pending_id"
                | "timeout"
                | "flags"
                | "timestamp"
        )
    }

    #[tactic(auto, unfolding(crate::specs::KnownObjects::transfer_from))]
    fn read_fields(object: &Value<'_>) -> Result<TransferEvent, Misfit<'static>> {
        let tags = read_tags(object)?;
        Ok(TransferEvent {
            id: u128_field(object, "id")?,
            debit_account_id: u128_field(object, "debit_account_id")?,
            credit_account_id: u128_field(object, "credit_account_id")?,
            amount: Amount::new(u128_field(object, "amount")?),
            pending_id: u128_field(object, "pending_id")?,
            user_data_128: tags.user_data_128,
            user_data_64: tags.user_data_64,
            user_data_32: tags.user_data_32,
            timeout: u32_field(object, "timeout")?,
            ledger: tags.ledger,
            code: tags.code,
            flags: TransferFlags(u16_field(object, "flags")?),
            timestamp: u64_field(object, "timestamp")?,
        })
    }
}

impl Object for AccountFilter {
    ghost fields = { filter_fields };

    ghost from_fields = { filter_from };

    fn has_field(name: &str) -> bool {
        matches!(
            name,
            "account_id" | "timestamp_min" | "timestamp_max" | "flags" | "limit"
        )
    }

    #[tactic(auto, unfolding(crate::specs::KnownObjects::filter_from))]
    fn read_fields(object: &Value<'_>) -> Result<AccountFilter, Misfit<'static>> {
        Ok(AccountFilter {
            account_id: u128_field(object, "account_id")?,
            timestamp_min: u64_field(object, "timestamp_min")?,
            timestamp_max: u64_field(object, "timestamp_max")?,
            flags: FilterFlags(flags_field(object, FILTER_FLAGS)?),
            limit: limit_field(object)?,
        })
    }
}

impl Object for PageFilter {
    ghost fields = { page_fields };

    ghost from_fields = { page_from };

    fn has_field(name: &str) -> bool {
        matches!(name, "timestamp_min" | "timestamp_max" | "limit" | "flags")
    }

    fn read_fields(object: &Value<'_>) -> Result<PageFilter, Misfit<'static>> {
        read_page(object)
    }
}

impl Object for QueryFilter {
    ghost fields = { query_fields };

    ghost from_fields = { query_from };

    fn has_field(name: &str) -> bool {
        matches!(
            name,
            "user_data_128"
                | "user_data_64"
                | "user_data_32"
                | "ledger"
                | "code"
                | "timestamp_min"
                | "timestamp_max"
                | "limit"
                | "flags"
        )
    }

    #[tactic(auto, unfolding(crate::specs::KnownObjects::query_from))]
    fn read_fields(object: &Value<'_>) -> Result<QueryFilter, Misfit<'static>> {
        Ok(QueryFilter {
            tags: read_tags(object)?,
            page: read_page(object)?,
        })
    }
}

#[tactic(auto, unfolding(crate::specs::KnownObjects::page_from))]
fn read_page(object: &Value<'_>) -> Result<PageFilter, Misfit<'static>>
    ensures value { result_ok result ≡ page_from (tree_data object.now) }
    ensures misfit { bad_number page_fields (tree_data object.now)
        ≡ option_map told_by (result_err result) }
{
    Ok(PageFilter {
        timestamp_min: u64_field(object, "timestamp_min")?,
        timestamp_max: u64_field(object, "timestamp_max")?,
        limit: limit_field(object)?,
        flags: PageFlags(flags_field(object, PAGE_FLAGS)?),
    })
}

#[tactic(auto, unfolding(crate::specs::KnownObjects::tags_from))]
fn read_tags(object: &Value<'_>) -> Result<Tags, Misfit<'static>>
    ensures value { result_ok result ≡ tags_from (tree_data object.now) }
    ensures misfit { bad_number tag_fields (tree_data object.now)
        ≡ option_map told_by (result_err result) }
{
    Ok(Tags {
        user_data_128: u128_field(object, "user_data_128")?,
        user_data_64: u64_field(object, "user_data_64")?,
        user_data_32: u32_field(object, "user_data_32")?,
        ledger: u32_field(object, "ledger")?,
        code: u16_field(object, "code")?,
    })
}
