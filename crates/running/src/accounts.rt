//! The accounts of a tenant by id, each with its balances.

ghost use Rattle.std.specs.Prelude.{◌≡◌, ◌≤◌, List, [], ◌∷◌, ◌++◌, None, OnOk};
ghost use Rattle.records.specs.declared.account.Account.{Account};
ghost use Rattle.records.specs.declared.balances.Balances.{Balances};
ghost use Rattle.records.specs.declared.side.Side.TheVariants.{Debit, Credit};
ghost use Rattle.records.specs.Machine.{account_with};
ghost use Rattle.engine.specs.After.{balances_released};
ghost use Rattle.rows.specs.declared.balance_row.BalanceRow.{BalanceRow};
ghost use Rattle.rows.specs.Changes.{set_balances, set_both, new_balance};
ghost use Rattle.running.specs.Holds.{HoldsAccounts, HasBalances, balance_with};

use engine::release;
use records::{Account, AccountWithBalances, Balances, Transfer};
use std::alloc::AllocError;
use std::collections::BTreeMap;

// A new account, without balances yet.
pub(crate) fn open(
    map: &mut BTreeMap<u128, AccountWithBalances>,
    account: &Account,
) -> Result<(), AllocError>
    ensures { OnOk result
        ((accounts : List Account) (balances : List BalanceRow) →
        HoldsAccounts accounts balances map.old → account_with account.now.id accounts ≡ None →
        balance_with account.now.id balances ≡ None →
        HoldsAccounts (accounts ++ account.now ∷ []) (balances ++ new_balance account.now ∷ [])
        map.new) }
{
    let balances = Balances::ZERO;
    let opened = AccountWithBalances {
        account: *account,
        balances,
    };
    map.insert(account.id, opened)?;
    Ok(())
}

// Other balances of an account. One that is not there has none.
pub(crate) fn set_balances(
    map: &mut BTreeMap<u128, AccountWithBalances>,
    id: u128,
    balances: Balances,
) -> Result<(), AllocError>
    ensures { OnOk result
        ((accounts : List Account) (rows : List BalanceRow) →
        HoldsAccounts accounts rows map.old →
        HoldsAccounts accounts (set_balances id balances rows) map.new) }
{
    let Some(found) = map.get(&id).copied() else {
        return Ok(());
    };
    map.insert(id, AccountWithBalances { balances, ..found })?;
    Ok(())
}

// Other balances of the two accounts of a transfer.
pub(crate) fn set_both(
    map: &mut BTreeMap<u128, AccountWithBalances>,
    transfer: &Transfer,
    debit: Balances,
    credit: Balances,
) -> Result<(), AllocError>
    ensures { OnOk result
        ((accounts : List Account) (rows : List BalanceRow) →
        HoldsAccounts accounts rows map.old →
        HoldsAccounts accounts (set_both transfer.now debit credit rows) map.new) }
{
    set_balances(map, transfer.debit_account_id, debit)?;
    set_balances(map, transfer.credit_account_id, credit)?;
    Ok(())
}

// The two accounts of a transfer that is not open any more lose its amount.
pub(crate) fn release_from(
    map: &mut BTreeMap<u128, AccountWithBalances>,
    transfer: &Transfer,
) -> Result<(), AllocError>
    requires { (debit : Balances) × (credit : Balances)
        × HasBalances map.old transfer.now.debit_account_id debit
        × HasBalances map.old transfer.now.credit_account_id credit
        × (transfer.now.amount ≤ debit.debits.pending)
        × (transfer.now.amount ≤ credit.credits.pending) }
    ensures { OnOk result
        ((accounts : List Account) (rows : List BalanceRow) (debit credit : Balances) →
        HoldsAccounts accounts rows map.old →
        HasBalances map.old transfer.now.debit_account_id debit →
        HasBalances map.old transfer.now.credit_account_id credit →
        HoldsAccounts accounts
        (set_both transfer.now (balances_released Debit debit transfer.now.amount)
        (balances_released Credit credit transfer.now.amount) rows)
        map.new) }
{
    let debit = found(map, transfer.debit_account_id);
    let credit = found(map, transfer.credit_account_id);
    let released = release(debit, credit, transfer.amount);
    set_both(map, transfer, released.0, released.1)
}

// The balances of an account that is there.
fn found(map: &BTreeMap<u128, AccountWithBalances>, id: u128) -> Balances
    requires { (balances : Balances) × HasBalances map.now id balances }
    ensures { (balances : Balances) → HasBalances map.now id balances → result ≡ balances }
{
    map.get(&id).copied().unwrap().balances
}
