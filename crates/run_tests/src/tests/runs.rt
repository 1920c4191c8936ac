//! Runs over lists, and over disks in memory.

use super::disks::{Faulty, NEVER, TestDisk, TestStore, new_store, shut};
use super::examples::{EXAMPLES, TENANTS};
use super::requests::{CLOCKS, READS, REFUSALS};
use super::scripts::{answers, runs};
use std::alloc::{AllocError, Global};
use std::process::Abort;
use std::test::Fail;
use whole_runs::{NamedBook, Reopening};

/// A new tenant's first request, a name that is taken, a reopening, and an account that is missing.
const BEGINS: &str = r#"tenant 0 = added
0@1000 POST /transfers [] = {"clock":"1000","results":[]}
tenant 1 named 0 = name_taken
open = opened
0@5 transfers 100 1 2 10 = {"clock":"1001","results":[
  {"number":44,"result":"debit_account_not_found","timestamp":"1001"}]}
"#;

/// A tenant that is added between two requests by its key.
const JOINS: &str = r#"0@1000 POST /transfers [] = unknown_key 401 Unauthorized
tenant 0 = added
0@1000 POST /transfers [] = {"clock":"1000","results":[]}
"#;

/// A pending transfer and its post in time, each sent again after it has ended, with reopenings
/// between.
const SENT_AGAIN: &str = r#"tenant 0 = added
0@0 base = 0@1 0@2 0@3 0@4
0@0 transfers 100 1 2 100 2 0 1 = 0@5
0@1000000003 transfers 101 0 0 MAX 4 100 = 0@1000000004
open = opened
0@3000000000 transfers 100 1 2 100 2 0 1 = 18@3000000001
0@0 transfers 101 0 0 MAX 4 100 = 18@3000000002
open = opened
0@0 POST /accounts/lookup ["1"] = {"accounts":[{"code":10,"credits_pending":"0",
  "credits_posted":"0","debits_pending":"0","debits_posted":"100","flags":0,"id":"1","ledger":7,
  "timestamp":"1","user_data_128":"0","user_data_32":0,"user_data_64":"0"}],
  "clock":"3000000002"}
"#;

/// A tenant whose key is changed between a batch and its retry, which is told under the new key
/// what any retry is told. The old key is nobody's then, and may be another tenant's.
const KEYED: &str = r#"tenant 0 = added
0@0 base = 0@1 0@2 0@3 0@4
0@0 transfers 100 1 2 10; 101 9 2 5 = 0@5 44@6
1@0 transfers 100 1 2 10 = unknown_key 401 Unauthorized
key 1 of 0 = keyed
0@0 transfers 100 1 2 10; 101 9 2 5 = unknown_key 401 Unauthorized
1@0 transfers 100 1 2 10; 101 9 2 5 = 18@7 60@8
open = opened
1@0 transfers 100 1 2 10 = 18@9
key 1 of 0 = keyed
key 2 of 5 = no_tenant
tenant 0 named 5 = added
0@0 transfers 100 1 2 10 = 44@1
key 0 of 0 = digest_taken
key 2 of 5 = keyed
key 0 of 0 = keyed
0@0 GET /statement/1 = csv 5,100,debit,single,10,0,10,0,0
2@0 transfers 100 1 2 10 = 60@2
"#;

/// Each of these runs is of ledgers of its own.
static RUNS: [&str; 7] = [BEGINS, JOINS, SENT_AGAIN, KEYED, CLOCKS, READS, REFUSALS];

/// The tenants that send the examples, each with the four accounts.
fn tenants(alloc: Global) -> Result<String, AllocError> {
    let mut script = String::new(alloc);
    for tenant in 0..TENANTS {
        script.push_str(&format!(in alloc;
            "tenant {tenant} = added\n{tenant}@0 base = 0@1 0@2 0@3 0@4\n"
        )?)?;
    }
    Ok(script)
}

/// All examples, over the same ledgers, which are opened again behind them. In rounds, each firm's
/// requests are told what they are told one by one.
fn examples<L: Reopening>(
    rt: &impl Abort,
    alloc: Global,
    ledgers: &mut L,
    in_rounds: bool,
) -> Result<(), Fail> {
    runs(rt, alloc, ledgers, &tenants(alloc)?, in_rounds)?;
    runs(rt, alloc, ledgers, EXAMPLES, in_rounds)?;
    runs(rt, alloc, ledgers, "open = opened", false)
}

/// Runs each script over disks of its own.
fn runs_on<D: Faulty, R: Abort>(
    rt: &R,
    alloc: Global,
    scripts: &[&str],
    in_rounds: bool,
) -> Result<(), Fail> {
    for script in scripts {
        let mut store: TestStore<D> = new_store(alloc, NEVER, NEVER)?;
        let ended = runs(rt, alloc, &mut store, script, in_rounds);
        shut(store);
        ended?;
    }
    Ok(())
}

/// All examples, over disks of their own.
fn examples_on<D: Faulty, R: Abort>(rt: &R, alloc: Global, in_rounds: bool) -> Result<(), Fail> {
    let mut store: TestStore<D> = new_store(alloc, NEVER, NEVER)?;
    let ended = examples(rt, alloc, &mut store, in_rounds);
    shut(store);
    ended
}

#[test]
fn runs_over_lists(rt: HostRuntime) -> Result<(), Fail> {
    let alloc = rt.alloc();
    for in_rounds in [false, true] {
        for script in &RUNS {
            runs(&rt, alloc, &mut NamedBook::new(alloc), script, in_rounds)?;
        }
        examples(&rt, alloc, &mut NamedBook::new(alloc), in_rounds)?;
    }
    let none = answers(alloc, &mut NamedBook::new(alloc), &[])?;
    assert_eq!(rt; none.len(), 0);
    Ok(())
}

#[test]
fn runs_over_disks(rt: HostRuntime) -> Result<(), Fail> {
    runs_on::<TestDisk, _>(&rt, rt.alloc(), &RUNS, false)
}

#[test]
fn examples_over_disks(rt: HostRuntime) -> Result<(), Fail> {
    examples_on::<TestDisk, _>(&rt, rt.alloc(), false)
}

#[test]
fn runs_in_rounds_over_disks(rt: HostRuntime) -> Result<(), Fail> {
    runs_on::<TestDisk, _>(&rt, rt.alloc(), &RUNS, true)?;
    examples_on::<TestDisk, _>(&rt, rt.alloc(), true)
}
