ghost use Rattle.std.specs.Prelude.{◌≡◌, ◌-◌, ◌^◌, IfErr, IfOk, codes, map, true};
ghost use Rattle.clap.specs.Words.{found_of, rows_of, takes};
ghost use Rattle.command_line.specs.Ledgerd.{ledgerd_app};
ghost use Rattle.command_line.specs.Line.{IsCommandOf, IsFaultOf, Spells, SpellsLimits};
ghost use Rattle.command_line.specs.Line.{SpellsStatement};
ghost use Rattle.command_line.specs.Values.{FillsLimits, FillsServe, HasFreeNumber, HasFreeText};
ghost use Rattle.command_line.specs.Values.{HasNumber, HasNumberBelow, HasNumberOr, HasSomeText};
ghost use Rattle.command_line.specs.Values.{HasText, IsFilled, IsFilledOver, IsFlag, IsFreeNumber};
ghost use Rattle.command_line.specs.Values.{has_flag, text_in};

use crate::app::ledgerd_command;
use crate::{Command, LimitWords, LineFault, StatementWords};
use clap::ArgMatches;
use std::alloc::Global;
use std::convert::AsStr;

fn text<'a>(values: &ArgMatches<'a>, name: &str) -> &'a str
    requires { HasSomeText (rows_of (found_of values.now)) name.now }
    ensures { HasText (rows_of (found_of values.now)) name.now result.now }
{
    values.get_str(name).unwrap()
}

fn port(values: &ArgMatches<'_>) -> u16
    requires { HasNumberBelow (rows_of (found_of values.now)) (codes "port") (2 ^ 16) }
    ensures { HasNumber (rows_of (found_of values.now)) (codes "port") result }
{
    values.get_one::<u16>("port").unwrap()
}

fn requests(values: &ArgMatches<'_>) -> u64
    requires { IsFreeNumber (rows_of (found_of values.now)) (codes "requests") }
    ensures { HasNumberOr (rows_of (found_of values.now)) (codes "requests") (2 ^ 64 - 1) result }
{
    free_number(values, "requests").unwrap_or(u64::MAX)
}

fn is_set(values: &ArgMatches<'_>, name: &str) -> bool
    requires { IsFlag (rows_of (found_of values.now)) name.now }
    ensures { result ≡ has_flag (rows_of (found_of values.now)) name.now }
{
    values.get_flag(name)
}

fn free_text<'a>(values: &ArgMatches<'a>, name: &str) -> Option<&'a str>
    ensures { HasFreeText (rows_of (found_of values.now)) name.now (text_in result) }
{
    values.get_str(name)
}

fn free_number(values: &ArgMatches<'_>, name: &str) -> Option<u64>
    requires { IsFreeNumber (rows_of (found_of values.now)) name.now }
    ensures { HasFreeNumber (rows_of (found_of values.now)) name.now result }
{
    values.get_one::<u64>(name)
}

fn limit_words(values: &ArgMatches<'_>) -> LimitWords
    requires { FillsLimits (rows_of (found_of values.now)) }
    ensures { SpellsLimits (rows_of (found_of values.now)) result }
{
    LimitWords {
        clients: free_number(values, "clients"),
        room: free_number(values, "room"),
        idle: free_number(values, "idle"),
        message: free_number(values, "message"),
        reply: free_number(values, "reply"),
    }
}

// The tenant of a command, and the key that was given.
fn tenant_and_key<'a>(values: &ArgMatches<'a>) -> (&'a str, Option<&'a str>)
    requires { HasSomeText (rows_of (found_of values.now)) (codes "name") }
    ensures name { HasText (rows_of (found_of values.now)) (codes "name") result.0.now }
    ensures key { HasFreeText (rows_of (found_of values.now)) (codes "key") (text_in result.1) }
{
    (text(values, "name"), free_text(values, "key"))
}

fn statement_words<'a>(values: &ArgMatches<'a>) -> StatementWords<'a>
    requires reversed { IsFlag (rows_of (found_of values.now)) (codes "reversed") }
    requires balances { IsFlag (rows_of (found_of values.now)) (codes "balances") }
    requires wide { IsFlag (rows_of (found_of values.now)) (codes "wide") }
    ensures { SpellsStatement (rows_of (found_of values.now)) result }
{
    StatementWords {
        reversed: is_set(values, "reversed"),
        from: free_text(values, "from"),
        to: free_text(values, "to"),
        balances: is_set(values, "balances"),
        wide: is_set(values, "wide"),
        format: free_text(values, "format"),
    }
}

fn serve<'a>(db: &'a str, values: &ArgMatches<'a>) -> Command<'a>
    requires db { HasText (rows_of (found_of values.now)) (codes "db") db.now }
    requires filled { FillsServe (rows_of (found_of values.now)) }
    ensures { Spells (codes "serve") (rows_of (found_of values.now)) result }
{
    Command::Serve {
        db,
        address: free_text(values, "address"),
        port: port(values),
        requests: requests(values),
        standby: is_set(values, "standby"),
        limits: limit_words(values),
    }
}

// The command of this name over the store in the file `db`.
fn over_store<'a>(name: &str, db: &'a str, values: &ArgMatches<'a>) -> Command<'a>
    requires db { HasText (rows_of (found_of values.now)) (codes "db") db.now }
    requires filled { IsFilledOver name.now (rows_of (found_of values.now)) }
    ensures { Spells name.now (rows_of (found_of values.now)) result }
{
    match name {
        "serve" => serve(db, values),
        "tenant-add" => {
            let (name, key) = tenant_and_key(values);
            Command::AddTenant { db, name, key }
        }
        "tenant-key" => {
            let (name, key) = tenant_and_key(values);
            Command::ChangeKey { db, name, key }
        }
        "tenants" => Command::Tenants { db },
        "status" => Command::Status {
            db,
            prometheus: is_set(values, "prometheus"),
        },
        "stop" => Command::Stop { db },
        "statement" => Command::Statement {
            db,
            tenant: text(values, "tenant"),
            account: text(values, "account"),
            asked: statement_words(values),
        },
        "check" => Command::Check { db },
        "migrate" => Command::Migrate {
            db,
            to: text(values, "to"),
        },
        "copy" => Command::Copy {
            db,
            to: text(values, "to"),
        },
        _ => unreachable!(),
    }
}

fn named<'a>(name: &str, values: &ArgMatches<'a>) -> Command<'a>
    requires { IsFilled name.now (rows_of (found_of values.now)) }
    ensures { Spells name.now (rows_of (found_of values.now)) result }
{
    match name {
        "lint" => Command::Lint {
            route: free_text(values, "route"),
        },
        "version" => Command::Version,
        _ => over_store(name, text(values, "db"), values),
    }
}

/// Reads the words after the program's name. `LineFault::Refused` is also the answer to a call for
/// help.
pub fn command<'a, S: AsStr>(alloc: Global, words: &'a [S]) -> Result<Command<'a>, LineFault>
    ensures ok { IfOk result (IsCommandOf (map S.text words.entry.now)) }
    ensures refused { IfErr result (IsFaultOf (map S.text words.entry.now)) }
    ensures taken { takes ledgerd_app (map S.text words.entry.now) ≡ true
        → IfErr result (λ fault. fault ≡ LineFault.Memory) }
{
    let matches = ledgerd_command(alloc)?.try_get_matches_from(words)?;
    match matches.subcommand() {
        None => Ok(Command::Lists),
        Some((name, values)) => Ok(named(name, values)),
    }
}
