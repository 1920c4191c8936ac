//! The help of the commands, and what other faults of a line print.

use super::command_lines::refused;
use crate::tests::asserting::holds;
use command_line::{LineFault, version_text};
use std::test::Fail;

static TOP_HELP: &str = "\
A double-entry ledger for several tenants

Usage: ledgerd [COMMAND]

Commands:
  serve       Answer requests over HTTP, on and on or until a number of replies was written
  tenant-add  Add a tenant; an absent or empty file becomes a new store
  tenant-key  Give a tenant another key; the one before is no longer good
  tenants     List the tenants, one line each: name, digest of the key, clock
  status      Tell the counts of the process that serves a store
  stop        Stop the process that serves a store, once it has answered what has come
  statement   Write an account's statement, one line an entry
  check       Audit a store: print ok, or the kind, tenant and place of the first damage
  migrate     Bring a store to a newer schema version
  copy        Copy a store as it is at one moment, also while it is served
  lint        Tell what the service would refuse of a body on standard input, and where
  version     Print the version of the program, of the schema and of the toolchain's logic, as \
--version does
  help        Print this message or the help of the given subcommand(s)

Options:
  -h, --help     Print help
  -V, --version  Print version

Without a command, ledgerd reads one body of transfers from standard input, answers it over lists \
in memory and prints the reply.
";

static SERVE_HELP: &str = "\
Answer requests over HTTP, on and on or until a number of replies was written

Usage: ledgerd serve [OPTIONS] --db <FILE> --port <N>

Options:
      --db <FILE>     The store's file, e.g. ledger.db
      --port <N>      The TCP port to listen on, below 65536, e.g. 8080
      --address <IP>  The IPv4 or IPv6 address of this machine to listen on [default: 127.0.0.1]
      --requests <N>  How many replies to write before ending, below 2^64 [default: no end]
      --standby       Wait while another process has the store, and serve once it lets go of it
      --clients <N>   The most clients at once, 1 to 100000 [default: 1000]
      --room <N>      Megabytes for all messages beyond 64 kB, 3 to 65536 [default: 256]
      --idle <N>      Seconds of silence between messages, 1 to 86400 [default: 75]
      --message <N>   Seconds for a message from its first byte on, 1 to 3600 [default: 10]
      --reply <N>     Seconds to take a reply, beside 1 for each 64 kB, 1 to 3600 [default: 10]
  -h, --help          Print help
";

static TENANT_ADD_HELP: &str = "\
Add a tenant; an absent or empty file becomes a new store

Usage: ledgerd tenant-add [OPTIONS] --db <FILE> --name <NAME>

Options:
      --db <FILE>    The store's file, e.g. ledger.db
      --name <NAME>  The tenant's name, 1 to 64 ASCII letters, digits or -, e.g. north-desk
      --key <HEX>    The tenant's key, 64 hexadecimal digits, or - [default: one is drawn]
  -h, --help         Print help

A key that is drawn is printed. With --key - it is read from standard input. A key on the command \
line stands in the list of processes, where others see it.
";

static STATUS_HELP: &str = "\
Tell the counts of the process that serves a store

Usage: ledgerd status [OPTIONS] --db <FILE>

Options:
      --db <FILE>   The store's file, e.g. ledger.db
      --prometheus  As metrics in the text format of Prometheus
  -h, --help        Print help
";

static STATEMENT_HELP: &str = "\
Write an account's statement, one line an entry

Usage: ledgerd statement [OPTIONS] --db <FILE> --tenant <NAME> --account <ID>

Options:
      --db <FILE>      The store's file, e.g. ledger.db
      --tenant <NAME>  The tenant's name, e.g. north-desk
      --account <ID>   The account's id in decimal, below 2^128, e.g. 1001
      --reversed       Newest entry first, in place of oldest first
      --from <TIME>    The first moment: a day of UTC, e.g. 2026-11-24, or nanoseconds since 1970
      --to <TIME>      The last moment: the end of a day of UTC, or nanoseconds since 1970
      --balances       The sums before the entries first, and those after them last
      --wide           The other account, pending id, code and user data of each entry, too
      --format <FORM>  csv, sheet (CSV whose digits a spreadsheet keeps) or json, one object a line
  -h, --help           Print help
";

static CHECK_HELP: &str = "\
Audit a store: print ok, or the kind, tenant and place of the first damage

Usage: ledgerd check --db <FILE>

Options:
      --db <FILE>  The store's file, e.g. ledger.db
  -h, --help       Print help

A store that is being served is in use: take a copy, and check that.
";

// Whether a fault is printed as this text.
fn is_printed_as(rt: &HostRuntime, fault: &LineFault, text: &str) -> Result<bool, Fail> {
    Ok(format!(in rt.alloc(); "{fault}")?.as_str() == text)
}

#[test]
fn prints_faults(rt: HostRuntime) -> Result<(), Fail> {
    let helps = [
        ("--help", TOP_HELP),
        ("serve --help", SERVE_HELP),
        ("tenant-add --help", TENANT_ADD_HELP),
        ("status --help", STATUS_HELP),
        ("statement --help", STATEMENT_HELP),
        ("check --help", CHECK_HELP),
    ];
    for (line, help) in helps {
        let fault = LineFault::Refused(refused(&rt, line)?);
        holds(&rt, line, is_printed_as(&rt, &fault, help)?);
    }
    assert!(rt; is_printed_as(&rt, &LineFault::Version, version_text())?);
    assert!(rt; is_printed_as(&rt, &LineFault::Memory, "unavailable")?);
    Ok(())
}
