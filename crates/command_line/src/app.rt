//! `ledgerd` as `clap` sees it: the subcommands, their options and their help.
ghost use Rattle.std.specs.Prelude.{IfOk};
ghost use Rattle.command_line.specs.Ledgerd.{check_shape, copy_shape, counted_serve_app, db_rule, flag_rule};
ghost use Rattle.command_line.specs.Ledgerd.{ledgerd_app, limit_rule, lint_shape, migrate_shape};
ghost use Rattle.command_line.specs.Ledgerd.{option_rule, port_rule, program, serve_shape};
ghost use Rattle.command_line.specs.Ledgerd.{statement_shape, status_shape, stop_shape, store_app};
ghost use Rattle.command_line.specs.Ledgerd.{tenant_shape, tenants_shape, text_rule};
ghost use Rattle.command_line.specs.Ledgerd.{version_shape, whole_statement_app};
ghost use Rattle.command_line.specs.Built.{HasArg, HasCommand, IsLeaf, IsLocalArg, IsProgram};

use crate::{LEAST_ROOM, version_text};
use clap::builder::ValueParser;
use clap::{Arg, ArgAction, value_parser};
use std::alloc::{AllocError, Global};

static LISTS_HELP: &str = "Without a command, ledgerd reads one body of transfers from standard \
    input, answers it over lists in memory and prints the reply.";

static ADDRESS_HELP: &str =
    "The IPv4 or IPv6 address of this machine to listen on [default: 127.0.0.1]";

static REQUESTS_HELP: &str =
    "How many replies to write before ending, below 2^64 [default: no end]";

static CLIENTS_HELP: &str = "The most clients at once, 1 to 100000 [default: 1000]";

static ROOM_HELP: &str = "Megabytes for all messages beyond 64 kB, 3 to 65536 [default: 256]";

static IDLE_HELP: &str = "Seconds of silence between messages, 1 to 86400 [default: 75]";

static MESSAGE_HELP: &str = "Seconds for a message from its first byte on, 1 to 3600 [default: 10]";

static REPLY_HELP: &str =
    "Seconds to take a reply, beside 1 for each 64 kB, 1 to 3600 [default: 10]";

static STANDBY_HELP: &str =
    "Wait while another process has the store, and serve once it lets go of it";

static SERVED_HELP: &str = "A store that is being served is in use: take a copy, and check that.";

static COPY_HELP: &str = "Where the copy is to stand; nothing may be there, nor at PATH-wal";

static NAME_HELP: &str = "The tenant's name, 1 to 64 ASCII letters, digits or -, e.g. north-desk";

static ADD_ABOUT: &str = "Add a tenant; an absent or empty file becomes a new store";

static KEY_HELP: &str = "The tenant's key, 64 hexadecimal digits, or - [default: one is drawn]";

static OTHER_KEY_ABOUT: &str = "Give a tenant another key; the one before is no longer good";

static OTHER_KEY_HELP: &str =
    "The tenant's new key, 64 hexadecimal digits, or - [default: one is drawn]";

static KEYS_HELP: &str = "A key that is drawn is printed. With --key - it is read from standard \
    input. A key on the command line stands in the list of processes, where others see it.";

static ROUTE_HELP: &str =
    "The path to which the body would be posted, e.g. /accounts [default: /transfers]";

// `--name VALUE`, which its command must have.
fn text_option<'a>(alloc: Global, name: &'a str, value: &'a str, help: &'a str) -> Arg<'a>
    ensures { IsLocalArg (text_rule name.entry.now) result }
{
    Arg::new(alloc, name)
        .long(name)
        .value_name(value)
        .required(true)
        .help(help)
}

// `--port N`, which its command must have.
fn port_option<'a>(alloc: Global) -> Arg<'a>
    ensures { IsLocalArg port_rule result }
{
    let help = "The TCP port to listen on, below 65536, e.g. 8080";
    text_option(alloc, "port", "N", help).value_parser(value_parser!(u16))
}

fn db_option<'a>(alloc: Global) -> Arg<'a>
    ensures { IsLocalArg db_rule result }
{
    text_option(alloc, "db", "FILE", "The store's file, e.g. ledger.db")
}

// `--name`, which may be left out.
fn flag<'a>(alloc: Global, name: &'a str, help: &'a str) -> Arg<'a>
    ensures { IsLocalArg (flag_rule name.entry.now) result }
{
    Arg::new(alloc, name)
        .long(name)
        .action(ArgAction::SetTrue)
        .help(help)
}

// `--name VALUE`, which may be left out.
fn free_option<'a>(alloc: Global, name: &'a str, value: &'a str, help: &'a str) -> Arg<'a>
    ensures { IsLocalArg (option_rule name.entry.now) result }
{
    Arg::new(alloc, name)
        .long(name)
        .value_name(value)
        .help(help)
}

// The same, of a number within bounds.
fn limit_option<'a>(alloc: Global, name: &'a str, least: u64, most: u64, help: &'a str) -> Arg<'a>
    ensures { IsLocalArg (limit_rule name.entry.now least most) result }
{
    free_option(alloc, name, "N", help).value_parser(ValueParser::unsigned(least, most))
}

// The program without its subcommands. Its name is told to `clap`, since the words are without it.
fn named_command<'a>(alloc: Global) -> Result<clap::Command<'a>, AllocError>
    ensures { IfOk result (IsProgram program) }
{
    clap::Command::new(alloc, "ledgerd")
        .about("A double-entry ledger for several tenants")
        .version(version_text())
        .after_help(LISTS_HELP)
        .no_binary_name(true)
        .bin_name("ledgerd")
}

// A subcommand with the store's file, which wants its other options.
fn store_command<'a>(
    alloc: Global,
    name: &'a str,
    about: &'a str,
) -> Result<clap::Command<'a>, AllocError>
    ensures { IfOk result (IsProgram (store_app name.entry.now)) }
{
    clap::Command::new(alloc, name)
        .about(about)
        .arg(db_option(alloc))
}

// A command with an argument more, where it was made.
fn with_arg<'a>(
    command: Result<clap::Command<'a>, AllocError>,
    arg: Arg<'a>,
) -> Result<clap::Command<'a>, AllocError>
    ensures { IfOk result (HasArg command.entry arg.entry) }
{
    command?.arg(arg)
}

// A command with a subcommand more, where both were made.
fn with_command<'a>(
    command: Result<clap::Command<'a>, AllocError>,
    subcommand: Result<clap::Command<'a>, AllocError>,
) -> Result<clap::Command<'a>, AllocError>
    ensures { IfOk result (HasCommand command.entry subcommand.entry) }
{
    command?.subcommand(subcommand?)
}

// The command that serves: where, and how long.
fn counted_serve_command<'a>(alloc: Global) -> Result<clap::Command<'a>, AllocError>
    ensures { IfOk result (IsProgram counted_serve_app) }
{
    let about = "Answer requests over HTTP, on and on or until a number of replies was written";
    let command = with_arg(store_command(alloc, "serve", about), port_option(alloc));
    let command = with_arg(command, free_option(alloc, "address", "IP", ADDRESS_HELP));
    let requests = limit_option(alloc, "requests", 0, u64::MAX, REQUESTS_HELP);
    let command = with_arg(command, requests);
    with_arg(command, flag(alloc, "standby", STANDBY_HELP))
}

fn serve_command<'a>(alloc: Global) -> Result<clap::Command<'a>, AllocError>
    ensures { IfOk result (IsLeaf serve_shape) }
{
    let command = counted_serve_command(alloc);
    let clients = limit_option(alloc, "clients", 1, 100_000, CLIENTS_HELP);
    let command = with_arg(command, clients);
    let room = limit_option(alloc, "room", LEAST_ROOM, 65_536, ROOM_HELP);
    let command = with_arg(command, room);
    let command = with_arg(command, limit_option(alloc, "idle", 1, 86_400, IDLE_HELP));
    let message = limit_option(alloc, "message", 1, 3_600, MESSAGE_HELP);
    let command = with_arg(command, message);
    with_arg(command, limit_option(alloc, "reply", 1, 3_600, REPLY_HELP))
}

// A command about a tenant, whose key it takes.
fn tenant_command<'a>(
    alloc: Global,
    name: &'a str,
    about: &'a str,
    key: &'a str,
) -> Result<clap::Command<'a>, AllocError>
    ensures { IfOk result (IsLeaf (tenant_shape name.entry.now)) }
{
    store_command(alloc, name, about)?
        .after_help(KEYS_HELP)
        .arg(text_option(alloc, "name", "NAME", NAME_HELP))?
        .arg(free_option(alloc, "key", "HEX", key))
}

fn tenants_command<'a>(alloc: Global) -> Result<clap::Command<'a>, AllocError>
    ensures { IfOk result (IsLeaf tenants_shape) }
{
    let about = "List the tenants, one line each: name, digest of the key, clock";
    store_command(alloc, "tenants", about)
}

fn status_command<'a>(alloc: Global) -> Result<clap::Command<'a>, AllocError>
    ensures { IfOk result (IsLeaf status_shape) }
{
    let about = "Tell the counts of the process that serves a store";
    store_command(alloc, "status", about)?.arg(flag(
        alloc,
        "prometheus",
        "As metrics in the text format of Prometheus",
    ))
}

fn stop_command<'a>(alloc: Global) -> Result<clap::Command<'a>, AllocError>
    ensures { IfOk result (IsLeaf stop_shape) }
{
    let about = "Stop the process that serves a store, once it has answered what has come";
    store_command(alloc, "stop", about)
}

// A statement's command with what it must have, and the order of its entries.
fn whole_statement_command<'a>(alloc: Global) -> Result<clap::Command<'a>, AllocError>
    ensures { IfOk result (IsProgram whole_statement_app) }
{
    let about = "Write an account's statement, one line an entry";
    let command = store_command(alloc, "statement", about);
    let tenant = text_option(
        alloc,
        "tenant",
        "NAME",
        "The tenant's name, e.g. north-desk",
    );
    let command = with_arg(command, tenant);
    let account = "The account's id in decimal, below 2^128, e.g. 1001";
    let command = with_arg(command, text_option(alloc, "account", "ID", account));
    let reversed = "Newest entry first, in place of oldest first";
    with_arg(command, flag(alloc, "reversed", reversed))
}

fn statement_command<'a>(alloc: Global) -> Result<clap::Command<'a>, AllocError>
    ensures { IfOk result (IsLeaf statement_shape) }
{
    let command = whole_statement_command(alloc);
    let from = "The first moment: a day of UTC, e.g. 2026-11-24, or nanoseconds since 1970";
    let command = with_arg(command, free_option(alloc, "from", "TIME", from));
    let to = "The last moment: the end of a day of UTC, or nanoseconds since 1970";
    let command = with_arg(command, free_option(alloc, "to", "TIME", to));
    let balances = "The sums before the entries first, and those after them last";
    let command = with_arg(command, flag(alloc, "balances", balances));
    let wide = "The other account, pending id, code and user data of each entry, too";
    let command = with_arg(command, flag(alloc, "wide", wide));
    let format = "csv, sheet (CSV whose digits a spreadsheet keeps) or json, one object a line";
    with_arg(command, free_option(alloc, "format", "FORM", format))
}

fn check_command<'a>(alloc: Global) -> Result<clap::Command<'a>, AllocError>
    ensures { IfOk result (IsLeaf check_shape) }
{
    let about = "Audit a store: print ok, or the kind, tenant and place of the first damage";
    Ok(store_command(alloc, "check", about)?.after_help(SERVED_HELP))
}

fn migrate_command<'a>(alloc: Global) -> Result<clap::Command<'a>, AllocError>
    ensures { IfOk result (IsLeaf migrate_shape) }
{
    store_command(alloc, "migrate", "Bring a store to a newer schema version")?.arg(text_option(
        alloc,
        "to",
        "V",
        "The schema version to bring the store to, e.g. 3",
    ))
}

fn copy_command<'a>(alloc: Global) -> Result<clap::Command<'a>, AllocError>
    ensures { IfOk result (IsLeaf copy_shape) }
{
    let about = "Copy a store as it is at one moment, also while it is served";
    store_command(alloc, "copy", about)?.arg(text_option(alloc, "to", "PATH", COPY_HELP))
}

fn lint_command<'a>(alloc: Global) -> Result<clap::Command<'a>, AllocError>
    ensures { IfOk result (IsLeaf lint_shape) }
{
    let about = "Tell what the service would refuse of a body on standard input, and where";
    clap::Command::new(alloc, "lint")
        .about(about)
        .arg(free_option(alloc, "route", "PATH", ROUTE_HELP))
}

fn version_command<'a>(alloc: Global) -> clap::Command<'a>
    ensures { IsLeaf version_shape result }
{
    let about = "Print the version of the program, of the schema and of the toolchain's logic, as \
        --version does";
    clap::Command::new(alloc, "version").about(about)
}

/// The whole command line, which reads the words after the program's name.
pub fn ledgerd_command<'a>(alloc: Global) -> Result<clap::Command<'a>, AllocError>
    ensures { IfOk result (IsProgram ledgerd_app) }
{
    let app = with_command(named_command(alloc), serve_command(alloc));
    let adding = tenant_command(alloc, "tenant-add", ADD_ABOUT, KEY_HELP);
    let app = with_command(app, adding);
    let keying = tenant_command(alloc, "tenant-key", OTHER_KEY_ABOUT, OTHER_KEY_HELP);
    let app = with_command(app, keying);
    let app = with_command(app, tenants_command(alloc));
    let app = with_command(app, status_command(alloc));
    let app = with_command(app, stop_command(alloc));
    let app = with_command(app, statement_command(alloc));
    let app = with_command(app, check_command(alloc));
    let app = with_command(app, migrate_command(alloc));
    let app = with_command(app, copy_command(alloc));
    let app = with_command(app, lint_command(alloc));
    with_command(app, Ok(version_command(alloc)))
}
