//! The words of the command line, read as commands.

use crate::tests::asserting::{holds, same};
use clap::error::ErrorKind;
use command_line::{Command, LimitWords, LineFault, StatementWords, command};
use std::test::Fail;

// Nothing but the whole statement.
const WHOLE: StatementWords<'static> = StatementWords {
    reversed: false,
    from: None,
    to: None,
    balances: false,
    wide: false,
    format: None,
};

// All limits as usual.
const USUAL: LimitWords = LimitWords {
    clients: None,
    room: None,
    idle: None,
    message: None,
    reply: None,
};

// Lines, and the commands that they are.
static READ: [(&str, Command<'static>); 25] = [
    ("", Command::Lists),
    (
        "serve --db l.db --port 8080 --requests 1000",
        Command::Serve {
            db: "l.db",
            address: None,
            port: 8080,
            requests: 1000,
            standby: false,
            limits: USUAL,
        },
    ),
    (
        "serve --db d --port 1 --address ::1 --requests=0",
        Command::Serve {
            db: "d",
            address: Some("::1"),
            port: 1,
            requests: 0,
            standby: false,
            limits: USUAL,
        },
    ),
    (
        "serve --port 0 --db=d",
        Command::Serve {
            db: "d",
            address: None,
            port: 0,
            requests: 18446744073709551615,
            standby: false,
            limits: USUAL,
        },
    ),
    (
        "serve --db d --port 65535 --requests 18446744073709551615",
        Command::Serve {
            db: "d",
            address: None,
            port: 65535,
            requests: 18446744073709551615,
            standby: false,
            limits: USUAL,
        },
    ),
    (
        "serve --db d --clients 1 --idle=86400 --port 1 --room 3 --reply 3600 --requests 2",
        Command::Serve {
            db: "d",
            address: None,
            port: 1,
            requests: 2,
            standby: false,
            limits: LimitWords {
                clients: Some(1),
                room: Some(3),
                idle: Some(86_400),
                reply: Some(3_600),
                ..USUAL
            },
        },
    ),
    (
        "tenant-add --db l.db --name north-desk --key 00ff",
        Command::AddTenant {
            db: "l.db",
            name: "north-desk",
            key: Some("00ff"),
        },
    ),
    (
        "tenant-add --name n --db d",
        Command::AddTenant {
            db: "d",
            name: "n",
            key: None,
        },
    ),
    (
        "tenant-key --key=00ff --name north-desk --db l.db",
        Command::ChangeKey {
            db: "l.db",
            name: "north-desk",
            key: Some("00ff"),
        },
    ),
    (
        "tenant-key --db d --key - --name n",
        Command::ChangeKey {
            db: "d",
            name: "n",
            key: Some("-"),
        },
    ),
    ("tenants --db l.db", Command::Tenants { db: "l.db" }),
    (
        "status --db l.db",
        Command::Status {
            db: "l.db",
            prometheus: false,
        },
    ),
    (
        "status --prometheus --db=d",
        Command::Status {
            db: "d",
            prometheus: true,
        },
    ),
    ("stop --db l.db", Command::Stop { db: "l.db" }),
    (
        "statement --db l.db --tenant north --account 1",
        Command::Statement {
            db: "l.db",
            tenant: "north",
            account: "1",
            asked: WHOLE,
        },
    ),
    (
        "statement --reversed --account=01 --tenant=-a --db=",
        Command::Statement {
            db: "",
            tenant: "-a",
            account: "01",
            asked: StatementWords {
                reversed: true,
                ..WHOLE
            },
        },
    ),
    (
        "statement --db d --tenant n --account 1 --wide --from 2026-11-24 --format=sheet --to 7",
        Command::Statement {
            db: "d",
            tenant: "n",
            account: "1",
            asked: StatementWords {
                from: Some("2026-11-24"),
                to: Some("7"),
                wide: true,
                format: Some("sheet"),
                ..WHOLE
            },
        },
    ),
    (
        "statement --db d --tenant n --account 1 --balances --from= --reversed",
        Command::Statement {
            db: "d",
            tenant: "n",
            account: "1",
            asked: StatementWords {
                reversed: true,
                from: Some(""),
                balances: true,
                ..WHOLE
            },
        },
    ),
    ("check --db l.db", Command::Check { db: "l.db" }),
    (
        "serve --db d --standby --port 1 --requests 2",
        Command::Serve {
            db: "d",
            address: None,
            port: 1,
            requests: 2,
            standby: true,
            limits: USUAL,
        },
    ),
    (
        "migrate --db l.db --to 3",
        Command::Migrate {
            db: "l.db",
            to: "3",
        },
    ),
    (
        "copy --to c.db --db l.db",
        Command::Copy {
            db: "l.db",
            to: "c.db",
        },
    ),
    ("lint", Command::Lint { route: None }),
    (
        "lint --route /accounts",
        Command::Lint {
            route: Some("/accounts"),
        },
    ),
    ("version", Command::Version),
];

// The table is named here alone, as each function that names it takes long to prove.
fn lines_read() -> &'static [(&'static str, Command<'static>)] {
    &READ
}

#[test]
fn reads_commands(rt: HostRuntime) -> Result<(), Fail> {
    for (line, want) in lines_read() {
        let words: Vec<&str> = line.split_whitespace().collect(rt.alloc())?;
        let told = command(rt.alloc(), words.as_slice())?;
        holds(&rt, line, told == *want);
    }
    Ok(())
}

// Lines that are refused, by the kind of the refusal.
const REFUSED: [(ErrorKind, &[&str]); 7] = [
    (
        ErrorKind::MissingRequiredArgument,
        &[
            "serve --port 1 --requests 2",
            "serve --db d --requests 2",
            "tenant-add --name n --key k",
            "tenant-add --db d --key k",
            "tenant-key --name n",
            "tenant-key --db d --key k",
            "tenants",
            "status --prometheus",
            "stop",
            "statement --tenant n --account 1",
            "statement --db d --account 1",
            "statement --db d --tenant n",
            "check",
            "migrate --to 3",
            "migrate --db d",
            "copy --db d",
        ],
    ),
    (
        ErrorKind::ArgumentConflict,
        &[
            "serve --db d --db d --port 1 --requests 2",
            "serve --db d --port 1 --port 1 --requests 2",
            "serve --db d --port 1 --address 1 --address 1",
            "serve --db d --port 1 --requests 2 --requests 2",
            "serve --db d --port 1 --requests 2 --idle 1 --idle 1",
            "tenant-add --db d --db d --name n --key k",
            "tenant-add --db d --name n --name n --key k",
            "tenant-add --db d --name n --key k --key k",
            "tenant-key --db d --name n --key k --key -",
            "status --db d --prometheus --prometheus",
            "statement --db d --db d --tenant n --account 1",
            "statement --db d --tenant n --tenant n --account 1",
            "statement --db d --tenant n --account 1 --account 1",
            "statement --db d --tenant n --account 1 --reversed --reversed",
            "statement --db d --tenant n --account 1 --from 1 --from 1",
            "statement --db d --tenant n --account 1 --to 1 --to=2",
            "statement --db d --tenant n --account 1 --balances --balances",
            "statement --db d --tenant n --account 1 --wide --wide",
            "statement --db d --tenant n --account 1 --format csv --format csv",
            "check --db d --db d",
            "migrate --db d --db d --to 3",
            "serve --db d --port 1 --standby --standby",
            "migrate --db d --to 3 --to 3",
            "lint --route a --route b",
        ],
    ),
    (
        ErrorKind::ValueValidation,
        &[
            "serve --db d --port 65536 --requests 0",
            "serve --db d --port http --requests 0",
            "serve --db d --port 0 --requests 18446744073709551616",
            "serve --db d --port 0 --requests 1 --clients 0",
            "serve --db d --port 0 --requests 1 --clients 100001",
            "serve --db d --port 0 --requests 1 --room 2",
            "serve --db d --port 0 --requests 1 --idle 86401",
            "serve --db d --port 0 --requests 1 --message 0",
            "serve --db d --port 0 --requests 1 --reply 1.5",
        ],
    ),
    (ErrorKind::InvalidSubcommand, &["audit --db d"]),
    (
        ErrorKind::UnknownArgument,
        &[
            "--db d",
            "check --db d --reversed",
            "check --db d --from 1",
            "check --db d e",
            "statement --db d --tenant n --account 1 --until 1",
            "check --db d --version",
            "tenants --db d --name n",
            "stop --db d --now",
            "lint --db d",
            "version --db x",
            "version x",
        ],
    ),
    (
        ErrorKind::InvalidValue,
        &[
            "check --db",
            "tenant-add --db d --name n --key",
            "serve --db d --port 1 --address",
            "statement --db d --tenant n --account 1 --from",
            "statement --db d --tenant n --account 1 --format",
            "lint --route",
        ],
    ),
    (
        ErrorKind::DisplayHelp,
        &[
            "-h",
            "help",
            "help serve",
            "help tenant-add",
            "help tenant-key",
            "help tenants",
            "help status",
            "help stop",
            "help statement",
            "help check",
            "help migrate",
            "help copy",
            "help lint",
            "help version",
            "--help",
            "serve --help",
            "tenant-add --help",
            "tenant-key --help",
            "tenants --help",
            "status --help",
            "stop --help",
            "statement --help",
            "check --help",
            "migrate --help",
            "copy --help",
            "lint --help",
            "version --help",
        ],
    ),
];

#[test]
fn refuses_other_lines(rt: HostRuntime) -> Result<(), Fail> {
    for (kind, lines) in REFUSED {
        for line in lines {
            same(&rt, line, refused(&rt, line)?.kind(), kind);
        }
    }
    Ok(())
}

#[test]
fn takes_a_call_for_the_version(rt: HostRuntime) {
    for word in ["--version", "-V"] {
        let words = [word];
        let told = command(rt.alloc(), &words);
        holds(&rt, word, matches!(told, Err(LineFault::Version)));
    }
}

// The refusal of a line.
pub(super) fn refused(rt: &HostRuntime, line: &str) -> Result<clap::Error, Fail> {
    let words: Vec<&str> = line.split_whitespace().collect(rt.alloc())?;
    match command(rt.alloc(), words.as_slice()) {
        Err(LineFault::Refused(error)) => Ok(error),
        _ => Err(Fail::new(format_args!("not refused: {line}"))),
    }
}
