//! The program on host files.
use super::files::Step::{
    Changes, Fills, Holds, IsPrivate, Lacks, LosesLog, Makes, Marks, Posts, Refuses, Says, Serves,
    Tells, Writes,
};
use super::files::{Step, remove, run_program, take_steps, tells};
use super::firms::KEY;
use command_texts::Fault;
use commands::program;
use records::Streamed;
use sqlite_disk::Unknown;
use std::test::Fail;

// The words that add a tenant. Its key is eight digits, eight times.
macro_rules! tenant_add {
    ($name:literal, $eight:literal) => {
        concat!(
            "tenant-add --name=", $name, " --key=", $eight, $eight, $eight, $eight, $eight, $eight,
            $eight, $eight
        )
    };
}

// The words that give a tenant another one, likewise.
macro_rules! tenant_key {
    ($name:literal, $eight:literal) => {
        concat!(
            "tenant-key --name=", $name, " --key=", $eight, $eight, $eight, $eight, $eight, $eight,
            $eight, $eight
        )
    };
}

// Of a file that is absent, and that no command makes.
const WORDS: [Step; 26] = [
    Tells("serve --port=1 --requests=1", 0, ""),
    Lacks("check"),
    Refuses("tenant-add --name=n_o --key=00", 2, "bad_name"),
    Refuses("tenant-add --name=-a --key=00", 2, "bad_key"),
    Refuses("tenant-key --name=n_o --key=00", 2, "bad_name"),
    Refuses("tenant-key --name=-a --key=00", 2, "bad_key"),
    Lacks(tenant_key!("a", "00000000")),
    Refuses("statement --tenant= --account=01", 2, "bad_name"),
    Refuses("statement --tenant=a --account=01", 2, "bad_account"),
    Refuses("statement --tenant=a --account=", 2, "bad_account"),
    Refuses("statement --tenant=a --account=+1", 2, "bad_account"),
    Refuses(
        "statement --tenant=a --account=340282366920938463463374607431768211456",
        2,
        "bad_account",
    ),
    Lacks("statement --tenant=a --account=340282366920938463463374607431768211455"),
    Lacks("statement --tenant=a --account=1"),
    Refuses(
        "statement --tenant=a --account=01 --from=1x",
        2,
        "bad_account",
    ),
    Refuses(
        "statement --tenant=a --account=1 --from=2023-02-29 --format=no",
        2,
        "bad_time",
    ),
    Refuses(
        "statement --tenant=a --account=1 --to=18446744073709551616",
        2,
        "bad_time",
    ),
    Refuses(
        "statement --tenant=a --account=1 --format=CSV",
        2,
        "bad_format",
    ),
    Refuses("migrate --to=", 2, "bad_version"),
    Refuses("migrate --to=0", 2, "bad_version"),
    Refuses("migrate --to=4", 2, "bad_version"),
    Refuses("migrate --to=01", 2, "bad_version"),
    Refuses("migrate --to=03", 2, "bad_version"),
    Lacks("migrate --to=1"),
    Lacks("migrate --to=3"),
    Lacks("check"),
];

#[test]
fn looks_at_words_before_files(rt: HostRuntime) -> Result<(), Fail> {
    for db in ["absent.db", "absent/a.db", ""] {
        take_steps(&rt, db, &WORDS)?;
    }
    Ok(())
}

// The logic is that of the README, with which `rt version` ends.
static VERSION: &str = "ledgerd 0.1.0\nschema 3\nrattle logic dac8208d650f15bf\n";

#[test]
fn tells_its_version(rt: HostRuntime) -> Result<(), Fail> {
    tells(&rt, "--version", 0, VERSION, "")?;
    tells(&rt, "version", 0, VERSION, "")?;
    tells(&rt, "-V", 0, VERSION, "")
}

// What `main` does itself.
#[test]
fn does_nothing_for_no_words(rt: HostRuntime) -> Result<(), Fail> {
    tells(&rt, "", 0, "", "")
}

const REFUSED: [(&str, &str); 3] = [
    (
        "check",
        "error: the following required arguments were not provided:\n  --db <FILE>\n",
    ),
    ("audit", "error: unrecognized subcommand 'audit'\n"),
    ("--help", "A double-entry ledger for several tenants\n"),
];

#[test]
fn refuses_words_as_clap_does(rt: HostRuntime) -> Result<(), Fail> {
    for (line, beginning) in REFUSED {
        let mut out = [0u8; 1];
        let (status, told) = run_program(&rt, line, Streamed::new(out.as_mut_slice()))?;
        assert_eq!(rt; (status, out[0]), (2, 0), "of {line}");
        assert!(rt;
            told.as_slice().starts_with(beginning.as_bytes()),
            "of {line}"
        );
    }
    Ok(())
}

const ADDED: [Step; 9] = [
    Makes(tenant_add!("-a", "00000000"), "added -a\n"),
    IsPrivate,
    // The file alone is the ledger.
    LosesLog,
    Refuses(tenant_add!("-a", "01010101"), 1, "name_taken"),
    Refuses(tenant_add!("b", "00000000"), 1, "digest_taken"),
    Refuses(tenant_add!("-a", "00000000"), 1, "name_taken"),
    Tells(tenant_add!("b", "01010101"), 0, "added b\n"),
    LosesLog,
    Holds("tenants 2 accounts 0 transfers 0 clock 0"),
];

const KEYED: [Step; 10] = [
    Makes(tenant_add!("a", "00000000"), "added a\n"),
    Tells(tenant_add!("b", "01010101"), 0, "added b\n"),
    Tells(tenant_key!("a", "02020202"), 0, "changed a\n"),
    Tells(tenant_key!("a", "02020202"), 0, "changed a\n"),
    Refuses(tenant_key!("a", "01010101"), 1, "digest_taken"),
    Refuses(tenant_key!("c", "01010101"), 1, "no_tenant"),
    Refuses(tenant_add!("c", "02020202"), 1, "digest_taken"),
    // Nobody has the first key any more.
    Tells(tenant_add!("c", "00000000"), 0, "added c\n"),
    Refuses(tenant_key!("a", "00000000"), 1, "digest_taken"),
    Holds("tenants 3 accounts 0 transfers 0 clock 0"),
];

const EMPTY: [Step; 7] = [
    Writes(b""),
    Refuses("check", 4, "not_a_ledger"),
    Refuses("statement --tenant=a --account=1", 4, "not_a_ledger"),
    Refuses(tenant_key!("a", "00000000"), 4, "not_a_ledger"),
    Refuses("migrate --to=3", 4, "not_a_ledger"),
    Makes(tenant_add!("a", "00000000"), "added a\n"),
    Holds("tenants 1 accounts 0 transfers 0 clock 0"),
];

// A database without tables, as a making that was cut short leaves one.
const BLANK: [Step; 6] = [
    Changes("CREATE TABLE note (id INTEGER PRIMARY KEY) STRICT"),
    Changes("DROP TABLE note"),
    Refuses("check", 4, "not_a_ledger"),
    Makes(tenant_add!("a", "00000000"), "added a\n"),
    Holds("tenants 1 accounts 0 transfers 0 clock 0"),
    Refuses(tenant_add!("a", "01010101"), 1, "name_taken"),
];

const STATEMENTS: [Step; 6] = [
    Posts,
    Tells(
        "statement --tenant=a --account=1",
        0,
        statement_text!(
            "5,100,debit,pending,100,100,0,0,0\n",
            "6,101,debit,post,40,0,40,0,0\n"
        ),
    ),
    Tells(
        "statement --tenant=a --account=1 --reversed",
        0,
        statement_text!(
            "6,101,debit,post,40,0,40,0,0\n",
            "5,100,debit,pending,100,100,0,0,0\n"
        ),
    ),
    Tells("statement --tenant=a --account=3", 0, statement_text!()),
    Refuses("statement --tenant=b --account=1", 1, "no_tenant"),
    Refuses("statement --tenant=a --account=9", 1, "no_account"),
];

// The tenant that cannot be told is added all the same, and the key changed.
const FULL: [Step; 12] = [
    Posts,
    Fills("check", "o"),
    Fills("statement --tenant=a --account=1", "ti"),
    Fills("statement --tenant=a --account=1", statement_text!()),
    Fills("statement --tenant=a --account=3", "ti"),
    Fills("statement --tenant=a --account=1 --wide", "ti"),
    Fills("migrate --to=3", "schema "),
    Fills(tenant_add!("b", "01010101"), "added b"),
    Refuses(tenant_add!("b", "02020202"), 1, "name_taken"),
    Refuses(tenant_add!("c", "01010101"), 1, "digest_taken"),
    Fills(tenant_key!("b", "03030303"), "changed b"),
    Refuses(tenant_add!("c", "03030303"), 1, "digest_taken"),
];

const WRONG: [Step; 21] = [
    Posts,
    Holds("tenants 1 accounts 4 transfers 2 clock 6"),
    Changes("UPDATE balance SET dd = dp WHERE dd <> dp"),
    Tells(
        "check",
        4,
        "damaged 4 66687aadf862bd776c8fc18b8e9f8e20089714856ee233b3902a591d0d5f2925 0\n",
    ),
    Refuses(tenant_add!("b", "00000000"), 4, "damaged"),
    Refuses("statement --tenant=a --account=1", 4, "damaged"),
    Refuses("migrate --to=3", 4, "damaged"),
    Changes("UPDATE schema SET version = 2"),
    Refuses("check", 4, "old_schema"),
    Refuses(tenant_add!("b", "00000000"), 4, "old_schema"),
    Refuses("statement --tenant=a --account=1", 4, "old_schema"),
    Changes("UPDATE schema SET version = 4"),
    Refuses("check", 4, "newer_schema"),
    Refuses(tenant_add!("b", "00000000"), 4, "newer_schema"),
    Refuses("statement --tenant=a --account=1", 4, "newer_schema"),
    Refuses("migrate --to=3", 4, "newer_schema"),
    Changes("DELETE FROM schema"),
    Refuses("check", 4, "not_a_ledger"),
    Refuses(tenant_add!("b", "00000000"), 4, "not_a_ledger"),
    Refuses("statement --tenant=a --account=1", 4, "not_a_ledger"),
    Refuses("migrate --to=3", 4, "not_a_ledger"),
];

const BEHIND: &str = concat!(
    "behind\nanswered commits are missing: put back the file and the log that were served last; ",
    "to go on without them, remove FILE-sums"
);

// The clock of 'posted in part' is 6.
const LACKING: [Step; 13] = [
    Posts,
    Marks(6),
    Holds("tenants 1 accounts 4 transfers 2 clock 6"),
    Marks(7),
    Refuses("check", 4, BEHIND),
    Refuses("tenants", 4, BEHIND),
    Refuses(tenant_add!("b", "00000000"), 4, BEHIND),
    Refuses("statement --tenant=a --account=1", 4, BEHIND),
    Refuses("migrate --to=3", 4, BEHIND),
    Serves(0, Some(Fault::Behind)),
    Marks(6),
    Serves(0, None),
    Holds("tenants 1 accounts 4 transfers 2 clock 6"),
];

// A new ledger lacks nothing, whatever was marked of one that stood there before.
const REPLACED: [Step; 4] = [
    Writes(&[]),
    Marks(7),
    Makes(tenant_add!("a", "00000000"), "added a\n"),
    Holds("tenants 1 accounts 0 transfers 0 clock 0"),
];

const NOISE: [Step; 5] = [
    Writes(&[255; 100]),
    Refuses("check", 4, "unreadable"),
    Refuses(tenant_add!("a", "00000000"), 4, "unreadable"),
    Refuses("statement --tenant=a --account=1", 4, "unreadable"),
    Refuses("migrate --to=3", 4, "unreadable"),
];

const NOTES: [Step; 5] = [
    Changes("CREATE TABLE note (id INTEGER PRIMARY KEY) STRICT"),
    Refuses("check", 4, "not_a_ledger"),
    Refuses(tenant_add!("a", "00000000"), 4, "not_a_ledger"),
    Refuses("statement --tenant=a --account=1", 4, "not_a_ledger"),
    Refuses("migrate --to=3", 4, "not_a_ledger"),
];

// Nothing is made at a name that is taken for no path, and the system would refuse nothing there.
const NO_PATH: [Step; 2] = [
    Refuses(tenant_add!("a", "00000000"), 4, "unreadable"),
    Lacks("check"),
];

// Nor where the system makes no file.
const NO_FOLDER: [Step; 2] = [Lacks(tenant_add!("a", "00000000")), Lacks("check")];

#[test]
fn makes_nothing_at_no_path(rt: HostRuntime) -> Result<(), Fail> {
    for db in [":memory:", "file:made.db"] {
        take_steps(&rt, db, &NO_PATH)?;
    }
    for db in ["absent/a.db", ""] {
        take_steps(&rt, db, &NO_FOLDER)?;
    }
    Ok(())
}

// A tenant's digest is that of its key, 32 bytes of 0 (FIPS 180-4).
const SAYING: [Step; 3] = [
    Posts,
    Says(
        "tenants",
        concat!(
            "name,digest,clock\n",
            "a,66687aadf862bd776c8fc18b8e9f8e20089714856ee233b3902a591d0d5f2925,6\n"
        ),
        "tenants 1 accounts 4 transfers 2 clock 6",
    ),
    Holds("tenants 1 accounts 4 transfers 2 clock 6"),
];

// Version 2 has the tables of version 3 but the last.
const OLDER: [Step; 12] = [
    Posts,
    Changes("DROP TABLE failed"),
    Changes("UPDATE schema SET version = 2"),
    Refuses("check", 4, "old_schema"),
    Refuses("migrate --to=1", 4, "newer_schema"),
    Tells("migrate --to=2", 0, "schema 2\n"),
    LosesLog,
    Tells("migrate --to=3", 0, "schema 3\n"),
    LosesLog,
    Holds("tenants 1 accounts 4 transfers 2 clock 6"),
    Tells("migrate --to=3", 0, "schema 3\n"),
    Refuses("migrate --to=2", 4, "newer_schema"),
];

#[test]
fn makes_ledgers_and_writes_to_them(rt: HostRuntime) -> Result<(), Fail> {
    take_steps(&rt, "added.db", &ADDED)?;
    take_steps(&rt, "keyed.db", &KEYED)?;
    take_steps(&rt, "empty.db", &EMPTY)?;
    take_steps(&rt, "blank.db", &BLANK)?;
    take_steps(&rt, "statement.db", &STATEMENTS)?;
    take_steps(&rt, "replaced.db", &REPLACED)?;
    take_steps(&rt, "saying.db", &SAYING)?;
    take_steps(&rt, "full.db", &FULL)
}

#[test]
fn tells_what_is_wrong_with_a_file(rt: HostRuntime) -> Result<(), Fail> {
    take_steps(&rt, "wrong.db", &WRONG)?;
    take_steps(&rt, "lacking.db", &LACKING)?;
    take_steps(&rt, "noise.db", &NOISE)?;
    take_steps(&rt, "notes.db", &NOTES)?;
    take_steps(&rt, "older.db", &OLDER)
}

const MEMORY: [&str; 2] = ["memory.db", "memory.db-wal"];

// Whichever allocation is refused, a tenant is added, or it is told that memory ran out.
#[test]
fn tells_want_of_memory(rt: HostRuntime) {
    remove(&rt, MEMORY);
    let mut out = [0u8; 32];
    let mut room = [0u8; 32];
    let mut err = Streamed::new(room.as_mut_slice());
    let words = ["tenant-add", "--db=memory.db", "--name=a", "--key", KEY];
    let written = Streamed::new(out.as_mut_slice());
    let status = program(&rt, words.as_slice(), Unknown, written, &mut err);
    if status == 0 {
        assert!(rt; out.starts_with(b"added a\n") && room.starts_with(b"new ledger memory.db\n"));
    } else {
        assert!(rt; status == 3 && out[0] == 0 && room.starts_with(b"ledgerd: unavailable\n"));
    }
    remove(&rt, MEMORY);
}
