/// What of a statement is asked for, and how it is to be written.
#[derive(Clone, Copy, Debug, PartialEq, Eq, Default, Drop)]
pub struct StatementWords<'a> {
    /// Newest entry first, in place of oldest first.
    pub reversed: bool,
    /// The first moment of the entries, where it was given.
    pub from: Option<&'a str>,
    /// Their last, likewise.
    pub to: Option<&'a str>,
    /// With the sums before the entries and behind them.
    pub balances: bool,
    /// With more of each entry's transfer.
    pub wide: bool,
    /// The form of the lines, where it was given.
    pub format: Option<&'a str>,
}

/// The least room for long messages, in megabytes.
pub const LEAST_ROOM: u64 = 3;

/// Which limits of the service were given. What was not is as usual.
#[derive(Clone, Copy, Debug, PartialEq, Eq, Default, Drop)]
pub struct LimitWords {
    /// The most clients at once, 1 to 100,000.
    pub clients: Option<u64>,
    /// How many megabytes the long messages may have together that are read at once, `LEAST_ROOM` to
    /// 65,536.
    pub room: Option<u64>,
    /// For how many seconds a client may be silent between messages, 1 to 86,400.
    pub idle: Option<u64>,
    /// How many seconds a message may take, 1 to 3,600.
    pub message: Option<u64>,
    /// How many seconds a reply may take, beside those for its length, 1 to 3,600.
    pub reply: Option<u64>,
}

/// What a command line asks of `ledgerd`. Texts stand as they were written: programs read names,
/// keys, ids and versions from them.
#[derive(Clone, Copy, Debug, PartialEq, Eq, Drop)]
pub enum Command<'a> {
    /// No words: the run over lists.
    Lists,
    /// Answer requests on `port` of `address`, that of 127.0.0.1 where none was given, until `requests`
    /// were answered, within `limits`. Where no number was given there is no end: `requests` is the
    /// greatest. With `standby` it waits while another process has the store.
    Serve {
        db: &'a str,
        address: Option<&'a str>,
        port: u16,
        requests: u64,
        standby: bool,
        limits: LimitWords,
    },
    /// Add a tenant, who is known by a key of 64 hexadecimal digits. Without one a key is drawn;
    /// where it is `-` the key is read from standard input.
    AddTenant {
        db: &'a str,
        name: &'a str,
        key: Option<&'a str>,
    },
    /// Give a tenant another key. It is drawn or read as that of a new tenant.
    ChangeKey {
        db: &'a str,
        name: &'a str,
        key: Option<&'a str>,
    },
    /// List the tenants.
    Tenants {
        db: &'a str,
    },
    /// Tell the counts of the service that serves a store, as metrics of Prometheus if `prometheus`.
    Status {
        db: &'a str,
        prometheus: bool,
    },
    /// Stop the service that serves a store.
    Stop {
        db: &'a str,
    },
    /// Write an account's statement.
    Statement {
        db: &'a str,
        tenant: &'a str,
        account: &'a str,
        asked: StatementWords<'a>,
    },
    /// Audit a store.
    Check {
        db: &'a str,
    },
    /// Bring a store to the schema `to`.
    Migrate {
        db: &'a str,
        to: &'a str,
    },
    /// Copy a store to the path `to`.
    Copy {
        db: &'a str,
        to: &'a str,
    },
    /// Tell what the service would refuse of a body, on the route that is given.
    Lint {
        route: Option<&'a str>,
    },
    /// Tell the version, as `--version` does.
    Version,
}
