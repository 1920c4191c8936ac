//! Calls that are drawn, such as no rule of the tables refuses.

ghost use Rattle.std.specs.Prelude.{◌<◌};

use super::calls::{Call, Finding, Span, Stage, Within, Writing};

const NAMES: [&str; 4] = ["east", "west", "south", "north-west"];

/// What the calls that were drawn have left, as far as the next must know.
#[derive(Drop)]
pub struct Draws {
    seed: u64,
    in_transaction: bool,
    marks: u32,
    /// The time of the newest row, and the number of ids and digests that were given away.
    time: u32,
    ids: u32,
    digests: u8,
    tenants: u8,
    /// A call that has to come next: the history of a transfer, or a new tenant's clock.
    due: Option<Call>,
}

impl Draws {
    pub fn new(seed: u64) -> Draws {
        Draws {
            seed,
            in_transaction: false,
            marks: 0,
            time: 100,
            ids: 0,
            digests: 10,
            tenants: 0,
            due: None,
        }
    }

    /// A number below another.
    fn below(&mut self, bound: u64) -> u64
        requires { 0 < bound }
    {
        self.seed = self
            .seed
            .wrapping_mul(6_364_136_223_846_793_005)
            .wrapping_add(1_442_695_040_888_963_407);
        (self.seed >> 33) % bound
    }

    fn tenant(&mut self) -> i64 {
        if self.below(3) == 0 { 2 } else { 1 }
    }

    /// An id that some row may have.
    fn id(&mut self) -> u128 {
        u128::from(self.below(251))
    }

    /// An id that no row has. They do not rise.
    fn new_id(&mut self) -> u128 {
        self.ids = self.ids.wrapping_add(1);
        u128::from(self.ids).wrapping_mul(101) % 251
    }

    fn new_time(&mut self) -> u32 {
        self.time = self.time.wrapping_add(1);
        self.time
    }

    /// The next call.
    pub fn call(&mut self) -> Call {
        if let Some(due) = self.due {
            self.due = None;
            return due;
        }
        let choice = self.below(10);
        if choice < 3 {
            return self.find();
        }
        if choice < 5 {
            return self.read();
        }
        if choice == 5 {
            return Call::Take(self.stage());
        }
        if !self.in_transaction {
            return self.begin();
        }
        if choice == 6 {
            self.file()
        } else {
            self.write()
        }
    }

    fn begin(&mut self) -> Call {
        self.in_transaction = true;
        self.marks = 0;
        Call::Take(Stage::Begin)
    }

    fn stage(&mut self) -> Stage {
        if !self.in_transaction {
            return Stage::IsOpen;
        }
        match self.below(6) {
            0 => self.end(Stage::Commit),
            1 => self.end(Stage::Abandon),
            2 if self.marks > 0 => Stage::BackToMark,
            3 if self.marks > 0 => {
                self.marks -= 1;
                Stage::ReleaseMark
            }
            _ => {
                self.marks = self.marks.wrapping_add(1);
                Stage::Mark
            }
        }
    }

    fn end(&mut self, stage: Stage) -> Stage {
        self.in_transaction = false;
        stage
    }

    fn find(&mut self) -> Call {
        let tenant = self.tenant();
        let id = self.id();
        match self.below(9) {
            0 => Call::FindClock(tenant),
            1 => Call::FindTenant(id as u8),
            2 => Call::FindName(NAMES[id as usize % 4]),
            3 => Call::FindNumber(tenant),
            4 => Call::Find(Finding::Account, tenant, id),
            5 => Call::Find(Finding::Transfer, tenant, id),
            6 => Call::Find(Finding::Balance, tenant, id),
            7 => Call::Find(Finding::Status, tenant, id),
            _ => Call::Find(Finding::Failed, tenant, id),
        }
    }

    fn read(&mut self) -> Call {
        let tenant = self.tenant();
        let first = 100 + self.below(200) as i64;
        let last = first + self.below(100) as i64;
        let most = self.below(7) as u32;
        let account = u128::from(self.below(4));
        let within = Within { first, last, most };
        match self.below(6) {
            0 => Call::Read(Span::OldestAccounts, tenant, within),
            1 => Call::Read(Span::OldestTransfers, tenant, within),
            2 => Call::Read(Span::NewestAccounts, tenant, within),
            3 => Call::Read(Span::NewestTransfers, tenant, within),
            4 => Call::EntriesFrom(tenant, account, first, most),
            _ => Call::EntriesUntil(tenant, account, last, most),
        }
    }

    /// A write of the directory or of a clock.
    fn file(&mut self) -> Call {
        let tenant = self.tenant();
        if self.tenants < 4 && self.below(3) == 0 {
            return self.new_tenant();
        }
        if self.digests < 200 && self.below(2) == 0 {
            self.digests += 1;
            return Call::SetDigest(tenant, self.digests);
        }
        Call::SetClock(tenant, self.new_time())
    }

    fn new_tenant(&mut self) -> Call {
        let name = NAMES[usize::from(self.tenants) % 4];
        self.tenants = self.tenants.wrapping_add(1);
        self.digests = self.digests.wrapping_add(1);
        let number = 10 - i64::from(self.tenants);
        self.due = Some(Call::AddClock(number, self.new_time()));
        Call::AddTenant(number, name, self.digests)
    }

    fn write(&mut self) -> Call {
        let tenant = self.tenant();
        match self.below(8) {
            0 => Call::Write(Writing::Account, tenant, self.new_id(), self.new_time()),
            1 => Call::Write(Writing::Balance, tenant, self.new_id(), self.new_time()),
            2 => Call::Write(Writing::Status, tenant, self.new_id(), self.new_time()),
            3 => Call::Write(Writing::Failed, tenant, self.new_id(), self.new_time()),
            4 => Call::Write(Writing::SetBalance, tenant, self.id(), self.new_time()),
            5 => Call::Write(Writing::SetStatus, tenant, self.id(), self.new_time()),
            _ => {
                let (account, time) = (u128::from(self.below(4)), self.new_time());
                self.due = Some(Call::Write(Writing::History, tenant, account, time));
                Call::Write(Writing::Transfer, tenant, self.new_id(), time)
            }
        }
    }

    /// The call that ends an open transaction, with all of it kept.
    pub fn last(&self) -> Option<Call> {
        self.in_transaction.then_some(Call::Take(Stage::Commit))
    }
}
