//! A store: the ledgers of many tenants in two files.

ghost use Rattle.std.specs.Prelude.{◌≡◌, Err, is_some, IfOk, IfErr, OnErr};
ghost use Rattle.records.specs.declared.unavailable.Unavailable.TheVariants.{Disk as DiskFailed};
ghost use Rattle.chain.specs.Ledgers.{IsRun, KeepsAll};
ghost use Rattle.chain.specs.declared.ledgers.BatchFault.TheVariants.{Unavailable as AreUnavailable};
ghost use Rattle.sqlite.specs.Files.{image_of};
ghost use Rattle.stored_ledgers.specs.Outcomes.{IsAfterBatch, KeepsTables};
ghost use Rattle.sqlite_wal.specs.Reads.{AreClean};
ghost use Rattle.ledger_sql.specs.Creating.{IsEmptyLedger};
ghost use Rattle.stored_ledgers.specs.Directory.{digest_in};
ghost use Rattle.openings.specs.Calls.{AreUsable};
ghost use Rattle.openings.specs.Found.{FindsNoSchema};
ghost use Rattle.openings.specs.OpenTables.{open_state};
ghost use Rattle.stored_ledgers.specs.Listing.{AreListed};
ghost use Rattle.stored_ledgers.specs.Joining.{HasJoined, Joined};
ghost use Rattle.stored_ledgers.specs.Keying.{HasKeyed, Keyed};
ghost use Rattle.openings.specs.Refused.{RefusesToMake};
ghost use Rattle.stored_ledgers.specs.Resting.{IsServing};
ghost use Rattle.stored_ledgers.specs.Rounds.{IsAfterRound};
ghost use Rattle.service.specs.Courses.{Tried};
ghost use Rattle.service.specs.Deeds.{Joined as DeedJoined, Keyed as DeedKeyed};
ghost use Rattle.service.specs.Openings.{Moves, run_meaning};
ghost use Rattle.store.specs.Deeds.{IsKeyTried, ending_of, key_ending};
ghost use Rattle.store.specs.Names.{digest_named};
ghost use Rattle.store.specs.Refused.{RefusesToOpen};
ghost use Rattle.store.specs.StoreLaws.{store_meaning};
ghost use Rattle.store.specs.Stores.{IsLive, IsHonest, IsOpenedOn, AnswersCalls, IsStoreOver, tenants_of, GivesBack, IsUsable, Goes, OfDatabase, OfDatabases, IsSettledStore, AnswersUnless, ReadsStore};
ghost use Rattle.openings.specs.Whole.{AreAllRows, AreRowsOfDigest};

use crate::place::Place;
use chain::{BatchFault, RoundWork, Work};
use openings::auditing::Audit;
use openings::creating::create_ledger;
use openings::ledgers::open_ledger;
use openings::open_tables::{OpenTables, give_back, is_settled};
use openings::opening::OpenFault;
use openings::versions::CURRENT_VERSION;
use openings::whole_rows::{all_rows, rows_of};
use records::Unavailable;
use rows::{AllRows, TenantRows};
use sqlite::{Files, Options};
use sqlite_disk::Disk;
use std::alloc::Global;
use std::collections::BTreeMap;
use stored_ledgers::batches::{DueSets, batch_answer, in_batch};
use stored_ledgers::directory::{ListedTenant, digest_of, knows, tenants};
use stored_ledgers::joining::{AddTenant, join, joining_answer};
use stored_ledgers::keying::{ChangeKey, change_key, keying_answer};
use stored_ledgers::laws::{joining_adds_one, keying_moves_key};
use stored_ledgers::probe::is_disk_fault;
use stored_ledgers::rounds::in_round;
use tenants::TenantName;

/// The ledgers of many tenants in one database, in two files: a log and the database file. From a
/// fault of the disk on each call but `schema`, `is_ready`, `reopen` and `close` answers so.
pub struct Store<D: Disk> {
    pub(crate) place: Place<D>,
    /// Whether calls are answered.
    pub(crate) ready: bool,
    pub(crate) due: DueSets,
    /// How the files were opened, and are opened again.
    pub(crate) options: Options,
    pub(crate) alloc: Global,
}

// It is written out, so that who lets a store go does not prove again how each part is dropped.
impl<D: Disk + Drop> Drop for Store<D> {
    fn drop(self) {
        let Store {
            place: _,
            ready: _,
            due: _,
            options: _,
            alloc: _,
        } = self;
    }
}

impl<D: Disk + Drop> Store<D> {
    /// Makes a ledger without tenants in files that hold no tables yet. Refused, they are given
    /// back: `NotALedger` where a table of a ledger is there, `Unreadable` where others are.
    pub fn create(
        alloc: Global,
        files: Files<D>,
        options: Options,
    ) -> Result<Store<D>, (OpenFault, Files<D>)>
        requires { AreUsable D.Disk files }
        ensures usable { IfOk result IsUsable }
        ensures ready { IfOk result AnswersCalls }
        ensures empty { IfOk result (λ store. IsHonest store → IsLive store
            × OfDatabase (λ db. IsEmptyLedger db.trees) store) }
        ensures blank { IfOk result (λ store. IsHonest store
            → FindsNoSchema (image_of D.Disk files)) }
        ensures honest { IfOk result (λ store. IsHonest store
            → AreClean D.Disk files.log files.db) }
        ensures refused { IfErr result (RefusesToMake D.Disk files) }
    {
        let tables = create_ledger(alloc, files, options)?;
        Ok(Store::over(alloc, tables, BTreeMap::new(alloc), options))
    }

    /// Opens the ledger in two files, once all of it was looked at. Refused, they are given back.
    pub fn open<A: Audit>(
        alloc: Global,
        files: Files<D>,
        options: Options,
        audit: &A,
    ) -> Result<Store<D>, (OpenFault, Files<D>)>
        requires { AreUsable D.Disk files }
        ensures usable { IfOk result IsUsable }
        ensures ready { IfOk result AnswersCalls }
        ensures opened { IfOk result (λ store. IsHonest store
            → IsOpenedOn (image_of D.Disk files) store) }
        ensures honest { IfOk result (λ store. IsHonest store
            → AreClean D.Disk files.log files.db) }
        ensures refused { IfErr result (RefusesToOpen D.Disk files) }
    {
        match open_ledger(alloc, files, options, audit) {
            Ok((tables, due)) => Ok(Store::over(alloc, tables, due, options)),
            Err((refused, left)) => Err((refused.fault, left)),
        }
    }

    /// A store over a database that is open, whose ledgers were looked at and are the current
    /// version's. The sets have what is due of each tenant.
    pub fn over(alloc: Global, tables: OpenTables<D>, due: DueSets, options: Options) -> Store<D>
        requires { IsServing due (open_state tables) }
        ensures usable { IsUsable result }
        ensures ready { AnswersCalls result }
        ensures over { IsStoreOver tables result }
    {
        Store {
            place: Place::Open(tables),
            ready: true,
            due,
            options,
            alloc,
        }
    }

    /// The version of the schema that the ledger has.
    pub fn schema(&self) -> u32
        ensures { result ≡ CURRENT_VERSION }
    {
        CURRENT_VERSION
    }

    /// Whether calls are answered: not from a fault of the disk on, until the store is reopened.
    pub fn is_ready(&self) -> bool
        ensures { result ≡ self.now.ready }
    {
        self.ready
    }

    /// A law: while the store is open, a crash leaves what is there, and nothing else.
    pub fn is_settled(&self)
        ensures { IsSettledStore self.now }
    {
        if let Place::Open(tables) = &self.place {
            is_settled(tables);
        }
    }

    /// Ends the store, and gives its files back, to be opened again.
    pub fn close(self) -> Files<D>
        ensures back { GivesBack self result }
        ensures honest { AreClean D.Disk result.log result.db → IsHonest self }
    {
        let Store {
            place,
            ready: _,
            due: _due,
            options: _,
            alloc: _,
        } = self;
        match place {
            Place::Open(tables) => give_back(tables),
            Place::Shut(files) => files,
        }
    }

    /// Whether a tenant has this digest.
    pub fn knows(&mut self, digest: &[u8; 32]) -> Result<bool, Unavailable>
        requires { IsUsable self.old }
        ensures value { IsLive self.new → IfOk result (λ known.
            known ≡ is_some (tenants_of self.old digest.now)) }
        ensures reads { ReadsStore self.old self.new result }
    {
        if !self.ready {
            return Err(Unavailable::Disk);
        }
        let Place::Open(tables) = &mut self.place else {
            return Err(Unavailable::Disk);
        };
        let known = knows(tables, digest);
        self.ready = !is_disk_fault(&known);
        known
    }

    /// All rows, tenant by tenant, as the file has them.
    pub fn all_rows(&mut self) -> Result<AllRows, Unavailable>
        requires { IsUsable self.old }
        ensures value { IsLive self.new → IfOk result (λ rows. OfDatabase
            (λ db. AreAllRows CURRENT_VERSION db.trees rows) self.old) }
        ensures reads { ReadsStore self.old self.new result }
    {
        if !self.ready {
            return Err(Unavailable::Disk);
        }
        let Place::Open(tables) = &mut self.place else {
            return Err(Unavailable::Disk);
        };
        let rows = all_rows(self.alloc, tables, CURRENT_VERSION);
        self.ready = !is_disk_fault(&rows);
        rows
    }

    /// The rows of the tenant with this digest, if there is one. No other tenant's are read.
    pub fn rows_of(&mut self, digest: &[u8; 32]) -> Result<Option<TenantRows>, Unavailable>
        requires { IsUsable self.old }
        ensures value { IsLive self.new → IfOk result (λ rows. OfDatabase
            (λ db. AreRowsOfDigest CURRENT_VERSION digest.now db.trees rows) self.old) }
        ensures reads { ReadsStore self.old self.new result }
    {
        if !self.ready {
            return Err(Unavailable::Disk);
        }
        let Place::Open(tables) = &mut self.place else {
            return Err(Unavailable::Disk);
        };
        let rows = rows_of(self.alloc, tables, CURRENT_VERSION, digest);
        self.ready = !is_disk_fault(&rows);
        rows
    }

    /// The digest of the tenant with this name.
    pub fn digest_of(&mut self, name: &TenantName) -> Result<Option<[u8; 32]>, Unavailable>
        requires { IsUsable self.old }
        ensures value { IsLive self.new → IfOk result (λ digest.
            OfDatabase (λ db. digest ≡ digest_in name.now db.trees) self.old) }
        ensures reads { ReadsStore self.old self.new result }
    {
        if !self.ready {
            return Err(Unavailable::Disk);
        }
        let Place::Open(tables) = &mut self.place else {
            return Err(Unavailable::Disk);
        };
        let digest = digest_of(tables, name);
        self.ready = !is_disk_fault(&digest);
        digest
    }

    /// All tenants, by name. Of the tables only the directory and the clocks are read.
    pub fn tenants(&mut self) -> Result<Vec<ListedTenant>, Unavailable>
        requires { IsUsable self.old }
        ensures value { IsLive self.new → IfOk result (λ tenants. OfDatabase
            (λ db. AreListed db.trees tenants.items) self.old) }
        ensures reads { ReadsStore self.old self.new result }
    {
        if !self.ready {
            return Err(Unavailable::Disk);
        }
        let Place::Open(tables) = &mut self.place else {
            return Err(Unavailable::Disk);
        };
        let listed = tenants(self.alloc, tables);
        self.ready = !is_disk_fault(&listed);
        listed
    }

    /// Adds a tenant, whose machine is a new one.
    pub fn add_tenant(&mut self, name: &TenantName, digest: &[u8; 32]) -> Result<(), AddTenant>
        requires { IsUsable self.old }
        ensures told { IsLive self.new → OfDatabases
            (λ old new. HasJoined name.now digest.now old new result) self.old self.new }
        ensures finds { Goes self.old self.new (λ db. OfDatabase
            (λ old. Joined name.now digest.now old db) self.old) }
        ensures answers { AnswersUnless (AddTenant.Unavailable DiskFailed)
            self.old self.new result }
        ensures moves { Moves (run_meaning store_meaning.ledgers) self.old
            (Tried (DeedJoined digest.now) (ending_of result)) self.new }
    {
        joining_adds_one();
        if !self.ready {
            return Err(AddTenant::Unavailable(Unavailable::Disk));
        }
        let Place::Open(tables) = &mut self.place else {
            return Err(AddTenant::Unavailable(Unavailable::Disk));
        };
        let joined = join(self.alloc, tables, &mut self.due, name, digest);
        self.ready = !is_disk_fault(&joined);
        self.is_settled();
        joining_answer(joined)
    }

    /// Gives the tenant with this name the key of this digest, under which its machine stands from
    /// then on, and no longer under the one before. The same key again changes nothing.
    pub fn change_key(&mut self, name: &TenantName, digest: &[u8; 32]) -> Result<(), ChangeKey>
        requires { IsUsable self.old }
        ensures told { IsLive self.new → OfDatabases
            (λ old new. HasKeyed name.now digest.now old new result) self.old self.new }
        ensures finds { Goes self.old self.new (λ db. OfDatabase
            (λ old. Keyed name.now digest.now old db) self.old) }
        ensures answers { AnswersUnless (ChangeKey.Unavailable DiskFailed)
            self.old self.new result }
        ensures moves { IsKeyTried (run_meaning store_meaning.ledgers) self.old digest.now result self.new }
        ensures whose { Moves (run_meaning store_meaning.ledgers) self.old
            (Tried (DeedKeyed (digest_named self.old name.now) digest.now) (key_ending result))
            self.new }
    {
        keying_moves_key();
        if !self.ready {
            return Err(ChangeKey::Unavailable(Unavailable::Disk));
        }
        let Place::Open(tables) = &mut self.place else {
            return Err(ChangeKey::Unavailable(Unavailable::Disk));
        };
        let keyed = change_key(tables, &mut self.due, name, digest);
        self.ready = !is_disk_fault(&keyed);
        self.is_settled();
        keying_answer(keyed)
    }

    /// Runs a batch of work on the tables of the tenant with this digest, and keeps all or nothing.
    pub fn in_batch<W: Work + Drop>(
        &mut self,
        digest: &[u8; 32],
        work: W,
    ) -> Result<W::Output, BatchFault>
        requires { IsUsable self.old }
        ensures run { IsLive self.new → IsRun (W.gives work) digest.now (tenants_of self.old)
            (tenants_of self.new) result }
        ensures tables { IsLive self.new → OfDatabases KeepsTables self.old self.new }
        ensures finds { Goes self.old self.new (λ db. OfDatabase
            (λ old. IsAfterBatch (W.gives work) digest.now old db) self.old) }
        ensures answers { AnswersUnless (AreUnavailable DiskFailed) self.old self.new result }
    {
        if !self.ready {
            return Err(BatchFault::Unavailable(Unavailable::Disk));
        }
        let Place::Open(tables) = &mut self.place else {
            return Err(BatchFault::Unavailable(Unavailable::Disk));
        };
        let done = in_batch(tables, &mut self.due, digest, work);
        self.ready = !is_disk_fault(&done);
        batch_answer(done)
    }

    /// Does the work of a round, and keeps all of it or nothing. After `Unavailable` nothing has
    /// changed; only where the disk failed may the next opening find the whole round.
    pub fn in_round<W: RoundWork + Drop>(&mut self, work: W) -> Result<W::Output, Unavailable>
        requires { IsUsable self.old }
        ensures run { IsLive self.new → IfOk result (λ output. W.gives work
            (tenants_of self.old) output (tenants_of self.new)) }
        ensures same { IsLive self.new → OnErr result
            (KeepsAll (tenants_of self.old) (tenants_of self.new)) }
        ensures tables { IsLive self.new → OfDatabases KeepsTables self.old self.new }
        ensures finds { Goes self.old self.new (λ db. OfDatabase
            (λ old. IsAfterRound (W.gives work) old db) self.old) }
        ensures answers { AnswersUnless DiskFailed self.old self.new result }
    {
        if !self.ready {
            return Err(Unavailable::Disk);
        }
        let Place::Open(tables) = &mut self.place else {
            return Err(Unavailable::Disk);
        };
        let ran = in_round(self.alloc, tables, &mut self.due, work);
        self.ready = !is_disk_fault(&ran);
        ran
    }
}
