//! A copy that is being made.

use crate::fault::CopyFault;
use crate::files::Files;
use crate::names::Names;
use crate::whole::write_back_at;

/// How many pieces of the database are copied in one turn of the first pass: 4 megabytes.
const COPIED: u32 = 32;

/// How many are compared in one turn of the second: 16 megabytes.
const COMPARED: u32 = 128;

/// What is done next of a copy, each in one turn or in several.
#[derive(Clone, Copy)]
enum Stage {
    /// The first pass copies the database, from this place on.
    First(u64),
    /// The second writes what has changed meanwhile, from this place on.
    Second(u64),
    /// All of the copy is made what both files are.
    Last,
    /// The copy's log is written back into its database.
    Join,
    /// The copy, which has this number of bytes, gets its name.
    Name(u64),
}

/// A copy of a ledger's two files, the database and its log, in one file. Until it is whole it
/// stands under a name that ends in `.part`, with a log beside it.
///
/// Two passes copy the database piece by piece, whatever is written meanwhile, so that they may mix
/// moments. Then one turn makes all of it what both files are at that moment. What is written to
/// them after that turn is no matter: the copy's own log is written back, and it gets its name.
#[derive(Drop)]
pub struct Copying {
    files: Files,
    names: Names,
    stage: Stage,
}

/// How far a copy has come.
#[derive(Drop)]
pub enum Progress {
    /// There is more to be done.
    More(Copying),
    /// It is made, and its files have so many bytes.
    Whole(u64),
}

impl Copying {
    /// Begins a copy of the database at a path, and of its log beside it, to another path. What was
    /// left there of one that was cut short is taken away.
    pub fn begin(rt: &HostRuntime, from: &str, to: &str) -> Result<Copying, CopyFault> {
        let names = Names::at(rt, to)?;
        if !names.are_free(rt)? {
            return Err(CopyFault::Exists);
        }
        match Files::open(rt, from, &names) {
            Ok(files) => Ok(Copying {
                files,
                names,
                stage: Stage::First(0),
            }),
            Err(fault) => {
                names.clear(rt);
                Err(fault)
            }
        }
    }

    /// Takes one more turn, during which nothing may be written to the ledger's files. Where it
    /// fails nothing of the copy is left.
    pub fn go_on(mut self, rt: &HostRuntime) -> Result<Progress, CopyFault> {
        match self.take_turn(rt) {
            Ok(None) => Ok(Progress::More(self)),
            Ok(Some(bytes)) => Ok(Progress::Whole(bytes)),
            Err(fault) => {
                self.abandon(rt);
                Err(fault)
            }
        }
    }

    // Does what comes next. Says how many bytes the copy has, once it is whole.
    fn take_turn(&mut self, rt: &HostRuntime) -> Result<Option<u64>, CopyFault> {
        self.stage = match self.stage {
            Stage::First(at) => self.copy_on(at)?,
            Stage::Second(at) => self.match_on(at)?,
            Stage::Last => {
                self.settle()?;
                Stage::Join
            }
            Stage::Join => Stage::Name(self.join(rt)?),
            Stage::Name(bytes) => {
                self.names.put_in_place(rt)?;
                return Ok(Some(bytes));
            }
        };
        Ok(None)
    }

    // Copies more of the database, and syncs it.
    fn copy_on(&mut self, from: u64) -> Result<Stage, CopyFault> {
        let mut at = from;
        let mut next = Stage::First(from);
        for _ in 0..COPIED {
            let count = self.files.copy_on(at)?;
            if count == 0 {
                next = Stage::Second(0);
                break;
            }
            at = at.saturating_add(count);
            next = Stage::First(at);
        }
        self.files.sync()?;
        Ok(next)
    }

    // Writes what has changed of more of it, and syncs that.
    fn match_on(&mut self, from: u64) -> Result<Stage, CopyFault> {
        let mut at = from;
        let mut next = Stage::Second(from);
        for _ in 0..COMPARED {
            let count = self.files.match_on(at)?;
            if count == 0 {
                next = Stage::Last;
                break;
            }
            at = at.saturating_add(count);
            next = Stage::Second(at);
        }
        self.files.sync()?;
        Ok(next)
    }

    // Makes the copy what both files are now.
    fn settle(&mut self) -> Result<(), CopyFault> {
        self.files.match_db()?;
        self.files.match_log()
    }

    // Writes the copy's log back, so that it is one file, which is synced. Says how many bytes it
    // has.
    fn join(&mut self, rt: &HostRuntime) -> Result<u64, CopyFault> {
        write_back_at(rt, self.names.part())?;
        self.files.sync()?;
        self.files.len()
    }

    // Makes all of the copy at once.
    fn make(&mut self, rt: &HostRuntime) -> Result<u64, CopyFault> {
        self.settle()?;
        let bytes = self.join(rt)?;
        self.names.put_in_place(rt)?;
        Ok(bytes)
    }

    /// Gives the copy up: nothing of it is left.
    pub fn abandon(self, rt: &HostRuntime) {
        self.names.clear(rt);
    }
}

/// Copies a ledger that nobody writes to. Says how many bytes the copy has.
pub fn copy_whole(rt: &HostRuntime, from: &str, to: &str) -> Result<u64, CopyFault> {
    let mut copying = Copying::begin(rt, from, to)?;
    match copying.make(rt) {
        Ok(bytes) => Ok(bytes),
        Err(fault) => {
            copying.abandon(rt);
            Err(fault)
        }
    }
}
