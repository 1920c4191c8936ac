//! Firms whose ledgers are kept in memory.
ghost use Rattle.std.specs.Prelude.{◌≡◌};

mod playing;
mod talks;
mod turns;

use chain::InUse;
use plain::{Book, PlainTables};
use records::Streamed;
use service::{Moments, serve};
use std::alloc::Global;
use tenants::{Key, digest};

/// Gives the same moment again and again.
#[derive(Drop)]
struct Always(u64);

impl Moments for Always {
    ghost gives = { λ old moment new. moment ≡ old.0 };

    fn moment(&mut self) -> u64 {
        self.0
    }
}

/// The ledgers of several firms.
pub(crate) struct Firms {
    alloc: Global,
    ledgers: InUse<Book>,
}

// It is written out, so that who lets firms go does not prove again how each part is dropped.
impl Drop for Firms {
    fn drop(self) {
        let Firms {
            alloc: _,
            ledgers: _,
        } = self;
    }
}

impl Firms {
    /// No firm yet.
    pub(crate) fn new(alloc: Global) -> Firms {
        Firms {
            alloc,
            ledgers: InUse {
                backend: Book::new(alloc),
            },
        }
    }

    /// Firms with these keys.
    pub(crate) fn with(alloc: Global, keys: &[&str]) -> Result<Firms, &'static str> {
        let mut firms = Firms::new(alloc);
        for key in keys {
            firms.add(key)?;
        }
        Ok(firms)
    }

    /// Adds a firm, unless it is there.
    pub(crate) fn add(&mut self, key: &str) -> Result<(), &'static str> {
        let digest = digest(&Key::read(key.as_bytes()).ok_or("no key")?);
        if self.ledgers.backend.holds(&digest) {
            return Ok(());
        }
        self.ledgers
            .backend
            .add(digest, PlainTables::new(self.alloc))
            .map_err(|_| "no memory")
    }

    /// What a connection is written that sends this and nothing else.
    pub(crate) fn serve_alone(&mut self, sent: &[u8]) -> Vec<u8> {
        let mut reader = Streamed::new(sent);
        let mut writer = Streamed::new(Vec::new(self.alloc));
        let _ = serve(
            self.alloc,
            &mut self.ledgers,
            &mut reader,
            &mut writer,
            &mut Always(1000),
            99,
        );
        writer.into_inner()
    }
}
