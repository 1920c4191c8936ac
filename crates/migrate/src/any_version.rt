//! What an opening looks at in a file of any version.

use crate::older::examine_older;
use openings::auditing::Audit;
use openings::inspecting::Inspection;
use openings::opened::examine;
use openings::opening::OpenFault;
use openings::versions::{CURRENT_VERSION, find_version};
use sqlite::{Alter, Connection};
use std::alloc::Global;
use std::collections::BTreeMap;
use stored_ledgers::batches::DueSets;

/// What an opening found in a file.
#[derive(Drop)]
pub(crate) struct Examined {
    pub(crate) version: u32,
    /// What is due of each tenant, where the version is the current one.
    pub(crate) due: DueSets,
}

/// All that a file of any version holds is looked at.
#[derive(Drop)]
pub(crate) struct AnyVersion<'a, A: Audit> {
    pub(crate) audit: &'a A,
}

impl<A: Audit> Inspection for AnyVersion<'_, A> {
    type Found = Examined;

    ghost use Rattle.migrate.specs.Told.{TellsAny};
    ghost use Rattle.migrate.specs.Upgrading.{IsFoundIn, IsKnown};

    ghost known = { λ found. IsKnown found.version };

    ghost finds = { λ found db. IsFoundIn found db };

    ghost refuses = { λ fault db. TellsAny fault db };

    fn inspect<S: Alter>(
        &self,
        alloc: Global,
        conn: &mut Connection<S>,
    ) -> Result<Examined, OpenFault> {
        let version = find_version(alloc, conn)?;
        if version < CURRENT_VERSION {
            examine_older(alloc, conn, version, self.audit)?;
            return Ok(Examined {
                version,
                due: BTreeMap::new(alloc),
            });
        }
        let due = examine(alloc, conn, self.audit)?;
        Ok(Examined { version, due })
    }
}
