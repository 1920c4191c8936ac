//! The rowids of the next rows, kept in memory so that an insert need not seek the last row.

ghost use Rattle.std.specs.Prelude.{◌≡◌, ◌+ℤ◌, pos, [], Contains, IfSome};
ghost use Rattle.keyed_trees.specs.NextRowids.{Knows, without};

use std::alloc::Global;
use std::marker::Model;

/// The next rowid of some tables. A table that is missing here has to be read for its own.
#[derive(Drop)]
pub(crate) struct NextRowids {
    known: Vec<(u32, i64)>,
}

impl Model for NextRowids {
    ghost use Rattle.std.specs.Prelude.{List};
    ghost use Rattle.std.specs.Coded.{coded×, coded_list, coded_ℕ, coded_ℤ};
    ghost use Rattle.keyed_trees.specs.NextRowids.{NextRowid};

    ghost Value = { List NextRowid };

    ghost view = { λ n. n.known.items };
}

impl NextRowids {
    /// No table's next rowid is known.
    pub(crate) fn new(alloc: Global) -> NextRowids
        ensures { result ≡ [] }
    {
        NextRowids {
            known: Vec::new(alloc),
        }
    }

    pub(crate) fn get(&self, table: u32) -> Option<i64>
        ensures { IfSome result (λ id. Contains self.now (table, id)) }
    {
        for entry in &self.known {
            if entry.0 == table {
                return Some(entry.1);
            }
        }
        None
    }

    /// Notes that a row was added at this rowid, after all others of its table.
    pub(crate) fn pass(&mut self, table: u32, id: i64)
        ensures { Knows table (id +ℤ pos 1) self.old self.new }
    {
        match id.checked_add(1) {
            Some(next) => self.set(table, next),
            None => self.forget(table),
        }
    }

    /// Keeps the table's next rowid, where memory allows.
    fn set(&mut self, table: u32, id: i64)
        ensures { Knows table id self.old self.new }
    {
        self.forget(table);
        let _ = self.known.push((table, id));
    }

    pub(crate) fn forget(&mut self, table: u32)
        ensures { self.new ≡ without table self.old }
    {
        self.known.retain(|entry| entry.0 != table);
    }

    pub(crate) fn forget_all(&mut self)
        ensures { self.new ≡ [] }
    {
        self.known.clear();
    }
}
