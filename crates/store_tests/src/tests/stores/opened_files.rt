//! Files that are no ledger, or a changed one, and why they are not opened. Those of a ledger are
//! opened again, and it goes on.

use super::playing::{play_from_base, play_from_nothing};

/// One tenant, and 'posted in part'.
const POSTED: &str = "\
File create => made
North add 1 => Ok(())
North accounts 1; 2; 3 flags=10; 4 => clock 4: 0@1 0@2 0@3 0@4
North transfers 100: 1>2 100 pending; 101: post=100 40; 102: post=100 60 => clock 7: 0@5 0@6 32@7";

/// One change of each kind of damage, each behind what puts the one before it right.
const DAMAGES: &str = "\
File sql DELETE FROM clock => Ok(())
File open => damage 1 of 1 at 0
File sql INSERT INTO clock (tenant, clock) VALUES (1, 7); \
UPDATE account SET code = 65536 WHERE timestamp = 3 => Ok(())
File open => damage 1 of 1 at 2
File sql UPDATE account SET code = 10; \
UPDATE transfer SET timestamp = 4 WHERE timestamp = 6 => Ok(())
File open => damage 2 of 1 at 1
File sql UPDATE transfer SET timestamp = 6 WHERE timestamp = 4; \
UPDATE transfer SET amount = x'00000000000000000000000000000065' WHERE timestamp = 6 => Ok(())
File open => damage 3 of 1 at 1
File sql UPDATE transfer SET amount = x'00000000000000000000000000000028' WHERE timestamp = 6; \
UPDATE balance SET dd = x'00000000000000000000000000000029' WHERE dd > cc => Ok(())
File open => damage 4 of 1 at 0
File sql UPDATE balance SET dd = x'00000000000000000000000000000028' WHERE dd > cc; \
UPDATE status SET state = 0 => Ok(())
File open => damage 5 of 1 at 0
File sql UPDATE status SET state = 1; \
UPDATE history SET cp = x'00000000000000000000000000000063' WHERE cp > dp => Ok(())
File open => damage 6 of 1 at 2
File sql UPDATE history SET cp = x'00000000000000000000000000000064' WHERE cp > dp; \
UPDATE clock SET clock = 3 => Ok(())
File open => damage 7 of 1 at 0
File sql UPDATE clock SET clock = 7; \
INSERT INTO failed (tenant, id) VALUES (1, x'00000000000000000000000000000065') => Ok(())
File open => damage 8 of 1 at 0";

/// One change more each time, of a kind before those of the others, which is told. In the end all
/// is right, and 'a post retried' goes on.
const MORE_DAMAGE: &str = "\
File sql UPDATE clock SET clock = 3; \
INSERT INTO failed (tenant, id) VALUES (1, x'00000000000000000000000000000065') => Ok(())
File open => damage 7 of 1 at 0
File sql UPDATE history SET cp = x'00000000000000000000000000000063' WHERE cp > dp => Ok(())
File open => damage 6 of 1 at 2
File sql UPDATE status SET state = 0 => Ok(())
File open => damage 5 of 1 at 0
File sql UPDATE balance SET dd = x'00000000000000000000000000000029' WHERE dd > cc => Ok(())
File open => damage 4 of 1 at 0
File sql UPDATE transfer SET amount = x'00000000000000000000000000000065' WHERE timestamp = 6 \
=> Ok(())
File open => damage 3 of 1 at 1
File sql UPDATE transfer SET timestamp = 4 WHERE timestamp = 6 => Ok(())
File open => damage 2 of 1 at 1
File sql DELETE FROM clock => Ok(())
File open => damage 1 of 1 at 0
File sql INSERT INTO clock (tenant, clock) VALUES (1, 7); DELETE FROM failed; \
UPDATE transfer SET timestamp = 6 WHERE timestamp = 4; \
UPDATE transfer SET amount = x'00000000000000000000000000000028' WHERE timestamp = 6; \
UPDATE balance SET dd = x'00000000000000000000000000000028' WHERE dd > cc; \
UPDATE status SET state = 1; \
UPDATE history SET cp = x'00000000000000000000000000000064' WHERE cp > dp => Ok(())
File open => opened
North transfers 101: post=100 40; 101: post=100 41 => clock 9: 18@8 12@9
North see 1 => Ok((Some([0, 40, 0, 0]), Some(Posted), 9))";

#[test]
fn a_changed_ledger_is_not_opened(rt: HostRuntime) {
    play_from_nothing(&rt, rt.alloc(), &[POSTED, DAMAGES]);
}

#[test]
fn the_first_damage_is_told(rt: HostRuntime) {
    play_from_nothing(&rt, rt.alloc(), &[POSTED, MORE_DAMAGE]);
}

/// The table of failed ids, behind which 101 is accepted and the second of those that failed would
/// be damage.
const FAILED: &str = "\
North transfers 100: 9>2 10 => clock 5: 44@5
North accounts 9 => clock 6: 0@6
North transfers 101: 9>2 10; 102: post=77 5 => clock 8: 0@7 24@8
North transfers 104: 3>2 1 => clock 9: 55@9
File open => opened
North rows failed => 3 rows: 100 102 104
File sql INSERT INTO failed (tenant, id) VALUES (1, x'00000000000000000000000000000065') => Ok(())
File open => damage 8 of 1 at 1
File sql DELETE FROM failed WHERE id = x'00000000000000000000000000000065' => Ok(())
File open => opened
North transfers 104: 1>2 1 => clock 10: 60@10";

/// Other versions and other tables, each behind what puts the one before it right; a stranger's
/// table behind the ledger's is not looked at.
const OTHER_LEDGERS: &str = "\
File sql UPDATE schema SET version = 4 => Ok(())
File open => NewerSchema
File sql UPDATE schema SET version = 2 => Ok(())
File open => OldSchema
File sql UPDATE schema SET version = 1 => Ok(())
File open => OldSchema
File sql UPDATE schema SET version = 0 => Ok(())
File open => NotALedger
File sql DELETE FROM schema => Ok(())
File open => NotALedger
File sql INSERT INTO schema (one, version) VALUES (1, 3); UPDATE tenant SET name = 'a b' => Ok(())
File open => NotALedger
File sql UPDATE tenant SET name = 'North'; \
CREATE TABLE loan (tenant INTEGER REFERENCES tenant (no)) => Ok(())
File open => Unreadable
File sql DROP TABLE loan; CREATE TABLE shelf (book TEXT) => Ok(())
File audit-without-memory => Unavailable(Memory)
File open => opened
North transfers 101: post=100 40; 101: post=100 41 => clock 9: 18@8 12@9
File create => NotALedger
File sql DROP TABLE failed => Ok(())
File open => NotALedger";

#[test]
fn other_ledgers_are_not_opened(rt: HostRuntime) {
    play_from_base(&rt, rt.alloc(), FAILED);
    play_from_nothing(&rt, rt.alloc(), &[POSTED, OTHER_LEDGERS]);
}

/// Files of 0 bytes, a stranger's, and noise.
const OTHER_FILES: &str = "\
File open => NotALedger
File sql CREATE TABLE shelf (book TEXT) => Ok(())
File open => NotALedger
File create => Unreadable
File sql CREATE TABLE schema (version INTEGER) => Ok(())
File open => Unreadable
File noise => closed
File open => Unreadable
File create => Unreadable";

/// A tenant that has rows and is not in the directory: the database keeps it there.
const WITHOUT_A_TENANT: &str = "\
File sql DELETE FROM tenant => Err(SqliteFailure(ConstraintViolation(ForeignKey)))
File open => opened
North transfers 100: 1>2 10 => clock 5: 0@5";

#[test]
fn other_files_are_no_ledger(rt: HostRuntime) {
    play_from_nothing(&rt, rt.alloc(), &[OTHER_FILES]);
    play_from_base(&rt, rt.alloc(), WITHOUT_A_TENANT);
}
