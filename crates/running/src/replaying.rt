ghost use Rattle.std.specs.Prelude.{◌≡◌, List, IfOk, IfErr, OnOk};
ghost use Rattle.records.specs.Machine.{new_machine};
ghost use Rattle.running.specs.declared.entry.Entry.{Entry};
ghost use Rattle.running.specs.declared.replaying.ReplayFault.TheVariants.{Memory};
ghost use Rattle.running.specs.Entries.{AreNext, IsFirstRefused, machine_of, ReplayedIsValid, ValidReplays, FailedIdsStandApart};
ghost use Rattle.running.specs.Refused.{IfRefused};
ghost use Rattle.running.specs.Running.{IsRunning};
ghost use Rattle.running.specs.History.{IsToldMore};

use crate::source::Listed;
use crate::{Entry, EntrySource, HistoryTaker, Running};
use engine::valid_exactly_entry_by_entry;
use rows::read_in_order;
use std::alloc::{AllocError, Global};
use std::error::Error;
use std::fmt;

/// Why entries were not replayed.
#[derive(Clone, Copy, Debug, PartialEq, Eq)]
pub enum ReplayFault {
    /// The entry at this place, from 0, is not accepted behind those before it.
    Refused(usize),
    /// Memory ran out.
    Memory,
}

impl fmt::Display for ReplayFault {
    fn fmt<W: fmt::Write>(&self, f: &mut fmt::Formatter<W>) -> fmt::Result {
        match self {
            ReplayFault::Refused(place) => write!(f, "entry {place} is not accepted"),
            ReplayFault::Memory => write!(f, "out of memory"),
        }
    }
}

impl Error for ReplayFault {}

impl From<AllocError> for ReplayFault {
    ghost from_gives = { λ _ e. e ≡ Memory };

    fn from(_e: AllocError) -> ReplayFault {
        ReplayFault::Memory
    }
}

/// A tenant from its entries alone: each is judged by its own fields behind those before it, at its
/// own clock. The first that is not accepted is told by its place. The taker, who was told nothing
/// yet, is told the history of them all.
pub fn replay<H: HistoryTaker>(
    alloc: Global,
    entries: &[Entry],
    history: &mut H,
) -> Result<Running, ReplayFault>
    ensures accepted { IfOk result
        (λ r. AreNext new_machine entries.now × IsRunning (machine_of entries.now) r) }
    ensures told { OnOk result
        (IsToldMore H.told history.old history.new new_machine (machine_of entries.now)) }
    ensures refused { IfErr result
        (λ fault. IfRefused fault (IsFirstRefused new_machine entries.now)) }
{
    replay_from(alloc, &Listed(entries), history)
}

/// The same, of entries that are had one by one.
pub fn replay_from<S: EntrySource, H: HistoryTaker>(
    alloc: Global,
    source: &S,
    history: &mut H,
) -> Result<Running, ReplayFault>
    requires { (entries : List Entry) × S.has source.now entries }
    ensures accepted { IfOk result
        (λ r. (entries : List Entry) →
        S.has source.now entries →
        AreNext new_machine entries × IsRunning (machine_of entries) r) }
    ensures told { OnOk result
        ((entries : List Entry) →
        S.has source.now entries →
        IsToldMore H.told history.old history.new new_machine (machine_of entries)) }
    ensures refused { IfErr result
        (λ fault. IfRefused fault
        (λ place. (entries : List Entry) →
        S.has source.now entries → IsFirstRefused new_machine entries place)) }
{
    let mut running = Running::new(alloc);
    for place in 0..source.len() {
        let accepted = running.apply(&source.entry(place), history)?;
        if !accepted {
            return Err(ReplayFault::Refused(place));
        }
    }
    Ok(running)
}

/// What entries are replayed to is valid, at every clock that it can come to. It does nothing, as
/// the other laws.
pub fn replayed_is_valid()
    ensures { ReplayedIsValid }
{}

/// The accounts and transfers of a valid machine, in order of timestamp, are replayed to that
/// machine.
pub fn valid_replays()
    ensures { ValidReplays }
{
    valid_exactly_entry_by_entry();
    read_in_order::<Entry>();
}

/// Failed ids tell nothing of a machine's entries, so that they can be looked at apart.
pub fn failed_ids_stand_apart()
    ensures { FailedIdsStandApart }
{
    valid_exactly_entry_by_entry();
}
