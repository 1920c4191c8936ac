//! Failed ids that cannot have failed.

ghost use Rattle.std.specs.Prelude.{◌<◌, Option, IfSome};
ghost use Rattle.std.specs.Bool.{Decides};
ghost use Rattle.records.specs.Machine.{Machine};
ghost use Rattle.records.specs.Valid.{IsNextFailed};
ghost use Rattle.running.specs.Running.{IsRunning};
ghost use Rattle.audit.specs.Order.{IsFirstPlace};
ghost use Rattle.audit.specs.Table.{IsGoodFailed, IsBadFailed};

use running::Running;

/// The first place of such an id, in a version that keeps failed ids or does not.
pub(crate) fn first_bad_failed(version: u32, failed: &[u128], running: &Running) -> Option<usize>
    ensures { (m : Machine) →
        IsRunning m running.now → IsFirstPlace (IsBadFailed version m failed.now) result }
{
    let mut before = None;
    for (place, id) in failed.iter().enumerate() {
        if !is_good(version, running, before, *id) {
            return Some(place);
        }
        before = Some(*id);
    }
    None
}

fn is_good(version: u32, running: &Running, before: Option<u128>, id: u128) -> bool
    ensures { (m : Machine) →
        IsRunning m running.now → Decides result (IsGoodFailed version m before id) }
{
    3 <= version && can_fail(running, id) && is_above(before, id)
}

fn can_fail(running: &Running, id: u128) -> bool
    ensures { (m : Machine) → IsRunning m running.now → Decides result (IsNextFailed m id) }
{
    0 < id && id < u128::MAX && running.transfer(id).is_none()
}

fn is_above(before: Option<u128>, id: u128) -> bool
    ensures { Decides result (IfSome before (λ other. other < id)) }
{
    match before {
        Some(other) => other < id,
        None => true,
    }
}
