//! Runs a list of steps.
ghost use Rattle.std.specs.Prelude.{◌≡◌, IfOk, OnErr};
ghost use Rattle.std.specs.List.{AllZip};
ghost use Rattle.whole_runs.specs.Reopenings.{StepMakes, HasNamed, HasRun, RunsThrough, EndsInOrder};
ghost use Rattle.whole_runs.specs.Reopenings.{IsAnswerTo, OpensNothing, StaysFailed};

use crate::reopening::Reopening;
use crate::steps::{Answer, Step};
use std::alloc::Global;
use wire::NoMemory;

// Runs one step.
fn run_step<L: Reopening>(alloc: Global, ledgers: &mut L, step: &Step) -> Answer
    ensures makes { StepMakes L.means L.names L.refuses ledgers.old step.now result ledgers.new }
    ensures answer { IsAnswerTo step.now result }
    ensures failed { StaysFailed L.has_failed ledgers.old step.now ledgers.new }
{
    match step {
        Step::Request(bytes, moment) => {
            Answer::Replied(ledgers.reply_to(alloc, bytes.as_slice(), *moment))
        }
        Step::Round(messages) => {
            Answer::Round(ledgers.reply_to_round(alloc, messages.as_slice()))
        }
        Step::AddTenant(name, digest) => Answer::Added(ledgers.join(name, digest)),
        Step::ChangeKey(name, digest) => Answer::Keyed(ledgers.change_key(name, digest)),
        Step::Reopen => Answer::Reopened(ledgers.open_again()),
    }
}

/// Runs steps in turn, each with one answer. After a reopening that is refused the next step is
/// run.
///
/// As long as the disk is honest, each tenant's replies other than `unavailable` and its machine
/// are those of its own requests alone: of those that were answered, and of those that were not and
/// that the next opening finds done. So the names of tenants, and their digests, are those of the
/// joinings and changes of keys that were done, and of those that are found done. The course
/// begins anew at the last reopening that the database's own opening refused, so that nothing
/// stands (`Refused`). The same holds at each moment of the run, of the steps up to there. From a
/// fault on nothing changes until a reopening, so nothing that is asked in between is found done.
///
/// Room for all answers is made first: where memory lacks for it, no step is run.
pub fn run_all<L: Reopening>(
    alloc: Global,
    ledgers: &mut L,
    steps: &[Step],
) -> Result<Vec<Answer>, NoMemory>
    ensures run { L.means.is_live ledgers.old → IfOk result (λ answers.
        HasRun L.means ledgers.old steps.now answers.items ledgers.new) }
    ensures through { L.means.is_live ledgers.old → IfOk result (λ answers.
        RunsThrough L.means L.names L.has_failed L.refuses ledgers.old steps.now answers.items
        ledgers.new) }
    ensures named { L.means.is_live ledgers.old → IfOk result (λ answers.
        HasNamed L.means L.names ledgers.old steps.now answers.items ledgers.new) }
    ensures failed { L.has_failed ledgers.old → OpensNothing steps.now
        → ledgers.new ≡ ledgers.old }
    ensures answered { IfOk result (λ answers. AllZip IsAnswerTo steps.now answers.items) }
    ensures unrun { OnErr result (ledgers.new ≡ ledgers.old) }
    ensures ends { EndsInOrder L.means L.names ledgers.new }
{
    ledgers.is_settled();
    let mut answers = Vec::with_capacity(alloc, steps.len())?;
    for step in steps {
        let answer = run_step(alloc, ledgers, step);
        ledgers.is_settled();
        answers.push_reserved(answer);
    }
    Ok(answers)
}
