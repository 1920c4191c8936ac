//! Steps of a desk and its callers, and what they must come to.
use super::scene::{at, calls, hears, is_told, sends};
use command_texts::{Fault, key_digest};
use control::{Call, Desk, Order};
use std::io::Write;
use std::net::Shutdown;
use std::os::unix::net::UnixStream;
use std::test::Fail;

/// A step. Callers have the places at which they connected, and a moment is so many seconds behind
/// the beginning.
#[derive(Clone, Copy, Debug)]
pub(super) enum Step {
    /// Somebody calls.
    Calls(Call<'static>),
    /// Somebody connects and sends a text.
    Sends(&'static str),
    /// A caller sends more.
    SendsOn(usize, &'static str),
    /// A caller sends so many bytes more.
    SendsMany(usize, usize),
    /// A caller sends no more.
    Shuts(usize),
    /// At a moment what this call asks for is ordered, or nothing.
    Orders(u64, Option<Call<'static>>),
    /// Who waits is answered.
    Answers(u64, Result<&'static str, Fault>),
    /// Who waits for a copy is answered.
    AnswersCopy(u64, Result<&'static str, Fault>),
    IsBusy(bool),
    /// A caller is told this, as a command reads it.
    Tells(usize, Result<&'static str, Fault>),
    /// A caller hears this text, and no more.
    Hears(usize, &'static str),
    /// What a caller hears begins so.
    Begins(usize, &'static str),
}

// Whether an order is what a call asks for.
fn is_order_of(order: &Order, call: &Call<'static>) -> bool {
    match (order, call) {
        (Order::Tenants, Call::Tenants)
        | (Order::Status, Call::Status)
        | (Order::Stop, Call::Stop) => true,
        (Order::AddTenant { name, digest }, Call::AddTenant { name: asked, key })
        | (Order::ChangeKey { name, digest }, Call::ChangeKey { name: asked, key }) => {
            name.as_str() == *asked && key_digest(key) == Ok(*digest)
        }
        (Order::Copy { to }, Call::Copy { to: path }) => to.as_str() == *path,
        (Order::Statement(asked), Call::Statement { piece }) => asked == piece,
        _ => false,
    }
}

fn bytes_of<'a>(told: &Result<&'a str, Fault>) -> Result<&'a [u8], Fault> {
    match told {
        Ok(text) => Ok(text.as_bytes()),
        Err(fault) => Err(*fault),
    }
}

// Whether a step comes to what it must.
fn is_taken(
    rt: &HostRuntime,
    path: &str,
    desk: &mut Desk,
    callers: &mut Vec<UnixStream>,
    step: &Step,
) -> Result<bool, Fail> {
    match step {
        Step::Orders(moment, want) => match (desk.next(at(*moment)), want) {
            (Some(order), Some(call)) => Ok(is_order_of(&order, call)),
            (None, None) => Ok(true),
            _ => Ok(false),
        },
        Step::Answers(moment, told) => {
            desk.answer(at(*moment), bytes_of(told));
            Ok(true)
        }
        Step::AnswersCopy(moment, told) => {
            desk.answer_copy(at(*moment), bytes_of(told));
            Ok(true)
        }
        Step::IsBusy(is_busy) => Ok(desk.is_busy() == *is_busy),
        Step::Calls(call) => {
            callers.push(calls(rt, path, call)?)?;
            Ok(true)
        }
        Step::Sends(text) => {
            callers.push(sends(rt, path, text.as_bytes())?)?;
            Ok(true)
        }
        other => is_done(rt, callers, other),
    }
}

// The same of what a caller does that has connected.
fn is_done(rt: &HostRuntime, callers: &mut Vec<UnixStream>, step: &Step) -> Result<bool, Fail> {
    let place = match step {
        Step::SendsOn(place, _)
        | Step::SendsMany(place, _)
        | Step::Shuts(place)
        | Step::Tells(place, _)
        | Step::Hears(place, _)
        | Step::Begins(place, _) => *place,
        _ => return Ok(false),
    };
    match callers.get_mut(place) {
        Some(caller) => is_done_by(rt, caller, step),
        None => Ok(false),
    }
}

fn is_done_by(rt: &HostRuntime, caller: &mut UnixStream, step: &Step) -> Result<bool, Fail> {
    match step {
        Step::SendsOn(_, text) => {
            caller.write_all(text.as_bytes())?;
            Ok(true)
        }
        Step::SendsMany(_, many) => {
            let bytes = Vec::from_elem(rt.alloc(), b'1', *many)?;
            caller.write_all(&bytes)?;
            Ok(true)
        }
        Step::Shuts(_) => {
            caller.shutdown(Shutdown::Write)?;
            Ok(true)
        }
        Step::Tells(_, want) => is_told(rt, caller, want),
        Step::Hears(_, text) => Ok(hears(rt, caller)?.as_slice() == text.as_bytes()),
        Step::Begins(_, front) => Ok(hears(rt, caller)?.as_slice().starts_with(front.as_bytes())),
        _ => Ok(false),
    }
}

/// Takes steps at a path, and those of callers behind the end of the desk.
pub(super) fn play(
    rt: &HostRuntime,
    path: &str,
    steps: &[Step],
    behind: &[Step],
) -> Result<(), Fail> {
    let mut callers = Vec::new(rt.alloc());
    let mut desk = Desk::open(rt, path)?;
    for step in steps {
        if !is_taken(rt, path, &mut desk, &mut callers, step)? {
            return Err(Fail::new(format_args!("{path}: {step:?}")));
        }
    }
    desk.close(rt);
    for step in behind {
        if !is_done(rt, &mut callers, step)? {
            return Err(Fail::new(format_args!("{path}: {step:?}")));
        }
    }
    Ok(())
}
