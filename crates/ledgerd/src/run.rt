use bodies::printed;
use command_texts::{Fault, lint};
use records::Streamed;
use std::io::{self, ErrorKind, Read, Write};

// What the program tells where standard input or output fails.
fn fault_of(error: io::Error) -> Fault {
    match error.kind() {
        ErrorKind::OutOfMemory => Fault::Unavailable,
        _ => Fault::Output,
    }
}

// Standard input whole.
fn read_body(rt: &(impl Input + AllocGlobal)) -> Result<Vec<u8>, Fault> {
    let mut body = Vec::new(rt.alloc());
    rt.reader().read_to_end(&mut body).map_err(fault_of)?;
    Ok(body)
}

/// Reads standard input whole as a body of the first tenant, and prints what it is answered.
pub fn run(rt: &(impl Input + Print + AllocGlobal)) -> Result<(), Fault> {
    let body = read_body(rt)?;
    let line = printed(rt.alloc(), &body).map_err(|_| Fault::Unavailable)?;
    io::writer(rt).write_all(&line).map_err(fault_of)
}

/// Reads standard input whole as a body that is posted to a path, tells what of it is refused, and
/// says the status with which the program ends.
pub fn lint_input(rt: &HostRuntime, path: &str) -> Result<u8, Fault> {
    let body = read_body(rt)?;
    lint(rt.alloc(), path, &body, &mut Streamed::new(rt.stdout()))
}
