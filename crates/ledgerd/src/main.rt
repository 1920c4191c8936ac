//! `ledgerd` keeps money for several firms: commands over a file, and, where it is given no words,
//! the answer to a body of transfers on standard input, for the first tenant of a book of two.
#![tactic(auto)]

mod run;

use built_from::commit_line;
use command_line::{Command, command};
use command_texts::{Fault, put_text, tell_fault};
use commands::{Place, program, serve_file, tell_file_fault};
use listener::Site;
use records::Streamed;
use sqlite_disk::Unknown;
use std::env;
use std::io::{self, ErrorKind};
use std::process::ExitCode;

// Does what the words ask for; the program ends with the status of what came of it.
fn main(rt: HostRuntime) -> ExitCode {
    let words = match words(&rt) {
        Ok(words) => words,
        Err(error) => return ExitCode::from(refusal(&rt, error.kind())),
    };
    ExitCode::from(match command(rt.alloc(), &words) {
        Ok(Command::Lists) => tell(&rt, run::run(&rt).map(|()| 0), None),
        Ok(Command::Lint { route }) => {
            let route = route.unwrap_or("/transfers");
            tell(&rt, run::lint_input(&rt, route), None)
        }
        Ok(
            Command::Serve {
                db,
                address,
                port,
                requests,
                standby,
                limits,
            },
        ) => {
            let site = Site::new(&rt);
            let ended = match serve_file(&site, db, address, port, &limits, standby, requests) {
                Ok(service) => {
                    service.close();
                    Ok(0)
                }
                Err(fault) => Err(fault),
            };
            let is_made = false;
            tell(&rt, ended, Some(Place { path: db, is_made }))
        }
        Ok(Command::Version) => version(&rt, &words),
        _ => perform(&rt, &words),
    })
}

// Does what the words ask of files.
fn perform(rt: &HostRuntime, words: &[String]) -> u8 {
    let (out, mut err) = (Streamed::new(rt.stdout()), Streamed::new(rt.stderr()));
    program(rt, words, Unknown, out, &mut err)
}

// Prints the lines of `--version`, and in a packaged program the commit behind them.
fn version(rt: &HostRuntime, words: &[String]) -> u8 {
    match perform(rt, words) {
        0 => {
            let ended = put_text(&mut Streamed::new(rt.stdout()), commit_line());
            tell(rt, ended.map(|()| 0), None)
        }
        status => status,
    }
}

// The words after the program's name.
fn words(rt: &HostRuntime) -> io::Result<Vec<String>> {
    let mut words = env::args(rt)?;
    let _name = words.next();
    Ok(words.collect(rt.alloc())?)
}

// The status of what a command has come to, whose fault is told.
fn tell(rt: &HostRuntime, ended: Result<u8, Fault>, place: Option<Place<'_>>) -> u8 {
    match ended {
        Ok(status) => status,
        Err(fault) => tell_file_fault(rt, &mut Streamed::new(rt.stderr()), fault, place),
    }
}

// Words that are no text are refused as `clap` refuses them.
fn refusal(rt: &HostRuntime, why: ErrorKind) -> u8 {
    if why == ErrorKind::InvalidData {
        let _ = rt.eprintln(format_args!(
            "error: invalid UTF-8 was detected in one or more arguments"
        ));
        return 2;
    }
    tell_fault(&mut Streamed::new(rt.stderr()), Fault::Unavailable)
}
