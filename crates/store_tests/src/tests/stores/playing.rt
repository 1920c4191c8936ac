//! Scripts: lines of a command and its answer.

use super::bench::Bench;
use super::commands::{Command, Text, answer};
use super::driven::Driven;
use crate::tests::disks::{Calls, Faulty, InMemory, WIDE};
use sqlite_disk::Disk;
use std::alloc::Global;
use std::process::Abort;

/// Two tenants, each with the accounts of the base.
pub const BASE: &str = "\
File create => made
North add 1 => Ok(())
North accounts 1; 2; 3 flags=10; 4 => clock 4: 0@1 0@2 0@3 0@4
South add 2 => Ok(())
South accounts 1; 2; 3 flags=10; 4 => clock 4: 0@1 0@2 0@3 0@4";

/// The command and its answer.
fn parts(line: &str) -> (&str, &str) {
    line.split_once(" => ").unwrap_or((line, ""))
}

/// Compares what is told with a line's answer.
fn compare(rt: &impl Abort, line: &str, told: Text) {
    let (command, want) = parts(line);
    let told = told.expect(rt, line);
    assert_eq!(rt; told.as_str(), want, "{command}");
}

/// Gives each command of a script, and compares the answers.
pub fn play<D: Faulty>(rt: &impl Abort, bench: &mut Bench<D>, script: &str) {
    for line in script.split('\n') {
        compare(rt, line, bench.answer(parts(line).0));
    }
}

/// The same, on a store at a path.
pub fn play_on<D: Disk + Drop>(
    rt: &impl Abort,
    alloc: Global,
    store: &mut Driven<D>,
    script: &str,
) {
    for line in script.split('\n') {
        let command = Command::read(alloc, parts(line).0);
        compare(rt, line, answer(store, &command));
    }
}

/// Gives each command of a script until one is not answered so, and tells what it answers.
pub fn other_answer<D: Faulty>(
    rt: &impl Abort,
    bench: &mut Bench<D>,
    script: &str,
) -> Option<String> {
    for line in script.split('\n') {
        let (command, want) = parts(line);
        let told = bench.answer(command).expect(rt, line);
        if told.as_str() != want {
            return Some(told);
        }
    }
    None
}

/// Plays scripts, one behind the other, on new files in memory, on which nothing fails.
pub fn play_from_nothing(rt: &impl Abort, alloc: Global, scripts: &[&str]) {
    play_all::<InMemory, _>(rt, alloc, scripts);
}

/// The same, on new files of some kind.
fn play_all<D: Faulty, R: Abort>(rt: &R, alloc: Global, scripts: &[&str]) {
    let mut bench: Bench<D> = Bench::new(alloc, WIDE, Calls::All, Calls::All);
    for script in scripts {
        play(rt, &mut bench, script);
    }
    bench.end();
}

/// Plays each paragraph for tenants of its own.
pub fn play_from_base(rt: &impl Abort, alloc: Global, paragraphs: &str) {
    for script in paragraphs.split("\n\n") {
        play_from_nothing(rt, alloc, &[BASE, script]);
    }
}
