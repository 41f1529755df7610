//! Validates the names on the lines of standard input, and prints a line for each.
#![tactic(auto)]

mod check;
mod help;
#[cfg(test)]
mod refused_memory;
#[cfg(test)]
mod tests;

use check::{RunError, run};
use help::HELP;
use std::env;
use std::fmt::Display;
use std::io::{ErrorKind, IsTerminal};
use std::process::ExitCode;

/// The version of the library and of the programs, which `--version` prints.
const VERSION: &str = "3.0.0-dev";

/// The hint for somebody at a terminal.
const HINT: &str =
    "type lines such as 'tag v1.2.3', and then Ctrl-D; the results are printed at the end";

fn main(rt: HostRuntime) -> ExitCode {
    let word = match env::args(&rt) {
        Ok(mut words) => words.nth(1),
        Err(e) if e.kind() == ErrorKind::OutOfMemory => return fail(&rt, 2, RunError::Memory),
        Err(_) => return fail(&rt, 2, "the arguments can't be read as UTF-8"),
    };
    match word.as_deref() {
        None => {}
        Some("-h" | "--help") => return print(&rt, HELP),
        Some("--version") => return print(&rt, format_args!("check_names {VERSION}")),
        Some(word) => {
            let why = format_args!("unknown argument {word:?}, see check_names --help");
            return fail(&rt, 2, why);
        }
    }
    if rt.stdin().is_terminal() {
        let _ = eprintln!(rt; "check_names: {HINT}");
    }
    match run(rt.alloc(), &mut rt.stdin(), &mut rt.stdout()) {
        Ok(()) => ExitCode::SUCCESS,
        Err(error) => fail(&rt, 1, error),
    }
}

/// Prints a text and a newline.
fn print<R: Print + Eprint, D: Display + Drop>(rt: &R, text: D) -> ExitCode {
    match println!(rt; "{text}") {
        Ok(()) => ExitCode::SUCCESS,
        Err(_) => fail(rt, 2, RunError::Write),
    }
}

/// Reports on standard error what is wrong, and returns this status.
fn fail<R: Eprint, D: Display + Drop>(rt: &R, status: u8, what: D) -> ExitCode {
    let _ = eprintln!(rt; "check_names: {what}");
    ExitCode::from(status)
}
