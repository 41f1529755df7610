//! Prints a line for each invalid name. The names are arguments, or are read from standard input.
#![tactic(auto)]

mod check;
mod fault;
mod input;
mod kind;
mod options;
mod problem;
mod quote;
mod report;

use options::{CheckOptions, HELP};
use programs::arguments::{NotUtf8, arguments, first_not_utf8};
use programs::command::{Program, execute_on_streams};
use programs::error::RunError;
use programs::fail;
use programs::messages::Messages;
use programs::operands::split_words;
use std::env;
use std::io::Write;
use std::process::ExitCode;

const NAME: &str = "git-check-names";

fn main(rt: HostRuntime) -> ExitCode {
    let mut errors = Messages::new(rt.stderr());
    let args = env::args(&rt);
    let not_utf8 = first_not_utf8(&rt).map_or(NotUtf8::Long, |number| NotUtf8::Name(number));
    match arguments(rt.alloc(), args, not_utf8, NAME, &mut errors) {
        Ok(arguments) => execute(&rt, arguments, &mut errors),
        Err(status) => status,
    }
}

/// Does what the arguments say, on the standard streams.
fn execute<E: Write>(
    rt: &HostRuntime,
    arguments: Vec<String>,
    errors: &mut Messages<E>,
) -> ExitCode {
    match split_words::<CheckOptions<'_>>(rt.alloc(), arguments) {
        Ok(words) => {
            let program = Program {
                name: NAME,
                help: HELP,
            };
            let start = CheckOptions::with_operands(&words.operands);
            execute_on_streams(rt, program, start, &words.options, errors)
        }
        Err(_) => fail(NAME, RunError::Memory, errors),
    }
}
