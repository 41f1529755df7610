//! Checks what a push brings: its references, its trees, and its `.gitmodules` files.
#![tactic(auto)]

mod options;
mod refs;
mod submodules;
mod trees;

use options::{HELP, Subcommand, subcommand_of};
use programs::arguments::{
    ArgumentError, NotUtf8, ParseOptions, arguments, fail_arguments, first_not_utf8,
};
use programs::command::execute_on_streams;
use programs::messages::Messages;
use programs::{VERSION, fail, print};
use std::env;
use std::io::Write;
use std::process::ExitCode;

const NAME: &str = "check_push";

fn main(rt: HostRuntime) -> ExitCode {
    let mut errors = Messages::new(rt.stderr());
    let args = env::args(&rt);
    let not_utf8 = first_not_utf8(&rt).map_or(NotUtf8::Long, |number| NotUtf8::Argument(number));
    let arguments = match arguments(rt.alloc(), args, not_utf8, NAME, &mut errors) {
        Ok(arguments) => arguments,
        Err(status) => return status,
    };
    let Some((word, rest)) = arguments.split_first() else {
        let what = "give refs, trees or submodules, see check_push --help";
        return fail(NAME, what, &mut errors);
    };
    execute(&rt, word, rest, &mut errors)
}

/// Does what the first argument says, with the others.
fn execute<E: Write>(
    rt: &HostRuntime,
    word: &str,
    rest: &[String],
    errors: &mut Messages<E>,
) -> ExitCode {
    match word {
        "-h" | "--help" => print(NAME, HELP, &mut rt.stdout(), errors),
        "--version" => {
            let version = format_args!("{NAME} {VERSION}");
            print(NAME, version, &mut rt.stdout(), errors)
        }
        _ => match subcommand_of(word) {
            Some(subcommand) => check(rt, subcommand, rest, errors),
            None => fail_arguments(NAME, ArgumentError::Unknown(word), errors),
        },
    }
}

/// Does what the arguments of a subcommand say.
fn check<E: Write>(
    rt: &HostRuntime,
    subcommand: Subcommand,
    arguments: &[String],
    errors: &mut Messages<E>,
) -> ExitCode {
    match subcommand {
        Subcommand::Refs => {
            let start = refs::options::Options::start();
            execute_on_streams(rt, refs::PROGRAM, start, arguments, errors)
        }
        Subcommand::Trees => {
            let start = trees::options::Options::start();
            execute_on_streams(rt, trees::PROGRAM, start, arguments, errors)
        }
        Subcommand::Submodules => {
            let start = submodules::options::Options::start();
            execute_on_streams(rt, submodules::PROGRAM, start, arguments, errors)
        }
    }
}
