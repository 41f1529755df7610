//! What is wrong with the arguments or the input, and how a run ends.

ghost use Rattle.std.specs.Prelude.{Some};
ghost use Rattle.git_check_names.specs.Problems.{problem_text_of};

use std::fmt;

/// What is wrong with the arguments or the input, apart from invalid names.
#[derive(Drop)]
pub enum Problem {
    /// The first operand is not a kind.
    NoKind,
    /// There is no name among the arguments.
    NoName,
    /// There is no name in the input.
    EmptyInput,
    /// Names are among the arguments, although names are to be read.
    TwoSources,
    /// Names of this kind can't be repaired.
    NoRepair,
    /// The name with this number in the input, counted from 1, has more than 65,535 bytes.
    TooLong { number: u64 },
    /// The line with this number, counted from 1, has a NUL.
    Nul { number: u64 },
}

impl fmt::Display for Problem {
    ghost output = { λ problem. Some (problem_text_of problem) };

    fn fmt<W: fmt::Write>(&self, f: &mut fmt::Formatter<W>) -> fmt::Result {
        match self {
            Problem::NoKind => f.write_str(
                "the first argument has to be branch, branch-ref, tag, ref, safe-ref, path, component or submodule, see git-check-names -h",
            ),
            Problem::NoName => f.write_str("no name is given: give names, or --stdin to read them"),
            Problem::EmptyInput => f.write_str("there is no name in the input"),
            Problem::TwoSources => f.write_str(
                "give names, or --stdin or -z to read them, but not both",
            ),
            Problem::NoRepair => f.write_str("--repair is for the kinds branch and ref alone"),
            Problem::TooLong { number } => {
                write!(
                    f,
                    "malformed input: name {number} is longer than 65535 bytes, and isn't checked"
                )
            }
            Problem::Nul { number } => {
                write!(
                    f,
                    "malformed input: line {number} has a NUL: give -z if each name ends with one"
                )
            }
        }
    }
}

/// How a run that did not fail ended.
#[derive(Clone, Copy)]
pub enum Ended {
    /// All names are valid, or have a repair if that is asked for.
    Valid,
    /// A name is invalid, or has no repair if that is asked for.
    Invalid,
    /// The arguments or the input are wrong.
    Failed,
}

/// The result of a run that did not fail.
#[derive(Drop)]
pub struct Verdict {
    /// How it ended.
    pub ended: Ended,
    /// What is written to standard error. Each message follows [`MESSAGE_START`].
    pub messages: Vec<u8>,
}

/// What comes before each message of a run. Before the first one the program's name is printed
/// instead.
pub const MESSAGE_START: &str = "\ngit-check-names: ";
