//! Prints a line for each submodule of a `.gitmodules` file whose name is refused. Standard input
//! has the files as `git cat-file --batch` prints objects.

mod check;
pub mod options;
mod report;

use options::HELP;
use programs::command::Program;

/// The subcommand's texts.
pub const PROGRAM: Program<'static> = Program {
    name: "check_push submodules",
    help: HELP,
};

/// What a message adds if the first line is not a header line.
const HEADER_HINT: &str =
    "; if it says that a name is missing, Git has no such object; a file is passed as in: \
    echo HEAD:.gitmodules | git cat-file --batch | check_push submodules";
