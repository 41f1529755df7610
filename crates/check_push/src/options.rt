//! The program's help, and its subcommands.

ghost use Rattle.std.specs.Prelude.{◌≡◌};
ghost use Rattle.check_push.specs.Subcommands.{subcommand_of};

pub const HELP: &str = "\
Checks what a push to a Git repository brings, and prints a line for each name
that is refused. The first argument says what standard input has:

    refs          the references, as a pre-receive hook gets them
    trees         trees, as `git cat-file --batch` prints them
    submodules    .gitmodules files, printed in the same way

    -h, --help    prints this text; `check_push refs --help` prints that of refs
    --version     prints the version

The status is 0 if nothing is refused, 1 if something is, and 2 if the input is
malformed, reading or writing fails, memory runs out, or an argument is wrong.";

/// What is checked.
#[derive(Clone, Copy)]
pub enum Subcommand {
    /// References.
    Refs,
    /// Trees.
    Trees,
    /// `.gitmodules` files.
    Submodules,
}

/// The subcommand that a word names; `None` if there is none.
///
/// ```
/// subcommand_of("refs"); // Subcommand::Refs
/// subcommand_of("Refs"); // None
/// ```
///
/// It does not allocate.
pub fn subcommand_of(word: &str) -> Option<Subcommand>
    ensures { result ≡ subcommand_of word.now }
{
    match word {
        "refs" => Some(Subcommand::Refs),
        "trees" => Some(Subcommand::Trees),
        "submodules" => Some(Subcommand::Submodules),
        _ => None,
    }
}
