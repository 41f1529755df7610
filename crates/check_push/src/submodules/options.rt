//! The subcommand's options.

ghost use Rattle.check_push.specs.Submodules.Arguments.{no_options, rule};

use programs::arguments::{self, Setting};

pub const HELP: &str = "\
Prints a line for each submodule in a .gitmodules file whose name is refused:

    git cat-file --batch < IDS | check_push submodules

IDS has the ids of the .gitmodules files, one on each line. Standard input is
what `git cat-file --batch` prints. Objects that are not blobs are skipped. A
line has the id of the file, the offset of the section in it, in bytes, and why
it is refused:

    ID OFFSET \"NAME\" REASON
    ID OFFSET a section can't be read
    ID the file is larger than 16777216 bytes

Each '[' may begin a section, also in comments and values.

    --end        the input has to be complete: no object is missing, and the
                 last line is '..end missing', which git cat-file prints for
                 the word ..end
    -h, --help   prints this text
    --version    prints the version

The status is 0 if nothing is refused, 1 if a name, a section or a file is, and
2 if the input is malformed, reading or writing fails, memory runs out, or an
argument is wrong.";

/// How the input is checked.
#[derive(Clone, Copy)]
pub struct Options {
    /// Whether the input needs its end line (`--end`): no object is missing, and the line `..end
    /// missing` ends it.
    pub needs_end: bool,
}

impl<'a> arguments::ParseOptions<'a> for Options {
    ghost use Rattle.check_push.specs.declared.submodules.options.Options.{Options};

    ghost View = { Options };

    ghost view = { λ options. options };

    ghost start = { no_options };

    ghost rule = { rule };

    fn start() -> Self {
        Options { needs_end: false }
    }

    fn set(self, name: &str, value: Option<&'a str>) -> Setting<'a, Self> {
        match value {
            None if name == "--end" => Setting::Set(Options { needs_end: true }),
            _ => Setting::Unknown,
        }
    }
}
