//! The subcommand's options.

ghost use Rattle.check_push.specs.Refs.Arguments.{no_options, rule};

use programs::arguments::{self, Setting};

pub const HELP: &str = "\
Prints a line for each reference of a push whose name is refused. A pre-receive
hook runs it on its own standard input:

    #!/bin/sh
    exec check_push refs

Each line of the input is OLD NEW REF: the object id that the reference had, the
id that it gets, and its name, which is the rest of the line. An id has 40 or 64
hexadecimal digits. If NEW is all zeros, the reference is deleted, and its name
is not checked. A line has the refused name in quotes, and why it is refused:

    ref \"refs/heads/a b\" Reference name contains invalid byte: \" \"

In the namespace NS, the reference refs/namespaces/NS/INNER is INNER. So if
INNER begins with refs/, that name is checked too, and so on inwards.

    --ids        also prints a line with the id NEW for each reference that is
                 neither deleted nor refused; with the name after it, in quotes,
                 if that is under refs/replace/ (also in a namespace)
    --replace    allows names under refs/replace/, which are refused otherwise
    -h, --help   prints this text
    --version    prints the version

The status is 0 if nothing is refused and 1 if something is. It is 2 if the
input is empty, a line is malformed or longer than 65536 bytes, the last line
has no newline, reading or writing fails, memory runs out, or an argument is
wrong.";

/// The options of a run.
#[derive(Clone, Copy)]
pub struct Options {
    /// Whether a line is printed for each new id.
    pub lists_ids: bool,
    /// Whether names under `refs/replace/` are allowed.
    pub allows_replace: bool,
}

impl<'a> arguments::ParseOptions<'a> for Options {
    ghost use Rattle.check_push.specs.declared.refs.options.Options.{Options};

    ghost View = { Options };

    ghost view = { λ options. options };

    ghost start = { no_options };

    ghost rule = { rule };

    fn start() -> Self {
        Options {
            lists_ids: false,
            allows_replace: false,
        }
    }

    fn set(mut self, name: &str, value: Option<&'a str>) -> Setting<'a, Self> {
        match (name, value) {
            ("--ids", None) => self.lists_ids = true,
            ("--replace", None) => self.allows_replace = true,
            _ => return Setting::Unknown,
        }
        Setting::Set(self)
    }
}
