//! The program's options (git-check-names(1)).

ghost use Rattle.std.specs.Prelude.{◌≡◌, [], map};
ghost use Rattle.std.specs.String.{string_bytes};
ghost use Rattle.programs.specs.Arguments.{effect_of};
ghost use Rattle.programs.specs.Protections.{protections_of};
ghost use Rattle.git_check_names.specs.Options.{Options, accepting, as_options, protected_by, rule};
ghost use Rattle.git_check_names.specs.Options.{without_options};

use gix_validate::path::ComponentOptions;
use programs::accepted::AcceptedNames;
use programs::arguments::{ParseOptions, Setting};
use programs::protections::{PROTECTIONS, protections_of};

pub const HELP: &str = "\
Prints a line for each name that is invalid, and why it is:

    git check-names branch main 'feature//login'
    git ls-files -z | git check-names path -z
    git check-names branch --repair -- 'my branch'

The first argument is the kind of the names:

    branch        a branch, such as main
    branch-ref    the full name of a branch, such as refs/heads/main
    tag           a tag, such as v1.2.3
    ref           the full name of a reference, such as HEAD or refs/heads/main
    safe-ref      a full name that a store can use as a path: below refs/, or of
                  capitals and _ alone, and each part of it a component
    path          a whole path, such as src/main.rs
    component     the name of a file or a directory, such as main.rs
    submodule     a submodule, such as vendor/library

The other arguments are names and options, in any order:

    --stdin           reads the names from standard input, one on each line
    -z                reads names that end with a NUL from standard input
    --protect LIST    the file systems to protect, separated by commas: windows,
                      hfs and ntfs, or none. The default is all three. windows
                      protects NTFS, too. For paths, components, submodules and
                      safe-ref
    --accept NAMES    accepts names that only Windows forbids, as components and
                      in paths. Slashes separate them: aux.c/con.h accepts these
                      two. It can be given 16 times
    --repair          for branches and refs: prints each name, repaired if it is
                      invalid, and nothing else; with -z each ends with a NUL.
                      Standard error says which names have no repair, such as
                      the branch HEAD or the ref main, and what is wrong
    -v, --verbose     adds the error's name and its offset in bytes, from 0
    --                ends the options, for names that begin with a dash
    -h, --help        prints this text
    --version         prints the version

A name in a line is in double quotes, with the escapes of git ls-files, if it is
empty, begins or ends with a space, or has ': ', a double quote, a backslash or
a byte that is not printable ASCII.

The status is 0 if all names are valid, or were repaired. It is 1 if a name is
invalid, and has no repair if that is asked for. It is 2 if there is no name, a
name in the input is longer than 65535 bytes (the others are checked), a line
has a NUL, reading or writing fails, memory runs out, or an argument is wrong.";

/// How names are checked, and which names.
#[derive(Clone, Copy)]
pub struct CheckOptions<'a> {
    /// The file systems to protect.
    pub protections: ComponentOptions,
    /// Whether names are read from the input (`--stdin`, `-z`).
    pub reads: bool,
    /// Whether each name in the input ends with a NUL (`-z`) instead of a newline.
    pub nul: bool,
    /// Whether names are repaired (`--repair`).
    pub repair: bool,
    /// Whether a line also has the name of the error (`--verbose`).
    pub verbose: bool,
    /// The kind, and then the names that are arguments.
    pub operands: &'a [String],
    /// The names to which the rules of Windows do not apply (`--accept`).
    pub accepted: AcceptedNames<'a>,
}

/// The message if there are too many lists of accepted names.
const FEWER_LISTS: &str = "--accept at most 16 times";

impl<'a> CheckOptions<'a> {
    /// The options of a program without options, with these operands.
    pub fn with_operands(operands: &'a [String]) -> CheckOptions<'a>
        ensures { as_options result ≡ without_options (map string_bytes operands.now) }
    {
        CheckOptions {
            protections: ComponentOptions::default(),
            reads: false,
            nul: false,
            repair: false,
            verbose: false,
            operands,
            accepted: AcceptedNames::none(),
        }
    }

    /// Protects the file systems of this list.
    fn with_protections(mut self, list: &'a str) -> Setting<'a, Self>
        ensures { effect_of as_options result
            ≡ protected_by list.now (as_options self.entry) (protections_of list.now) }
    {
        match protections_of(list.as_bytes()) {
            Some(protections) => self.protections = protections,
            None => return Setting::Invalid(list, PROTECTIONS),
        }
        Setting::Set(self)
    }

    /// Accepts the names of one list more.
    fn with_accepted(mut self, names: &'a str) -> Setting<'a, Self>
        ensures { effect_of as_options result ≡ accepting names.now (as_options self.entry) }
    {
        match self.accepted.with(names) {
            Some(accepted) => self.accepted = accepted,
            None => return Setting::Invalid(names, FEWER_LISTS),
        }
        Setting::Set(self)
    }
}

impl<'a> ParseOptions<'a> for CheckOptions<'a> {
    ghost View = { Options };

    ghost view = { λ options. as_options options };

    ghost start = { without_options [] };

    ghost rule = { rule };

    fn start() -> Self {
        CheckOptions::with_operands(&[])
    }

    fn set(mut self, name: &str, value: Option<&'a str>) -> Setting<'a, Self> {
        match (name, value) {
            ("--stdin", None) => self.reads = true,
            ("-z", None) => (self.reads, self.nul) = (true, true),
            ("--repair", None) => self.repair = true,
            ("-v" | "--verbose", None) => self.verbose = true,
            ("--protect" | "--accept", None) => return Setting::NeedsValue,
            ("--protect", Some(list)) => return self.with_protections(list),
            ("--accept", Some(names)) => return self.with_accepted(names),
            _ => return Setting::Unknown,
        }
        Setting::Set(self)
    }
}
