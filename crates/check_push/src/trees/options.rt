//! The subcommand's options (check_push(1)).

ghost use Rattle.std.specs.Prelude.{◌≡◌, None, Some};
ghost use Rattle.programs.specs.Arguments.{effect_of};
ghost use Rattle.check_push.specs.Trees.Arguments.{no_options, rule};
ghost use Rattle.check_push.specs.Trees.Arguments.{Options, as_options};

use gix_validate::path::ComponentOptions;
use programs::accepted::AcceptedNames;
use programs::arguments::{ParseOptions, Setting};
use programs::protections::{PROTECTIONS, protections_of};

pub const HELP: &str = "\
Prints a line for each entry of a Git tree whose name is refused:

    git rev-list --objects --no-object-names --filter=object:type=tree \\
        --filter-provided-objects --all | git cat-file --batch |
        check_push trees

Standard input is what `git cat-file --batch` prints. If its format ends with
%(rest), the directory of the tree is known. A line has the id of the tree, the
mode, the quoted path, and why it is refused, for example

    4b825dc.. 40000 \"src/.GIT\" The .git name may never be used

The path is the directory, if it is known, a slash and the name. If the
directory is longer than 128 bytes, only its first 128 are shown, with '...'. A
line begins with 'windows ' if only the rules of Windows refuse the name: then
--accept accepts it.

    --protect LIST    the file systems to protect, separated by commas: windows,
                      hfs and ntfs, or none. The default is all three. windows
                      protects NTFS, too
    --modules         also prints a line for each file that a checkout reads as
                      .gitmodules: 'modules', its id, and then the tree, the
                      mode and the path as above
    --end             the input has to be complete: no object is missing, and
                      the last line is '..end missing', which git cat-file
                      prints for the word ..end
    --accept NAMES    accepts names that only Windows forbids. Slashes separate
                      them: aux.c/con.h accepts these two. For more names than
                      fit into an argument it can be given 16 times
    -h, --help        prints this text
    --version         prints the version

A value may also follow '=', as in --protect=hfs.

The status is 0 if nothing is refused, 1 if something is, and 2 if the input is
malformed, reading or writing fails, memory runs out, or an argument is wrong.
A server wants the default. A list without windows accepts a\\.git, which Windows
reads as a path, and which `git fsck` refuses.";

/// The message if there are too many lists of accepted names.
const FEWER_LISTS: &str = "--accept at most 16 times";

/// How the input is checked.
#[derive(Clone, Copy)]
pub struct Options<'a> {
    /// The file systems to protect.
    pub protections: ComponentOptions,
    /// Whether files that a checkout reads as `.gitmodules` are listed too (`--modules`).
    pub modules: bool,
    /// Whether the input needs its end line (`--end`): no object is missing, and the line `..end
    /// missing` ends it.
    pub needs_end: bool,
    /// The names to which the rules of Windows do not apply (`--accept`).
    pub accepted: AcceptedNames<'a>,
}

/// If there are several lists of protections, the last one counts. Lists of names add up.
impl<'a> ParseOptions<'a> for Options<'a> {
    ghost View = { Options };

    ghost view = { λ options. as_options options };

    ghost start = { no_options };

    ghost rule = { rule };

    fn start() -> Self {
        Options {
            protections: ComponentOptions::default(),
            modules: false,
            needs_end: false,
            accepted: AcceptedNames::none(),
        }
    }

    fn set(self, name: &str, value: Option<&'a str>) -> Setting<'a, Self> {
        match value {
            None => self.set_flag(name),
            Some(value) => self.set_value(name, value),
        }
    }
}

impl<'a> Options<'a> {
    /// What the option `name` does without a value.
    fn set_flag(mut self, name: &str) -> Setting<'a, Self>
        ensures { effect_of as_options result ≡ rule name.now None (as_options self.entry) }
    {
        match name {
            "--modules" => self.modules = true,
            "--end" => self.needs_end = true,
            "--protect" | "--accept" => return Setting::NeedsValue,
            _ => return Setting::Unknown,
        }
        Setting::Set(self)
    }

    /// What the option `name` does with a value.
    fn set_value(mut self, name: &str, value: &'a str) -> Setting<'a, Self>
        ensures { effect_of as_options result
            ≡ rule name.now (Some value.entry.now) (as_options self.entry) }
    {
        match name {
            "--protect" => match protections_of(value.as_bytes()) {
                Some(protections) => self.protections = protections,
                None => return Setting::Invalid(value, PROTECTIONS),
            },
            "--accept" => match self.accepted.with(value) {
                Some(accepted) => self.accepted = accepted,
                None => return Setting::Invalid(value, FEWER_LISTS),
            },
            _ => return Setting::Unknown,
        }
        Setting::Set(self)
    }
}
