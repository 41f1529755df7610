//! The report of a stream of objects.

ghost use Rattle.std.specs.Prelude.{◌≡◌, [], codes, ℕ, ◌<◌, ◌≤◌, List, Option, Some, false, true};
ghost use Rattle.std.specs.Prelude.{IfOk, IfSome, is_none};
ghost use Rattle.std.proofs.Common.{ap, subst};
ghost use Rattle.programs.specs.Command.{EndsAs, Ran};
ghost use Rattle.programs.specs.Ends.{Gives, end_of};
ghost use Rattle.programs.specs.Spelled.{IsReportedInOrder, IsWellFormedOnlyIfSpelled};
ghost use Rattle.programs.specs.Reports.{IsCleanIff};
ghost use Rattle.programs.specs.Objects.{IsWholeStream, object_reach};
ghost use Rattle.programs.specs.Promises.{Runs, FollowsRule, ReadsWithin, as_object};
ghost use Rattle.gix_validate.specs.Component.{fault_of};
ghost use Rattle.check_push.specs.Trees.Report.{finding_of, finding_said, is_gitmodules, report, tree_rule};
ghost use Rattle.check_push.specs.Trees.Spelled.{IsAcceptedStream, IsMarkedIfAcceptable, IsReadAsItems};
ghost use Rattle.check_push.specs.Trees.Private.{EntryGives, EntryReads, FrontReads, PassesId};
ghost use Rattle.check_push.specs.Trees.Private.{ReadsOrSkipsId, Says, as_entry_header, tree_report};
ghost use Rattle.check_push.specs.Trees.Arguments.{as_options, protections_for, without_windows};

use crate::trees::entry::{EntryHeader, parse_entry_header};
use crate::trees::options::Options;
use crate::trees::report::{set_modules, set_refused, set_refused_by_windows};
use bstr::BStr;
use gix_validate::path::{self, ComponentError, ComponentMode, ComponentOptions};
use programs::accepted::without_windows;
use programs::command::Command;
use programs::error::RunError;
use programs::header::{Kind, Object};
use programs::input::{Found, read_before, read_bytes, skip};
use programs::lines::{Buffers, MAX_LINE};
use programs::messages::Messages;
use programs::objects::{self, ObjectCheck};
use programs::outcome::{self, Malformation, Naming, Stop, Verdict};
use std::alloc::Global;
use std::io::{BufRead, Write};
use std::process::ExitCode;

impl<'a> Command<'a> for Options<'a> {
    type Verdict = Verdict;

    ghost Runs = { λ options input rest output written ran.
        Gives (report (as_options options)) object_reach (IsAcceptedStream (as_options options))
        input rest output written ran };

    ghost end_of = { end_of (codes "object") [] };

    /// Reads all of `input`, objects as `git cat-file --batch` prints them, and writes a line to
    /// `output` for each entry of a tree whose name [`path::component`] refuses with these options,
    /// and for each file to be listed (check_push(1)).
    ///
    /// ```
    /// options.run(alloc, &mut input, &mut output)?; // Verdict::Refused
    /// ```
    ///
    /// # Memory
    ///
    /// It allocates memory for the longest header line, the longest entry and the longest line of the
    /// report, from `alloc`, whatever the sizes of the objects. Each of the first two has at most
    /// 65,536 bytes.
    fn run<R: BufRead, W: Write>(
        self,
        alloc: Global,
        input: &mut R,
        output: &mut W,
    ) -> Result<Verdict, RunError>
        ensures runs { Runs (report (as_options self.entry)) object_reach
            (R.remaining input.old) (R.remaining input.new)
            (W.contents output.old) (W.contents output.new) result }
        ensures clean { IfOk result (λ verdict.
            IfSome (R.remaining input.old) (IsCleanIff (IsAcceptedStream (as_options self.entry)) verdict)) }
        ensures spelled { IsReportedInOrder (tree_rule (as_options self.entry)) self.entry.needs_end }
        ensures well_formed { IsWellFormedOnlyIfSpelled
            (tree_rule (as_options self.entry)) self.entry.needs_end }
        ensures whole { IsWholeStream (tree_rule (as_options self.entry)) self.entry.needs_end }
        ensures items { IsReadAsItems (as_options self.entry) }
        ensures marked { IsMarkedIfAcceptable (as_options self.entry) }
    {
        objects::run(alloc, &self, self.needs_end, input, output)
    }

    fn end<E: Write>(
        name: &str,
        ran: Result<Verdict, RunError>,
        errors: &mut Messages<E>,
    ) -> ExitCode
        ensures { EndsAs E.contents name.now errors.old errors.new result (end_of (codes "object") [] ran) }
    {
        let naming = Naming {
            name,
            item: "object",
            hint: "",
        };
        outcome::end(naming, ran, errors)
    }
}

/// Trees are checked, and other objects are skipped.
impl ObjectCheck for &Options<'_> {
    ghost object_rule = { λ options. tree_rule (as_options options.now) };

    fn check_object<R: BufRead, W: Write>(
        self,
        object: Object<'_>,
        input: &mut R,
        output: &mut W,
        buffers: &mut Buffers,
    ) -> Result<bool, Stop> {
        if object.kind == Kind::Tree {
            return check_tree(self, object, input, output, buffers);
        }
        if !skip(input, object.size)? {
            return Err(Stop::Malformed(Malformation::Ended));
        }
        Ok(false)
    }
}

/// Checks a tree, and returns whether an entry was refused.
fn check_tree<R: BufRead, W: Write>(
    options: &Options<'_>,
    tree: Object<'_>,
    input: &mut R,
    output: &mut W,
    buffers: &mut Buffers,
) -> Result<bool, Stop>
    ensures gives { IfSome (R.remaining input.old) (λ text.
        FollowsRule (tree_report (as_options options.now) (as_object tree.entry) tree.entry.size text)
        (R.remaining input.new) (W.contents output.old) (W.contents output.new) result) }
    ensures within { ReadsWithin tree.entry.size (R.remaining input.old) (R.remaining input.new) result }
{
    let (mut left, mut refused) = (tree.size, false);
    while left > 0 {
        let entry = check_entry(options, tree, left, input, output, buffers)?;
        left -= entry.len;
        refused |= entry.refused;
    }
    Ok(refused)
}

/// The length of an entry in bytes, and whether it was refused.
#[derive(Clone, Copy)]
struct Checked {
    len: u64,
    refused: bool,
}

/// Checks the first entry of the last `left` bytes of a tree.
fn check_entry<R: BufRead, W: Write>(
    options: &Options<'_>,
    tree: Object<'_>,
    left: u64,
    input: &mut R,
    output: &mut W,
    buffers: &mut Buffers,
) -> Result<Checked, Stop>
    requires { 0 < left }
    ensures bound { IfOk result (λ entry. (0 < entry.len) × (entry.len ≤ left)) }
    ensures gives { IfSome (R.remaining input.old) (λ text.
        EntryGives (as_options options.now) (as_object tree.entry) left text (R.remaining input.new)
        (W.contents output.old) (W.contents output.new) result) }
    ensures within { EntryReads left (R.remaining input.old) (R.remaining input.new) result }
{
    read_front(left, input, &mut buffers.read)?;
    let Some(front) = parse_entry_header(&buffers.read) else {
        return Err(Stop::Malformed(Malformation::Entry));
    };
    let finding = finding_of(options, front);
    let front_len = buffers.read.len() as u64 + 1;
    let id_len = tree.id.len() as u64 / 2;
    pass_id(&finding, id_len, left - front_len, input, &mut buffers.part)?;
    let refused = write_finding(
        finding,
        tree,
        front,
        &buffers.part,
        &mut buffers.lines,
        output,
    )?;
    let len = front_len + id_len;
    Ok(Checked { len, refused })
}

/// Reads the bytes before the NUL of the first entry of the last `left` bytes of a tree, and then
/// the NUL.
fn read_front<R: BufRead>(left: u64, input: &mut R, front: &mut Vec<u8>) -> Result<(), Stop>
    ensures front { FrontReads left
        (R.remaining input.old) (R.remaining input.new) front.new.items result }
    ensures within { ReadsWithin left (R.remaining input.old) (R.remaining input.new) result }
{
    let limit = left.min(MAX_LINE);
    match read_before(input, 0, limit as usize, front)? {
        Found::Byte => Ok(()),
        Found::Limit if left < MAX_LINE => Err(Stop::Malformed(Malformation::Entry)),
        Found::Limit => Err(Stop::Malformed(Malformation::TooLong)),
        Found::End => Err(Stop::Malformed(Malformation::Ended)),
    }
}

/// Reads the id of an entry if the entry is listed, and skips it otherwise. It has `len` bytes, of
/// which the tree has `left`.
fn pass_id<R: BufRead>(
    finding: &Finding,
    len: u64,
    left: u64,
    input: &mut R,
    id: &mut Vec<u8>,
) -> Result<(), Stop>
    ensures id { PassesId finding.now len left
        (R.remaining input.old) (R.remaining input.new) id.new.items result }
    ensures within { ReadsWithin left (R.remaining input.old) (R.remaining input.new) result }
{
    if !read_or_skip_id(finding, input, len.min(left), id)? {
        return Err(Stop::Malformed(Malformation::Ended));
    }
    if left < len {
        return Err(Stop::Malformed(Malformation::Entry));
    }
    Ok(())
}

/// The result for an entry.
#[derive(Drop)]
enum Finding {
    /// Accepted, and not listed.
    Accepted,
    /// A file that a checkout reads as `.gitmodules`, to be listed.
    Modules,
    /// Refused, whichever names are accepted.
    Refused(ComponentError),
    /// Refused by the rules of Windows alone, so that its name can be accepted (`--accept`).
    RefusedByWindows(ComponentError),
}

/// The result for an entry with these options.
fn finding_of(options: &Options<'_>, front: EntryHeader<'_>) -> Finding
    ensures { result ≡ finding_of (as_options options.now) (as_entry_header front.entry) }
{
    // A name that is valid for a symbolic link is valid for any entry, and under fewer switches.
    // Nearly every name is, so few are looked up in the list of accepted names.
    let as_symlink = Some(ComponentMode::Symlink);
    match path::component(BStr::new(front.name), as_symlink, options.protections) {
        Ok(_) => Finding::Accepted,
        Err(_) => finding_of_suspect(options, front),
    }
}

/// The result for an entry whose name may be refused.
#[cold]
#[inline(never)]
fn finding_of_suspect(options: &Options<'_>, front: EntryHeader<'_>) -> Finding
    ensures { result ≡ finding_of (as_options options.now) (as_entry_header front.entry) }
{
    let protections = protections_for(options, front.name);
    match path::component(BStr::new(front.name), front.mode, protections) {
        Err(fault) if is_valid_without_windows(protections, front) => {
            Finding::RefusedByWindows(fault)
        }
        Err(fault) => Finding::Refused(fault),
        Ok(_) if options.modules && front.is_file && is_gitmodules(protections, front.name) => {
            Finding::Modules
        }
        Ok(_) => Finding::Accepted,
    }
}

/// Whether an entry's name is valid without the switch for Windows.
fn is_valid_without_windows(protections: ComponentOptions, front: EntryHeader<'_>) -> bool
    ensures { result ≡ is_none
        (fault_of (without_windows protections) front.entry.mode front.entry.name.now) }
{
    let protections = without_windows(protections);
    path::component(BStr::new(front.name), front.mode, protections).is_ok()
}

/// The switches for a name.
fn protections_for(options: &Options<'_>, name: &[u8]) -> ComponentOptions
    ensures { result ≡ protections_for (as_options options.now) name.now }
{
    if options.accepted.contains(name) {
        without_windows(options.protections)
    } else {
        options.protections
    }
}

/// Whether a protected system takes a name for `.gitmodules`.
fn is_gitmodules(protections: ComponentOptions, name: &[u8]) -> bool
    ensures { result ≡ is_gitmodules protections name.now }
{
    matches!(
        path::component(BStr::new(name), Some(ComponentMode::Symlink), protections),
        Err(ComponentError::SymlinkedGitModules)
    )
}

/// Reads the bytes of an entry's id if the entry is listed, skips them otherwise, and returns
/// whether the input had them.
fn read_or_skip_id<R: BufRead>(
    finding: &Finding,
    input: &mut R,
    count: u64,
    id: &mut Vec<u8>,
) -> Result<bool, RunError>
    ensures { IfOk result (λ whole.
        ReadsOrSkipsId finding.now count (R.remaining input.old) (R.remaining input.new) id.new.items whole) }
{
    match finding {
        Finding::Modules => read_bytes(input, count as usize, id),
        Finding::Accepted | Finding::Refused(_) | Finding::RefusedByWindows(_) => {
            skip(input, count)
        }
    }
}

/// Writes the line of an entry, if it has one, and returns whether it is refused.
fn write_finding<W: Write>(
    finding: Finding,
    tree: Object<'_>,
    front: EntryHeader<'_>,
    id: &[u8],
    line: &mut Vec<u8>,
    output: &mut W,
) -> Result<bool, RunError>
    ensures { Says (finding_said (as_object tree.entry)
        (record { front = as_entry_header front.entry; id = id.now }) finding)
        (W.contents output.old) (W.contents output.new) result }
{
    let (set, refused) = match finding {
        Finding::Accepted => return Ok(false),
        Finding::Modules => (set_modules(line, tree, front, id), false),
        Finding::Refused(fault) => (set_refused(line, tree, front, fault), true),
        Finding::RefusedByWindows(fault) => {
            (set_refused_by_windows(line, tree, front, fault), true)
        }
    };
    set.map_err(|_| RunError::Memory)?;
    output.write_all(line).map_err(|_| RunError::Write)?;
    Ok(refused)
}
