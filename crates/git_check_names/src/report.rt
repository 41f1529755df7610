//! What is printed for a name.

ghost use Rattle.std.specs.Prelude.{◌≡◌, ◌++◌, codes, false, IfOk, IfSome, IsTrue, OnOk, option_map};
ghost use Rattle.std.specs.Prelude.{is_none};
ghost use Rattle.std.specs.List.{list_all};
ghost use Rattle.gix_validate.specs.Bytes.{holds};
ghost use Rattle.gix_validate.specs.Faults.{when};
ghost use Rattle.gix_validate.specs.Sanitized.{sanitized};
ghost use Rattle.bstr.specs.Owned.{bstring_bytes};
ghost use Rattle.git_check_names.specs.Faults.{fault_of, is_name};
ghost use Rattle.git_check_names.specs.Names.{checked_report, details, fault_text, is_plain_byte};
ghost use Rattle.git_check_names.specs.Names.{is_unclear, name_report, print_end, repair_of};
ghost use Rattle.git_check_names.specs.Names.{repair_report, shown};
ghost use Rattle.git_check_names.specs.Options.{as_options};
ghost use Rattle.git_check_names.specs.Private.{IsCutAtColon};
ghost use Rattle.git_check_names.specs.Problems.{message_start};

use crate::fault::{fault_of, reason_word};
use crate::options::CheckOptions;
use crate::problem::MESSAGE_START;
use crate::quote::push_git_quoted;
use bstr::{BStr, BString};
use git_names::{Fault, Kind, suggest};
use gix_validate::reference::name_partial_or_sanitize;
use programs::text::split_once;
use std::alloc::{AllocError, Global};
use std::io::{self, Write};

/// Appends the lines to print for a name and the messages about it for standard error, and returns
/// whether the name is refused: it is invalid, and has no repair if that is asked for
/// (git-check-names(1)).
pub(crate) fn push_report(
    alloc: Global,
    options: &CheckOptions<'_>,
    kind: Kind,
    name: &[u8],
    lines: &mut Vec<u8>,
    messages: &mut Vec<u8>,
) -> io::Result<bool>
    ensures lines { OnOk result (lines.new.items
        ≡ lines.old.items ++ (name_report (as_options options.now) kind name.now).lines) }
    ensures messages { OnOk result (messages.new.items
        ≡ messages.old.items ++ (name_report (as_options options.now) kind name.now).messages) }
    ensures refused { IfOk result (λ refused.
        refused ≡ (name_report (as_options options.now) kind name.now).refused) }
    ensures failed { (name_report (as_options options.now) kind name.now).failed ≡ false }
{
    if options.repair {
        push_repair(alloc, options, kind, name, lines, messages)
    } else {
        push_checked(options, name, fault_of(options, kind, name), lines)
    }
}

/// Appends the line to print for a name with this fault, and returns whether it has one.
fn push_checked(
    options: &CheckOptions<'_>,
    name: &[u8],
    fault: Option<Fault>,
    lines: &mut Vec<u8>,
) -> io::Result<bool>
    ensures lines { OnOk result (lines.new.items
        ≡ lines.old.items ++ (checked_report (as_options options.now) name.now fault).lines) }
    ensures refused { IfOk result (λ refused.
        refused ≡ (checked_report (as_options options.now) name.now fault).refused) }
{
    let Some(fault) = fault else {
        return Ok(false);
    };
    push_fault(options, name, &fault, lines)?;
    lines.push(b'\n')?;
    Ok(true)
}

/// Appends the repair of a name, or the message that it has none, and returns whether it has none.
fn push_repair(
    alloc: Global,
    options: &CheckOptions<'_>,
    kind: Kind,
    name: &[u8],
    lines: &mut Vec<u8>,
    messages: &mut Vec<u8>,
) -> io::Result<bool>
    ensures lines { OnOk result (lines.new.items ≡ lines.old.items
        ++ (repair_report (as_options options.now) name.now
        (fault_of (as_options options.now) kind name.now)
        (repair_of (as_options options.now) kind name.now)).lines) }
    ensures messages { OnOk result (messages.new.items ≡ messages.old.items
        ++ (repair_report (as_options options.now) name.now
        (fault_of (as_options options.now) kind name.now)
        (repair_of (as_options options.now) kind name.now)).messages) }
    ensures refused { IfOk result (λ refused.
        refused ≡ (repair_report (as_options options.now) name.now
        (fault_of (as_options options.now) kind name.now)
        (repair_of (as_options options.now) kind name.now)).refused) }
{
    if let Some(repair) = repair_of(alloc, options, kind, name)? {
        lines.extend_from_slice(repair.as_slice())?;
        lines.push(print_end(options))?;
        return Ok(false);
    }
    let Some(fault) = fault_of(options, kind, name) else {
        return Ok(false);
    };
    push_unrepaired(options, name, &fault, messages)?;
    Ok(true)
}

/// The repair of a name, if it has one.
#[tactic(auto, using(crate::proofs::Repairs::repair_laws))]
fn repair_of(
    alloc: Global,
    options: &CheckOptions<'_>,
    kind: Kind,
    name: &[u8],
) -> Result<Option<BString>, AllocError>
    ensures repair { IfOk result (λ found.
        option_map bstring_bytes found ≡ repair_of (as_options options.now) kind name.now) }
    ensures valid { IfOk result (λ found. IfSome found (λ repair.
        IsTrue (is_name (as_options options.now) kind (bstring_bytes repair)))) }
{
    if kind == Kind::Branch {
        return suggest(alloc, BStr::new(name));
    }
    if fault_of(options, kind, name).is_none() {
        return Ok(Some(BString::new(copied(alloc, name)?)));
    }
    sanitized(alloc, options, kind, name)
}

/// The sanitised name, if that is valid.
#[tactic(auto, using(crate::proofs::Repairs::repair_laws))]
fn sanitized(
    alloc: Global,
    options: &CheckOptions<'_>,
    kind: Kind,
    name: &[u8],
) -> Result<Option<BString>, AllocError>
    ensures repair { IfOk result (λ found. option_map bstring_bytes found
        ≡ when (is_none (fault_of (as_options options.now) kind (sanitized name.now)))
        (sanitized name.now)) }
    ensures valid { IfOk result (λ found. IfSome found (λ repair.
        IsTrue (is_name (as_options options.now) kind (bstring_bytes repair)))) }
{
    let repaired = name_partial_or_sanitize(alloc, BStr::new(name))?;
    if fault_of(options, kind, repaired.as_slice()).is_none() {
        Ok(Some(repaired))
    } else {
        Ok(None)
    }
}

/// A copy of the bytes.
fn copied(alloc: Global, bytes: &[u8]) -> Result<Vec<u8>, AllocError>
    ensures copy { IfOk result (λ copy. copy.items ≡ bytes.now) }
{
    let mut copy = Vec::with_capacity(alloc, bytes.len())?;
    copy.extend_from_slice(bytes)?;
    Ok(copy)
}

/// Appends the message of a name without a repair.
#[tactic(auto, using(crate::proofs::GivenNames::given_names))]
fn push_unrepaired(
    options: &CheckOptions<'_>,
    name: &[u8],
    fault: &Fault,
    messages: &mut Vec<u8>,
) -> io::Result<()>
    ensures { OnOk result (messages.new.items ≡ messages.old.items
        ++ message_start ++ codes "can't repair " ++ fault_text (as_options options.now) name.now fault.now) }
{
    write!(messages, "{MESSAGE_START}can't repair ")?;
    push_fault(options, name, fault, messages)
}

/// Appends a name and its fault.
fn push_fault(
    options: &CheckOptions<'_>,
    name: &[u8],
    fault: &Fault,
    line: &mut Vec<u8>,
) -> io::Result<()>
    ensures { OnOk result (line.new.items
        ≡ line.old.items ++ fault_text (as_options options.now) name.now fault.now) }
{
    push_shown(line, name)?;
    write!(line, ": {}", fault.message(BStr::new(name)))?;
    push_details(options, fault, line)
}

/// Appends the name of the error and its offset, if they are asked for.
fn push_details(options: &CheckOptions<'_>, fault: &Fault, line: &mut Vec<u8>) -> io::Result<()>
    ensures { OnOk result (line.new.items
        ≡ line.old.items ++ details (as_options options.now) fault.now) }
{
    if options.verbose {
        let word = reason_word(&fault.reason);
        write!(line, " ({word} at {})", fault.offset)?;
    }
    Ok(())
}

/// Appends a name as it is, or quoted if it has to be.
pub(crate) fn push_shown(lines: &mut Vec<u8>, name: &[u8]) -> Result<(), AllocError>
    ensures { OnOk result (lines.new.items ≡ lines.old.items ++ shown name.now) }
{
    if !name.is_empty() && are_plain(name) && !is_unclear(name) {
        lines.extend_from_slice(name)
    } else {
        push_git_quoted(lines, name)
    }
}

/// Whether each byte is shown as it is in a name without quotes.
fn are_plain(name: &[u8]) -> bool
    ensures { result ≡ list_all is_plain_byte name.now }
{
    name.iter().all(|byte| matches!(*byte, b' ' | b'!' | b'#'..=b'[' | b']'..=b'~'))
}

/// Whether a line would not show where the name ends.
fn is_unclear(name: &[u8]) -> bool
    ensures { result ≡ is_unclear name.now }
{
    name.starts_with(b" ") || name.ends_with(b" ") || has_separator(name)
}

/// The bytes before and after the first colon, if there is one.
#[tactic(auto, using(crate::proofs::UnclearNames::names_held))]
fn cut_at_colon(name: &[u8]) -> Option<(&[u8], &[u8])>
    ensures { IsCutAtColon name.now (option_map (λ parts. (parts.0.now, parts.1.now)) result) }
{
    split_once(b':', name)
}

/// Whether the name has a colon followed by a space.
fn has_separator(name: &[u8]) -> bool
    ensures { result ≡ holds name.now (codes ": ") }
{
    let mut rest = name;
    while let Some((_, after)) = cut_at_colon(rest) {
        if after.starts_with(b" ") {
            return true;
        }
        rest = after;
    }
    false
}

/// The byte that ends a printed name.
fn print_end(options: &CheckOptions<'_>) -> u8
    ensures { result ≡ print_end (as_options options.now) }
{
    if options.repair && options.nul {
        0
    } else {
        b'\n'
    }
}
