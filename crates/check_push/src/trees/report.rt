//! The lines of the report.
//!
//! The directory of an entry is what Git prints for `%(rest)`: a path at which it found the tree.
//! The path is only for display, because it may be one of many, and is cut at a newline. Each line
//! of a tree repeats it, and the push decides how long it is, so only its first bytes are shown.
//! Otherwise the output would not be linear in the input.
//!
//! The first word tells the lines apart. `modules` is for a file that isn't refused, whose contents
//! `check_push submodules` checks. `windows` is for an entry that only the rules for Windows
//! refuse, and that `--accept` can accept. Any other line begins with an id.

ghost use Rattle.std.specs.Prelude.{◌≡◌, ◌++◌, OnOk, codes, flat_map};
ghost use Rattle.std.specs.Option.{option_map};
ghost use Rattle.gix_validate.specs.Quoted.{escape_of, quoted};
ghost use Rattle.programs.specs.Promises.{as_object};
ghost use Rattle.check_push.specs.Trees.Report.{modules_line, path_of, place, refused_line};
ghost use Rattle.check_push.specs.Trees.Report.{shown_directory, windows_line};
ghost use Rattle.check_push.specs.Trees.Private.{as_entry_header, before_name};

use crate::trees::entry::EntryHeader;
use gix_validate::path::ComponentError;
use programs::header::Object;
use programs::output::{push_escaped, push_hex};
use std::alloc::AllocError;
use std::io::Write;

/// The largest number of bytes of a directory that are shown.
const MAX_DIRECTORY: usize = 128;

/// Replaces the previous line with that of a refused entry. Most entries have none.
#[cold]
#[inline(never)]
pub(crate) fn set_refused(
    line: &mut Vec<u8>,
    tree: Object<'_>,
    front: EntryHeader<'_>,
    fault: ComponentError,
) -> Result<(), AllocError>
    ensures { OnOk result
        (line.new.items ≡ refused_line (as_object tree.entry) (as_entry_header front.entry) fault) }
{
    line.clear();
    push_refused(line, tree, front, fault)
}

/// Replaces the previous line with that of an entry that only the rules for Windows refuse.
#[cold]
#[inline(never)]
pub(crate) fn set_refused_by_windows(
    line: &mut Vec<u8>,
    tree: Object<'_>,
    front: EntryHeader<'_>,
    fault: ComponentError,
) -> Result<(), AllocError>
    ensures { OnOk result
        (line.new.items ≡ windows_line (as_object tree.entry) (as_entry_header front.entry) fault) }
{
    line.clear();
    line.extend_from_slice(b"windows ")?;
    push_refused(line, tree, front, fault)
}

/// Replaces the previous line with that of a file that is read as `.gitmodules`. Its id is in
/// bytes.
#[cold]
#[inline(never)]
pub(crate) fn set_modules(
    line: &mut Vec<u8>,
    tree: Object<'_>,
    front: EntryHeader<'_>,
    id: &[u8],
) -> Result<(), AllocError>
    ensures { OnOk result
        (line.new.items ≡ modules_line (as_object tree.entry) (as_entry_header front.entry) id.now) }
{
    line.clear();
    line.extend_from_slice(b"modules ")?;
    push_hex(line, id)?;
    line.push(b' ')?;
    push_place(line, tree, front)?;
    line.push(b'\n')?;
    Ok(())
}

/// Appends the line of a refused entry, without a mark.
fn push_refused(
    line: &mut Vec<u8>,
    tree: Object<'_>,
    front: EntryHeader<'_>,
    fault: ComponentError,
) -> Result<(), AllocError>
    ensures { OnOk result (line.new.items
        ≡ line.old.items ++ refused_line (as_object tree.entry) (as_entry_header front.entry) fault) }
{
    push_place(line, tree, front)?;
    writeln!(line, " {fault}").map_err(|_| AllocError)
}

/// Appends the tree's id, the mode and the quoted path of an entry.
fn push_place(
    line: &mut Vec<u8>,
    tree: Object<'_>,
    front: EntryHeader<'_>,
) -> Result<(), AllocError>
    ensures { OnOk result
        (line.new.items ≡ line.old.items ++ place (as_object tree.entry) (as_entry_header front.entry)) }
{
    push_word(line, tree.id)?;
    push_word(line, front.digits)?;
    push_path(line, tree.rest, front.name)
}

/// Appends these bytes and a space.
fn push_word(line: &mut Vec<u8>, word: &[u8]) -> Result<(), AllocError>
    ensures { OnOk result (line.new.items ≡ line.old.items ++ word.now ++ codes " ") }
{
    line.extend_from_slice(word)?;
    line.push(b' ')?;
    Ok(())
}

/// Appends a quoted path: the directory, if it is known, a slash and the name.
fn push_path(line: &mut Vec<u8>, directory: Option<&[u8]>, name: &[u8]) -> Result<(), AllocError>
    ensures { OnOk result (line.new.items ≡ line.old.items
        ++ quoted (path_of (option_map (λ directory. directory.now) directory.entry) name.now)) }
{
    line.push(b'"')?;
    push_known_directory(line, directory)?;
    push_escaped(line, name)?;
    line.push(b'"')?;
    Ok(())
}

/// Appends the escaped bytes of a directory, as far as they are shown, and a slash. It appends
/// nothing if the directory is not known.
fn push_known_directory(line: &mut Vec<u8>, directory: Option<&[u8]>) -> Result<(), AllocError>
    ensures { OnOk result (line.new.items ≡ line.old.items
        ++ flat_map escape_of
        (before_name (option_map (λ directory. directory.now) directory.entry))) }
{
    match directory {
        Some(directory) if !directory.is_empty() => push_directory(line, directory),
        _ => Ok(()),
    }
}

/// Appends the escaped bytes of a directory, or the first [`MAX_DIRECTORY`] of them and dots, and a
/// slash.
fn push_directory(line: &mut Vec<u8>, directory: &[u8]) -> Result<(), AllocError>
    ensures { OnOk result (line.new.items
        ≡ line.old.items ++ flat_map escape_of (shown_directory directory.now) ++ codes "/") }
{
    if directory.len() <= MAX_DIRECTORY {
        push_escaped(line, directory)?;
        line.push(b'/')?;
    } else {
        let front = &directory[..MAX_DIRECTORY];
        push_escaped(line, front)?;
        line.extend_from_slice(b".../")?;
    }
    Ok(())
}
