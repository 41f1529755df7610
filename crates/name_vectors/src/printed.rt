//! What errors print (docs/RULES.md, "Printed texts"), with a quoted byte or name.

use crate::reference::Fault;
use crate::text::{Host, joined};

/// Errors of one kind of name, and their texts. Each table is returned by a function of its own, so
/// that it is part of that function's proof alone.
pub(crate) type Texts = &'static [(&'static [u8], &'static [u8])];

#[rattlefmt::skip]
pub(crate) fn tag_texts() -> Texts {
    &[
        (b"InvalidByte", b"A ref must not contain invalid bytes or ascii control characters: "),
        (b"StartsWithSlash", b"A reference name must not start with a slash '/'"),
        (b"RepeatedSlash", b"Multiple slashes in a row are not allowed as they may change the reference's meaning"),
        (b"RepeatedDot", b"A ref must not contain '..' as it may be mistaken for a range"),
        (b"LockFileSuffix", b"A ref must not end with '.lock'"),
        (b"ReflogPortion", b"A ref must not contain '@{' which is a part of a ref-log"),
        (b"Asterisk", b"A ref must not contain '*' character"),
        (b"StartsWithDot", b"A ref must not start with a '.'"),
        (b"EndsWithDot", b"A ref must not end with a '.'"),
        (b"EndsWithSlash", b"A ref must not end with a '/'"),
        (b"Empty", b"A ref must not be empty"),
    ]
}

#[rattlefmt::skip]
pub(crate) fn reference_texts() -> Texts {
    &[
        (b"InvalidByte", b"Reference name contains invalid byte: "),
        (b"StartsWithSlash", b"Reference name cannot start with a slash"),
        (b"RepeatedSlash", b"Reference name cannot contain repeated slashes"),
        (b"RepeatedDot", b"Reference name cannot contain repeated dots"),
        (b"LockFileSuffix", b"Reference name cannot end with '.lock'"),
        (b"ReflogPortion", b"Reference name cannot contain '@{'"),
        (b"Asterisk", b"Reference name cannot contain '*'"),
        (b"StartsWithDot", b"Reference name cannot start with a dot"),
        (b"EndsWithDot", b"Reference name cannot end with a dot"),
        (b"EndsWithSlash", b"Reference name cannot end with a slash"),
        (b"Empty", b"Reference name cannot be empty"),
        (b"SomeLowercase", b"Standalone references must be all uppercased, like 'HEAD'"),
        (b"Reserved", b"Reference name is reserved and cannot be used: "),
    ]
}

#[rattlefmt::skip]
pub(crate) fn submodule_texts() -> Texts {
    &[
        (b"Empty", b"Submodule names cannot be empty"),
        (b"ParentComponent", b"Submodules names must not contains '..'"),
    ]
}

#[rattlefmt::skip]
pub(crate) fn component_texts() -> Texts {
    &[
        (b"Empty", b"A path component must not be empty"),
        (b"PathSeparator", b"Path separators like / or \\ are not allowed"),
        (b"WindowsPathPrefix", b"Windows path prefixes are not allowed"),
        (b"WindowsReservedName", b"Windows device-names may have side-effects and are not allowed"),
        (b"WindowsIllegalCharacter", b"Trailing spaces or dots, and the following characters anywhere, are forbidden in Windows paths, along with non-printable ones: <>:\"|?*"),
        (b"DotGitDir", b"The .git name may never be used"),
        (b"SymlinkedGitModules", b"The .gitmodules file must not be a symlink"),
        (b"Relative", b"Relative components '.' and '..' are disallowed"),
    ]
}

/// The errors of short branch names that reference names don't have.
#[rattlefmt::skip]
pub(crate) fn branch_texts() -> Texts {
    &[
        (b"StartsWithDash", b"Branch or tag name cannot start with a dash, as it may be mistaken for an option"),
    ]
}

/// The errors of whole paths that components don't have.
#[rattlefmt::skip]
pub(crate) fn path_texts() -> Texts {
    &[
        (b"EmptyPart", b"A path must not be empty, start or end with a slash, or have two in a row"),
        (b"Nul", b"A path must not have a NUL byte"),
    ]
}

/// The text of the error, followed by what is quoted after it, if anything is.
pub(crate) fn printed(rt: &impl Host, texts: Texts, (error, quoted): Fault<'_>) -> Vec<u8> {
    let text = text_of(texts, error);
    let mark: &[u8] = if text.ends_with(b": ") { b"\"" } else { b"" };
    let mut printed = joined(rt, &[text, mark]);
    for byte in quoted {
        push_escaped(rt, &mut printed, *byte);
    }
    printed.extend_from_slice(mark).expect(rt, "memory");
    printed
}

/// The text of the error, if it is among these.
fn text_of(texts: Texts, error: &[u8]) -> &'static [u8] {
    for (word, text) in texts {
        if *word == error {
            return text;
        }
    }
    b""
}

/// Adds the byte as it is in a quoted form.
fn push_escaped(rt: &impl Host, printed: &mut Vec<u8>, byte: u8) {
    let hex = format!(in rt.alloc(); "\\x{byte:02x}").expect(rt, "memory");
    let itself = [byte];
    let form: &[u8] = match byte {
        0x00 => b"\\0",
        b'\t' => b"\\t",
        b'\n' => b"\\n",
        b'\r' => b"\\r",
        b'"' => b"\\\"",
        b'\\' => b"\\\\",
        0x20..0x7F => &itself,
        _ => hex.as_bytes(),
    };
    printed.extend_from_slice(form).expect(rt, "memory");
}
