//! A name between double quotes, as Git quotes it.

ghost use Rattle.std.specs.Prelude.{◌≡◌, ◌++◌, codes, OnOk};
ghost use Rattle.git_check_names.specs.GitQuoted.{git_escape_of, git_quoted, octal_of};

use std::alloc::AllocError;

/// Appends a name between double quotes, with its bytes escaped as Git does (git-check-names(1)).
pub(crate) fn push_git_quoted(line: &mut Vec<u8>, name: &[u8]) -> Result<(), AllocError>
    ensures { OnOk result (line.new.items ≡ line.old.items ++ git_quoted name.now) }
{
    line.push(b'"')?;
    for byte in name {
        push_escape(line, *byte)?;
    }
    line.push(b'"')?;
    Ok(())
}

/// Appends a byte as it is, or as an escape.
fn push_escape(line: &mut Vec<u8>, byte: u8) -> Result<(), AllocError>
    ensures { OnOk result (line.new.items ≡ line.old.items ++ git_escape_of byte) }
{
    let letter = match byte {
        0x07 => b'a',
        0x08 => b'b',
        b'\t' => b't',
        b'\n' => b'n',
        0x0B => b'v',
        0x0C => b'f',
        b'\r' => b'r',
        b'"' | b'\\' => byte,
        b' '..=b'~' => return line.extend_from_slice(&[byte]),
        _ => return push_octal(line, byte),
    };
    line.extend_from_slice(&[b'\\', letter])
}

/// Appends a backslash, and the three octal digits of a byte.
fn push_octal(line: &mut Vec<u8>, byte: u8) -> Result<(), AllocError>
    ensures { OnOk result (line.new.items ≡ line.old.items ++ codes "\\" ++ octal_of byte) }
{
    let digits = [b'0' + byte / 64, b'0' + byte / 8 % 8, b'0' + byte % 8];
    line.push(b'\\')?;
    line.extend_from_slice(&digits)
}
