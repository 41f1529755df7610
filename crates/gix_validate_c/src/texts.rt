//! The printed texts of faults (docs/RULES.md, "Printed texts").

ghost use Rattle.std.specs.Prelude.{◌≡◌, ◌↔◌, ◌≤◌, length, IsTrue};
ghost use Rattle.gix_validate.specs.Printed.{printed};
ghost use Rattle.gix_validate_c.specs.Kinds.{kind_of, printed_by};
ghost use Rattle.gix_validate_c.specs.Texts.{with_text};

use crate::flags::options_of;
use crate::names::kind_of;
use arrayvec::ArrayString;
use bstr::BStr;
pub use gix_validate::text::MAX_TEXT;
use gix_validate::text::{Text, escape};

/// Writes the text of the fault for which
/// [`gix_validate_fault_of`](crate::names::gix_validate_fault_of) refuses the name, and returns its
/// length in bytes, or 0 if the name is valid or there is no such kind.
///
/// No text has more than [`MAX_TEXT`] bytes. If the whole text fits, it is written to the start of
/// the buffer, and the rest of the buffer is unchanged. Otherwise nothing is written. The text
/// isn't NUL-terminated.
///
/// ```c
/// gix_validate_text_of("a..b", 4, 0, 2, text, sizeof text); // 61
/// ```
#[unsafe(no_mangle)]
pub extern "C" fn gix_validate_text_of(name: &[u8], flags: u32, kind: u32, text: &mut [u8]) -> usize
    ensures length { result ≡ length (printed_by (kind_of kind) flags name.now) }
    ensures bytes { text.new ≡ with_text (printed_by (kind_of kind) flags name.now) text.old }
    ensures longest { result ≤ MAX_TEXT }
{
    match kind_of(kind) {
        None => 0,
        Some(kind) => match git_names::check(kind, BStr::new(name), options_of(flags)) {
            Ok(_) => 0,
            Err(fault) => write_text(fault.reason.text(), text),
        },
    }
}

/// Writes the text to the start of the buffer if all of it fits, and returns its length.
fn write_text(text: Text<'_>, buffer: &mut [u8]) -> usize
    ensures length { result ≡ length (printed text.entry) }
    ensures bytes { buffer.new ≡ with_text (printed text.entry) buffer.old }
    ensures longest { result ≤ MAX_TEXT }
{
    let mut shown: ArrayString<MAX_TEXT> = ArrayString::new();
    shown.push_str(text.words);
    if let Some(bytes) = text.quoted {
        shown.push_str("\"");
        for byte in bytes {
            shown.push_str(escape(*byte).as_str());
        }
        shown.push_str("\"");
    }
    if shown.len() <= buffer.len() {
        buffer[..shown.len()].copy_from_slice(shown.as_str().as_bytes());
    }
    shown.len()
}
