//! What an error prints: words, followed by bytes of the name in quotes if it quotes any.

ghost use Rattle.std.specs.Prelude.{◌≡◌, ◌+◌, ◌*◌, ◌<◌, ◌≤◌, length, Some};
ghost use Rattle.std.specs.Option.{ForSome};
ghost use Rattle.gix_validate.specs.declared.text.TheConstants.{MAX_TEXT};
ghost use Rattle.gix_validate.specs.Quoted.{escape_of, hex_digit};

use arrayvec::ArrayString;
use std::fmt;

/// How many bytes the longest text has: that of `ComponentError::WindowsIllegalCharacter`.
pub const MAX_TEXT: usize = 134;

/// What an error prints (docs/RULES.md, "Printed texts"): at most [`MAX_TEXT`] bytes.
///
/// `Display` of the error prints the same. A caller that can't use `Display`, for example because
/// it writes to a buffer of fixed length, appends the words, and then, between double quotes, each
/// byte as [`escape`] returns it.
#[derive(Debug, Clone, Copy)]
pub struct Text<'a> {
    /// The words.
    pub words: &'static str,
    /// The bytes that follow the words, between double quotes.
    pub quoted: Option<&'a [u8]>,
    pub ghost words_fit: { length words.now ≤ MAX_TEXT },
    pub ghost all_fits: { ForSome quoted (λ bytes. length words.now + 4 * length bytes.now + 2 ≤ MAX_TEXT) },
}

impl Text<'_> {
    ghost use Rattle.gix_validate.specs.Printed.{printed};

    pub(crate) fn plain(words: &'static str) -> Text<'static>
        requires { length words.now ≤ MAX_TEXT }
        ensures { printed result ≡ words.now }
    {
        Text {
            words,
            quoted: None,
        }
    }
}

impl<'a> fmt::Display for Text<'a> {
    ghost use Rattle.gix_validate.specs.Printed.{printed};

    ghost output = { λ text. Some (printed text) };

    fn fmt<W: fmt::Write>(&self, f: &mut fmt::Formatter<W>) -> fmt::Result {
        f.write_str(self.words)?;
        let Some(bytes) = self.quoted else {
            return Ok(());
        };
        f.write_str("\"")?;
        for byte in bytes {
            f.write_str(escape(*byte).as_str())?;
        }
        f.write_str("\"")
    }
}

/// How a byte is shown between double quotes: as itself, or as an escape (docs/RULES.md, "Quoted
/// bytes").
///
/// ```
/// escape(b'\n').as_str(); // `\n`, a backslash and an `n`
/// ```
///
/// It doesn't allocate.
pub fn escape(byte: u8) -> ArrayString<4>
    ensures shown { result.bytes ≡ escape_of byte }
{
    let mut shown = ArrayString::new();
    match byte {
        0 => shown.push_str("\\0"),
        b'\t' => shown.push_str("\\t"),
        b'\n' => shown.push_str("\\n"),
        b'\r' => shown.push_str("\\r"),
        b'"' => shown.push_str("\\\""),
        b'\\' => shown.push_str("\\\\"),
        0x20..=0x7e => shown.push(char::from(byte)),
        _ => {
            shown.push_str("\\x");
            shown.push(hex_digit(byte / 16));
            shown.push(hex_digit(byte % 16));
        }
    }
    shown
}

fn hex_digit(number: u8) -> char
    requires { number < 16 }
    ensures digit { result ≡ hex_digit number }
    ensures ascii { result < 128 }
{
    char::from(b"0123456789abcdef"[usize::from(number)])
}
