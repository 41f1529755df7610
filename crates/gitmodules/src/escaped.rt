//! The name in a section's header.

ghost use Rattle.std.specs.Prelude.{◌≡◌, ◌++◌, ℕ, List, OnErr, OnOk, false, option_map};
ghost use Rattle.gitmodules.specs.Sections.{escaped_name, unescaped};

use std::alloc::AllocError;
use std::marker::Model;

/// The name in the header of a submodule's section, as it is in the file: between the double
/// quotes, with its backslashes.
///
/// In contracts a value is the bytes of the name, without the backslashes that escape. It borrows
/// the bytes of the file, and [`Sections`](crate::Sections) returns it.
#[derive(Clone, Debug, Drop)]
pub struct EscapedName<'a> {
    /// The bytes between the double quotes.
    bytes: &'a [u8],
}

impl<'a> Model for EscapedName<'a> {
    ghost use Rattle.std.specs.Prelude.{ℕ, List, false};
    ghost use Rattle.gitmodules.specs.Sections.{unescaped};

    ghost Value = { List ℕ };

    ghost view = { λ name. unescaped false name.bytes.now };
}

impl<'a> EscapedName<'a> {
    /// The name that these bytes begin with, up to `"]`, if they begin with one. They start after
    /// the opening quote.
    pub(crate) fn after_quote(bytes: &'a [u8]) -> Option<EscapedName<'a>>
        ensures { result ≡ option_map (unescaped false) (escaped_name false bytes.now) }
    {
        let mut escaped = false;
        for (offset, byte) in bytes.iter().enumerate() {
            if matches!(*byte, b'\0' | b'\n' | 0xff) {
                return None;
            }
            if !escaped && *byte == b'"' {
                let is_closed = bytes[offset + 1..].starts_with(b"]");
                let bytes = &bytes[..offset];
                return is_closed.then_some(EscapedName { bytes });
            }
            escaped = !escaped && *byte == b'\\';
        }
        None
    }

    /// Appends the bytes of the name to `name`, without the backslashes that escape.
    ///
    /// ```
    /// section_name.push_to(&mut name)?; // appends `a"b` if the file has `a\"b`
    /// ```
    ///
    /// # Errors
    ///
    /// `AllocError` if `name` can't grow. Then the beginning of the name has been appended, which
    /// may be empty.
    ///
    /// # Memory
    ///
    /// It allocates what `name` needs to hold the bytes, from the allocator of `name`.
    pub fn push_to(&self, name: &mut Vec<u8>) -> Result<(), AllocError>
        ensures ok { OnOk result (name.new.items ≡ name.old.items ++ self.now) }
        ensures err { OnErr result ((front : List ℕ) × (name.new.items ≡ name.old.items ++ front)
            × ((rest : List ℕ) × (self.now ≡ front ++ rest))) }
    {
        let mut escaped = false;
        for byte in self.bytes {
            escaped = !escaped && *byte == b'\\';
            if !escaped {
                name.push(*byte)?;
            }
        }
        Ok(())
    }
}
