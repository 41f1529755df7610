//! Path components.

ghost use Rattle.std.specs.Prelude.{◌≡◌, ◌↔◌, None, IsOk, IsTrue, Some, bytes_eq, encode_utf8_all};
ghost use Rattle.std.specs.Cmp.{on_equiv, on_per, partial_equiv_from_equiv};
ghost use Rattle.std.specs.Cmp.Lexicographic.{nat_list_eq_equiv};
ghost use Rattle.bstr.specs.BStr.{bstr_bytes};
ghost use Rattle.bstr.specs.Utf8.{lossy_chars};
ghost use Rattle.gix_validate.specs.Component.{fault_of, is_component};
ghost use Rattle.gix_validate.specs.ComponentLaws.{no_protections};

use bstr::BStr;
use gix_validate::path::{self, ComponentError, ComponentMode, ComponentOptions};
use std::convert::AsSlice;
use std::fmt;

/// The name of an entry in a directory, such as `src` or `a.rs` (docs/RULES.md, "Path components").
///
/// [`new`](Component::new) checks it under a mode and options. The type keeps what all of these
/// have in common: the name is valid with no switch and without a mode. That is what
/// `gix_validate::path::join` requires of its parts.
#[derive(Clone, Copy, Debug)]
pub struct Component<'a> {
    name: BStr<'a>,
    /// The name is valid with no switch and without a mode.
    pub ghost valid: { fault_of no_protections None (bstr_bytes name) ≡ None },
}

impl<'a> Component<'a> {
    ghost use Rattle.typed_names.specs.Names.{component_text, NewChecks};

    /// Keeps `name` if [`path::component`] accepts it under this mode and these options.
    ///
    /// ```
    /// let windows = ComponentOptions { protect_windows: true, protect_hfs: false, protect_ntfs: false };
    /// Component::new(BStr::from("CON"), None, windows)?; // keeps `CON`
    /// Component::new(BStr::from("CON"), None, ComponentOptions::default()); // WindowsReservedName
    /// ```
    ///
    /// # Errors
    ///
    /// The error that [`path::component`] returns under this mode and these options.
    pub fn new(
        name: BStr<'a>,
        mode: Option<ComponentMode>,
        options: ComponentOptions,
    ) -> Result<Component<'a>, ComponentError>
        ensures answer { NewChecks component_text (fault_of options mode) name.entry result }
        ensures grammar { IsOk result ↔ IsTrue (is_component options mode (bstr_bytes name.entry)) }
    {
        Ok(Component {
            name: path::component(name, mode, options)?,
        })
    }

    /// What was passed to [`new`](Component::new), which is valid with no switch and without a mode.
    pub fn as_bstr(&self) -> BStr<'a>
        ensures same { result ≡ component_text self.now }
        ensures valid { fault_of no_protections None (bstr_bytes result) ≡ None }
    {
        self.name
    }
}

/// Two names are equal if and only if their bytes are.
impl<'a> PartialEq for Component<'a> {
    ghost use Rattle.typed_names.specs.Names.{component_bytes};

    ghost eq = { λ a b. bytes_eq (component_bytes a) (component_bytes b) };

    ghost laws = { on_per component_bytes (partial_equiv_from_equiv nat_list_eq_equiv) };

    fn eq(&self, other: &Component<'a>) -> bool {
        self.as_bstr() == other.as_bstr()
    }
}

impl<'a> Eq for Component<'a> {
    ghost use Rattle.typed_names.specs.Names.{component_bytes};

    ghost laws = { on_equiv component_bytes nat_list_eq_equiv };
}

/// The bytes of the name.
impl<'a> AsSlice<u8> for Component<'a> {
    ghost use Rattle.typed_names.specs.Names.{component_bytes};

    ghost items = { component_bytes };

    fn as_slice(&self) -> &[u8] {
        self.as_bstr().as_bytes()
    }
}

/// Prints the name, with U+FFFD for ill-formed UTF-8 (docs/RULES.md, "Typed names").
impl<'a> fmt::Display for Component<'a> {
    ghost use Rattle.typed_names.specs.Names.{component_bytes};

    ghost output = { λ name. Some (encode_utf8_all (lossy_chars (component_bytes name))) };

    fn fmt<W: fmt::Write>(&self, f: &mut fmt::Formatter<W>) -> fmt::Result {
        self.as_bstr().fmt(f)
    }
}
