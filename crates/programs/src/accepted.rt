//! The names that `--accept` gives, to which the rules of Windows don't apply.

ghost use Rattle.std.specs.Prelude.{◌≡◌, ◌+◌, ◌++◌, ◌==◌, ◌<◌, ◌≤◌, [], MatchOption};
ghost use Rattle.std.specs.List.{list_any};
ghost use Rattle.std.specs.Str.{bytes_eq};
ghost use Rattle.gix_validate.specs.Pieces.{pieces};
ghost use Rattle.programs.specs.Accepted.{lists_in, names_in, without_windows};

use gix_validate::path::ComponentOptions;

/// How often `--accept` can be given. Once is too few, because a list is one argument, which Linux
/// limits to 128 KiB, and all arguments to 2 MB.
const MAX_LISTS: usize = 16;

/// Lists of names, which are separated by slashes.
#[derive(Clone, Copy)]
pub struct AcceptedNames<'a> {
    lists: [&'a str; MAX_LISTS],
    len: usize,
}

impl<'a> AcceptedNames<'a> {
    /// No list.
    ///
    /// ```
    /// AcceptedNames::none().contains(b"aux.c"); // false
    /// ```
    pub const fn none() -> Self
        ensures names { names_in result ≡ [] }
        ensures len { lists_in result ≡ 0 }
    {
        AcceptedNames {
            lists: [""; MAX_LISTS],
            len: 0,
        }
    }

    /// The lists with one more; `None` if there are 16 already. It doesn't allocate.
    ///
    /// ```
    /// AcceptedNames::none().with("aux.c/con.h"); // Some, with two names
    /// ```
    pub fn with(mut self, list: &'a str) -> Option<Self>
        ensures lists { MatchOption result (16 ≤ lists_in self.entry) (λ names.
            (names_in names ≡ names_in self.entry ++ pieces list.entry.now)
            × (lists_in names ≡ lists_in self.entry + 1) × (lists_in self.entry < 16)) }
    {
        if self.len >= MAX_LISTS {
            return None;
        }
        self.lists[self.len] = list;
        self.len += 1;
        Some(self)
    }

    /// Whether there is no list. It doesn't allocate.
    ///
    /// ```
    /// AcceptedNames::none().is_empty(); // true
    /// ```
    pub fn is_empty(&self) -> bool
        ensures empty { result ≡ (lists_in self.now == 0) }
    {
        self.len == 0
    }

    /// Whether a name is one of them. It doesn't allocate.
    ///
    /// ```
    /// names.contains(b"con.h"); // true, of `aux.c/con.h`
    /// ```
    pub fn contains(&self, name: &[u8]) -> bool
        ensures { result ≡ list_any (λ accepted. bytes_eq accepted name.now) (names_in self.now) }
    {
        let mut lists = self.lists.iter().take(self.len);
        lists.any(|list| is_piece(name, list))
    }
}

/// The switches for an accepted name: all but that for Windows. It doesn't allocate.
///
/// ```
/// without_windows(ComponentOptions::default()); // HFS and NTFS
/// ```
pub fn without_windows(protections: ComponentOptions) -> ComponentOptions
    ensures switches { result ≡ without_windows protections }
{
    ComponentOptions {
        protect_windows: false,
        ..protections
    }
}

/// Whether a name is one of those that slashes separate in `names`.
fn is_piece(name: &[u8], names: &str) -> bool
    ensures { result ≡ list_any (λ piece. bytes_eq piece name.now) (pieces names.now) }
{
    let mut pieces = names.as_bytes().split(|byte| *byte == b'/');
    pieces.any(|piece| piece == name)
}
