//! The sections of submodules, in the order of the file.

ghost use Rattle.std.specs.Prelude.{◌≡◌, ◌+◌, ◌<◌, ◌≤◌, ◌++◌, [], ◌∷◌, MatchOption, drop, length};
ghost use Rattle.std.specs.Prelude.{⊤};
ghost use Rattle.gitmodules.specs.Sections.{begun, header_after_bracket, header_after_word};
ghost use Rattle.gitmodules.specs.Sections.{is_word_byte, quoted_header, sections, without_blanks};
ghost use Rattle.gitmodules.specs.Headers.{header_of};
ghost use Rattle.gitmodules.specs.declared.reader.Header.TheVariants.{Submodule};
ghost use Rattle.gitmodules.specs.Spelled.{IsEachHeaderGiven, IsEachNameSpelled};
ghost use Rattle.gitmodules.specs.Spelled.{IsEachSectionFound, IsInOrder, IsNamedAfterEachBlank};

use crate::escaped::EscapedName;
use memchr::memchr;
use std::alloc::AllocError;
use std::iter::FusedIterator;
use std::marker::Model;

/// A section of a submodule (docs/RULES.md, "The names in a .gitmodules file").
#[derive(Clone, Debug, Drop)]
pub struct Section<'a> {
    /// The offset of the `[` in the file, in bytes.
    pub offset: usize,
    /// The name, or `None` if the section can't be read.
    pub name: Option<EscapedName<'a>>,
}

/// An iterator over the sections of submodules in a `.gitmodules` file, in the order of their
/// offsets.
///
/// In contracts an iterator is the list of the sections that are left: the offset of each, and its
/// name or `None`.
#[derive(Debug, Drop)]
pub struct Sections<'a> {
    file: &'a [u8],
    /// The offset at which the search for the next section starts.
    start: usize,
}

impl<'a> Model for Sections<'a> {
    ghost use Rattle.std.specs.Prelude.{ℕ, List, Option, drop};
    ghost use Rattle.gitmodules.specs.Sections.{sections};

    ghost Value = { List (ℕ × Option (List ℕ)) };

    ghost view = { λ it. sections it.start (drop it.start it.file.now) };
}

impl<'a> Sections<'a> {
    /// Returns an iterator over the sections of submodules in a file with these bytes.
    ///
    /// ```
    /// Sections::new(b"[submodule \"a\"]\n").next(); // the name `a` at offset 0
    /// ```
    ///
    /// The iterator does not allocate, and a whole iteration reads each byte a bounded number of
    /// times.
    #[tactic(auto, using(crate::proofs::SpelledSections::each_section_found, crate::proofs::ReadSections::each_name_spelled, crate::proofs::ReadSections::in_order, crate::proofs::Blanks::named_after_each_blank))]
    pub fn new(file: &'a [u8]) -> Sections<'a>
        ensures value { result ≡ sections 0 file.now }
        ensures found { IsEachSectionFound }
        ensures spelled { IsEachNameSpelled }
        ensures given { IsEachHeaderGiven }
        ensures ordered { IsInOrder }
        ensures blanks { IsNamedAfterEachBlank }
    {
        Sections { file, start: 0 }
    }
}

impl<'a> Clone for Sections<'a> {
    ghost is_clone = { λ it copy. copy ≡ it };

    ghost is_infallible = { λ _. ⊤ };

    fn clone(&self) -> Result<Sections<'a>, AllocError> {
        Ok(Sections {
            file: self.file,
            start: self.start,
        })
    }
}

impl<'a> Iterator for Sections<'a> {
    ghost use Rattle.std.specs.Iterator.{YieldsFirstBy, item_count};
    ghost use Rattle.gitmodules.specs.Headers.{section_pair};

    type Item = Section<'a>;

    ghost next_gives = { YieldsFirstBy section_pair (λ left. left) };

    ghost remaining = { item_count (λ left. left) };

    fn next(&mut self) -> Option<Section<'a>> {
        let section = section_from(self.file, self.start)?;
        self.start = section.offset + 1;
        Some(section)
    }
}

impl<'a> FusedIterator for Sections<'a> {}

/// What a `[` begins.
#[derive(Drop)]
enum Header<'a> {
    /// A submodule's section: its name, or `None` if it can't be read.
    Submodule(Option<EscapedName<'a>>),
    /// Another section, or none.
    Other,
}

/// The first section of a submodule from this offset on.
fn section_from(file: &[u8], start: usize) -> Option<Section<'_>>
    ensures { let left = sections start (drop start file.now) in MatchOption result
        (left ≡ [])
        (λ s. (s.offset < length file.now)
        × (left ≡ (s.offset, s.name) ∷ sections (s.offset + 1) (drop (s.offset + 1) file.now))) }
{
    let mut from = start;
    while let Some(offset) = bracket_from(file, from) {
        from = offset + 1;
        if let Header::Submodule(name) = header_after_bracket(&file[from..]) {
            return Some(Section { offset, name });
        }
    }
    None
}

/// The offset of the first `[` from this offset on.
fn bracket_from(file: &[u8], start: usize) -> Option<usize>
    ensures { let left = sections start (drop start file.now) in
        MatchOption result
        (left ≡ [])
        (λ offset. (start ≤ offset) × (offset < length file.now)
        × (left ≡ begun offset (header_after_bracket (drop (offset + 1) file.now))
        ++ sections (offset + 1) (drop (offset + 1) file.now))) }
{
    let count = memchr(b'[', file.get(start..)?)?;
    Some(start + count)
}

/// What a `[` followed by these bytes begins.
#[tactic(auto, unfolding(crate::specs::Sections::header_after_bracket))]
fn header_after_bracket(bytes: &[u8]) -> Header<'_>
    ensures { header_of result ≡ header_after_bracket bytes.now }
{
    match bytes.split_at_checked(9) {
        Some((word, after)) if word.eq_ignore_ascii_case(b"submodule") => header_after_word(after),
        _ => Header::Other,
    }
}

/// What a `[` and the word `submodule`, followed by these bytes, begin.
fn header_after_word(bytes: &[u8]) -> Header<'_>
    ensures { header_of result ≡ header_after_word bytes.now }
{
    match bytes {
        [b' ' | b'\t' | b'\r', after @ ..] => Header::Submodule(name_after_blanks(after)),
        [byte, ..] if *byte == b']' || is_word_byte(*byte) => Header::Other,
        _ => Header::Submodule(None),
    }
}

/// Whether the word at the start of a header can have this byte.
fn is_word_byte(byte: u8) -> bool
    ensures { result ≡ is_word_byte byte }
{
    byte.is_ascii_alphanumeric() || byte == b'-'
}

/// The name that these bytes begin with, in double quotes and perhaps after blanks; `None` if there
/// is none that can be read.
fn name_after_blanks(bytes: &[u8]) -> Option<EscapedName<'_>>
    ensures { header_of (Submodule result) ≡ quoted_header (without_blanks bytes.now) }
{
    match without_blanks(bytes) {
        [b'"', quoted @ ..] => EscapedName::after_quote(quoted),
        _ => None,
    }
}

/// The bytes without the blanks at their start.
fn without_blanks(bytes: &[u8]) -> &[u8]
    ensures { result.now ≡ without_blanks bytes.now }
{
    let mut rest = bytes;
    while let [b' ' | b'\t' | b'\r', after @ ..] = rest {
        rest = after;
    }
    rest
}
