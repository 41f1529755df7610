//! The pieces of a tag name.

ghost use Rattle.std.specs.Prelude.{◌≡◌, ◌↔◌, [], ◌∷◌, IsTrue, IsNone, IfSome, MatchOption};
ghost use Rattle.std.specs.List.{after_first};
ghost use Rattle.bstr.specs.BStr.{bstr_bytes};
ghost use Rattle.gix_validate.specs.Pieces.{is_slash, has_no_slash, pieces};

use bstr::{BStr, ByteSlice};
use std::iter::FusedIterator;
use std::marker::Model;

/// An iterator over the pieces of a tag name, in order. [`TagName::pieces`](crate::TagName::pieces)
/// returns it.
///
/// In contracts an iterator is the list of the pieces that are left.
#[derive(Clone, Debug, Drop)]
pub struct Pieces<'a> {
    /// The bytes whose pieces are left, or `None` after the last piece was returned.
    left: Option<BStr<'a>>,
}

impl<'a> Model for Pieces<'a> {
    ghost use Rattle.std.specs.Prelude.{ℕ, List};
    ghost use Rattle.typed_names.specs.Pieces.{pieces_left};

    ghost Value = { List (List ℕ) };

    ghost view = { λ it. pieces_left it.left };
}

impl<'a> Pieces<'a> {
    pub(crate) fn new(name: BStr<'a>) -> Pieces<'a>
        ensures { result ≡ pieces (bstr_bytes name.entry) }
    {
        Pieces { left: Some(name) }
    }
}

impl<'a> Iterator for Pieces<'a> {
    ghost use Rattle.std.specs.Iterator.{YieldsFirstBy, item_count};

    type Item = BStr<'a>;

    ghost next_gives = { YieldsFirstBy bstr_bytes (λ left. left) };

    ghost remaining = { item_count (λ left. left) };

    fn next(&mut self) -> Option<BStr<'a>> {
        let left = self.left.take()?;
        match split_at_first_slash(left) {
            Some((piece, rest)) => {
                self.left = Some(rest);
                Some(piece)
            }
            None => Some(left),
        }
    }
}

impl<'a> FusedIterator for Pieces<'a> {}

/// The bytes before the first slash and those after it, if there is a slash.
pub(crate) fn split_at_first_slash<'a>(text: BStr<'a>) -> Option<(BStr<'a>, BStr<'a>)>
    ensures none { IsNone result ↔ IsTrue (has_no_slash (bstr_bytes text.entry)) }
    ensures rest { IfSome result (λ parts. bstr_bytes parts.1
        ≡ after_first is_slash (bstr_bytes text.entry)) }
    ensures pieces { let x = bstr_bytes text.entry in MatchOption result
        (pieces x ≡ x ∷ [])
        (λ parts. pieces x ≡ bstr_bytes parts.0 ∷ pieces (bstr_bytes parts.1)) }
{
    let bytes = text.as_bytes();
    let slash = bytes.find_byte(b'/')?;
    Some((BStr::new(&bytes[..slash]), BStr::new(&bytes[slash + 1..])))
}
