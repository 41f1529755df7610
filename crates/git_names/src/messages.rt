//! The message for an invalid name: the text of its error, and where in the name that is.

ghost use Rattle.std.specs.Prelude.{◌≡◌, ◌<◌, ◌≤◌, length, Some};
ghost use Rattle.bstr.specs.BStr.{bstr_bytes};
ghost use Rattle.git_names.specs.Messages.{in_piece, message_of, piece_around, piece_of, piece_start};
ghost use Rattle.git_names.specs.Messages.{place_of};

use crate::faults::Fault;
use crate::offsets::{next_slash, part_at};
use bstr::BStr;
use gix_validate::text::escape;
use std::fmt;

/// The message for an invalid name, on one line: the text of the reason, and where in the name that
/// is (docs/RULES.md, "Messages"). [`Fault::message`] returns it.
#[derive(Debug, Clone, Copy)]
pub struct Message<'a> {
    /// What is wrong with the name.
    pub fault: &'a Fault,
    /// The name.
    pub name: BStr<'a>,
}

impl Fault {
    /// The message for `name`, which has this fault: the text of the reason, the byte at the
    /// offset, the offset in bytes from 0, and, if the name has a slash and the byte isn't one, the
    /// piece that the byte is in. It doesn't allocate.
    ///
    /// ```
    /// let name = BStr::from("feature/a b");
    /// let fault = check(Kind::Branch, name, ComponentOptions::default()).unwrap_err();
    /// fault.message(name); // Reference name contains invalid byte: " " (' ' at byte 9, in "a b")
    /// ```
    ///
    /// The message for an empty name shows no byte, and that for a name which ends too early says
    /// `(at the end)`.
    pub fn message<'a>(&'a self, name: BStr<'a>) -> Message<'a>
        ensures message { (result.fault ≡ self.entry) × (result.name ≡ name.entry) }
    {
        Message { fault: self, name }
    }
}

impl<'a> fmt::Display for Message<'a> {
    ghost output = { λ message. Some (message_of (bstr_bytes message.name) message.fault.now) };

    fn fmt<W: fmt::Write>(&self, f: &mut fmt::Formatter<W>) -> fmt::Result {
        self.fault.reason.text().fmt(f)?;
        let place = Place {
            name: self.name.as_bytes(),
            at: self.fault.offset,
        };
        place.fmt(f)
    }
}

/// Where in a name an offset is.
#[derive(Clone, Copy)]
struct Place<'a> {
    name: &'a [u8],
    at: usize,
}

impl<'a> fmt::Display for Place<'a> {
    ghost output = { λ place. Some (place_of place.name.now place.at) };

    #[tactic(auto, unfolding(crate::specs::Messages::place_of))]
    fn fmt<W: fmt::Write>(&self, f: &mut fmt::Formatter<W>) -> fmt::Result {
        let (name, at) = (self.name, self.at);
        if name.is_empty() {
            return Ok(());
        }
        if at >= name.len() {
            return f.write_str(" (at the end)");
        }
        let byte = escape(name[at]);
        let piece = InPiece(piece_of(name, at));
        write!(f, " ('{}' at byte {at}{piece})", byte.as_str())
    }
}

/// The piece that an offset is in, if it isn't empty.
#[derive(Clone, Copy)]
struct InPiece<'a>(&'a [u8]);

impl<'a> fmt::Display for InPiece<'a> {
    ghost output = { λ piece. Some (in_piece piece.0.now) };

    fn fmt<W: fmt::Write>(&self, f: &mut fmt::Formatter<W>) -> fmt::Result {
        if self.0.is_empty() {
            return Ok(());
        }
        f.write_str(", in \"")?;
        for byte in self.0 {
            f.write_str(escape(*byte).as_str())?;
        }
        f.write_str("\"")
    }
}

/// The piece that the offset is in, if the name has several, and no slash there.
#[tactic(auto, using(crate::proofs::MessageLemmas::slashes))]
fn piece_of(name: &[u8], at: usize) -> &[u8]
    requires { at < length name.now }
    ensures { result.now ≡ piece_of name.now at }
{
    match next_slash(name) {
        Some(_) if name[at] != b'/' => piece_around(name, at),
        _ => &[],
    }
}

/// What is between the slashes around the offset.
fn piece_around(name: &[u8], at: usize) -> &[u8]
    requires { at ≤ length name.now }
    ensures { result.now ≡ piece_around name.now at }
{
    part_at(name, piece_start(name, at))
}

/// Where the piece begins that the offset is in.
fn piece_start(name: &[u8], at: usize) -> usize
    requires { at ≤ length name.now }
    ensures start { result ≡ piece_start name.now at }
    ensures within { result ≤ at }
{
    let mut start = at;
    while start > 0 && name[start - 1] != b'/' {
        start -= 1;
    }
    start
}
