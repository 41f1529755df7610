//! Tables of worked names. A table is one byte string, because a proof goes through each literal of
//! a list, and the more there are, the longer each takes.

use crate::text::Host;
use bstr::ByteSlice;
use std::process::Abort;

/// A table. A line has what is wanted, a bar, and the names of which it is wanted, with commas
/// between them. What is wanted is words with spaces between them, or nothing.
pub(crate) type Table = &'static [u8];

/// What is wanted, and one of the names.
pub(crate) type Row = (&'static [u8], &'static [u8]);

/// The rows of a table, one for each name.
pub(crate) fn rows(rt: &impl Host, table: Table) -> Vec<Row> {
    let mut rows = Vec::new(rt.alloc());
    for line in table.lines() {
        let (wanted, names) = line.split_once_str(b"|").expect(rt, "a bar");
        push_rows(rt, &mut rows, wanted, names);
    }
    rows
}

/// Adds the rows of a line.
fn push_rows(rt: &impl Host, rows: &mut Vec<Row>, wanted: &'static [u8], names: &'static [u8]) {
    for name in &listed(rt, names) {
        rows.push((wanted, name)).expect(rt, "memory");
    }
}

/// The names, which have commas between them.
pub(crate) fn listed<'a>(rt: &impl Host, names: &'a [u8]) -> Vec<&'a [u8]> {
    let names = names.split_str(b",").collect(rt.alloc());
    names.expect(rt, "memory")
}

/// The first word, and what follows the space after it, if there is one.
pub(crate) fn first_word(text: &'static [u8]) -> (&'static [u8], &'static [u8]) {
    text.split_once_str(b" ").unwrap_or((text, b""))
}

/// The settings with which a text begins, and what follows the space after them.
pub(crate) fn settings_of(rt: &impl Abort, text: &'static [u8]) -> (&'static str, &'static [u8]) {
    let (settings, rest) = first_word(text);
    (settings.to_str().expect(rt, "settings"), rest)
}
