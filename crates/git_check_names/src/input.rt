//! The names of an input.

ghost use Rattle.std.specs.Prelude.{◌≢◌, IfOk, IfSome, Err};
ghost use Rattle.git_check_names.specs.Private.{IsNext, SkipsPast};

use programs::error::RunError;
use programs::input::{Found, read_before};
use programs::lines::MAX_LINE;
use programs::until_returned;
use std::io::BufRead;

/// What [`next_name`] read.
#[derive(Clone, Copy)]
pub enum Next {
    /// A name.
    Name,
    /// A name that is too long.
    TooLong,
    /// Nothing, because the input has ended.
    End,
}

/// Reads the next name into `name`, whose old contents are dropped, and consumes the byte `end`
/// after it, which the last name need not have. A name that is too long is dropped.
pub(crate) fn next_name<R: BufRead>(
    input: &mut R,
    end: u8,
    name: &mut Vec<u8>,
) -> Result<Next, RunError>
    ensures next { IfOk result (λ next. IfSome (R.remaining input.old)
        (λ text. IsNext end text (R.remaining input.new) name.new.items next)) }
    ensures stop { result ≢ Err RunError.Write }
{
    match read_before(input, end, MAX_LINE as usize, name)? {
        Found::Byte => Ok(Next::Name),
        Found::Limit => {
            skip_past(input, end, name)?;
            Ok(Next::TooLong)
        }
        Found::End if name.is_empty() => Ok(Next::End),
        Found::End => Ok(Next::Name),
    }
}

/// Skips the rest of a name, and the byte after it. `part` is the buffer for the skipped bytes.
fn skip_past<R: BufRead>(input: &mut R, end: u8, part: &mut Vec<u8>) -> Result<(), RunError>
    ensures skips { IfOk result (λ _. IfSome (R.remaining input.old)
        (λ text. SkipsPast end text (R.remaining input.new))) }
    ensures stop { result ≢ Err RunError.Write }
{
    until_returned!(_ => {
        match read_before(input, end, MAX_LINE as usize, part)? {
            Found::Limit => {}
            Found::Byte => return Ok(()),
            Found::End => return Ok(()),
        }
    })
}
