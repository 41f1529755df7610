//! An input that is read line by line. A line can say which bytes follow it.
//!
//! A line has at most [`MAX_LINE`] bytes, far more than a file system allows for a name. So `check_push`
//! holds a bounded number of bytes, whatever references or trees it reads. No size that the input claims
//! is trusted: bytes are read or skipped as they come.

ghost use Rattle.std.specs.Prelude.{◌≡◌, ◌≢◌, ◌<◌, [], Some, Err, true, false, ◌&&◌, if◌then◌else◌};
ghost use Rattle.std.specs.Prelude.{IfOk, OnErr, IfSome, OnSome};
ghost use Rattle.std.specs.Io.KnownBytes.{Appends, Consumes, IsAtEnd};
ghost use Rattle.programs.specs.Messages.{AppendsPrefixOf};
ghost use Rattle.gix_validate.specs.Bytes.{is_empty};
ghost use Rattle.programs.specs.Reports.{LeavesTheEnd, LineRule, Reach};
ghost use Rattle.programs.specs.Reports.{malformation_at_end, is_malformed, report, verdict_of};
ghost use Rattle.programs.specs.Promises.{FollowsRule, ReadsNextLine, ReadsWithin, StopsWithin};
ghost use Rattle.programs.specs.Promises.{is_end_word};

use crate::error::RunError;
use crate::input::{Found, is_at_end, read_before, until_returned};
use crate::outcome::{Malformation, Stop, Verdict};
use std::alloc::Global;
use std::io::{BufRead, Write};

/// The largest length of a line with its newline, in bytes.
pub const MAX_LINE: u64 = 65_536;

/// What Git prints for the word `..end`, without the newline. (Git reads this word neither as a
/// reference nor as an object.)
const END: &[u8; 13] = b"..end missing";

/// Where an input has to end.
#[derive(Clone, Copy, PartialEq, Eq)]
pub enum Ending {
    /// After any line and the bytes that belong to it.
    Anywhere,
    /// With the line `..end missing`.
    EndLine,
    /// After at least one line.
    NonEmpty,
}

/// The buffers for the parts of an input that are read, and for the lines of the report.
#[derive(Drop)]
pub struct Buffers {
    /// What was read.
    pub read: Vec<u8>,
    /// A part of what was read, such as an id or a name.
    pub part: Vec<u8>,
    /// What is to be written.
    pub lines: Vec<u8>,
}

/// A rule for lines, how many bytes can belong to a line, and the function that follows the rule.
pub trait LineCheck: Copy {
    ghost line_rule: { Self → LineRule };

    ghost line_reach: { Self → Reach };

    /// Checks a line, which is passed without its newline, together with the bytes that belong to
    /// it. Writes the lines of the report for it, and returns whether something in it is refused.
    fn check_line<R: BufRead, W: Write>(
        self,
        line: &[u8],
        input: &mut R,
        output: &mut W,
        buffers: &mut Buffers,
    ) -> Result<bool, Stop>
        ensures gives { IfSome (R.remaining input.old) (λ text. FollowsRule (line_rule self line.now text)
            (R.remaining input.new) (W.contents output.old) (W.contents output.new) result) }
        ensures within { ReadsWithin (line_reach self line.now)
            (R.remaining input.old) (R.remaining input.new) result };

    ghost leaves: { (check : Self) → LeavesTheEnd (line_rule check) };
}

/// Reads all of `input`, and writes what `check` reports for each line and the bytes that belong to
/// it to `output`, each as it is found (check_push(1)). `output` is not flushed. A malformed part
/// ends the run, and what was found before it is written.
///
/// # Errors
///
/// [`RunError`] says whether reading, an allocation or writing failed. If it was not writing that
/// failed, what was written is the beginning of the report.
///
/// # Memory
///
/// It allocates memory for the longest line, of at most 65,536 bytes, and what `check` allocates,
/// from `alloc`.
pub fn run<C: LineCheck, R: BufRead, W: Write>(
    alloc: Global,
    check: C,
    ending: Ending,
    input: &mut R,
    output: &mut W,
) -> Result<Verdict, RunError>
    ensures verdict { IfOk result (λ verdict. IfSome (R.remaining input.old) (λ text.
        Appends (W.contents output.old) (W.contents output.new)
        (report (C.line_rule check) ending text).said.lines
        × (verdict ≡ verdict_of (report (C.line_rule check) ending text)))) }
    ensures spent { IfOk result (λ verdict. is_malformed verdict ≡ false
        → IfSome (R.remaining input.old) (λ _. R.remaining input.new ≡ Some [])) }
    ensures within { IfOk result (λ verdict. is_malformed verdict ≡ true
        → IfSome (R.remaining input.old) (λ text.
        StopsWithin (C.line_reach check) (report (C.line_rule check) ending text) (R.remaining input.new))) }
    ensures stopped { result ≢ Err RunError.Write
        → OnErr result (IfSome (R.remaining input.old) (λ text.
        AppendsPrefixOf (W.contents output.old) (W.contents output.new)
        (report (C.line_rule check) ending text).said.lines)) }
{
    let mut line = Vec::new(alloc);
    let mut buffers = Buffers {
        read: Vec::new(alloc),
        part: Vec::new(alloc),
        lines: Vec::new(alloc),
    };
    let mut refused = false;
    until_returned!(before => {
        let number = before + 1;
        match check_next(check, ending, number, input, output, &mut line, &mut buffers) {
            Ok(Some(more)) => refused |= more,
            Ok(None) => return Ok(whole_input(refused)),
            Err(Stop::Malformed(malformation)) => {
                return Ok(Verdict::Malformed {
                    number,
                    malformation,
                });
            }
            Err(Stop::Run(stop)) => return Err(stop),
        }
    })
}

/// Reads and checks the line with this number, and returns whether something in it is refused.
/// Returns `None` if the input has ended as it has to, before this line or with it.
fn check_next<C: LineCheck, R: BufRead, W: Write>(
    check: C,
    ending: Ending,
    number: u64,
    input: &mut R,
    output: &mut W,
    line: &mut Vec<u8>,
    buffers: &mut Buffers,
) -> Result<Option<bool>, Stop>
    ensures { ReadsNextLine (C.line_rule check) (C.line_reach check) ending number
        (R.remaining input.old) (R.remaining input.new)
        (W.contents output.old) (W.contents output.new) result }
{
    match read_before(input, b'\n', MAX_LINE as usize, line)? {
        Found::Byte if is_last(ending, line, input)? => Ok(None),
        Found::Byte => check.check_line(line, input, output, buffers).map(Some),
        Found::Limit => Err(Stop::Malformed(Malformation::TooLong)),
        Found::End if !line.is_empty() => Err(Stop::Malformed(Malformation::Ended)),
        Found::End => match malformation_at_end(ending, number) {
            Some(malformation) => Err(Stop::Malformed(malformation)),
            None => Ok(None),
        },
    }
}

/// Whether the line is the one that has to end the input, and nothing follows it.
fn is_last<R: BufRead>(ending: Ending, line: &[u8], input: &mut R) -> Result<bool, RunError>
    ensures known { IfOk result (λ last.
        IfSome (R.remaining input.old) (λ rest. last ≡ (is_end_word ending line.now && is_empty rest))) }
    ensures kept { IfOk result (λ last. Consumes (R.remaining input.old) (R.remaining input.new) []) }
    ensures spent { IfOk result (λ last.
        last ≡ true → OnSome (R.remaining input.old) (IsAtEnd (R.remaining input.new))) }
{
    if ending == Ending::EndLine && line == END.as_slice() {
        is_at_end(input)
    } else {
        Ok(false)
    }
}

/// What is wrong if the input ends before the line with this number.
fn malformation_at_end(ending: Ending, number: u64) -> Option<Malformation>
    ensures { result ≡ malformation_at_end ending number }
{
    match ending {
        Ending::EndLine => Some(Malformation::NoEnd),
        Ending::NonEmpty if number == 1 => Some(Malformation::Empty),
        Ending::Anywhere | Ending::NonEmpty => None,
    }
}

/// The verdict on a well-formed input.
fn whole_input(refused: bool) -> Verdict
    ensures { result ≡ (if refused then Verdict.Refused else Verdict.Clean) }
{
    if refused {
        Verdict::Refused
    } else {
        Verdict::Clean
    }
}
