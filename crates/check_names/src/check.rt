//! The results for the lines of the input.

ghost use Rattle.std.specs.Prelude.{◌≡◌, ◌≢◌, ◌+◌, ◌<◌, [], ◌∷◌, ◌++◌, ℕ, List, Option, codes};
ghost use Rattle.std.specs.Prelude.{length, vec_len, vec_capacity, Some, None, Err, IsOk};
ghost use Rattle.std.specs.Prelude.{IsOkUnless, IfOk, OnOk, OnErr, IfSome, if◌then◌else◌};
ghost use Rattle.std.specs.Prelude.{MatchOption, MatchResult};
ghost use Rattle.std.specs.Io.KnownBytes.{Appends, IsAtEnd};
ghost use Rattle.bstr.specs.BStr.{bstr_bytes};
ghost use Rattle.gix_validate.specs.Component.{all_protections, fault_of};
ghost use Rattle.gix_validate.specs.Component.{text_of as component_text};
ghost use Rattle.gix_validate.specs.Sanitized.{sanitized};
ghost use Rattle.gix_validate.specs.Windows.{is_device};
ghost use Rattle.check_names.specs.Answers.{answer_of, answers, lines, request_of, unknown_kind};
ghost use Rattle.check_names.specs.Answers.{verdict};
ghost use Rattle.check_names.specs.Errors.{text_of as error_text};

use bstr::{BStr, ByteSlice};
use gix_validate::path::{ComponentMode, ComponentOptions};
use gix_validate::{path, reference, submodule};
use std::alloc::{AllocError, Global};
use std::fmt::{Display, Write as _};
use std::io::{Read, Write};
use std::{fmt, io};
use typed_names::{Component, FullName, PartialName, TagName};

/// Reads all of `input`, builds a line of output for each of its lines, writes all of them to
/// `output` at once, and flushes (check_names(1)). It reads with std's `read_to_end` and writes
/// with its `write_all`, which try an interrupted call again; nothing else is tried again.
///
/// A line is a kind, a space and a name, such as `tag v1.0`, for which the output is `ok`. If there
/// is no line, nothing is written and nothing is flushed.
///
/// # Memory
///
/// The whole input and all results are held in memory, allocated from `alloc`.
///
/// # Contract
///
/// Clauses about bytes hold for readers and writers whose bytes std's contracts know. These are the
/// readers `&[u8]`, `Cursor`, `VecDeque<u8>` and `Empty`, the writers `Vec<u8>` and `VecDeque<u8>`,
/// and over them `&mut`, `Box`, `Take`, `Chain` and the buffers of `BufReader`, `BufWriter` and
/// `LineWriter`. They are not a terminal, a file, a pipe, a socket, `&mut [u8]` as a writer or the
/// writers of `Cursor`. `ok` depends on both sides; `end`, `spent` and `empty` on the reader
/// alone; `read` and `memory` on neither.
///
/// # Errors
///
/// - [`RunError::Read`] if reading to the end failed, or memory for what was read can't be
///   allocated. Nothing was written.
/// - [`RunError::Memory`] if memory for the results can't be allocated. Nothing was written.
/// - [`RunError::Write`] if writing or flushing failed.
#[tactic(auto, using(crate::proofs::AnswerLemmas::all_answered))]
pub fn run<R: Read, W: Write>(alloc: Global, input: &mut R, output: &mut W) -> Result<(), RunError>
    ensures ok { OnOk result (IfSome (R.remaining input.old)
        (λ text. Appends (W.contents output.old) (W.contents output.new) (answers text))) }
    ensures end { result ≢ Err RunError.Read → IsAtEnd (R.remaining input.new) }
    ensures spent { result ≢ Err RunError.Read → IfSome (R.remaining input.old)
        (λ _. R.remaining input.new ≡ Some []) }
    ensures read { result ≡ Err RunError.Read → output.new ≡ output.old }
    ensures memory { result ≡ Err RunError.Memory → output.new ≡ output.old }
    ensures empty { R.remaining input.old ≡ Some [] → IsOkUnless result RunError.Read
        × (output.new ≡ output.old) }
{
    let text = read_all(alloc, input).map_err(|_| RunError::Read)?;
    let answers = answer_all(alloc, &text).map_err(|_| RunError::Memory)?;
    write_once(&answers, output)
}

/// Why a run failed.
#[derive(Debug, Drop)]
pub enum RunError {
    /// Reading failed.
    Read,
    /// Memory for the results can't be allocated.
    Memory,
    /// Writing failed.
    Write,
}

impl Display for RunError {
    ghost output = { λ error. Some (error_text error) };

    fn fmt<W: fmt::Write>(&self, f: &mut fmt::Formatter<W>) -> fmt::Result {
        f.write_str(match self {
            RunError::Read => "read failed",
            RunError::Memory => "out of memory",
            RunError::Write => "write failed",
        })
    }
}

/// All bytes that are left in the reader.
fn read_all<R: Read>(alloc: Global, input: &mut R) -> io::Result<Vec<u8>>
    ensures bytes { IfOk result (λ text. IfSome (R.remaining input.old) (λ bytes. text.items ≡ bytes)) }
    ensures end { OnOk result (IsAtEnd (R.remaining input.new)) }
    ensures spent { OnOk result (IfSome (R.remaining input.old) (λ _. R.remaining input.new ≡ Some [])) }
{
    let mut text = Vec::new(alloc);
    input.read_to_end(&mut text)?;
    Ok(text)
}

/// Writes the bytes and flushes, unless there are none.
fn write_once<W: Write>(bytes: &[u8], output: &mut W) -> Result<(), RunError>
    ensures ok { OnOk result (Appends (W.contents output.old) (W.contents output.new) bytes.now) }
    ensures none { bytes.now ≡ [] → IsOk result × (output.new ≡ output.old) }
    ensures stop { OnErr result (result ≡ Err RunError.Write) }
{
    if bytes.is_empty() {
        return Ok(());
    }
    output.write_all(bytes).map_err(|_| RunError::Write)?;
    output.flush().map_err(|_| RunError::Write)
}

/// The results for the lines of the input. It does not allocate if there is no line.
#[tactic(auto, using(crate::proofs::AnswerLemmas::all_answered))]
fn answer_all(alloc: Global, text: &[u8]) -> Result<Vec<u8>, AllocError>
    ensures ok { IfOk result (λ written. written.items ≡ answers text.now) }
    ensures err { OnErr result (text.now ≢ []) }
{
    let mut answers = Vec::new(alloc);
    let mut rest = text;
    while let Some((line, after)) = first_line(rest) {
        push_answer(alloc, line, &mut answers)?;
        answers.push(b'\n')?;
        rest = after;
    }
    Ok(answers)
}

/// The first line of the bytes, without its newline, and what follows it.
#[tactic(auto, using(crate::proofs::AnswerLemmas::first_of_lines))]
fn first_line(text: &[u8]) -> Option<(&[u8], &[u8])>
    ensures lines { MatchOption result (text.now ≡ [])
        (λ parts. lines text.now ≡ parts.0.now ∷ lines parts.1.now) }
    ensures shorter { IfSome result (λ parts. length parts.1.now < length text.now) }
{
    if text.is_empty() {
        return None;
    }
    match text.find_byte(b'\n') {
        Some(end) => Some((&text[..end], &text[end + 1..])),
        None => Some((text, &[])),
    }
}

/// Appends the result for one line. The kinds are compared one after the other, and full reference
/// names come first.
#[tactic(auto, unfolding(crate::specs::Answers::answer_of, crate::specs::Answers::kinds))]
fn push_answer(alloc: Global, line: &[u8], answers: &mut Vec<u8>) -> Result<(), AllocError>
    ensures ok { OnOk result (answers.new.items ≡ answers.old.items ++ answer_of line.now) }
    ensures full { request_of line.now ≡ None → OnErr result
        (vec_capacity answers.old < vec_len answers.old + length unknown_kind) }
{
    if let Some(name) = name_after(b"ref ", line) {
        push_verdict(FullName::new(name), answers)
    } else if let Some(name) = name_after(b"tag ", line) {
        push_verdict(TagName::new(name), answers)
    } else if let Some(name) = name_after(b"partial ", line) {
        push_verdict(PartialName::new(name), answers)
    } else if let Some(name) = name_after(b"branch ", line) {
        push_verdict(reference::branch_name(name), answers)
    } else {
        push_other_answer(alloc, line, answers)
    }
}

/// The same for a line of none of these kinds.
#[tactic(auto, unfolding(crate::specs::Answers::answer_of, crate::specs::Answers::kinds))]
fn push_other_answer(alloc: Global, line: &[u8], answers: &mut Vec<u8>) -> Result<(), AllocError>
    requires no_ref { (name : List ℕ) → line.now ≢ codes "ref " ++ name }
    requires no_tag { (name : List ℕ) → line.now ≢ codes "tag " ++ name }
    requires no_partial { (name : List ℕ) → line.now ≢ codes "partial " ++ name }
    requires no_branch { (name : List ℕ) → line.now ≢ codes "branch " ++ name }
    ensures ok { OnOk result (answers.new.items ≡ answers.old.items ++ answer_of line.now) }
    ensures full { request_of line.now ≡ None → OnErr result
        (vec_capacity answers.old < vec_len answers.old + length unknown_kind) }
{
    if let Some(name) = name_after(b"submodule ", line) {
        push_verdict(submodule::name(name), answers)
    } else if let Some(name) = name_after(b"path ", line) {
        push_component(name, None, answers)
    } else if let Some(name) = name_after(b"symlink ", line) {
        push_component(name, Some(ComponentMode::Symlink), answers)
    } else if let Some(name) = name_after(b"device ", line) {
        push_device(name, answers)
    } else if let Some(name) = name_after(b"sanitize ", line) {
        push_sanitized(alloc, name, answers)
    } else {
        answers.extend_from_slice(b"unknown kind")
    }
}

/// The name of a line that begins with this kind and its space.
fn name_after<'a>(kind_and_space: &[u8], line: &'a [u8]) -> Option<BStr<'a>>
    ensures { MatchOption result
        ((name : List ℕ) → line.now ≢ kind_and_space.now ++ name)
        (λ name. line.now ≡ kind_and_space.now ++ bstr_bytes name) }
{
    let name = line.strip_prefix(kind_and_space)?;
    Some(BStr::new(name))
}

/// Appends the result for the name as a path component with this mode and the default options.
fn push_component(
    name: BStr<'_>,
    mode: Option<ComponentMode>,
    answers: &mut Vec<u8>,
) -> Result<(), AllocError>
    ensures ok { OnOk result (answers.new.items ≡ answers.old.items
        ++ verdict (fault_of all_protections mode (bstr_bytes name.entry)) component_text) }
    ensures full { fault_of all_protections mode (bstr_bytes name.entry) ≡ None → OnErr result
        (vec_capacity answers.old < vec_len answers.old + length (codes "ok")) }
{
    push_verdict(
        Component::new(name, mode, ComponentOptions::default()),
        answers,
    )
}

/// Appends `yes` if the name is a device on Windows, and otherwise `no`.
fn push_device(name: BStr<'_>, answers: &mut Vec<u8>) -> Result<(), AllocError>
    ensures { OnOk result (answers.new.items
        ≡ answers.old.items ++ (if is_device (bstr_bytes name.entry) then codes "yes" else codes "no")) }
{
    if path::component_is_windows_device(name) {
        answers.extend_from_slice(b"yes")
    } else {
        answers.extend_from_slice(b"no")
    }
}

/// Appends the name, repaired to a partial name. The repaired name is copied, unless it is the
/// first result, whose memory is then used for all results.
fn push_sanitized(alloc: Global, name: BStr<'_>, answers: &mut Vec<u8>) -> Result<(), AllocError>
    ensures { OnOk result (answers.new.items
        ≡ answers.old.items ++ sanitized (bstr_bytes name.entry)) }
{
    let repaired = reference::name_partial_or_sanitize(alloc, name)?;
    if answers.is_empty() {
        *answers = repaired.into_vec();
        Ok(())
    } else {
        answers.extend_from_slice(repaired.as_slice())
    }
}

/// Appends the result of a validator: `ok`, or the error.
fn push_verdict<T: Drop, E: Display + Drop>(
    checked: Result<T, E>,
    answers: &mut Vec<u8>,
) -> Result<(), AllocError>
    ensures ok { OnOk result (MatchResult checked
        (λ _. answers.new.items ≡ answers.old.items ++ codes "ok")
        (λ fault. IfSome (E.output fault)
        (λ text. answers.new.items ≡ answers.old.items ++ codes "error: " ++ text))) }
    ensures full { IsOk checked → OnErr result
        (vec_capacity answers.old < vec_len answers.old + length (codes "ok")) }
{
    match checked {
        Ok(_) => answers.extend_from_slice(b"ok"),
        Err(fault) => push_fault(fault, answers),
    }
}

/// Appends an error: `error: ` and its printed text.
fn push_fault<E: Display + Drop>(fault: E, answers: &mut Vec<u8>) -> Result<(), AllocError>
    ensures { OnOk result (IfSome (E.output fault)
        (λ text. answers.new.items ≡ answers.old.items ++ codes "error: " ++ text)) }
{
    write!(Appender { answers }, "error: {fault}").map_err(|_| AllocError)
}

/// The results, as a target of formatted writes, which fail if memory for their bytes can't be
/// allocated.
#[derive(Drop)]
struct Appender<'a> {
    answers: &'a mut Vec<u8>,
}

impl fmt::Write for Appender<'_> {
    ghost write_str_gives = { λ before text after. (after.answers.ghost_name ≡ before.answers.ghost_name)
        × (after.answers.now.items ≡ before.answers.now.items ++ text) };

    fn write_str(&mut self, text: &str) -> fmt::Result {
        self.answers
            .extend_from_slice(text.as_bytes())
            .map_err(|_| fmt::Error)
    }
}
