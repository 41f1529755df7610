//! A run over the names in the arguments or in the input, one after the other.

ghost use Rattle.std.specs.Prelude.{◌≡◌, ◌≢◌, ◌++◌, [], codes, false, Some, Err, ℕ, List, Option};
ghost use Rattle.std.specs.Prelude.{IfOk, IfSome, OnErr, OnOk, map};
ghost use Rattle.std.specs.Io.KnownBytes.{Appends};
ghost use Rattle.std.specs.Result.{result_map_both};
ghost use Rattle.std.specs.String.{string_bytes};
ghost use Rattle.programs.specs.Command.{EndsAs, Ran, SaysIf};
ghost use Rattle.programs.specs.Messages.{AppendsPrefixOf};
ghost use Rattle.git_check_names.specs.Names.{Runs, as_outcome, asked_of, ended_of, failed_by};
ghost use Rattle.git_check_names.specs.Names.{given_report, has_nul, input_report, name_end};
ghost use Rattle.git_check_names.specs.Names.{name_report, outcome_of, shown, text_for};
ghost use Rattle.git_check_names.specs.Names.{unknown_in, wrong_by};
ghost use Rattle.git_check_names.specs.Options.{as_options};
ghost use Rattle.git_check_names.specs.Problems.{end_of, said_of, status_of};
ghost use Rattle.git_check_names.specs.ValidNames.{IsValidIff};

use crate::input::{Next, next_name};
use crate::kind::{is_repairable, kind_of};
use crate::options::CheckOptions;
use crate::problem::{Ended, MESSAGE_START, Problem, Verdict};
use crate::report::{push_report, push_shown};
use git_names::Kind;
use programs::command::Command;
use programs::error::RunError;
use programs::messages::Messages;
use programs::text::split_once;
use programs::{fail, until_returned};
use std::alloc::Global;
use std::io::{self, BufRead, Write};
use std::process::ExitCode;

impl<'a> Command<'a> for CheckOptions<'a> {
    type Verdict = Verdict;

    ghost Runs = { λ options input rest output written ran.
        Runs (as_options options) input rest output written ran };

    ghost end_of = { end_of };

    /// Checks the names, and writes a line for each that is invalid to `output`, or the repair of
    /// each that has one (git-check-names(1)). `output` is not flushed.
    ///
    /// # Memory
    ///
    /// It allocates memory for the longest name of the input, of at most 65,535 bytes, for the
    /// longest line or the lines of all names that are arguments, for a repaired name, and for the
    /// messages about names that have no repair or are too long, from `alloc`.
    #[tactic(auto, using(crate::proofs::AllValid::valid_run))]
    fn run<R: BufRead, W: Write>(
        self,
        alloc: Global,
        input: &mut R,
        output: &mut W,
    ) -> Result<Verdict, RunError>
        ensures runs { Runs (as_options self.entry) (R.remaining input.old) (R.remaining input.new)
            (W.contents output.old) (W.contents output.new) result }
        ensures unread { self.entry.reads ≡ false → input.new ≡ input.old }
        ensures valid { IfOk result (λ verdict.
            IfSome (text_for (as_options self.entry) (R.remaining input.old))
            (IsValidIff (as_options self.entry) verdict)) }
    {
        check_names(alloc, self, input, output)
    }

    fn end<E: Write>(
        name: &str,
        ran: Result<Verdict, RunError>,
        errors: &mut Messages<E>,
    ) -> ExitCode
        ensures { EndsAs E.contents name.now errors.old errors.new result (end_of ran) }
    {
        match ran {
            Ok(Verdict { ended, messages }) => {
                say_messages(name, &messages, errors);
                ExitCode::from(status_of(ended))
            }
            Err(stop) => fail(name, stop, errors),
        }
    }
}

/// Writes the messages of a run, if there are any.
fn say_messages<E: Write>(name: &str, messages: &[u8], errors: &mut Messages<E>)
    ensures { SaysIf E.contents name.now errors.old errors.new (said_of messages.now) }
{
    if let Some(said) = messages.get(MESSAGE_START.len()..) {
        errors.say_bytes(name, said);
    }
}

/// The exit status of a run that ended like this.
fn status_of(ended: Ended) -> u8
    ensures { result ≡ status_of ended }
{
    match ended {
        Ended::Valid => 0,
        Ended::Invalid => 1,
        Ended::Failed => 2,
    }
}

/// Checks the names that the options ask for, as `run` does.
fn check_names<R: BufRead, W: Write>(
    alloc: Global,
    options: CheckOptions<'_>,
    input: &mut R,
    output: &mut W,
) -> Result<Verdict, RunError>
    ensures runs { Runs (as_options options.entry) (R.remaining input.old) (R.remaining input.new)
        (W.contents output.old) (W.contents output.new) result }
    ensures unread { options.entry.reads ≡ false → input.new ≡ input.old }
{
    let (kind, names) = match asked_of(options) {
        Ok(asked) => asked,
        Err(problem) => return wrong_by(alloc, options.operands, problem),
    };
    if options.reads {
        check_input(alloc, &options, kind, input, output)
    } else {
        check_given(alloc, &options, kind, names, output)
    }
}

/// The verdict of a run that does nothing because something is wrong with the arguments, which have
/// these operands.
fn wrong_by(alloc: Global, operands: &[String], problem: Problem) -> Result<Verdict, RunError>
    ensures verdict { IfOk result (λ verdict.
        as_outcome verdict ≡ outcome_of (wrong_by (map string_bytes operands.now) problem)) }
    ensures stopped { OnErr result (result ≡ Err RunError.Memory) }
{
    let mut messages = Vec::new(alloc);
    push_wrong(&mut messages, operands, problem).map_err(|_| RunError::Memory)?;
    Ok(Verdict {
        ended: Ended::Failed,
        messages,
    })
}

/// Appends the message of a problem with the arguments, which have these operands.
fn push_wrong(messages: &mut Vec<u8>, operands: &[String], problem: Problem) -> io::Result<()>
    ensures { OnOk result (messages.new.items
        ≡ messages.old.items ++ (wrong_by (map string_bytes operands.now) problem).messages) }
{
    write!(messages, "{MESSAGE_START}")?;
    push_unknown(messages, operands, &problem)?;
    write!(messages, "{problem}")
}

/// Appends which of the operands is not a kind, if that is the problem.
fn push_unknown(messages: &mut Vec<u8>, operands: &[String], problem: &Problem) -> io::Result<()>
    ensures { OnOk result (messages.new.items
        ≡ messages.old.items ++ unknown_in (map string_bytes operands.now) problem.now) }
{
    let [word, _names @ ..] = operands else {
        return Ok(());
    };
    match problem {
        Problem::NoKind => push_unknown_word(messages, word.as_bytes()),
        _ => Ok(()),
    }
}

/// Appends that a word is not a kind.
fn push_unknown_word(messages: &mut Vec<u8>, word: &[u8]) -> io::Result<()>
    ensures { OnOk result (messages.new.items
        ≡ messages.old.items ++ (codes "unknown kind " ++ shown word.now ++ codes ": ")) }
{
    write!(messages, "unknown kind ")?;
    push_shown(messages, word)?;
    write!(messages, ": ")
}

/// Appends the message of a problem.
fn push_problem(messages: &mut Vec<u8>, problem: Problem) -> Result<(), RunError>
    ensures messages { OnOk result
        (messages.new.items ≡ messages.old.items ++ (failed_by problem).messages) }
    ensures stopped { OnErr result (result ≡ Err RunError.Memory) }
{
    write!(messages, "{MESSAGE_START}{problem}").map_err(|_| RunError::Memory)
}

/// The kind and the names among the operands, or what is wrong with these.
fn asked_of<'a>(options: CheckOptions<'a>) -> Result<(Kind, &'a [String]), Problem>
    ensures { result_map_both (λ asked. (asked.0, map string_bytes asked.1.now)) (λ problem. problem) result
        ≡ asked_of (as_options options.entry) }
{
    let [word, names @ ..] = options.operands else {
        return Err(Problem::NoKind);
    };
    let Some(kind) = kind_of(word.as_bytes()) else {
        return Err(Problem::NoKind);
    };
    if options.repair && !is_repairable(kind) {
        return Err(Problem::NoRepair);
    }
    match (options.reads, names.is_empty()) {
        (true, false) => Err(Problem::TwoSources),
        (false, true) => Err(Problem::NoName),
        _ => Ok((kind, names)),
    }
}

/// Checks names that are arguments, and writes the lines for all of them at the end.
#[tactic(auto, using(crate::proofs::GivenNames::given_names))]
fn check_given<W: Write>(
    alloc: Global,
    options: &CheckOptions<'_>,
    kind: Kind,
    names: &[String],
    output: &mut W,
) -> Result<Verdict, RunError>
    ensures verdict { IfOk result (λ verdict.
        let report = given_report (as_options options.now) kind (map string_bytes names.now) in
        Appends (W.contents output.old) (W.contents output.new) report.lines
        × (as_outcome verdict ≡ outcome_of report)) }
    ensures stopped { result ≢ Err RunError.Write → OnErr result (output.new ≡ output.old) }
{
    let (mut lines, mut messages) = (Vec::new(alloc), Vec::new(alloc));
    let mut refused = false;
    let mut rest = names;
    while let [name, after @ ..] = rest {
        let name = name.as_bytes();
        let found = push_report(alloc, options, kind, name, &mut lines, &mut messages).map_err(
            |_| RunError::Memory,
        )?;
        refused |= found;
        rest = after;
    }
    output.write_all(&lines).map_err(|_| RunError::Write)?;
    Ok(Verdict {
        ended: ended_of(false, refused),
        messages,
    })
}

/// Checks the names of the input, and writes the lines for each as it is read.
fn check_input<R: BufRead, W: Write>(
    alloc: Global,
    options: &CheckOptions<'_>,
    kind: Kind,
    input: &mut R,
    output: &mut W,
) -> Result<Verdict, RunError>
    ensures verdict { IfOk result (λ verdict. IfSome (R.remaining input.old) (λ text.
        let report = input_report (as_options options.now) kind 1 text in
        Appends (W.contents output.old) (W.contents output.new) report.lines
        × (as_outcome verdict ≡ outcome_of report))) }
    ensures spent { IfOk result (λ verdict. verdict.ended ≢ Ended.Failed
        → IfSome (R.remaining input.old) (λ _. R.remaining input.new ≡ Some [])) }
    ensures stopped { result ≢ Err RunError.Write
        → OnErr result (IfSome (R.remaining input.old) (λ text.
        AppendsPrefixOf (W.contents output.old) (W.contents output.new)
        (input_report (as_options options.now) kind 1 text).lines)) }
{
    let mut name = Vec::new(alloc);
    let (mut lines, mut messages) = (Vec::new(alloc), Vec::new(alloc));
    let (mut refused, mut failed) = (false, false);
    until_returned!(before => {
        let number = before + 1;
        match next_name(input, name_end(options), &mut name)? {
            Next::TooLong => {
                push_problem(&mut messages, Problem::TooLong { number })?;
                failed = true;
                continue;
            }
            Next::End if number == 1 => return stopped_by(messages, Problem::EmptyInput),
            Next::End => return Ok(Verdict { ended: ended_of(failed, refused), messages }),
            Next::Name => {}
        }
        if has_nul(options, &name) {
            return stopped_by(messages, Problem::Nul { number });
        }
        refused |= write_report(alloc, options, kind, &name, &mut lines, &mut messages, output)?;
    })
}

/// Writes the lines for a name, which are put in `lines` first, appends the messages about it, and
/// returns whether the name is refused.
fn write_report<W: Write>(
    alloc: Global,
    options: &CheckOptions<'_>,
    kind: Kind,
    name: &[u8],
    lines: &mut Vec<u8>,
    messages: &mut Vec<u8>,
    output: &mut W,
) -> Result<bool, RunError>
    ensures lines { IfOk result (λ _. Appends (W.contents output.old) (W.contents output.new)
        (name_report (as_options options.now) kind name.now).lines) }
    ensures messages { OnOk result (messages.new.items
        ≡ messages.old.items ++ (name_report (as_options options.now) kind name.now).messages) }
    ensures refused { IfOk result (λ refused.
        refused ≡ (name_report (as_options options.now) kind name.now).refused) }
    ensures failed { (name_report (as_options options.now) kind name.now).failed ≡ false }
    ensures stopped { result ≢ Err RunError.Write → OnErr result (output.new ≡ output.old) }
{
    lines.clear();
    let refused = push_report(alloc, options, kind, name, lines, messages).map_err(
        |_| RunError::Memory,
    )?;
    output.write_all(lines).map_err(|_| RunError::Write)?;
    Ok(refused)
}

/// The verdict of a run that stops with a problem, after these messages.
fn stopped_by(messages: Vec<u8>, problem: Problem) -> Result<Verdict, RunError>
    ensures verdict { IfOk result (λ verdict. as_outcome verdict
        ≡ record { ended = Ended.Failed; messages = messages.items ++ (failed_by problem).messages }) }
    ensures stopped { OnErr result (result ≡ Err RunError.Memory) }
{
    let mut messages = messages;
    push_problem(&mut messages, problem)?;
    Ok(Verdict {
        ended: Ended::Failed,
        messages,
    })
}

/// How a run that has read all names ends.
fn ended_of(failed: bool, refused: bool) -> Ended
    ensures { result ≡ ended_of failed refused }
{
    match (failed, refused) {
        (true, _) => Ended::Failed,
        (false, true) => Ended::Invalid,
        (false, false) => Ended::Valid,
    }
}

/// The byte that ends a name in the input.
fn name_end(options: &CheckOptions<'_>) -> u8
    ensures { result ≡ name_end (as_options options.now) }
{
    if options.nul { 0 } else { b'\n' }
}

/// Whether a line has a NUL, and so may be a list of names that end with NUL.
#[tactic(auto, using(crate::proofs::GivenNames::nul_found))]
fn has_nul(options: &CheckOptions<'_>, name: &[u8]) -> bool
    ensures { result ≡ has_nul (as_options options.now) name.now }
{
    !options.nul && split_once(0, name).is_some()
}
