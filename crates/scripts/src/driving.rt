//! The trait of the kinds of scripts, and the run from the lines of a script after its header to
//! the lines of its replies.
ghost use Rattle.scripts.specs.Scripts.{AreScript, IsFirstUnreadable, IsLine, IsLineText, IsOutcome, IsPlayed, IsStep, Rules, header_words, kind, line_text};
ghost use Rattle.scripts.specs.Words.{MayStand, lines_of, text_bytes, words_text};
ghost use Rattle.std.specs.List.{flat_map};
ghost use Rattle.std.specs.Prelude.{IfErr, IfNone, IfOk, IfSome, List, OnOk, Some, [], length, ℕ, ◌++◌, ◌<◌, ◌∷◌, ◌≡◌};

use crate::words::{Numbers, Text, first_line, is_word, words};
use std::alloc::{AllocError, Global};

/// A kind of script. A header makes the value that the script drives, which takes commands and
/// gives one reply to each.
pub trait ScriptKind {
    /// The value that a script drives.
    type State: Drop;

    /// The value that a header names.
    type Header: Drop;

    type Command: Copy;

    type Reply: Drop;

    /// The rules of its scripts.
    ghost rules: { Rules Self.State Self.Header Self.Command Self.Reply };

    /// Returns whether a script may show the state.
    fn can_show() -> bool
        ensures { result ≡ rules.can_show };

    fn read_header(name: &[u8], numbers: Numbers) -> Option<Self::Header>
        ensures written { IfSome result (λ header. rules.is_header header
            × (name.now ≡ rules.name) × (numbers ≡ rules.header_numbers header)) }
        ensures each { (header : Self.Header) → rules.is_header header → name.now ≡ rules.name
            → numbers ≡ rules.header_numbers header → result ≡ Some header };

    fn make(alloc: Global, header: Self::Header) -> Result<Self::State, AllocError>
        requires { rules.is_header header }
        ensures { IfOk result (λ state. rules.starts header state) };

    fn read(name: &[u8], numbers: Numbers) -> Option<Self::Command>
        ensures written { IfSome result (λ command. rules.is_command command
            × (name.now ≡ (rules.command_words command).name)
            × (numbers ≡ (rules.command_words command).numbers)) }
        ensures each { (command : Self.Command) → rules.is_command command
            → name.now ≡ (rules.command_words command).name
            → numbers ≡ (rules.command_words command).numbers → result ≡ Some command };

    fn run(
        state: &mut Self::State,
        alloc: Global,
        commands: &[Self::Command],
    ) -> Result<Vec<Self::Reply>, AllocError>
        ensures { IfOk result (λ replies.
            rules.runs state.old commands.now replies.items state.new) };

    fn reply_text(reply: &Self::Reply) -> Text
        ensures { text_bytes result ≡ rules.reply_text reply.now };

    /// Adds the text of the state to a line.
    fn write_state(state: &Self::State, line: &mut Vec<u8>) -> Result<(), AllocError>
        ensures { OnOk result (line.new.items ≡ line.old.items ++ rules.state_text state.now) };
}

/// A line after the header.
#[derive(Drop)]
pub enum Line<C> {
    Command(C),
    Show,
}

/// The outcome of reading a script and running it.
#[derive(Drop)]
pub enum Outcome {
    /// The text to write: a line for each reply, and the text of each `show`.
    Answered(Vec<u8>),
    /// The number of the first unreadable line.
    Unreadable(usize),
    /// Memory ran out.
    OutOfMemory,
}

/// Checks every line after the header, and then makes the value that the script drives and runs it.
pub fn run_script<K: ScriptKind>(alloc: Global, header: K::Header, rest: &[u8]) -> Outcome
    requires header { K.rules.is_header header }
    requires stand { MayStand (header_words K.rules header) }
    ensures { IsOutcome (kind K.rules ∷ []) (words_text (header_words K.rules header) ∷ lines_of rest.now) result }
{
    match read_script::<K>(alloc, rest) {
        Ok(Ok(script)) => match run_lines::<K>(alloc, header, &script) {
            Ok(text) => Outcome::Answered(text),
            Err(_) => Outcome::OutOfMemory,
        },
        Ok(Err(index)) => Outcome::Unreadable(index + 2),
        Err(_) => Outcome::OutOfMemory,
    }
}

/// Reads the lines after the header, or returns the index of the first that is unreadable.
fn read_script<K: ScriptKind>(
    alloc: Global,
    input: &[u8],
) -> Result<Result<Vec<Line<K::Command>>, usize>, AllocError>
    ensures read { IfOk result (λ outcome. IfOk outcome (λ script.
        AreScript K.rules (lines_of input.now) script.items)) }
    ensures unreadable { IfOk result (λ outcome. IfErr outcome (λ index.
        IsFirstUnreadable (IsLineText K.rules) (lines_of input.now) index)) }
    ensures within { IfOk result (λ outcome. IfErr outcome (λ index. index < length input.now)) }
{
    let mut script = Vec::new(alloc);
    let mut index = 0;
    let mut left = input;
    while let Some((line, rest)) = first_line(left) {
        let Some(line) = read_line::<K>(line) else {
            return Ok(Err(index));
        };
        script.push(line)?;
        index += 1;
        left = rest;
    }
    Ok(Ok(script))
}

/// Parses a line after the header, or returns `None` if it is unreadable.
fn read_line<K: ScriptKind>(text: &[u8]) -> Option<Line<K::Command>>
    ensures written { IfSome result (λ line. IsLine K.rules line
        × (text.now ≡ line_text K.rules line)) }
    ensures unreadable { IfNone result (¬ IsLineText K.rules text.now) }
{
    if K::can_show() && is_word(text, b"show") {
        return Some(Line::Show);
    }
    let (name, numbers) = words(text)?;
    Some(Line::Command(K::read(name, numbers)?))
}

/// Makes the value that the script drives, and runs the script on it. Returns the text to write.
fn run_lines<K: ScriptKind>(
    alloc: Global,
    header: K::Header,
    script: &[Line<K::Command>],
) -> Result<Vec<u8>, AllocError>
    requires { K.rules.is_header header }
    ensures { IfOk result (λ text. (first : K.State) × (last : K.State) × K.rules.starts header first
        × IsPlayed K.rules first script.now text.items last) }
{
    let mut state = K::make(alloc, header)?;
    let mut waiting = Vec::new(alloc);
    let mut text = Vec::new(alloc);
    for line in script {
        run_line::<K>(alloc, &mut state, line, &mut waiting, &mut text)?;
    }
    write_replies::<K>(alloc, &mut state, &waiting, &mut text)?;
    Ok(text)
}

/// Runs one line: a command is added to the waiting ones; a `show` runs all waiting commands and
/// then writes the state.
fn run_line<K: ScriptKind>(
    alloc: Global,
    state: &mut K::State,
    line: &Line<K::Command>,
    waiting: &mut Vec<K::Command>,
    text: &mut Vec<u8>,
) -> Result<(), AllocError>
    ensures { OnOk result ((added : List ℕ)
        × IsStep K.rules state.old waiting.old.items line.now added state.new waiting.new.items
        × (text.new.items ≡ text.old.items ++ added)) }
{
    match line {
        Line::Command(command) => Ok(waiting.push(*command)?),
        Line::Show => {
            write_replies::<K>(alloc, state, waiting, text)?;
            waiting.clear();
            K::write_state(state, text)
        }
    }
}

/// Runs commands, and adds the line of each reply.
fn write_replies<K: ScriptKind>(
    alloc: Global,
    state: &mut K::State,
    commands: &[K::Command],
    text: &mut Vec<u8>,
) -> Result<(), AllocError>
    ensures { OnOk result ((replies : List K.Reply)
        × K.rules.runs state.old commands.now replies state.new
        × (text.new.items ≡ text.old.items ++ flat_map K.rules.reply_text replies)) }
{
    let replies = K::run(state, alloc, commands)?;
    for reply in &replies {
        K::reply_text(reply).write(text)?;
    }
    Ok(())
}
