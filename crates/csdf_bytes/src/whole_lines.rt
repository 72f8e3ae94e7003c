//! The tokens of lines that are in memory.

ghost use Rattle.std.specs.Prelude.{◌≡◌, ◌≢◌, ◌+◌, ◌<◌, ◌≤◌, Err, [], ◌∷◌, length, drop, IfErr, IfOk, OnErr};
ghost use Rattle.std.specs.List.{position};
ghost use Rattle.csdf_bytes.specs.TokenText.{is_newline};
ghost use Rattle.csdf_bytes.specs.TokenStream.{HasLine, IsFaulty, IsOneLine, ReadsEntry, ReadsOn, entry_at, line_fault};

use crate::quick_line::read_quick_lines;
use crate::token_reader::ReadFault;
use crate::token_word::{WordFault, token_of, word_of_line};

/// How far lines were read, and why no further.
#[derive(Clone, Copy)]
pub struct Stop {
    /// How many bytes were read.
    pub used: usize,
    /// The number of the line that is next.
    pub line: u64,
    /// Its fault, or that a growth was refused.
    pub outcome: Result<(), ReadFault>,
}

/// Appends the tokens of the whole lines at the front of a text: so many at most, and those
/// before the first fault. The first line has the given number.
pub fn read_whole_lines(text: &[u8], first: u64, most: usize, tokens: &mut Vec<i32>) -> Stop
    ensures used { result.used ≤ length text.now }
    ensures read { ReadsOn first text.now result.line (drop result.used text.now)
        tokens.old.items tokens.new.items }
    ensures few { length tokens.new.items ≤ length tokens.old.items + most }
    ensures early { OnErr result.outcome (length tokens.new.items < length tokens.old.items + most) }
    ensures idle { result.used ≡ 0 → (result.line ≡ first) × (tokens.new.items ≡ tokens.old.items) }
    ensures found { 0 < result.used → HasLine text.now }
    ensures whole { IfOk result.outcome (λ _. length tokens.new.items < length tokens.old.items + most
        → IsOneLine (drop result.used text.now)) }
    ensures fault { IfErr result.outcome (λ fault. fault ≢ ReadFault.Memory
        → IsFaulty result.line (drop result.used text.now) fault) }
    ensures unread { result.outcome ≢ Err ReadFault.Read }
{
    let quick = read_quick_lines(text, first, most, tokens);
    let mut used = quick.used;
    let mut line = quick.line;
    let mut left = quick.left;
    while left > 0 {
        let Some(end) = end_of_line(&text[used..]) else {
            return Stop {
                used,
                line,
                outcome: Ok(()),
            };
        };
        let before = tokens.len();
        if let Err(fault) = push_token(&text[used..used + end], line, tokens) {
            return Stop {
                used,
                line,
                outcome: Err(fault),
            };
        }
        left -= tokens.len() - before;
        used += end + 1;
        let quick = read_quick_lines(&text[used..], line.saturating_add(1), left, tokens);
        used += quick.used;
        line = quick.line;
        left = quick.left;
    }
    Stop {
        used,
        line,
        outcome: Ok(()),
    }
}

/// Appends the token of a line, which has the given number, if it has a token.
pub fn push_token(line: &[u8], number: u64, tokens: &mut Vec<i32>) -> Result<(), ReadFault>
    ensures read { IfOk result (λ _. ReadsEntry number line.now tokens.old.items tokens.new.items) }
    ensures kept { OnErr result (tokens.new.items ≡ tokens.old.items) }
    ensures fault { IfErr result (λ fault. fault ≢ ReadFault.Memory
        → entry_at number line.now ≡ Err fault ∷ []) }
    ensures unread { result ≢ Err ReadFault.Read }
{
    let word = word_of_line(line);
    if word.is_empty() {
        return Ok(());
    }
    let token = match token_of(word) {
        Ok(token) => token,
        Err(fault) => return Err(line_fault(number, fault)),
    };
    if tokens.push(token).is_err() {
        return Err(ReadFault::Memory);
    }
    Ok(())
}

/// The place of the first newline.
fn end_of_line(text: &[u8]) -> Option<usize>
    ensures { result ≡ position is_newline text.now }
{
    text.iter().position(|byte| *byte == b'\n')
}

/// A word's fault, told at its line.
fn line_fault(line: u64, fault: WordFault) -> ReadFault
    ensures { result ≡ line_fault line fault }
{
    match fault {
        WordFault::Malformed => ReadFault::Syntax(line),
        WordFault::OutOfRange => ReadFault::Range(line),
    }
}
