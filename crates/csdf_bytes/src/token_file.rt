//! Token files, which are read once.

ghost use Rattle.std.specs.Prelude.{◌≡◌, ◌≢◌, ◌↔◌, ◌<◌, ◌≤◌, ℕ, List, true, Ok, Err, length, map, min, IfErr, IfOk, IfSome, OnOk, nat_lt, if◌then◌else◌, []};
ghost use Rattle.std.specs.Io.KnownBytes.{Consumes, IsAtEnd, Keeps};
ghost use Rattle.std.specs.Result.{result_map_both};
ghost use Rattle.csdf_bytes.specs.Device.{TakesAtMost};
ghost use Rattle.csdf_bytes.specs.FileTokens.{HasRead, Tells, file_fault};
ghost use Rattle.csdf_bytes.specs.TokenStream.{IsOneLine};
ghost use Rattle.csdf_bytes.specs.TokenText.{entry_of, tokens_in, tokens_up_to, words_from};

use crate::device::Intake;
use crate::intake::{INPUT_LIMIT, InputFault};
use crate::token_reader::{ReadFault, TokenReader};
use crate::tokens::{TOKEN_LIMIT, TokenFault};
use std::alloc::{AllocError, Global};

/// The tokens of all the bytes to the end of the input, or the fault of the first faulty line;
/// or why the input was not read to its end. Want of memory says nothing of the input.
///
/// The input is read once, in pieces, of which no list is kept. Behind a faulty line its bytes
/// are only counted. No more than 16,777,217 bytes are asked for in all.
pub fn read_token_file<I: Intake>(
    alloc: Global,
    reader: &mut I,
) -> Result<Result<Vec<i32>, TokenFault>, InputFault>
    ensures told { IfOk result (λ told. IfSome (I.left reader.old) (λ bytes.
        tokens_up_to TOKEN_LIMIT (map entry_of (words_from 1 bytes))
        ≡ result_map_both (λ tokens. tokens.items) (λ fault. fault) told)) }
    ensures came { IfOk result (λ told. (text : List ℕ)
        × Consumes (I.left reader.old) (I.left reader.new) text
        × (tokens_in text ≡ result_map_both (λ tokens. tokens.items) (λ fault. fault) told)) }
    ensures text { IfOk result (λ told. IfErr told (λ fault.
        (fault ≢ TokenFault.Read) × (fault ≢ TokenFault.Memory))) }
    ensures short { OnOk result (IfSome (I.left reader.old) (λ bytes. length bytes ≤ INPUT_LIMIT)) }
    ensures ended { OnOk result (IsAtEnd (I.left reader.new)) }
    ensures read { result ≡ Err InputFault.Read ↔ (I.failed reader.new ≡ true) }
    ensures long { result ≡ Err InputFault.TooLong
        → IfSome (I.left reader.old) (λ bytes. INPUT_LIMIT < length bytes) }
    ensures few { TakesAtMost 16777217 (I.left reader.old) (I.left reader.new) }
{
    let mut file = match TokensRead::new(alloc) {
        Ok(file) => file,
        Err(AllocError) => return Err(unread(reader)),
    };
    let mut room = INPUT_LIMIT + 1;
    loop {
        let count = match file.lines.fetch(reader, room) {
            Ok(count) => count,
            Err(_) => return Err(unread(reader)),
        };
        if count == 0 {
            return told(file.finish());
        }
        if count == room {
            return Err(InputFault::TooLong);
        }
        room -= count;
        file.note_lines();
    }
}

/// Why an input is not read on: its reader failed, or else memory is wanting.
fn unread<I: Intake>(reader: &mut I) -> InputFault
    ensures read { result ≡ InputFault.Read ↔ (I.failed reader.new ≡ true) }
    ensures memory { result ≢ InputFault.TooLong }
    ensures kept { Keeps (I.left reader.old) (I.left reader.new) }
{
    let mut nothing = [0; 0];
    match reader.fetch(&mut nothing) {
        Ok(_) => InputFault::Memory,
        Err(_) => InputFault::Read,
    }
}

/// What is told of a file: want of memory is no fault of its text.
fn told(outcome: Result<Vec<i32>, TokenFault>) -> Result<Result<Vec<i32>, TokenFault>, InputFault>
    ensures told { IfOk result (λ told. told ≡ outcome) }
    ensures text { IfOk result (λ told. IfErr told (λ fault. fault ≢ TokenFault.Memory)) }
    ensures memory { IfErr result (λ fault. fault ≡ InputFault.Memory) }
{
    match outcome {
        Err(TokenFault::Memory) => Err(InputFault::Memory),
        outcome => Ok(outcome),
    }
}

/// What was read of a file so far: its tokens, or its first fault.
#[derive(Drop)]
struct TokensRead {
    lines: TokenReader,
    tokens: Vec<i32>,
    found: Result<(), TokenFault>,
}

impl TokensRead {
    fn new(alloc: Global) -> Result<TokensRead, AllocError>
        ensures read { IfOk result (λ file.
            HasRead [] file.lines.line file.lines.bytes file.tokens.items file.found) }
        ensures whole { IfOk result (λ file. IsOneLine file.lines.bytes) }
    {
        let lines = TokenReader::new(alloc)?;
        Ok(TokensRead {
            lines,
            tokens: Vec::new(alloc),
            found: Ok(()),
        })
    }

    /// Reads the whole lines that were fetched. Behind the first fault they are let go.
    fn note_lines(&mut self)
        ensures read { (text : List ℕ)
            → HasRead text self.old.lines.line self.old.lines.bytes self.old.tokens.items self.old.found
            → HasRead text self.new.lines.line self.new.lines.bytes self.new.tokens.items self.new.found }
        ensures whole { OnOk self.new.found (IsOneLine self.new.lines.bytes) }
    {
        match self.found {
            Ok(()) => self.found = read_file_lines(&mut self.lines, &mut self.tokens),
            Err(_) => self.lines.forget(),
        }
    }

    /// All the tokens, or the first fault, where the input has ended.
    fn finish(self) -> Result<Vec<i32>, TokenFault>
        ensures { (text : List ℕ)
            → HasRead text self.lines.line self.lines.bytes self.tokens.items self.found
            → OnOk self.found (IsOneLine self.lines.bytes)
            → Tells text (result_map_both (λ tokens. tokens.items) (λ fault. fault) result) }
    {
        let TokensRead {
            mut lines,
            mut tokens,
            found,
        } = self;
        if let Err(fault) = found {
            return Err(fault);
        }
        if let Err(fault) = read_file_end(&mut lines, &mut tokens) {
            return Err(fault);
        }
        Ok(tokens)
    }
}

/// Appends the tokens of the whole lines that were fetched, up to the first fault.
fn read_file_lines(lines: &mut TokenReader, tokens: &mut Vec<i32>) -> Result<(), TokenFault>
    ensures read { (text : List ℕ) → HasRead text lines.old.line lines.old.bytes tokens.old.items (Ok tt)
        → HasRead text lines.new.line lines.new.bytes tokens.new.items result }
    ensures whole { OnOk result (IsOneLine lines.new.bytes) }
{
    let most = (TOKEN_LIMIT + 1).saturating_sub(tokens.len());
    match lines.read_lines(most, tokens) {
        Ok(_) => within_limit(tokens),
        Err(fault) => Err(file_fault(fault)),
    }
}

/// Appends the token of the last line, which has no newline.
fn read_file_end(lines: &mut TokenReader, tokens: &mut Vec<i32>) -> Result<(), TokenFault>
    ensures { (text : List ℕ) → HasRead text lines.old.line lines.old.bytes tokens.old.items (Ok tt)
        → IsOneLine lines.old.bytes
        → Tells text (result_map_both (λ _. tokens.new.items) (λ fault. fault) result) }
{
    match lines.read_last(tokens) {
        Ok(()) => within_limit(tokens),
        Err(fault) => Err(file_fault(fault)),
    }
}

fn within_limit(tokens: &[i32]) -> Result<(), TokenFault>
    ensures { result ≡ (if nat_lt TOKEN_LIMIT (length tokens.now) then Err TokenFault.TooMany else Ok tt) }
{
    if tokens.len() > TOKEN_LIMIT {
        return Err(TokenFault::TooMany);
    }
    Ok(())
}

/// A fault of a file's text, whose lines are fewer than 4,294,967,295.
fn file_fault(fault: ReadFault) -> TokenFault
    ensures { result ≡ file_fault fault }
{
    match fault {
        ReadFault::Read => TokenFault::Read,
        ReadFault::Syntax(line) => TokenFault::Syntax(line_in_file(line)),
        ReadFault::Range(line) => TokenFault::Range(line_in_file(line)),
        ReadFault::Memory => TokenFault::Memory,
    }
}

fn line_in_file(line: u64) -> u32
    ensures { result ≡ min line 4294967295 }
{
    u32::try_from(line).unwrap_or(u32::MAX)
}
