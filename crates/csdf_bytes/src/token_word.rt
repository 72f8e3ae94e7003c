//! The words of a token file.

ghost use Rattle.std.specs.Prelude.{◌≡◌, ◌<◌, ◌^◌, true, if◌then◌else◌, Option, Ok, Err};
ghost use Rattle.std.specs.Option.{SomeIff};
ghost use Rattle.std.specs.Char.{is_ascii_digit};
ghost use Rattle.std.specs.List.{list_all};
ghost use Rattle.std.specs.Str.Lines.{strip_carriage_return};
ghost use Rattle.std.specs.Str.Parse.{digits_value, starts_with_minus, without_leading_sign};
ghost use Rattle.csdf_bytes.specs.TokenText.{is_token, signed, token_in, trim_end, trim_start, word_of};

/// Why a word is no token.
#[derive(Clone, Copy, Debug, PartialEq, Eq)]
pub enum WordFault {
    /// It is not a sign or none, followed by digits.
    Malformed,
    /// Its number is below -2,147,483,648 or above 2,147,483,647.
    OutOfRange,
}

/// The token that a word stands for: `+`, `-` or no sign, and then one ASCII digit or more.
#[tactic(auto, unfolding(crate::specs::TokenText::token_in))]
pub fn token_of(word: &[u8]) -> Result<i32, WordFault>
    ensures { result ≡ token_in word.now }
{
    let (is_negative, digits) = split_sign(word);
    if digits.is_empty() || !are_digits(digits) {
        return Err(WordFault::Malformed);
    }
    match number_of(digits) {
        Some(number) => with_sign(is_negative, number),
        None => Err(WordFault::OutOfRange),
    }
}

/// A line less one carriage return at its end, and then less the spaces and tabs at both ends.
pub fn word_of_line(line: &[u8]) -> &[u8]
    ensures { result.now ≡ word_of line.now }
{
    trim_blanks_after(trim_blanks_before(without_carriage_return(line)))
}

/// A line less one carriage return at its end, where it has one there.
pub fn without_carriage_return(line: &[u8]) -> &[u8]
    ensures { result.now ≡ strip_carriage_return line.now }
{
    match line {
        [front @ .., b'\r'] => front,
        _ => line,
    }
}

fn trim_blanks_before(line: &[u8]) -> &[u8]
    ensures { result.now ≡ trim_start line.now }
{
    let mut rest = line;
    while let [b' ' | b'\t', more @ ..] = rest {
        rest = more;
    }
    rest
}

fn trim_blanks_after(line: &[u8]) -> &[u8]
    ensures { result.now ≡ trim_end line.now }
{
    let mut rest = line;
    while let [more @ .., b' ' | b'\t'] = rest {
        rest = more;
    }
    rest
}

/// Whether a word begins with `-`, and what follows its sign.
fn split_sign(word: &[u8]) -> (bool, &[u8])
    ensures sign { result.0 ≡ starts_with_minus word.now }
    ensures digits { result.1.now ≡ without_leading_sign word.now }
{
    match word {
        [b'-', digits @ ..] => (true, digits),
        [b'+', digits @ ..] => (false, digits),
        _ => (false, word),
    }
}

fn are_digits(bytes: &[u8]) -> bool
    ensures { result ≡ list_all is_ascii_digit bytes.now }
{
    bytes.iter().all(|byte| byte.is_ascii_digit())
}

/// The number that digits write, where it fits 32 bits.
fn number_of(digits: &[u8]) -> Option<u32>
    requires { list_all is_ascii_digit digits.now ≡ true }
    ensures { SomeIff result (digits_value 10 digits.now < 2 ^ 32) (digits_value 10 digits.now) }
{
    let mut number = 0u32;
    for digit in digits {
        number = number
            .checked_mul(10)?
            .checked_add(u32::from(*digit - b'0'))?;
    }
    Some(number)
}

/// The number with its sign, where it is a token.
fn with_sign(is_negative: bool, number: u32) -> Result<i32, WordFault>
    ensures { result ≡ (if is_token (signed is_negative number)
        then Ok (signed is_negative number) else Err WordFault.OutOfRange) }
{
    let magnitude = i64::from(number);
    let value = if is_negative { -magnitude } else { magnitude };
    i32::try_from(value).map_err(|_| WordFault::OutOfRange)
}
