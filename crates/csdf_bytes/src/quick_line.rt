//! Lines of the common form: `-` or no sign, one to nine digits, and a newline.

ghost use Rattle.std.specs.Prelude.{◌≡◌, ◌+◌, ◌-◌, ◌*◌, ◌<◌, ◌≤◌, true, length, take, drop, min, IfSome};
ghost use Rattle.std.specs.Char.{is_ascii_digit};
ghost use Rattle.std.specs.List.{list_all};
ghost use Rattle.std.specs.Str.Parse.{digits_value};
ghost use Rattle.csdf_bytes.specs.TokenStream.{HasLine, ReadsOn};
ghost use Rattle.csdf_bytes.specs.QuickLine.{QuickDigits, QuickLine};
ghost use Rattle.csdf_bytes.specs.TokenText.{signed};

/// The most digits of such a line: any number of nine digits is a token.
const MOST_DIGITS: usize = 9;

/// The most bytes of such a line, with its sign and its newline.
const LONGEST: usize = 11;

/// How far lines of the common form were read.
#[derive(Clone, Copy)]
pub struct QuickLines {
    /// How many bytes were read.
    pub used: usize,
    /// The number of the line that is next.
    pub line: u64,
    /// How many tokens more may be read.
    pub left: usize,
}

/// Appends the tokens of the first lines of a text, so many at most, as long as the lines have
/// the common form and memory is not wanting. The first line has the given number.
pub fn read_quick_lines(text: &[u8], first: u64, most: usize, tokens: &mut Vec<i32>) -> QuickLines
    ensures used { result.used ≤ length text.now }
    ensures read { ReadsOn first text.now result.line (drop result.used text.now)
        tokens.old.items tokens.new.items }
    ensures count { length tokens.new.items + result.left ≡ length tokens.old.items + most }
    ensures found { 0 < result.used → HasLine text.now }
    ensures idle { result.used ≡ 0 → (result.line ≡ first) × (tokens.new.items ≡ tokens.old.items) }
{
    let mut used = 0;
    let mut line = first;
    let mut left = most;
    loop {
        let batch = left.min((text.len() - used) / LONGEST);
        if batch == 0 {
            return QuickLines { used, line, left };
        }
        let quick = read_batch(&text[used..], line, batch, tokens);
        used += quick.used;
        line = quick.line;
        left -= batch - quick.left;
        if quick.left > 0 {
            return QuickLines { used, line, left };
        }
    }
}

/// The same, where there is room for so many lines, however long they are.
fn read_batch(text: &[u8], first: u64, most: usize, tokens: &mut Vec<i32>) -> QuickLines
    requires { most * 11 ≤ length text.now }
    ensures used { result.used ≤ length text.now }
    ensures left { result.left ≤ most }
    ensures read { ReadsOn first text.now result.line (drop result.used text.now)
        tokens.old.items tokens.new.items }
    ensures count { length tokens.new.items + result.left ≡ length tokens.old.items + most }
    ensures found { 0 < result.used → HasLine text.now }
    ensures idle { result.used ≡ 0 → (result.line ≡ first) × (tokens.new.items ≡ tokens.old.items) }
{
    let mut used = 0;
    let mut left = most;
    if tokens.reserve(most).is_err() {
        return stopped(first, most, used, left);
    }
    while left > 0 {
        let Some((token, end)) = quick_line(&text[used..]) else {
            return stopped(first, most, used, left);
        };
        tokens.push_reserved(token);
        left -= 1;
        used += end + 1;
    }
    stopped(first, most, used, left)
}

/// Each line that was read gave a token.
fn stopped(first: u64, most: usize, used: usize, left: usize) -> QuickLines
    requires { left ≤ most }
    ensures used { result.used ≡ used }
    ensures line { result.line ≡ min (first + (most - left)) 18446744073709551615 }
    ensures left { result.left ≡ left }
{
    QuickLines {
        used,
        line: first.saturating_add((most - left) as u64),
        left,
    }
}

/// The token of the first line of a text and the place of its newline, where the line has the
/// common form.
#[inline(always)]
fn quick_line(text: &[u8]) -> Option<(i32, usize)>
    requires { LONGEST ≤ length text.now }
    ensures { IfSome result (λ line. QuickLine text.now line.0 line.1) }
{
    if text[0] == b'-' {
        let Some((number, count)) = quick_digits(&text[1..]) else {
            return None;
        };
        return Some((with_sign(true, number), 1 + count));
    }
    let Some((number, count)) = quick_digits(text) else {
        return None;
    };
    Some((with_sign(false, number), count))
}

/// The number of one to nine digits at the front of a text and how many they are, where a newline
/// follows.
#[inline(always)]
fn quick_digits(text: &[u8]) -> Option<(u32, usize)>
    requires { 10 ≤ length text.now }
    ensures { IfSome result (λ found. QuickDigits text.now found.0 found.1) }
{
    let (number, count) = quick_number(text);
    if count == 0 {
        return None;
    }
    if text[count] != b'\n' {
        return None;
    }
    Some((number, count))
}

/// The number that the digits at the front of a text write, and how many they are: nine at most.
#[inline(always)]
fn quick_number(text: &[u8]) -> (u32, usize)
    requires { 10 ≤ length text.now }
    ensures few { result.1 ≤ MOST_DIGITS }
    ensures digits { list_all is_ascii_digit (take result.1 text.now) ≡ true }
    ensures number { result.0 ≡ digits_value 10 (take result.1 text.now) }
    ensures small { result.0 < 1000000000 }
{
    let mut number = 0;
    let mut count = 0;
    while count < MOST_DIGITS {
        let digit = u32::from(text[count]).wrapping_sub(48);
        if digit > 9 {
            return (number, count);
        }
        number = number * 10 + digit;
        count += 1;
    }
    (number, count)
}

/// A number of nine digits at most with its sign.
#[inline(always)]
fn with_sign(is_negative: bool, number: u32) -> i32
    requires { number < 1000000000 }
    ensures { result ≡ signed is_negative number }
{
    let magnitude = number as i32;
    if is_negative { -magnitude } else { magnitude }
}
