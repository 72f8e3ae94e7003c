//! The lines of tokens, written into a slice from its end.

ghost use Rattle.std.specs.Prelude.{◌≡◌, ◌+◌, ◌-◌, ◌*◌, ◌/◌, ◌%◌, ◌<◌, ◌≤◌, ◌∷◌, ◌++◌, length, drop};
ghost use Rattle.std.specs.Fmt.{decimal};
ghost use Rattle.csdf_bytes.specs.TokenText.{token_line, token_text};

/// The two digits of each number below a hundred, one pair behind the other.
const PAIRS: [u8; 200] = [
    b'0', b'0', b'0', b'1', b'0', b'2', b'0', b'3', b'0', b'4', b'0', b'5', b'0', b'6', b'0', b'7',
    b'0', b'8', b'0', b'9', b'1', b'0', b'1', b'1', b'1', b'2', b'1', b'3', b'1', b'4', b'1', b'5',
    b'1', b'6', b'1', b'7', b'1', b'8', b'1', b'9', b'2', b'0', b'2', b'1', b'2', b'2', b'2', b'3',
    b'2', b'4', b'2', b'5', b'2', b'6', b'2', b'7', b'2', b'8', b'2', b'9', b'3', b'0', b'3', b'1',
    b'3', b'2', b'3', b'3', b'3', b'4', b'3', b'5', b'3', b'6', b'3', b'7', b'3', b'8', b'3', b'9',
    b'4', b'0', b'4', b'1', b'4', b'2', b'4', b'3', b'4', b'4', b'4', b'5', b'4', b'6', b'4', b'7',
    b'4', b'8', b'4', b'9', b'5', b'0', b'5', b'1', b'5', b'2', b'5', b'3', b'5', b'4', b'5', b'5',
    b'5', b'6', b'5', b'7', b'5', b'8', b'5', b'9', b'6', b'0', b'6', b'1', b'6', b'2', b'6', b'3',
    b'6', b'4', b'6', b'5', b'6', b'6', b'6', b'7', b'6', b'8', b'6', b'9', b'7', b'0', b'7', b'1',
    b'7', b'2', b'7', b'3', b'7', b'4', b'7', b'5', b'7', b'6', b'7', b'7', b'7', b'8', b'7', b'9',
    b'8', b'0', b'8', b'1', b'8', b'2', b'8', b'3', b'8', b'4', b'8', b'5', b'8', b'6', b'8', b'7',
    b'8', b'8', b'8', b'9', b'9', b'0', b'9', b'1', b'9', b'2', b'9', b'3', b'9', b'4', b'9', b'5',
    b'9', b'6', b'9', b'7', b'9', b'8', b'9', b'9',
];

/// Writes the lines of tokens, so that they end where the slice does, and tells where they begin.
/// A line has twelve bytes at most: a sign, ten digits and a newline.
pub fn put_lines(bytes: &mut [u8], tokens: &[i32]) -> usize
    requires { 12 * length tokens.now ≤ length bytes.old }
    ensures begin { result ≤ length bytes.new }
    ensures length { length bytes.new ≡ length bytes.old }
    ensures lines { drop result bytes.new ≡ token_text tokens.now }
{
    let mut start = bytes.len();
    let mut left = tokens.len();
    while left > 0 {
        left -= 1;
        start = put_line(bytes, start, tokens[left]);
    }
    start
}

/// Writes the line of a token before a place, and tells where it begins: its digits, with `-`
/// where it is negative, and a newline.
#[inline(always)]
fn put_line(bytes: &mut [u8], end: usize, token: i32) -> usize
    requires room { 12 ≤ end }
    requires within { end ≤ length bytes.old }
    ensures short { end ≤ result + 12 }
    ensures before { result ≤ end }
    ensures length { length bytes.new ≡ length bytes.old }
    ensures line { drop result bytes.new ≡ token_line token ++ drop end bytes.old }
{
    bytes[end - 1] = b'\n';
    let start = put_number(bytes, end - 1, token.unsigned_abs());
    if token < 0 {
        bytes[start - 1] = b'-';
        start - 1
    } else {
        start
    }
}

/// Writes the digits of a number before a place, and tells where they begin.
#[inline(always)]
fn put_number(bytes: &mut [u8], end: usize, number: u32) -> usize
    requires room { 10 ≤ end }
    requires within { end ≤ length bytes.old }
    ensures short { end ≤ result + 10 }
    ensures before { result ≤ end }
    ensures length { length bytes.new ≡ length bytes.old }
    ensures digits { drop result bytes.new ≡ decimal number ++ drop end bytes.old }
{
    let mut start = end;
    let mut rest = number;
    while rest >= 100 {
        start -= 2;
        put_pair(bytes, start, rest % 100);
        rest /= 100;
    }
    if rest >= 10 {
        put_pair(bytes, start - 2, rest);
        start - 2
    } else {
        bytes[start - 1] = b'0' + rest as u8;
        start - 1
    }
}

/// Writes the two digits of a number below a hundred at a place.
#[inline(always)]
fn put_pair(bytes: &mut [u8], at: usize, number: u32)
    requires small { number < 100 }
    requires within { at + 2 ≤ length bytes.old }
    ensures length { length bytes.new ≡ length bytes.old }
    ensures digits { drop at bytes.new
        ≡ (48 + number / 10) ∷ (48 + number % 10) ∷ drop (at + 2) bytes.old }
{
    let pair = 2 * number as usize;
    bytes[at] = PAIRS[pair];
    bytes[at + 1] = PAIRS[pair + 1];
}
