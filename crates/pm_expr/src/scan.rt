//! The characters of a text.
ghost use Rattle.std.specs.Prelude.{◌≡◌, ◌≤◌, ◌<◌, [], length, drop, false, Some, slice_index, slice_range};
ghost use Rattle.pm_expr.specs.Tokens.{is_blank as blank, is_digit as digit, between, in_run, inside_after as inside_next, sign as sign_token, tokens_from, completed, number_of, digit_more};
ghost use Rattle.pm_expr.specs.Views.{token_of};

use crate::tokens::Token;

/// Where the blanks that begin here end.
pub(crate) fn skip_blanks(text: &[u8], at: usize, inside: bool) -> usize
    requires { at ≤ length text.now }
    ensures order { at ≤ result }
    ensures within { result ≤ length text.now }
    ensures same { tokens_from inside at [] (drop at text.now) ≡ tokens_from inside result [] (drop result text.now) }
    ensures stops { result < length text.now → blank (slice_index text.now result) ≡ false }
{
    let mut end = at;
    while end < text.len() && is_blank(text[end]) {
        end += 1;
    }
    end
}

/// Where the run that begins here ends.
pub(crate) fn run_end(text: &[u8], at: usize, inside: bool) -> usize
    requires { at ≤ length text.now }
    ensures order { at ≤ result }
    ensures within { result ≤ length text.now }
    ensures same { tokens_from inside at [] (drop at text.now) ≡ completed inside at (slice_range text.now at result) (tokens_from inside result [] (drop result text.now)) }
    ensures stops { result < length text.now → in_run inside (slice_index text.now result) ≡ false }
{
    let mut end = at;
    while end < text.len() && is_in_run(text[end], inside) {
        end += 1;
    }
    end
}

/// Whether what comes after this character is inside braces.
pub(crate) fn inside_after(byte: u8, inside: bool) -> bool
    ensures { result ≡ inside_next inside byte }
{
    if byte == b'{' {
        true
    } else if byte == b'}' {
        false
    } else {
        inside
    }
}

fn is_blank(byte: u8) -> bool
    ensures { result ≡ blank byte }
{
    byte == b' ' || byte == b'\t' || byte == b'\n' || byte == b'\r'
}

fn is_in_run(byte: u8, inside: bool) -> bool
    ensures { result ≡ in_run inside byte }
{
    if inside {
        is_digit(byte)
    } else {
        is_digit(byte) || (is_capital(byte) || (is_small(byte) || byte == b'_'))
    }
}

fn is_digit(byte: u8) -> bool
    ensures { result ≡ digit byte }
{
    48 <= byte && byte <= 57
}

fn is_capital(byte: u8) -> bool
    ensures { result ≡ between 65 90 byte }
{
    65 <= byte && byte <= 90
}

fn is_small(byte: u8) -> bool
    ensures { result ≡ between 97 122 byte }
{
    97 <= byte && byte <= 122
}

/// The token of a character that is in no run and no blank.
pub(crate) fn sign<'a>(at: usize, byte: u8) -> Token<'a>
    requires { blank byte ≡ false }
    ensures { sign_token at byte ≡ Some (token_of result) }
{
    match byte {
        b'(' => Token::Bracket { at },
        b')' => Token::EndBracket { at },
        b'|' => Token::Bar { at },
        b'+' => Token::Plus { at },
        b'*' => Token::Star { at },
        b'?' => Token::Query { at },
        b'{' => Token::Brace { at },
        b'}' => Token::EndBrace { at },
        b',' => Token::Comma { at },
        _ => Token::Stray { at },
    }
}

/// The number that the digits write, or 65 where it is greater.
pub(crate) fn number(digits: &[u8]) -> u32
    ensures { result ≡ number_of digits.now }
{
    let mut value = 0;
    for digit in digits {
        value = more(value, *digit);
    }
    value
}

fn more(value: u32, digit: u8) -> u32
    requires { value ≤ 65 }
    ensures value { result ≡ digit_more value digit }
    ensures small { result ≤ 65 }
{
    let next = value * 10 + u32::from(digit.saturating_sub(48));
    next.min(65)
}
