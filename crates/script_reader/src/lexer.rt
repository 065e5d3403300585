ghost use Rattle.std.specs.Prelude.{◌≡◌, ◌≤◌, ◌<◌, ◌+◌, ◌-◌, ◌^◌, ◌==◌, true, slice_index, IsUtf8, IfOk, MatchOption, length, drop, take};
ghost use Rattle.std.specs.List.{prefix_len, position_or_len, list_all};
ghost use Rattle.std.specs.Char.{is_ascii_digit, is_ascii_hexdigit};
ghost use Rattle.spec_script.specs.Identifiers as identifiers;
ghost use Rattle.base_texts.specs.Stops.{Gives};
ghost use Rattle.spec_script.specs.Tokens.{digit_value, number_in, two_sign, one_sign, sign_at, decimal_end, hex_end, starts_hex, decimal_at, hex_at, word_token, word_at, text_at, token_at, unquoted_at, read_tokens};

use crate::identifier::{is_identifier_continue, is_identifier_start, is_white};
use base_texts::{Name, NoMemory, Stop, Txt};
use spec_script::{BinOp, Cmp, Placed, ScriptFault, Token};
use std::alloc::Global;

/// The value of a digit, hexadecimal or not. 0 of other bytes.
fn value(c: u8) -> u8
    ensures value { result ≡ digit_value c }
    ensures small { result ≤ 15 }
{
    match c {
        b'0'..=b'9' => c - b'0',
        b'A'..=b'F' => c - b'A' + 10,
        b'a'..=b'f' => c - b'a' + 10,
        _ => 0,
    }
}

/// How many bytes at the front may be in an identifier.
#[tactic(auto, using(crate::proofs::Lexing::prefixes))]
fn rest_len(bytes: &[u8]) -> usize
    ensures value { result ≡ prefix_len identifiers.is_identifier_continue bytes.now }
    ensures within { result ≤ length bytes.now }
{
    bytes
        .iter()
        .take_while(|c| is_identifier_continue(**c))
        .count()
}

/// How many bytes at the front are decimal digits.
#[tactic(auto, using(crate::proofs::Lexing::prefixes))]
fn digits_len(bytes: &[u8]) -> usize
    ensures value { result ≡ prefix_len is_ascii_digit bytes.now }
    ensures within { result ≤ length bytes.now }
{
    bytes.iter().take_while(|c| c.is_ascii_digit()).count()
}

/// How many bytes at the front are hexadecimal digits.
#[tactic(auto, using(crate::proofs::Lexing::prefixes))]
fn hex_len(bytes: &[u8]) -> usize
    ensures value { result ≡ prefix_len is_ascii_hexdigit bytes.now }
    ensures within { result ≤ length bytes.now }
{
    bytes.iter().take_while(|c| c.is_ascii_hexdigit()).count()
}

/// The number that digits spell to this base. None where it is above `i64::MAX`.
fn number(digits: &[u8], base: u64) -> Option<i64>
    requires { (1 ≤ base) × (base ≤ 16) }
    ensures { result ≡ number_in base digits.now }
{
    let mut n: u64 = 0;
    'digits: for c in digits {
        let next = u128::from(n) * u128::from(base) + u128::from(value(*c));
        if next > i64::MAX as u128 {
            return None;
        }
        n = next as u64;
    }
    Some(n as i64)
}

/// The sign that these two bytes are, if they are one.
fn two_bytes(c: u8, d: u8) -> Option<Token>
    ensures { result ≡ two_sign c d }
{
    match (c, d) {
        (b':', b'=') => Some(Token::Creates),
        (b'+', b'=') => Some(Token::Changes(BinOp::Add)),
        (b'-', b'=') => Some(Token::Changes(BinOp::Sub)),
        (b'*', b'=') => Some(Token::Changes(BinOp::Mul)),
        (b'/', b'=') => Some(Token::Changes(BinOp::Div)),
        (b'&', b'&') => Some(Token::Operator(BinOp::And)),
        (b'|', b'|') => Some(Token::Operator(BinOp::Or)),
        (b'=', b'=') => Some(Token::Operator(BinOp::Compare(Cmp::Equal))),
        (b'!', b'=') => Some(Token::Operator(BinOp::Compare(Cmp::Differ))),
        (b'<', b'=') => Some(Token::Operator(BinOp::Compare(Cmp::AtMost))),
        (b'>', b'=') => Some(Token::Operator(BinOp::Compare(Cmp::AtLeast))),
        _ => None,
    }
}

/// The sign that this byte is, if it is one.
fn one_byte(c: u8) -> Option<Token>
    ensures { result ≡ one_sign c }
{
    match c {
        b'=' => Some(Token::Assigns),
        b'+' => Some(Token::Operator(BinOp::Add)),
        b'-' => Some(Token::Operator(BinOp::Sub)),
        b'*' => Some(Token::Operator(BinOp::Mul)),
        b'/' => Some(Token::Operator(BinOp::Div)),
        b'&' => Some(Token::Operator(BinOp::BitAnd)),
        b'|' => Some(Token::Operator(BinOp::BitOr)),
        b'^' => Some(Token::Operator(BinOp::BitXor)),
        b'<' => Some(Token::Operator(BinOp::Compare(Cmp::Less))),
        b'>' => Some(Token::Operator(BinOp::Compare(Cmp::More))),
        b'!' => Some(Token::Bang),
        b'~' => Some(Token::Tilde),
        b'?' => Some(Token::Question),
        b':' => Some(Token::Colon),
        b'(' => Some(Token::Open),
        b')' => Some(Token::Close),
        b';' => Some(Token::Semicolon),
        _ => None,
    }
}

/// The sign at the front, the longer one where there are two, and its length. The fault `Syntax` where
/// there is none.
fn sign(bytes: &[u8], place: u32) -> Result<(Token, usize), ScriptFault>
    ensures value { result ≡ sign_at place bytes.now }
    ensures len { IfOk result (λ found. (0 < found.1) × (found.1 ≤ length bytes.now)) }
{
    match bytes {
        [] => Err(ScriptFault::Syntax { place }),
        [c] => match one_byte(*c) {
            Some(token) => Ok((token, 1)),
            None => Err(ScriptFault::Syntax { place }),
        },
        [c, d, ..] => match two_bytes(*c, *d) {
            Some(token) => Ok((token, 2)),
            None => match one_byte(*c) {
                Some(token) => Ok((token, 1)),
                None => Err(ScriptFault::Syntax { place }),
            },
        },
    }
}

/// The fault of decimal digits that these bytes follow, if any.
fn fault_after_decimal(bytes: &[u8], place: u32) -> Option<ScriptFault>
    ensures { result ≡ decimal_end place bytes.now }
{
    let c = *bytes.first()?;
    if c == b'.' || c == b'e' || c == b'E' {
        return Some(ScriptFault::RealNumber { place });
    }
    if is_identifier_start(c) {
        return Some(ScriptFault::Syntax { place });
    }
    None
}

/// The fault of hexadecimal digits that these bytes follow, if any.
fn fault_after_hex(bytes: &[u8], place: u32) -> Option<ScriptFault>
    ensures { result ≡ hex_end place bytes.now }
{
    let c = *bytes.first()?;
    if is_identifier_start(c) {
        return Some(ScriptFault::Syntax { place });
    }
    None
}

/// The decimal number at the front, and its length. The fault `RealNumber`, `Syntax` or `NumberTooWide`
/// where it is none.
fn decimal(bytes: &[u8], place: u32) -> Result<(Token, usize), ScriptFault>
    ensures value { result ≡ decimal_at place bytes.now }
    ensures len { IfOk result (λ found. found.1 ≤ length bytes.now) }
{
    let len = digits_len(bytes);
    let (digits, following) = bytes.split_at(len);
    if let Some(fault) = fault_after_decimal(following, place) {
        return Err(fault);
    }
    match number(digits, 10) {
        Some(n) => Ok((Token::Number(n), len)),
        None => Err(ScriptFault::NumberTooWide { place }),
    }
}

/// The hexadecimal number of which these are the bytes after its `0x`, and its length with it. The fault
/// `Syntax` or `NumberTooWide` where it is none.
fn hexadecimal(bytes: &[u8], place: u32) -> Result<(Token, usize), ScriptFault>
    requires { length bytes.now < 2 ^ 32 }
    ensures value { result ≡ hex_at place bytes.now }
    ensures len { IfOk result (λ found. (0 < found.1) × (found.1 ≤ length bytes.now + 2)) }
{
    let len = hex_len(bytes);
    if len == 0 {
        return Err(ScriptFault::Syntax { place });
    }
    let (digits, following) = bytes.split_at(len);
    if let Some(fault) = fault_after_hex(following, place) {
        return Err(fault);
    }
    match number(digits, 16) {
        Some(n) => Ok((Token::Number(n), len + 2)),
        None => Err(ScriptFault::NumberTooWide { place }),
    }
}

/// Whether `0x` or `0X` stands at the front.
fn is_hex_mark(bytes: &[u8]) -> bool
    ensures { result ≡ starts_hex bytes.now }
{
    match bytes {
        [c, d, ..] => *c == b'0' && (*d == b'x' || *d == b'X'),
        _ => false,
    }
}

/// The token of a word: `true` and `false` are numbers. `NoMemory` where an allocation fails, as below.
fn word(alloc: Global, word: &[u8]) -> Result<Token, NoMemory>
    requires { list_all identifiers.is_identifier_continue word.now ≡ true }
    ensures { IfOk result (λ token. token ≡ word_token word.now) }
{
    if word == b"true".as_slice() {
        return Ok(Token::Number(1));
    }
    if word == b"false".as_slice() {
        return Ok(Token::Number(0));
    }
    let name = Name::copied(alloc, word)?;
    Ok(Token::Word(name))
}

/// How many bytes stand before the first single quote.
#[tactic(auto, using(crate::proofs::Lexing::prefixes))]
fn quote_place(bytes: &[u8]) -> usize
    ensures value { result ≡ position_or_len (λ c. c == 39) bytes.now }
    ensures within { result ≤ length bytes.now }
{
    bytes.iter().take_while(|c| **c != 39).count()
}

/// The text in single quotes of which the first stands at this place, and its length with them. The
/// fault `Syntax` where there is no second quote.
fn quoted(alloc: Global, text: &[u8], at: usize) -> Result<(Token, usize), Stop<ScriptFault>>
    requires utf8 { IsUtf8 text.now }
    requires short { length text.now ≤ 4096 }
    requires inside { at < length text.now }
    requires quote { slice_index text.now at ≡ 39 }
    ensures value { Gives result (text_at at (drop (at + 1) text.now)) }
    ensures len { IfOk result (λ found. (0 < found.1) × (at + found.1 ≤ length text.now)) }
{
    let following = &text[at + 1..];
    let len = quote_place(following);
    if len == following.len() {
        return Err(Stop::Fault(ScriptFault::Syntax { place: at as u32 }));
    }
    let body = Txt::of(Vec::from_slice(alloc, &following[..len])?)?;
    Ok((Token::Text(body), len + 2))
}

/// The number or the sign at the front, and its length, or its fault.
fn unquoted(bytes: &[u8], place: u32) -> Result<(Token, usize), ScriptFault>
    requires { (0 < length bytes.now) × (length bytes.now ≤ 4096) }
    ensures value { result ≡ unquoted_at place bytes.now }
    ensures len { IfOk result (λ found. (0 < found.1) × (found.1 ≤ length bytes.now)) }
{
    if !bytes[0].is_ascii_digit() {
        return sign(bytes, place);
    }
    if is_hex_mark(bytes) {
        return hexadecimal(&bytes[2..], place);
    }
    decimal(bytes, place)
}

/// The token that begins at this place, and its length, or its fault.
fn token(alloc: Global, text: &[u8], at: usize) -> Result<(Token, usize), Stop<ScriptFault>>
    requires utf8 { IsUtf8 text.now }
    requires short { length text.now ≤ 4096 }
    requires inside { at < length text.now }
    ensures value { Gives result (token_at at (drop at text.now)) }
    ensures len { IfOk result (λ found. (0 < found.1) × (at + found.1 ≤ length text.now)) }
{
    let bytes = &text[at..];
    let c = text[at];
    let place = at as u32;
    if is_identifier_start(c) {
        let len = rest_len(bytes);
        return Ok((word(alloc, &bytes[..len])?, len));
    }
    if c == b'\'' {
        return quoted(alloc, text, at);
    }
    match unquoted(bytes, place) {
        Ok(found) => Ok(found),
        Err(fault) => Err(Stop::Fault(fault)),
    }
}

/// The tokens of a text, and the fault that ends them, if any.
#[derive(Debug, Drop)]
pub struct Lexed {
    pub tokens: Vec<Placed>,
    pub fault: Option<ScriptFault>,
}

/// The tokens of a text, up to its first fault. `NoMemory` where an allocation fails.
pub fn read(alloc: Global, text: &[u8]) -> Result<Lexed, NoMemory>
    requires utf8 { IsUtf8 text.now }
    requires short { length text.now ≤ 4096 }
    ensures tokens { IfOk result (λ read. read.tokens.items ≡ (read_tokens 0 0 text.now).tokens) }
    ensures fault { IfOk result (λ read. read.fault ≡ (read_tokens 0 0 text.now).fault) }
    ensures few { IfOk result (λ read. length read.tokens.items ≤ length text.now) }
{
    let mut tokens = Vec::new(alloc);
    let mut at = 0;
    while at < text.len() {
        if is_white(text[at]) {
            at += 1;
        } else {
            match token(alloc, text, at) {
                Ok((token, len)) => {
                    let place = at as u32;
                    tokens.push(Placed { token, place })?;
                    at += len;
                }
                Err(Stop::Fault(fault)) => {
                    let fault = Some(fault);
                    return Ok(Lexed { tokens, fault });
                }
                Err(Stop::NoMemory) => return Err(NoMemory),
            }
        }
    }
    Ok(Lexed {
        tokens,
        fault: None,
    })
}
