ghost use Rattle.std.specs.Prelude.{◌≡◌};
ghost use Rattle.std.specs.List.{list_all};
ghost use Rattle.spec_script.specs.Identifiers as identifiers;

/// Whether the byte is white space: a blank, a tab, a line feed or a carriage return.
pub fn is_white(c: u8) -> bool
    ensures { result ≡ identifiers.is_white c }
{
    c == b' ' || c == b'\t' || c == b'\n' || c == b'\r'
}

/// Whether an identifier may begin with the byte: an ASCII letter or `_`.
pub fn is_identifier_start(c: u8) -> bool
    ensures { result ≡ identifiers.is_identifier_start c }
{
    c.is_ascii_alphabetic() || c == b'_'
}

/// Whether an identifier may go on with the byte: an ASCII letter, a digit or `_`.
pub fn is_identifier_continue(c: u8) -> bool
    ensures { result ≡ identifiers.is_identifier_continue c }
{
    is_identifier_start(c) || c.is_ascii_digit()
}

/// Whether an identifier may go on with each of the bytes.
fn all_continue(bytes: &[u8]) -> bool
    ensures { result ≡ list_all identifiers.is_identifier_continue bytes.now }
{
    bytes.iter().all(|c| is_identifier_continue(*c))
}

/// Whether the bytes are an identifier: a letter or `_`, and then letters, digits and `_`.
pub fn is_identifier(bytes: &[u8]) -> bool
    ensures { result ≡ identifiers.is_identifier bytes.now }
{
    match bytes.first() {
        Some(c) => is_identifier_start(*c) && all_continue(bytes),
        None => false,
    }
}
