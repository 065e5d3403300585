ghost use Rattle.std.specs.Prelude.{◌≡◌};
ghost use Rattle.spec_world_file.specs.Blocks as blocks;
ghost use Rattle.spec_world_file.specs.Blocks.{after_marks, begins_with};
ghost use Rattle.spec_world_file.specs.GroundFile as file;

use spec_world_file::OpenBlock;
use std::collections::VecDeque;

/// Whether the byte may be a variable: an upper-case letter.
pub fn is_variable(byte: u8) -> bool
    ensures { result ≡ blocks.is_variable byte }
{
    byte >= b'A' && byte <= b'Z'
}

/// Whether the byte is `$` or `#`.
pub fn is_mark(byte: u8) -> bool
    ensures { result ≡ blocks.is_mark byte }
{
    byte == b'$' || byte == b'#'
}

/// The variable that the word is. None where it is none.
pub fn variable_in(word: &[u8]) -> Option<u8>
    ensures { result ≡ file.variable_in word.now }
{
    match word {
        [byte] if is_variable(*byte) => Some(*byte),
        _ => None,
    }
}

/// Whether a block of this variable is open.
pub fn is_open(blocks: &VecDeque<OpenBlock>, variable: u8) -> bool
    ensures { result ≡ file.is_open blocks.now.items variable }
{
    blocks.iter().any(|block| block.variable == variable)
}

/// Whether the text begins with a variable.
fn begins_with_variable(text: &[u8]) -> bool
    ensures { result ≡ begins_with blocks.is_variable text.now }
{
    match text {
        [byte, ..] => is_variable(*byte),
        [] => false,
    }
}

/// Whether the text begins with the variable of an open block.
fn begins_with_open(blocks: &VecDeque<OpenBlock>, text: &[u8]) -> bool
    ensures { result ≡ begins_with (file.is_open blocks.now.items) text.now }
{
    match text {
        [byte, ..] => is_open(blocks, *byte),
        [] => false,
    }
}

/// Whether a variable follows each mark of the text.
pub fn has_variables(text: &[u8]) -> bool
    ensures { result ≡ after_marks blocks.is_variable text.now }
{
    let mut rest = text;
    'bytes: while let [byte, follow @ ..] = rest {
        if is_mark(*byte) && !begins_with_variable(follow) {
            return false;
        }
        rest = follow;
    }
    true
}

/// Whether the variable of an open block follows each mark of the text.
pub fn has_open_variables(blocks: &VecDeque<OpenBlock>, text: &[u8]) -> bool
    ensures { result ≡ after_marks (file.is_open blocks.now.items) text.now }
{
    let mut rest = text;
    'bytes: while let [byte, follow @ ..] = rest {
        if is_mark(*byte) && !begins_with_open(blocks, follow) {
            return false;
        }
        rest = follow;
    }
    true
}
