ghost use Rattle.std.specs.Prelude.{◌≡◌, map, IfOk};
ghost use Rattle.std.specs.List.{slice_split};
ghost use Rattle.spec_world_file.specs.WorldFile.{is_gap, words_in};

use base_texts::NoMemory;
use std::alloc::{AllocError, Global};

/// What stands between blanks and tabs, which may be nothing. `AllocError` where an allocation fails.
fn pieces(alloc: Global, text: &[u8]) -> Result<Vec<&[u8]>, AllocError>
    ensures { IfOk result (λ v. map (λ piece. piece.now) v.items ≡ slice_split is_gap text.now) }
{
    text.split(|b| *b == b' ' || *b == b'\t').collect(alloc)
}

/// The words of the text.
pub fn words(alloc: Global, text: &[u8]) -> Result<Vec<&[u8]>, NoMemory>
    ensures { IfOk result (λ v. map (λ word. word.now) v.items ≡ words_in text.now) }
{
    let pieces = pieces(alloc, text)?;
    let mut words = Vec::new(alloc);
    for piece in pieces.as_slice() {
        if !piece.is_empty() {
            words.push(*piece)?;
        }
    }
    Ok(words)
}
