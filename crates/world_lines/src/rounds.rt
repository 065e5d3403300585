ghost use Rattle.std.specs.Prelude.{◌≡◌, ◌+◌, ◌<◌, ◌≤◌, IfOk, IfSome, length, map, option_map, slice_get};
ghost use Rattle.spec_world_file.specs.WorldFile as file;
ghost use Rattle.spec_world_file.specs.WorldFile.{part_in, words_in};
ghost use Rattle.world_lines.specs.Written.{PartFound, seen_part};

use crate::gaps::words;
use crate::lines::is;
use crate::values::Numeral;
use base_tables::is_canonical;
use base_texts::NoMemory;
use std::alloc::Global;

/// What happens to a runner in each round of a line of rounds, as it is written.
#[derive(Clone, Copy)]
pub enum WrittenPart<'a> {
    Tick(Numeral<'a>),
    Halt(Numeral<'a>),
}

/// The part that two words are, `tick R` or `halt R`. None where they are none.
fn part<'a>(verb: &[u8], runner: &'a [u8]) -> Option<WrittenPart<'a>>
    ensures { option_map seen_part result ≡ part_in verb.now runner.now }
{
    if !is_canonical(runner) {
        None
    } else if is(verb, "tick") {
        Some(WrittenPart::Tick(Numeral::of(runner)))
    } else if is(verb, "halt") {
        Some(WrittenPart::Halt(Numeral::of(runner)))
    } else {
        None
    }
}

/// The word at a place. None where there are no more words.
fn word_at<'a>(words: &[&'a [u8]], place: usize) -> Option<&'a [u8]>
    ensures { option_map (λ word. word.now) result ≡ slice_get (map (λ word. word.now) words.now) place }
{
    words.get(place).copied()
}

/// The part that the words at a place and after it are. None where they are none.
fn part_at<'a>(words: &[&'a [u8]], place: usize) -> Option<WrittenPart<'a>>
    requires { place < length words.now }
    ensures found { PartFound (map (λ word. word.now) words.now) place (option_map seen_part result) }
    ensures within { IfSome result (λ part. place + 2 ≤ length words.now) }
{
    let Some(verb) = word_at(words, place) else {
        return None;
    };
    let Some(runner) = word_at(words, place + 1) else {
        return None;
    };
    part(verb, runner)
}

/// The parts that the words are, two words each. None where they are of no such form.
fn parts_of<'a>(alloc: Global, words: &[&'a [u8]]) -> Result<Option<Vec<WrittenPart<'a>>>, NoMemory>
    ensures { IfOk result (λ parts. option_map (λ v. map seen_part v.items) parts ≡ file.parts_in (map (λ word. word.now) words.now)) }
{
    let mut parts = Vec::new(alloc);
    let mut place = 0;
    'parts: while place < words.len() {
        match part_at(words, place) {
            Some(part) => parts.push(part)?,
            None => return Ok(None),
        }
        place += 2;
    }
    Ok(Some(parts))
}

/// The parts that the text is, with gaps between their words. None where it is not of that form.
pub fn parts_in(alloc: Global, text: &[u8]) -> Result<Option<Vec<WrittenPart>>, NoMemory>
    ensures { IfOk result (λ parts. option_map (λ v. map seen_part v.items) parts ≡ file.parts_in (words_in text.now)) }
{
    let words = words(alloc, text)?;
    parts_of(alloc, words.as_slice())
}
