ghost use Rattle.std.specs.Prelude.{◌≡◌, ◌≤◌, ◌<◌, ◌==◌, ◌&&◌, ◌||◌, true, not, IfOk, IsUtf8, length, take, drop};
ghost use Rattle.std.specs.Char.{is_ascii};
ghost use Rattle.std.specs.List.{prefix_len, list_all, list_any};
ghost use Rattle.std.specs.Str.{bytes_eq};
ghost use Rattle.spec_script.specs.Identifiers as identifiers;
ghost use Rattle.spec_tree_file.specs.Marks.{is_name_first, is_name_rest, is_quote, is_value_byte, instruction_end, comment_end, no_name_twice};
ghost use Rattle.spec_tree_file.specs.Elements.{is_text_byte};
ghost use Rattle.tree_elements.specs.Reading.{Scans, after_white, begins, following, following_first, name_of, value_after, value_of, attribute_of, attribute_begins, attributes_of, front_of, closing, opening_of, end_of, aside_of, comment_of, mark_of, text_len};

use crate::mark::{Front, Mark, NoMark};
use crate::reference::decode;
use crate::spread::are_spread;
use base_texts::{Items, Name, NoMemory, Stop};
use indexmap::IndexSet;
use memchr::{memchr2, memchr3};
use script_reader::{is_identifier_start, is_white};
use std::alloc::Global;
use std::collections::BTreeSet;

/// Whether a name may begin with the byte.
fn name_first(c: u8) -> bool
    ensures { result ≡ is_name_first c }
{
    is_identifier_start(c) || c >= 128
}

/// Whether a name may have the byte after its first.
fn name_rest(c: u8) -> bool
    ensures { result ≡ is_name_rest c }
{
    match c {
        b'a'..=b'z' | b'A'..=b'Z' | b'0'..=b'9' | b'_' | b'-' | b'.' | b':' | 128..=255 => true,
        _ => false,
    }
}

/// Whether the byte is `"` or `'`.
fn quote(c: u8) -> bool
    ensures { result ≡ is_quote c }
{
    c == b'"' || c == b'\''
}

/// Whether the byte may stand in a value between two such quotes.
fn value_byte(quote: u8, c: u8) -> bool
    ensures { result ≡ is_value_byte quote c }
{
    !(c == quote || c == b'<' || c == 0)
}

/// Whether all bytes are white space.
pub fn all_white(bytes: &[u8]) -> bool
    ensures { result ≡ list_all identifiers.is_white bytes.now }
{
    bytes.iter().all(|c| is_white(*c))
}

/// How many bytes of white space stand at the front.
#[tactic(auto, using(crate::proofs::Prefixes::prefixes))]
pub fn white_len(bytes: &[u8]) -> usize
    ensures value { result ≡ prefix_len identifiers.is_white bytes.now }
    ensures within { result ≤ length bytes.now }
{
    bytes.iter().take_while(|c| is_white(**c)).count()
}

/// How many bytes at the front may stand in a name.
#[tactic(auto, using(crate::proofs::Prefixes::prefixes))]
fn name_len(bytes: &[u8]) -> usize
    ensures value { result ≡ prefix_len is_name_rest bytes.now }
    ensures within { result ≤ length bytes.now }
{
    bytes.iter().take_while(|c| name_rest(**c)).count()
}

/// How many bytes at the front may stand in a value between two such quotes.
#[tactic(auto, using(crate::proofs::Prefixes::prefixes))]
fn value_len(quote: u8, bytes: &[u8]) -> usize
    ensures value { result ≡ prefix_len (is_value_byte quote) bytes.now }
    ensures within { result ≤ length bytes.now }
{
    memchr3(quote, b'<', 0, bytes).unwrap_or(bytes.len())
}

/// Whether the byte is not `<`.
fn text_byte(c: u8) -> bool
    ensures { result ≡ is_text_byte c }
{
    c != b'<'
}

/// How many bytes stand before the first `<`.
#[tactic(auto, using(crate::proofs::Prefixes::prefixes))]
fn text_length(bytes: &[u8]) -> usize
    ensures value { result ≡ text_len bytes.now }
    ensures within { result ≤ length bytes.now }
{
    bytes.iter().take_while(|c| text_byte(**c)).count()
}

/// The text at the front, up to the first `<`, and what follows it.
pub fn text_at(bytes: &[u8]) -> (&[u8], &[u8])
    requires { IsUtf8 bytes.now }
    ensures text { result.0.now ≡ take (text_len bytes.now) bytes.now }
    ensures rest { result.1.now ≡ drop (text_len bytes.now) bytes.now }
    ensures utf8 { IsUtf8 result.1.now }
{
    bytes.split_at(text_length(bytes))
}

/// What follows the white space at the front.
fn white_at(bytes: &[u8]) -> &[u8]
    requires { IsUtf8 bytes.now }
    ensures rest { result.now ≡ after_white bytes.now }
    ensures within { length result.now ≤ length bytes.now }
    ensures utf8 { IsUtf8 result.now }
{
    let (_, rest) = bytes.split_at(white_len(bytes));
    rest
}

/// What follows this byte at the front. `NoMark`, here and below, where what is asked for does not stand there.
fn byte_at(bytes: &[u8], c: u8) -> Result<&[u8], Stop<NoMark>>
    requires utf8 { IsUtf8 bytes.now }
    requires ascii { c < 128 }
    ensures read { Scans (λ rest. rest.now) result (following c bytes.now) }
    ensures within { IfOk result (λ rest. length rest.now < length bytes.now) }
    ensures utf8 { IfOk result (λ rest. IsUtf8 rest.now) }
{
    let Some((b, rest)) = bytes.split_first() else {
        return Err(Stop::Fault(NoMark));
    };
    if *b != c {
        return Err(Stop::Fault(NoMark));
    }
    Ok(rest)
}

/// Whether white space stands at the front.
fn begins_white(bytes: &[u8]) -> bool
    ensures { result ≡ begins identifiers.is_white bytes.now }
{
    match bytes.first() {
        Some(c) => is_white(*c),
        None => false,
    }
}

/// Whether a name begins at the front.
fn begins_name(bytes: &[u8]) -> bool
    ensures { result ≡ begins is_name_first bytes.now }
{
    match bytes.first() {
        Some(c) => name_first(*c),
        None => false,
    }
}

/// The name at the front, and what follows it.
#[inline(always)]
fn name_at(alloc: Global, bytes: &[u8]) -> Result<(Name, &[u8]), Stop<NoMark>>
    requires { IsUtf8 bytes.now }
    ensures read { Scans (λ x. (x.0, x.1.now)) result (name_of bytes.now) }
    ensures within { IfOk result (λ x. length x.1.now ≤ length bytes.now) }
    ensures utf8 { IfOk result (λ x. IsUtf8 x.1.now) }
{
    if !begins_name(bytes) {
        return Err(Stop::Fault(NoMark));
    }
    let (name, rest) = bytes.split_at(name_len(bytes));
    let name = Name::copied(alloc, name)?;
    Ok((name, rest))
}

/// What the value says that comes after this quote, and what follows it.
fn value_after(alloc: Global, quote: u8, bytes: &[u8]) -> Result<(Name, &[u8]), Stop<NoMark>>
    requires utf8 { IsUtf8 bytes.now }
    requires ascii { quote < 128 }
    ensures read { Scans (λ x. (x.0, x.1.now)) result (value_after quote bytes.now) }
    ensures within { IfOk result (λ x. length x.1.now < length bytes.now) }
    ensures utf8 { IfOk result (λ x. IsUtf8 x.1.now) }
{
    let (value, rest) = bytes.split_at(value_len(quote, bytes));
    let rest = byte_at(rest, quote)?;
    let value = decode(alloc, value)?;
    Ok((value, rest))
}

/// What the quoted value at the front says, and what follows it.
fn value_at(alloc: Global, bytes: &[u8]) -> Result<(Name, &[u8]), Stop<NoMark>>
    requires { IsUtf8 bytes.now }
    ensures read { Scans (λ x. (x.0, x.1.now)) result (value_of bytes.now) }
    ensures within { IfOk result (λ x. length x.1.now < length bytes.now) }
    ensures utf8 { IfOk result (λ x. IsUtf8 x.1.now) }
{
    let Some((c, rest)) = bytes.split_first() else {
        return Err(Stop::Fault(NoMark));
    };
    if !quote(*c) {
        return Err(Stop::Fault(NoMark));
    }
    value_after(alloc, *c, rest)
}

/// The attribute at the front, and what follows it.
fn attribute_at(alloc: Global, bytes: &[u8]) -> Result<((Name, Name), &[u8]), Stop<NoMark>>
    requires { IsUtf8 bytes.now }
    ensures read { Scans (λ x. (x.0, x.1.now)) result (attribute_of bytes.now) }
    ensures within { IfOk result (λ x. length x.1.now < length bytes.now) }
    ensures utf8 { IfOk result (λ x. IsUtf8 x.1.now) }
{
    let (name, rest) = name_at(alloc, bytes)?;
    let rest = byte_at(white_at(rest), b'=')?;
    let (value, rest) = value_at(alloc, white_at(rest))?;
    Ok(((name, value), rest))
}

/// Whether white space stands at the front, and then a name.
fn begins_attribute(bytes: &[u8]) -> bool
    requires { IsUtf8 bytes.now }
    ensures { result ≡ attribute_begins bytes.now }
{
    begins_white(bytes) && begins_name(white_at(bytes))
}

/// The attributes at the front, each with white space before it, and what follows them.
fn attributes_at(alloc: Global, bytes: &[u8]) -> Result<(Items<(Name, Name)>, &[u8]), Stop<NoMark>>
    requires { IsUtf8 bytes.now }
    ensures read { Scans (λ x. (x.0, x.1.now)) result (attributes_of (length bytes.now) bytes.now) }
    ensures within { IfOk result (λ x. length x.1.now ≤ length bytes.now) }
    ensures utf8 { IfOk result (λ x. IsUtf8 x.1.now) }
{
    let mut attributes = Vec::new(alloc);
    let mut rest = bytes;
    'attributes: while begins_attribute(rest) {
        let (attribute, next) = attribute_at(alloc, white_at(rest))?;
        attributes.push(attribute)?;
        rest = next;
    }
    Ok((Items::of(attributes), rest))
}

/// Whether one of the attributes has this name.
fn has_name(attributes: &[(Name, Name)], name: &Name) -> bool
    ensures { result ≡ list_any (λ a. bytes_eq a.0 name.now) attributes.now }
{
    attributes.iter().any(|(other, _)| other == name)
}

/// Whether no name of a few attributes occurs twice. Each is compared with those after it.
#[tactic(auto, using(crate::proofs::FewNames::few_names))]
fn few_single_names(attributes: &[(Name, Name)]) -> bool
    ensures { result ≡ no_name_twice attributes.now }
{
    let mut rest = attributes;
    'names: loop {
        let Some((first, more)) = rest.split_first() else {
            return true;
        };
        if has_name(more, &first.0) {
            return false;
        }
        rest = more;
    }
}

/// Up to so many attributes it costs least to compare each name with all that come after it.
const FEW_NAMES: usize = 8;

/// Whether no name of many attributes occurs twice, by a table of their hashes.
fn single_by_hashes(alloc: Global, attributes: &[(Name, Name)]) -> Result<bool, NoMemory>
    ensures { IfOk result (λ single. single ≡ no_name_twice attributes.now) }
{
    let mut names = IndexSet::with_capacity(alloc, attributes.len())?;
    for (name, _) in attributes {
        if !names.insert(name.list())? {
            return Ok(false);
        }
    }
    Ok(true)
}

/// Whether no name of many attributes occurs twice, by the order of their bytes.
fn single_by_order(alloc: Global, attributes: &[(Name, Name)]) -> Result<bool, NoMemory>
    ensures { IfOk result (λ single. single ≡ no_name_twice attributes.now) }
{
    let mut ordered = BTreeSet::new(alloc);
    for (name, _) in attributes {
        if !ordered.insert(name.list())? {
            return Ok(false);
        }
    }
    Ok(true)
}

/// Whether no attribute's name occurs twice. `NoMemory` where an allocation fails.
pub fn single_names(alloc: Global, attributes: &[(Name, Name)]) -> Result<bool, NoMemory>
    ensures { IfOk result (λ single. single ≡ no_name_twice attributes.now) }
{
    if attributes.len() <= FEW_NAMES {
        return Ok(few_single_names(attributes));
    }
    if are_spread(attributes) {
        single_by_hashes(alloc, attributes)
    } else {
        single_by_order(alloc, attributes)
    }
}

/// A start mark or an empty mark after its `<`, up to its end, and what follows.
fn front_at(alloc: Global, bytes: &[u8]) -> Result<(Front, &[u8]), Stop<NoMark>>
    requires { IsUtf8 bytes.now }
    ensures read { Scans (λ x. (x.0, x.1.now)) result (front_of bytes.now) }
    ensures within { IfOk result (λ x. length x.1.now ≤ length bytes.now) }
    ensures utf8 { IfOk result (λ x. IsUtf8 x.1.now) }
{
    let (name, rest) = name_at(alloc, bytes)?;
    let (attributes, rest) = attributes_at(alloc, rest)?;
    Ok((Front { name, attributes }, white_at(rest)))
}

/// The end of a start mark or of an empty mark, with that mark, and what follows it.
fn closing_at(front: Front, bytes: &[u8]) -> Result<(Mark, &[u8]), Stop<NoMark>>
    requires { IsUtf8 bytes.now }
    ensures read { Scans (λ x. (x.0, x.1.now)) result (closing front bytes.now) }
    ensures within { IfOk result (λ x. length x.1.now ≤ length bytes.now) }
    ensures utf8 { IfOk result (λ x. IsUtf8 x.1.now) }
{
    let Some((c, rest)) = bytes.split_first() else {
        return Err(Stop::Fault(NoMark));
    };
    if *c == b'>' {
        return Ok((Mark::Start(front), rest));
    }
    if *c != b'/' {
        return Err(Stop::Fault(NoMark));
    }
    let rest = byte_at(rest, b'>')?;
    Ok((Mark::Empty(front), rest))
}

/// A start mark or an empty mark after its `<`, and what follows it.
fn opening_at(alloc: Global, bytes: &[u8]) -> Result<(Mark, &[u8]), Stop<NoMark>>
    requires { IsUtf8 bytes.now }
    ensures read { Scans (λ x. (x.0, x.1.now)) result (opening_of bytes.now) }
    ensures within { IfOk result (λ x. length x.1.now ≤ length bytes.now) }
    ensures utf8 { IfOk result (λ x. IsUtf8 x.1.now) }
{
    let (front, rest) = front_at(alloc, bytes)?;
    closing_at(front, rest)
}

/// An end mark after its `</`, and what follows it.
fn end_at(alloc: Global, bytes: &[u8]) -> Result<(Mark, &[u8]), Stop<NoMark>>
    requires { IsUtf8 bytes.now }
    ensures read { Scans (λ x. (x.0, x.1.now)) result (end_of bytes.now) }
    ensures within { IfOk result (λ x. length x.1.now ≤ length bytes.now) }
    ensures utf8 { IfOk result (λ x. IsUtf8 x.1.now) }
{
    let (name, rest) = name_at(alloc, bytes)?;
    let rest = byte_at(white_at(rest), b'>')?;
    Ok((Mark::End(name), rest))
}

/// Whether the byte is neither 0 nor this one, with which the ending begins.
fn passed_byte(first: u8, c: u8) -> bool
    ensures { result ≡ not (c == first || c == 0) }
{
    !(c == first || c == 0)
}

/// How many bytes come before the first 0 or first byte of the ending, where they are few.
#[tactic(auto, using(crate::proofs::Prefixes::prefixes))]
fn passed_near(first: u8, bytes: &[u8]) -> usize
    ensures value { result ≡ prefix_len (λ c. not (c == first || c == 0)) bytes.now }
    ensures within { result ≤ length bytes.now }
{
    bytes.iter().take_while(|c| passed_byte(first, **c)).count()
}

/// How many bytes come before the first 0 or first byte of the ending, where they are many.
#[inline(never)]
fn passed_far(first: u8, bytes: &[u8]) -> usize
    ensures value { result ≡ prefix_len (λ c. not (c == first || c == 0)) bytes.now }
    ensures within { result ≤ length bytes.now }
{
    memchr2(first, 0, bytes).unwrap_or(bytes.len())
}

/// Up to so many bytes it costs least to look at each.
const FEW_BYTES: usize = 8;

/// How many bytes come before the first 0 or byte with which the ending begins.
fn passed_len(first: u8, bytes: &[u8]) -> usize
    ensures value { result ≡ prefix_len (λ c. not (c == first || c == 0)) bytes.now }
    ensures within { result ≤ length bytes.now }
{
    let (few, more) = bytes.split_at(bytes.len().min(FEW_BYTES));
    let len = passed_near(first, few);
    if len < few.len() {
        return len;
    }
    len + passed_far(first, more)
}

/// The bytes from the first one on that is 0 or with which the ending may begin.
fn skipped<'a>(bytes: &'a [u8], ending: &[u8]) -> &'a [u8]
    requires { 0 < length ending.now }
    ensures read { following_first ending.now result.now ≡ following_first ending.now bytes.now }
    ensures within { length result.now ≤ length bytes.now }
{
    let (_, rest) = bytes.split_at(passed_len(ending[0], bytes));
    rest
}

/// What follows the first such ending. `NoMark` where there is none, or a byte 0 comes before it.
fn ending_at<'a>(bytes: &'a [u8], ending: &[u8]) -> Result<&'a [u8], Stop<NoMark>>
    requires utf8 { IsUtf8 bytes.now }
    requires some { 0 < length ending.now }
    requires ascii { list_all is_ascii ending.now ≡ true }
    ensures read { Scans (λ rest. rest.now) result (following_first ending.now bytes.now) }
    ensures within { IfOk result (λ rest. length rest.now ≤ length bytes.now) }
    ensures utf8 { IfOk result (λ rest. IsUtf8 rest.now) }
{
    let mut rest = bytes;
    'body: loop {
        let found = skipped(rest, ending);
        if found.starts_with(ending) {
            let (_, following) = found.split_at(ending.len());
            return Ok(following);
        }
        let Some((c, more)) = found.split_first() else {
            return Err(Stop::Fault(NoMark));
        };
        if *c == 0 {
            return Err(Stop::Fault(NoMark));
        }
        rest = more;
    }
}

/// An instruction after its `<?`, and what follows it.
fn instruction_at(bytes: &[u8]) -> Result<(Mark, &[u8]), Stop<NoMark>>
    requires { IsUtf8 bytes.now }
    ensures read { Scans (λ x. (x.0, x.1.now)) result (aside_of instruction_end bytes.now) }
    ensures within { IfOk result (λ x. length x.1.now ≤ length bytes.now) }
    ensures utf8 { IfOk result (λ x. IsUtf8 x.1.now) }
{
    let rest = ending_at(bytes, b"?>")?;
    Ok((Mark::Aside, rest))
}

/// A comment after its `<!`, and what follows it.
fn comment_at(bytes: &[u8]) -> Result<(Mark, &[u8]), Stop<NoMark>>
    requires { IsUtf8 bytes.now }
    ensures read { Scans (λ x. (x.0, x.1.now)) result (comment_of bytes.now) }
    ensures within { IfOk result (λ x. length x.1.now ≤ length bytes.now) }
    ensures utf8 { IfOk result (λ x. IsUtf8 x.1.now) }
{
    let rest = byte_at(bytes, b'-')?;
    let rest = byte_at(rest, b'-')?;
    let rest = ending_at(rest, b"-->")?;
    Ok((Mark::Aside, rest))
}

/// The mark after its `<`, and what follows it.
pub fn next_mark(alloc: Global, bytes: &[u8]) -> Result<(Mark, &[u8]), Stop<NoMark>>
    requires { IsUtf8 bytes.now }
    ensures read { Scans (λ x. (x.0, x.1.now)) result (mark_of bytes.now) }
    ensures within { IfOk result (λ x. length x.1.now ≤ length bytes.now) }
    ensures utf8 { IfOk result (λ x. IsUtf8 x.1.now) }
{
    let Some((c, rest)) = bytes.split_first() else {
        return Err(Stop::Fault(NoMark));
    };
    match *c {
        b'/' => end_at(alloc, rest),
        b'?' => instruction_at(rest),
        b'!' => comment_at(rest),
        _ => opening_at(alloc, bytes),
    }
}
