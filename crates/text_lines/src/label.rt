ghost use Rattle.std.specs.Prelude.{◌≡◌, ◌+◌, ◌<◌, ◌≤◌, [], ◌∷◌, ◌++◌, IfNone, IfOk, IfSome, decimal, length, min, take};
ghost use Rattle.text_lines.specs.Labels.{AreLabels};

use base_texts::NoMemory;
use std::alloc::Global;
use std::marker::Model;

/// How many bytes of room a label has.
const ROOM: usize = 8;

/// A blank and a number in decimal, made once, so that a line needs no division. Contracts see its
/// bytes.
#[derive(Debug, Drop)]
pub struct Label {
    text: [u8; ROOM],
    len: usize,
}

impl Model for Label {
    ghost use Rattle.std.specs.Prelude.{ℕ, List, ◌≤◌, take};

    ghost Value = { List ℕ };

    ghost view = { λ label. take label.len label.text };

    ghost invariant = { λ label. label.len ≤ 8 };
}

impl Label {
    /// The label of a number of one digit.
    fn of_digit(digit: u8) -> Label
        requires { digit < 10 }
        ensures { result ≡ 32 ∷ (48 + digit) ∷ [] }
    {
        let mut text = [b' '; ROOM];
        text[1] = b'0' + digit;
        Label { text, len: 2 }
    }

    /// The label of the number with this one digit more.
    fn with_digit(&self, digit: u8) -> Label
        requires digit { digit < 10 }
        requires room { length self.now ≤ 7 }
        ensures { result ≡ self.now ++ (48 + digit) ∷ [] }
    {
        let mut text = self.text;
        text[self.len] = b'0' + digit;
        Label {
            text,
            len: self.len + 1,
        }
    }

    /// All bytes of its room, and how many of them are the label.
    #[inline(always)]
    pub fn room(&self) -> ([u8; ROOM], usize)
        ensures text { take result.1 result.0 ≡ self.now }
        ensures within { result.1 ≤ 8 }
        ensures len { length result.0 ≡ 8 }
    {
        (self.text, self.len)
    }
}

/// The labels of 0 and the numbers after it, as far as there are labels.
#[derive(Drop)]
pub struct Labels<'a> {
    list: &'a [Label],
}

impl<'a> Model for Labels<'a> {
    ghost use Rattle.std.specs.Prelude.{ℕ, List};
    ghost use Rattle.text_lines.specs.Labels.{AreLabels};

    ghost Value = { List (List ℕ) };

    ghost view = { λ labels. labels.list.now };

    ghost invariant = { λ labels. AreLabels labels.list.now };
}

impl<'a> Labels<'a> {
    /// These labels.
    #[inline(always)]
    pub fn of(list: &'a [Label]) -> Labels<'a>
        requires { AreLabels list.now }
        ensures { result ≡ list.now }
    {
        Labels { list }
    }

    /// The label of the number, where it has one.
    #[inline(always)]
    pub fn get(&self, number: u32) -> Option<&Label>
        ensures some { IfSome result (λ label. label.now ≡ 32 ∷ decimal number) }
        ensures none { IfNone result (length self.now ≤ number) }
    {
        self.list.get(number as usize)
    }
}

/// The label of a number, made from that of the number without its last digit, which is among these
/// labels.
fn label_of(labels: &[Label], number: u32) -> Label
    requires labels { AreLabels labels.now }
    requires among { number ≤ length labels.now }
    requires short { number < 10000000 }
    ensures { result ≡ 32 ∷ decimal number }
{
    if number < 10 {
        return Label::of_digit(number as u8);
    }
    labels[(number / 10) as usize].with_digit((number % 10) as u8)
}

/// The labels of the numbers from 0 up to this one, as far as they have seven digits at most. The
/// error is want of memory.
pub fn labels_to(alloc: Global, last: usize) -> Result<Vec<Label>, NoMemory>
    ensures labels { IfOk result (λ labels. AreLabels labels.items) }
    ensures count { IfOk result (λ labels. length labels.items ≡ min last 9999999 + 1) }
{
    let count = last.min(9_999_999) + 1;
    let mut labels = Vec::with_capacity(alloc, count)?;
    for number in 0..count {
        let label = label_of(labels.as_slice(), number as u32);
        labels.push(label)?;
    }
    Ok(labels)
}
