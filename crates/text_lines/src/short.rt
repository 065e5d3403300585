ghost use Rattle.std.specs.Prelude.{◌≡◌, ◌+◌, ◌<◌, ◌≤◌, [], ◌++◌, IsTrue, IsFalse, codes, decimal, get_or, length, map, take};
ghost use Rattle.std.specs.List.{concat};
ghost use Rattle.spec_run.specs.declared.note.Note.{Note as Noted};
ghost use Rattle.spec_output.specs.Lines.{LineNames, note_line};
ghost use Rattle.text_lines.specs.Notes.{is_long};
ghost use Rattle.text_lines.specs.Tails.{tail_text};

use crate::label::Labels;
use crate::line::put_short;
use crate::tail::Tail;
use itoa::Buffer;
use spec_run::Note;
use std::marker::Model;

/// The room of short lines that are written together: few enough bytes that they are quickly cleared.
const ROOM: usize = 512;
/// The room of one short line: of a word, a number and the room of a tail.
const LINE: usize = 64;

/// Lines that are short, as most are, one after another. They lie in an array and need no memory of their own.
/// Contracts see their bytes.
#[derive(Drop)]
pub struct ShortLines {
    bytes: [u8; ROOM],
    len: usize,
}

impl Model for ShortLines {
    ghost use Rattle.std.specs.Prelude.{ℕ, List, ◌≤◌, take};

    ghost Value = { List ℕ };

    ghost view = { λ lines. take lines.len lines.bytes };

    ghost invariant = { λ lines. lines.len ≤ 512 };
}

impl ShortLines {
    /// No lines.
    pub fn new() -> ShortLines
        ensures { result ≡ [] }
    {
        ShortLines {
            bytes: [0; ROOM],
            len: 0,
        }
    }

    /// Lends the bytes.
    #[inline(always)]
    pub fn list(&self) -> &[u8]
        ensures { result.now ≡ self.now }
    {
        &self.bytes[..self.len]
    }

    /// Whether there may be no room for one more line.
    #[inline(always)]
    pub fn is_full(&self) -> bool
        ensures room { IsFalse result → length self.now ≤ 448 }
        ensures full { IsTrue result → 448 < length self.now }
    {
        self.len > ROOM - LINE
    }

    /// Puts the lines of the first notes here in place of what was here, up to a note whose line is long, or as many as
    /// there is room for. The answer is their number: 0 only where the first line is long.
    #[inline(always)]
    pub fn gather(&mut self, notes: &[Note], labels: &Labels) -> usize
        requires { 1 ≤ length notes.now }
        ensures within { result ≤ length notes.now }
        ensures text { (names : LineNames) → self.new ≡ concat (map (note_line names) (take result notes.now)) }
        ensures long { result ≡ 0 → (n : Noted) → IsTrue (is_long (get_or notes.now 0 n)) }
    {
        self.len = 0;
        let mut count = 0;
        for note in notes {
            if !put_short(self, note, labels) {
                return count;
            }
            count += 1;
        }
        count
    }

    /// Adds a word of four letters, a blank and a number. The room of a label is copied whole, so that the copy is one load
    /// and one store.
    #[inline(always)]
    pub fn begin(&mut self, word: [u8; 4], number: u32, labels: &Labels)
        requires { length self.old ≤ 448 }
        ensures text { self.new ≡ self.old ++ (word ++ codes " " ++ decimal number) }
        ensures room { length self.new ≤ 488 }
    {
        match labels.get(number) {
            Some(label) => {
                let (text, len) = label.room();
                let start = self.len;
                copy_in(&mut self.bytes, start, &word);
                copy_in(&mut self.bytes, start + 4, &text);
                self.len = start + 4 + len;
            }
            None => self.begin_apart(word, number),
        }
    }

    /// Adds such a word, a blank and a number that has no label. It is a function of its own, since few lines have such a
    /// number: only those of a root whose runner's number is above the number of nodes.
    #[cold]
    #[inline(never)]
    fn begin_apart(&mut self, word: [u8; 4], number: u32)
        requires { length self.old ≤ 448 }
        ensures text { self.new ≡ self.old ++ (word ++ codes " " ++ decimal number) }
        ensures room { length self.new ≤ 488 }
    {
        let start = self.len;
        copy_in(&mut self.bytes, start, &word);
        let mut buffer = Buffer::new();
        let digits = buffer.format(number).as_bytes();
        copy_in(&mut self.bytes, start + 4, b" ");
        copy_in(&mut self.bytes, start + 5, digits);
        self.len = start + 5 + digits.len();
    }

    /// Adds the tail. The unused bytes of its room are after the end of the line.
    #[inline(always)]
    pub fn end(&mut self, tail: &Tail)
        requires room { length self.old ≤ 488 }
        requires within { tail.now.len ≤ 24 }
        ensures { self.new ≡ self.old ++ tail_text tail.now }
    {
        let start = self.len;
        copy_in(&mut self.bytes, start, &tail.room);
        self.len = start + tail.len;
    }
}

/// Copies the piece over the bytes from a place on.
#[inline(always)]
fn copy_in(bytes: &mut [u8], start: usize, piece: &[u8])
    requires { start + length piece.now ≤ length bytes.old }
    ensures prefix { take (start + length piece.now) bytes.new ≡ take start bytes.old ++ piece.now }
    ensures len { length bytes.new ≡ length bytes.old }
{
    bytes[start..start + piece.len()].copy_from_slice(piece);
}
