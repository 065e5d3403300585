ghost use Rattle.std.specs.Prelude.{◌≡◌, ◌≤◌, ℕ, drop, get_or, length, ◌-◌};
ghost use Rattle.tree_mock.specs.Ends.{AreMarks, IsEnd, marked};

/// How many ends of a text have a mark: those of up to 16 bytes, and the empty one.
const ENDS: usize = 17;

/// The marks of the ends of a text by their lengths, as far as the text goes.
pub type Marks = [u32; ENDS];

/// What a pattern ends with: so many bytes, none of which is a star, and their mark.
#[derive(Clone, Copy, Drop)]
pub struct End {
    pub len: u8,
    pub mark: u32,
}

/// The mark of a text that has this byte before one of that mark. Few other texts have the same.
fn marked(mark: u32, byte: u8) -> u32
    ensures { result ≡ marked mark byte }
{
    mark.wrapping_mul(1_000_003).wrapping_add(u32::from(byte))
}

/// What the pattern ends with after its last star, or the last 16 bytes of that.
pub fn end_of(pattern: &[u8]) -> End
    ensures { IsEnd pattern.now result }
{
    let mut end = End { len: 0, mark: 0 };
    while usize::from(end.len) + 1 < ENDS && usize::from(end.len) < pattern.len() {
        let byte = pattern[pattern.len() - 1 - usize::from(end.len)];
        if byte == b'*' {
            return end;
        }
        end = End {
            len: end.len + 1,
            mark: marked(end.mark, byte),
        };
    }
    end
}

/// The marks of the ends of a path.
pub fn marks_of(path: &[u8]) -> Marks
    ensures { AreMarks path.now result }
{
    let mut marks = [0; ENDS];
    let mut len = 0;
    while len + 1 < ENDS && len < path.len() {
        marks[len + 1] = marked(marks[len], path[path.len() - 1 - len]);
        len += 1;
    }
    marks
}
