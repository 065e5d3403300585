ghost use Rattle.std.specs.Prelude.{◌≡◌, ◌<◌, false};
ghost use Rattle.tree_mock.specs.Grams.{AreSeen, IsGram, IsRead, Lacks, place};

/// How many places there are for the marks of three bytes.
const PLACES: usize = 16_384;

/// How many patterns are tried on a path before it is read for its triples.
const TRIED: u8 = 16;

/// The place of three bytes that stand beside each other. Few other triples have the same.
fn place(first: u8, second: u8, third: u8) -> u16
    ensures value { result ≡ place first second third }
    ensures within { result < 16384 }
{
    u16::from(first)
        .wrapping_mul(5_281)
        .wrapping_add(u16::from(second).wrapping_mul(167))
        .wrapping_add(u16::from(third))
        % 16_384
}

/// The place of the first three bytes of the pattern, from this one on, none of which is a star. None where there are none.
pub fn gram_of(pattern: &[u8], from: usize) -> Option<u16>
    ensures { IsGram pattern.now result }
{
    for at in from..pattern.len().saturating_sub(2) {
        let (first, second, third) = (pattern[at], pattern[at + 1], pattern[at + 2]);
        if first != b'*' && second != b'*' && third != b'*' {
            return Some(place(first, second, third));
        }
    }
    None
}

/// Of each place whether three bytes of it stand in the path.
fn seen_in(path: &[u8]) -> [bool; PLACES]
    ensures { AreSeen path.now result }
{
    let mut seen = [false; PLACES];
    for at in 0..path.len().saturating_sub(2) {
        seen[usize::from(place(path[at], path[at + 1], path[at + 2]))] = true;
    }
    seen
}

/// The places of the triples of a path, which is read for them where many patterns are tried on it.
#[derive(Drop)]
pub struct Grams {
    tried: u8,
    seen: [bool; PLACES],
}

impl Grams {
    /// Those of a path that is not read.
    pub fn none() -> Grams
        ensures { result.tried ≡ 0 }
    {
        Grams {
            tried: 0,
            seen: [false; PLACES],
        }
    }

    /// Reads the path. It is no part of the call that is made for each pattern, which would make room for all places.
    #[inline(never)]
    fn read(&mut self, path: &[u8])
        ensures tried { self.new.tried ≡ self.old.tried }
        ensures seen { AreSeen path.now self.new.seen }
    {
        self.seen = seen_in(path);
    }

    /// Whether three bytes of this place may stand in the path.
    pub fn may_have(&mut self, path: &[u8], gram: Option<u16>) -> bool
        requires { IsRead path.now self.old }
        ensures read { IsRead path.now self.new }
        ensures lacks { result ≡ false → Lacks path.now gram }
    {
        let Some(place) = gram else {
            return true;
        };
        if self.tried < TRIED {
            self.tried += 1;
            if self.tried == TRIED {
                self.read(path);
            }
            return true;
        }
        match self.seen.get(usize::from(place)) {
            Some(seen) => *seen,
            None => true,
        }
    }
}
