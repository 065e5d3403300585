ghost use Rattle.std.specs.Prelude.{◌≡◌, ◌≤◌, [], IsUtf8, IfOk, length, take};

use crate::items::Items;
use crate::shared::Shared;
use crate::stop::NoMemory;
use std::alloc::Global;
use std::cmp::Ordering;
use std::hash::{Hash, Hasher};
use std::marker::Model;

/// The longest text that stands in a name itself.
const MOST_SHORT: usize = 23;

/// Any UTF-8 text: an ID, a key, a file's name. Contracts see its bytes. A text of up to 23 bytes stands in the name
/// itself, so that most names take no memory. A longer one is kept once for the name and all its copies.
#[derive(Debug, Drop)]
pub struct Name {
    /// The text, where it is long.
    long: Option<Shared<Items<u8>>>,
    /// Where it is short, its first bytes.
    short: [u8; MOST_SHORT],
    /// How many bytes of `short` are the text.
    len: u8,
}

impl Model for Name {
    ghost use Rattle.std.specs.Prelude.{List, ℕ, ◌≤◌, IsUtf8};
    ghost use Rattle.base_texts.specs.Names.{text_of};

    ghost Value = { List ℕ };

    ghost view = { λ name. text_of name.len name.short name.long };

    ghost invariant = { λ name. (name.len ≤ 23) × IsUtf8 (text_of name.len name.short name.long) };
}

impl Name {
    /// The empty name. It allocates nothing.
    pub fn empty() -> Name
        ensures { result ≡ [] }
    {
        Name::short(b"")
    }

    /// A name with these bytes. `NoMemory` where an allocation fails.
    pub fn of(bytes: Vec<u8>) -> Result<Name, NoMemory>
        requires { IsUtf8 bytes.items }
        ensures { IfOk result (λ name. name ≡ bytes.items) }
    {
        if bytes.len() <= MOST_SHORT {
            return Ok(Name::short(bytes.as_slice()));
        }
        Name::long(*bytes.allocator(), bytes)
    }

    /// A name with a copy of these bytes. `NoMemory` where an allocation fails.
    pub fn copied(alloc: Global, bytes: &[u8]) -> Result<Name, NoMemory>
        requires { IsUtf8 bytes.now }
        ensures { IfOk result (λ name. name ≡ bytes.now) }
    {
        if bytes.len() <= MOST_SHORT {
            return Ok(Name::short(bytes));
        }
        Name::long(alloc, Vec::from_slice(alloc, bytes)?)
    }

    /// A name that keeps its bytes apart.
    fn long(alloc: Global, bytes: Vec<u8>) -> Result<Name, NoMemory>
        requires { IsUtf8 bytes.items }
        ensures { IfOk result (λ name. name ≡ bytes.items) }
    {
        let text = Shared::of(alloc, Items::of(bytes))?;
        Ok(Name {
            long: Some(text),
            short: [0; MOST_SHORT],
            len: 0,
        })
    }

    /// A name in which its bytes stand, which are few.
    fn short(bytes: &[u8]) -> Name
        requires few { length bytes.now ≤ 23 }
        requires utf8 { IsUtf8 bytes.now }
        ensures { result ≡ bytes.now }
    {
        let mut short = [0; MOST_SHORT];
        copy_in(&mut short, bytes);
        Name {
            long: None,
            short,
            len: bytes.len() as u8,
        }
    }

    /// Lends the bytes, which are UTF-8.
    pub fn list(&self) -> &[u8]
        ensures bytes { result.now ≡ self.now }
        ensures utf8 { IsUtf8 self.now }
    {
        match &self.long {
            Some(text) => text.get().list(),
            None => &self.short[..usize::from(self.len)],
        }
    }

    /// An equal name. A long text is not copied. `NoMemory` stands for a full count of its owners.
    pub fn copy(&self, _alloc: Global) -> Result<Name, NoMemory>
        ensures { IfOk result (λ name. name ≡ self.now) }
    {
        let long = match &self.long {
            Some(text) => Some(text.share()?),
            None => None,
        };
        Ok(Name {
            long,
            short: self.short,
            len: self.len,
        })
    }
}

/// Equal names. `NoMemory` where an allocation fails.
pub fn copy_names(alloc: Global, names: &[Name]) -> Result<Items<Name>, NoMemory>
    ensures { IfOk result (λ copied. copied ≡ names.now) }
{
    let mut copied = Vec::with_capacity(alloc, names.len())?;
    for name in names {
        copied.push(name.copy(alloc)?)?;
    }
    Ok(Items::of(copied))
}

/// Copies the bytes over the front of a room.
fn copy_in(room: &mut [u8], bytes: &[u8])
    requires { length bytes.now ≤ length room.old }
    ensures text { take (length bytes.now) room.new ≡ bytes.now }
    ensures len { length room.new ≡ length room.old }
{
    room[..bytes.len()].copy_from_slice(bytes);
}

impl PartialEq for Name {
    ghost use Rattle.std.specs.Prelude.{nat_eq};
    ghost use Rattle.std.specs.Cmp.Lexicographic.{pointwise, nat_list_eq_equiv};
    ghost use Rattle.std.specs.Cmp;

    ghost eq = { pointwise nat_eq };

    ghost laws = { Cmp.partial_equiv_from_equiv nat_list_eq_equiv };

    fn eq(&self, other: &Name) -> bool {
        self.list() == other.list()
    }
}

impl Eq for Name {
    ghost use Rattle.std.specs.Cmp.Lexicographic.{nat_list_eq_equiv};

    ghost laws = { nat_list_eq_equiv };
}

impl PartialOrd for Name {
    ghost use Rattle.std.specs.Prelude.{Some};
    ghost use Rattle.std.specs.Ordering.{nat_cmp};
    ghost use Rattle.std.specs.Cmp.Lexicographic.{slice_cmp, texts_po};

    ghost partial_cmp = { λ x y. Some (slice_cmp nat_cmp x y) };

    ghost laws = { texts_po };

    fn partial_cmp(&self, other: &Name) -> Option<Ordering> {
        Some(self.cmp(other))
    }
}

impl Ord for Name {
    ghost use Rattle.std.specs.Prelude.{refl};
    ghost use Rattle.std.specs.Ordering.{nat_cmp};
    ghost use Rattle.std.specs.Cmp.Lexicographic.{slice_cmp, nat_list_cmp_total, texts_ties};

    ghost cmp = { slice_cmp nat_cmp };

    ghost total = { nat_list_cmp_total };

    ghost matches_partial_cmp = { λ x y. refl };

    ghost matches_eq = { texts_ties };

    fn cmp(&self, other: &Name) -> Ordering {
        self.list().cmp(other.list())
    }
}

impl Hash for Name {
    ghost use Rattle.std.specs.Hash as fed;
    ghost use Rattle.std.specs.Cmp.Rules.{hashing};
    ghost use Rattle.std.proofs.Common.{rules};

    ghost hash_input = { λ n. fed.slice fed.u8 n };

    ghost respects_eq = { Prim.search (hashing, rules) };

    fn hash<H: Hasher>(&self, state: &mut H) {
        self.list().hash(state);
    }
}
