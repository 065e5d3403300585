ghost use Rattle.std.specs.Prelude.{◌≡◌, [], ◌∷◌, ◌++◌, IfOk, OnErr, OnOk};

use base_texts::NoMemory;
use std::alloc::Global;
use std::marker::Model;

/// How many uids stand in the value itself at most.
const FEW: usize = 4;

/// The uids of the children of a node. Contracts see the list of them. Up to four stand in the value
/// itself, so that the children of most nodes take no memory.
#[derive(Debug, Drop)]
pub struct Uids {
    few: [u32; FEW],
    /// How many places of `few` are used. 0 where `more` has the uids.
    len: usize,
    more: Vec<u32>,
}

impl Model for Uids {
    ghost use Rattle.std.specs.Prelude.{◌≡◌, ◌≤◌, ◌⊎◌, List, ℕ, [], ◌++◌, take};

    ghost Value = { List ℕ };

    ghost view = { λ uids. uids.more.items ++ take uids.len uids.few };

    ghost invariant = { λ uids. (uids.len ≤ 4) × ((uids.len ≡ 0) ⊎ (uids.more.items ≡ [])) };
}

impl Uids {
    /// No uids. It allocates nothing.
    pub fn none(alloc: Global) -> Uids
        ensures { result ≡ [] }
    {
        Uids {
            few: [0; FEW],
            len: 0,
            more: Vec::new(alloc),
        }
    }

    /// Makes room for this many more, where they are too many to stand in the value itself. The error is
    /// want of memory.
    pub fn make_room(&mut self, count: usize) -> Result<(), NoMemory>
        ensures { self.new ≡ self.old }
    {
        if count > FEW {
            self.more.reserve(count)?;
        }
        Ok(())
    }

    /// Adds a uid at the end: in the value itself as long as no room was made apart. The error is want of
    /// memory, and then nothing changes.
    pub fn push(&mut self, uid: u32) -> Result<(), NoMemory>
        ensures added { OnOk result (self.new ≡ self.old ++ uid ∷ []) }
        ensures kept { OnErr result (self.new ≡ self.old) }
    {
        if self.more.capacity() == 0 && self.len < FEW {
            self.few[self.len] = uid;
            self.len += 1;
            return Ok(());
        }
        if self.len == 0 && self.more.len() < self.more.capacity() {
            self.more.push_reserved(uid);
            return Ok(());
        }
        self.push_apart(uid)
    }

    /// Adds a uid at the end, and keeps all of them apart from now on. The error is want of memory,
    /// and then nothing changes.
    #[inline(never)]
    fn push_apart(&mut self, uid: u32) -> Result<(), NoMemory>
        ensures added { OnOk result (self.new ≡ self.old ++ uid ∷ []) }
        ensures kept { OnErr result (self.new ≡ self.old) }
    {
        self.more.extend_from_slice(&self.few[..self.len])?;
        self.len = 0;
        self.more.push(uid)?;
        Ok(())
    }

    /// Equal uids. The error is want of memory.
    pub(crate) fn copy(&self, alloc: Global) -> Result<Uids, NoMemory>
        ensures { IfOk result (λ copied. copied ≡ self.now) }
    {
        Ok(Uids {
            few: self.few,
            len: self.len,
            more: Vec::from_slice(alloc, self.more.as_slice())?,
        })
    }

    /// Lends the uids.
    #[inline(always)]
    pub fn list(&self) -> &[u32]
        ensures { result.now ≡ self.now }
    {
        match self.len {
            0 => self.more.as_slice(),
            len => &self.few[..len],
        }
    }
}
