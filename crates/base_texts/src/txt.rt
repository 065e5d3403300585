ghost use Rattle.std.specs.Prelude.{◌≡◌, ◌≤◌, ◌+◌, ◌++◌, IsUtf8, IfOk, length};

use crate::shared::Shared;
use crate::stop::NoMemory;
use std::alloc::Global;
use std::marker::Model;

/// A UTF-8 text of at most 4,096 bytes, as a script or a text value, which is kept once for all its copies. Contracts
/// see its bytes.
#[derive(Debug, Drop)]
pub struct Txt {
    bytes: Shared<Vec<u8>>,
}

impl Model for Txt {
    ghost use Rattle.std.specs.Prelude.{List, ℕ, IsUtf8, length, ◌≤◌};

    ghost Value = { List ℕ };

    ghost view = { λ text. text.bytes.items };

    ghost invariant = { λ text. (length text.bytes.items ≤ 4096) × IsUtf8 text.bytes.items };
}

impl Txt {
    /// The text with these bytes. `NoMemory` where an allocation fails.
    pub fn of(bytes: Vec<u8>) -> Result<Txt, NoMemory>
        requires utf8 { IsUtf8 bytes.items }
        requires short { length bytes.items ≤ 4096 }
        ensures { IfOk result (λ text. text ≡ bytes.items) }
    {
        let bytes = Shared::of(*bytes.allocator(), bytes)?;
        Ok(Txt { bytes })
    }

    /// Lends the bytes, which are UTF-8 and at most 4,096.
    pub fn list(&self) -> &[u8]
        ensures bytes { result.now ≡ self.now }
        ensures utf8 { IsUtf8 self.now }
        ensures short { length self.now ≤ 4096 }
    {
        self.bytes.get().as_slice()
    }

    /// An equal text. Its bytes are not copied. `NoMemory` stands for a full count of its owners.
    pub fn copy(&self, _alloc: Global) -> Result<Txt, NoMemory>
        ensures { IfOk result (λ text. text ≡ self.now) }
    {
        let bytes = self.bytes.share()?;
        Ok(Txt { bytes })
    }

    /// The text with another one after it. `NoMemory` where an allocation fails.
    pub fn joined(&self, more: &Txt) -> Result<Txt, NoMemory>
        requires { length self.now + length more.now ≤ 4096 }
        ensures { IfOk result (λ text. text ≡ self.now ++ more.now) }
    {
        let mut bytes = Vec::from_slice(*self.bytes.get().allocator(), self.list())?;
        bytes.extend_from_slice(more.list())?;
        Txt::of(bytes)
    }
}
