ghost use Rattle.std.specs.Prelude.{◌≡◌, IfOk};

use crate::stop::NoMemory;
use std::alloc::Global;
use std::marker::Model;
use std::rc::Rc;

/// A value that is kept once for all its owners. Contracts see the value.
#[derive(Debug, Drop)]
pub struct Shared<T> {
    owner: Rc<T>,
}

impl<T> Model for Shared<T> {
    ghost Value = { T };

    ghost coded = { T.code };

    ghost view = { λ it. it.owner.value };
}

impl<T> Shared<T> {
    /// Lends the value.
    pub fn get(&self) -> &T
        ensures { result.now ≡ self.now }
    {
        self.owner.as_ref()
    }
}

impl<T: Drop> Shared<T> {
    /// The value with its first owner. `NoMemory` where an allocation fails.
    pub fn of(alloc: Global, value: T) -> Result<Shared<T>, NoMemory>
        ensures { IfOk result (λ it. it ≡ value) }
    {
        let owner = Rc::new(alloc, value)?;
        Ok(Shared { owner })
    }

    /// One more owner. It allocates nothing; `NoMemory` stands for a full count of owners.
    pub fn share(&self) -> Result<Shared<T>, NoMemory>
        ensures { IfOk result (λ it. it ≡ self.now) }
    {
        let owner = self.owner.clone()?;
        Ok(Shared { owner })
    }
}
