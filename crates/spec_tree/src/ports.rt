ghost use Rattle.std.specs.Prelude.{◌≡◌, [], IfOk};

use crate::term::Port;
use base_texts::{Items, NoMemory, Shared};
use std::alloc::Global;
use std::marker::Model;

/// The ports of a node, which are kept once for all nodes that have them from one element. Contracts see their list.
#[derive(Debug, Drop)]
pub struct Ports {
    /// The list. None where it is empty, so that a node without ports takes no memory for it.
    some: Option<Shared<Items<Port>>>,
}

impl Model for Ports {
    ghost use Rattle.std.specs.Prelude.{List, [], unwrap_or};
    ghost use Rattle.spec_tree.specs.declared.term.Port.{Port};

    ghost Value = { List Port };

    ghost view = { λ it. unwrap_or it.some [] };
}

impl Ports {
    /// No ports. It allocates nothing.
    pub fn none() -> Ports
        ensures { result ≡ [] }
    {
        Ports { some: None }
    }

    /// These ports. `NoMemory` where an allocation fails.
    pub fn of(alloc: Global, ports: Vec<Port>) -> Result<Ports, NoMemory>
        ensures { IfOk result (λ it. it ≡ ports.items) }
    {
        if ports.is_empty() {
            return Ok(Ports::none());
        }
        let list = Shared::of(alloc, Items::of(ports))?;
        Ok(Ports { some: Some(list) })
    }

    /// Lends the ports.
    pub fn list(&self) -> &[Port]
        ensures { result.now ≡ self.now }
    {
        match &self.some {
            Some(list) => list.get().list(),
            None => &[],
        }
    }

    /// The same ports for one more node. It allocates nothing; `NoMemory` stands for a full count of owners.
    pub fn share(&self) -> Result<Ports, NoMemory>
        ensures { IfOk result (λ it. it ≡ self.now) }
    {
        let some = match &self.some {
            Some(list) => Some(list.share()?),
            None => None,
        };
        Ok(Ports { some })
    }
}
