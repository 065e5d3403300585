ghost use Rattle.std.specs.Prelude.{◌≡◌, ◌<◌, IfOk, length, map, slice_set};
ghost use Rattle.spec_run.specs.Leaf.{fact_at};

use base_texts::NoMemory;
use spec_world::World;
use std::alloc::Global;
use std::marker::Model;

/// The values of a world's facts, by their number. Contracts see the list of them.
#[derive(Debug, Drop)]
pub struct FactTable {
    values: Vec<i64>,
}

impl Model for FactTable {
    ghost use Rattle.std.specs.Prelude.{List, ℤ};

    ghost Value = { List ℤ };

    ghost view = { λ table. table.values.items };
}

impl FactTable {
    /// Lends the values, by the number of their fact.
    pub fn list(&self) -> &[i64]
        ensures { result.now ≡ self.now }
    {
        self.values.as_slice()
    }

    /// The value of the fact of this number.
    pub fn get(&self, fact: u32) -> i64
        requires { fact < length self.now }
        ensures { result ≡ fact_at self.now fact }
    {
        self.values[fact as usize]
    }

    /// Gives the fact of this number a value, and changes no other fact. It allocates no memory.
    pub fn put(&mut self, fact: u32, n: i64)
        requires { fact < length self.old }
        ensures { self.new ≡ slice_set self.old fact n }
    {
        self.values[fact as usize] = n;
    }
}

/// The table of a world's facts with their opening values. The error is want of memory.
pub fn facts_of(alloc: Global, world: &World) -> Result<FactTable, NoMemory>
    ensures { IfOk result (λ table. table ≡ map (λ fact. fact.opening) world.now.facts) }
{
    let mut values = Vec::new(alloc);
    for fact in world.facts.list() {
        values.push(fact.opening)?;
    }
    Ok(FactTable { values })
}
