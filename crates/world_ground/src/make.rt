ghost use Rattle.std.specs.Prelude.{◌≡◌, map, true, IfOk, OnOk};
ghost use Rattle.std.specs.List.{list_all};
ghost use Rattle.spec_world_file.specs.Blocks as blocks;
ghost use Rattle.spec_world_file.specs.Blocks.{parts_of};
ghost use Rattle.world_ground.specs.Flat.{flat_lines};
ghost use Rattle.world_ground.specs.Making.{begun, made_block, made_item, nothing_made};
ghost use Rattle.world_ground.specs.Seen.{seen_item};
ghost use Rattle.world_ground.specs.Sound.{is_item};

use crate::items::Item;
use crate::lines::Lines;
use crate::sort::values_at;
use base_texts::NoMemory;
use spec_world_file::Sort;
use std::alloc::Global;
use std::collections::VecDeque;
use std::marker::Model;
use std::mem;

/// A block that is not at its end: the lines before it, its variable, and the number of its sort.
#[derive(Drop)]
pub struct Block {
    pub before: Lines,
    pub variable: u8,
    pub sort: usize,
}

/// The lines of the innermost block so far, and the blocks that are not at their ends.
#[derive(Drop)]
struct Making {
    lines: Lines,
    blocks: VecDeque<Block>,
}

impl Model for Making {
    ghost use Rattle.world_ground.specs.Making.{Making};

    ghost Value = { Making };

    ghost view = { λ m. record { lines = m.lines; blocks = m.blocks.items } };
}

impl Making {
    /// Nothing is made yet.
    fn new(alloc: Global) -> Making
        ensures { result ≡ nothing_made }
    {
        Making {
            lines: Lines::new(alloc),
            blocks: VecDeque::new(alloc),
        }
    }

    /// Begins a block. The error is want of memory; so below.
    fn begin(&mut self, alloc: Global, variable: u8, sort: usize) -> Result<(), NoMemory>
        ensures { OnOk result (self.new ≡ begun variable sort self.old) }
    {
        let before = mem::replace(&mut self.lines, Lines::new(alloc));
        self.blocks.push_front(Block {
            before,
            variable,
            sort,
        })?;
        Ok(())
    }

    /// Ends the innermost block, where one is open.
    fn end(&mut self, sorts: &[Sort]) -> Result<(), NoMemory>
        ensures { OnOk result (self.new ≡ made_block sorts.now self.old.lines self.old.blocks) }
    {
        if let Some(block) = self.blocks.pop_front() {
            let Block {
                before,
                variable,
                sort,
            } = block;
            let inner = mem::replace(&mut self.lines, before);
            self.lines
                .add_each(&inner, variable, values_at(sorts, sort))?;
        }
        Ok(())
    }

    /// Adds what a line says.
    fn add(&mut self, alloc: Global, sorts: &[Sort], item: &Item) -> Result<(), NoMemory>
        ensures { OnOk result (self.new ≡ made_item sorts.now self.old (seen_item item.now)) }
    {
        match item {
            Item::Body { line, text } => self.lines.add(*line, text),
            Item::Forall { variable, sort } => self.begin(alloc, *variable, *sort),
            Item::End => self.end(sorts),
        }
    }

    /// The lines of the innermost block.
    fn into_lines(self) -> Lines
        ensures { result ≡ self.lines }
    {
        let Making { lines, blocks } = self;
        drop(blocks);
        lines
    }
}

/// The lines that the items stand for. Each block is made from the inside, once its end is there.
pub fn lines_of(alloc: Global, sorts: &[Sort], items: &[Item]) -> Result<Lines, NoMemory>
    requires { list_all is_item (map seen_item items.now) ≡ true }
    ensures { IfOk result (λ lines. lines ≡ flat_lines (blocks.lines_of sorts.now (parts_of (map seen_item items.now)))) }
{
    let mut making = Making::new(alloc);
    for item in items {
        making.add(alloc, sorts, item)?;
    }
    Ok(making.into_lines())
}
