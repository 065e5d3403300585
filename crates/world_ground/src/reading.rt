ghost use Rattle.std.specs.Prelude.{◌≡◌, Some, map, slice_get};
ghost use Rattle.spec_world_file.specs.GroundFile as file;
ghost use Rattle.spec_world_file.specs.GroundFile.{nothing_read, with_block, with_body, with_sort, without_block};
ghost use Rattle.world_ground.specs.Readings.{Leaves};
ghost use Rattle.world_ground.specs.Seen.{seen_item};

use crate::items::Item;
use crate::marks::{has_open_variables, has_variables, is_open};
use crate::sort::repeats;
use base_texts::Stop;
use spec_world_file::{GroundFault, OpenBlock, Sort};
use std::alloc::Global;
use std::collections::VecDeque;
use std::marker::Model;

/// The most sorts of a file.
const MOST_SORTS: usize = 16;

/// The most blocks that are open at a place.
const MOST_OPEN: usize = 3;

/// What the lines so far have said. Sorts are numbered from 0 in the order of the file.
#[derive(Drop)]
pub struct Reading<'a> {
    sorts: Vec<Sort>,
    blocks: VecDeque<OpenBlock>,
    items: Vec<Item<'a>>,
}

impl<'a> Model for Reading<'a> {
    ghost use Rattle.std.specs.Prelude.{map};
    ghost use Rattle.spec_world_file.specs.GroundFile.{Reading};
    ghost use Rattle.world_ground.specs.Seen.{seen_item};

    ghost Value = { Reading };

    ghost view = { λ r. record { sorts = r.sorts.items; blocks = r.blocks.items; items = map seen_item r.items.items } };
}

impl<'a> Reading<'a> {
    /// Nothing is read yet.
    pub fn new(alloc: Global) -> Reading<'a>
        ensures { result ≡ nothing_read }
    {
        Reading {
            sorts: Vec::new(alloc),
            blocks: VecDeque::new(alloc),
            items: Vec::new(alloc),
        }
    }

    /// Lends the sorts.
    pub fn sorts(&self) -> &[Sort]
        ensures { result.now ≡ self.now.sorts }
    {
        self.sorts.as_slice()
    }

    /// Lends what the lines say of the text.
    pub fn items(&self) -> &[Item<'a>]
        ensures { map seen_item result.now ≡ self.now.items }
    {
        self.items.as_slice()
    }

    /// The innermost block that is open. None where none is.
    pub fn innermost(&self) -> Option<OpenBlock>
        ensures { result ≡ slice_get self.now.blocks 0 }
    {
        self.blocks.front().copied()
    }

    /// The number of the sort of this name. None where there is none.
    fn sort_number(&self, name: &[u8]) -> Option<usize>
        ensures { result ≡ file.sort_number self.now.sorts name.now }
    {
        self.sorts.iter().position(|sort| name == sort.name.list())
    }

    /// Adds a sort. The fault `BadLine` where a block is open, `DoubleName` where its name or a value stands twice,
    /// `TooMany` at the seventeenth.
    pub fn add_sort(&mut self, line: u32, sort: Sort) -> Result<(), Stop<GroundFault>>
        ensures { Leaves result self.new (with_sort line (Some sort) self.old) }
    {
        if !self.blocks.is_empty() {
            return Err(Stop::Fault(GroundFault::BadLine { line }));
        }
        if self.sort_number(sort.name.list()).is_some() || repeats(sort.values.list()) {
            return Err(Stop::Fault(GroundFault::DoubleName { line }));
        }
        if self.sorts.len() >= MOST_SORTS {
            return Err(Stop::Fault(GroundFault::TooMany { line }));
        }
        self.sorts.push(sort)?;
        Ok(())
    }

    /// Begins a block. The fault `DoubleName` where a block of its variable is open, `NoName` where no sort has the name,
    /// `TooNested` at the fourth.
    pub fn add_block(
        &mut self,
        line: u32,
        variable: u8,
        sort: &[u8],
    ) -> Result<(), Stop<GroundFault>>
        ensures { Leaves result self.new (file.with_variable line variable sort.now self.old) }
    {
        if is_open(&self.blocks, variable) {
            return Err(Stop::Fault(GroundFault::DoubleName { line }));
        }
        match self.sort_number(sort) {
            Some(sort) => self.add_known_block(line, variable, sort),
            None => Err(Stop::Fault(GroundFault::NoName { line })),
        }
    }

    /// Begins a block of the sort of this number.
    fn add_known_block(
        &mut self,
        line: u32,
        variable: u8,
        sort: usize,
    ) -> Result<(), Stop<GroundFault>>
        ensures { Leaves result self.new (with_block line variable (Some sort) self.old) }
    {
        if self.blocks.len() >= MOST_OPEN {
            return Err(Stop::Fault(GroundFault::TooNested { line }));
        }
        self.blocks.push_front(OpenBlock { variable, line })?;
        self.items.push(Item::Forall { variable, sort })?;
        Ok(())
    }

    /// Ends the innermost block. The fault `BadLine` where none is open.
    pub fn end_block(&mut self, line: u32) -> Result<(), Stop<GroundFault>>
        ensures { Leaves result self.new (without_block line self.old.blocks self.old) }
    {
        match self.blocks.pop_front() {
            Some(_) => {
                self.items.push(Item::End)?;
                Ok(())
            }
            None => Err(Stop::Fault(GroundFault::BadLine { line })),
        }
    }

    /// Adds a body line. The fault `BadLine` where no upper-case letter follows a mark, `NoName` where one that follows is
    /// not the variable of an open block.
    pub fn add_body(&mut self, line: u32, text: &'a [u8]) -> Result<(), Stop<GroundFault>>
        ensures { Leaves result self.new (with_body line text.now self.old) }
    {
        if !has_variables(text) {
            return Err(Stop::Fault(GroundFault::BadLine { line }));
        }
        if !has_open_variables(&self.blocks, text) {
            return Err(Stop::Fault(GroundFault::NoName { line }));
        }
        self.items.push(Item::Body { line, text })?;
        Ok(())
    }
}
