ghost use Rattle.std.specs.Prelude.{◌≡◌, ◌+◌, ◌<◌, ◌≤◌, ◌^◌, length, map, true, IfOk, OnOk};
ghost use Rattle.std.specs.List.{list_all};
ghost use Rattle.spec_world_file.specs.Blocks.{lines_of, parts_of, script_of, standing};
ghost use Rattle.world_ground.specs.Seen.{seen_item};
ghost use Rattle.world_ground.specs.Sizes as sizes;
ghost use Rattle.world_ground.specs.Sizes.{nothing_sized, sized_item};
ghost use Rattle.world_ground.specs.Sound.{is_small, FitsIn, Laid};
ghost use Rattle.spec_world.specs.Worlds.{is_name};

use crate::items::Item;
use crate::marks::is_mark;
use crate::sort::values_at;
use base_texts::{Name, NoMemory};
use itoa::Buffer;
use spec_world_file::Sort;
use std::alloc::Global;
use std::marker::Model;

/// A block round a line: its variable, and the number of its sort.
#[derive(Clone, Copy)]
pub struct Around {
    pub variable: u8,
    pub sort: usize,
}

/// How many bytes a mark stands for, over all these values of its variable.
fn values_size(mark: u8, values: &[Name]) -> u64
    requires few { length values.now ≤ 16 }
    requires names { list_all is_name values.now ≡ true }
    ensures { result ≡ sizes.values_size mark 1 values.now }
{
    let mut size = 0;
    for (i, value) in values.iter().enumerate() {
        size += standing_size(mark, value.list(), i as u64 + 1);
    }
    size
}

/// How many bytes a mark with its variable stands for.
fn standing_size(mark: u8, value: &[u8], place: u64) -> u64
    ensures { result ≡ length (standing mark value.now place) }
{
    if mark == b'$' {
        return value.len() as u64;
    }
    let mut buffer = Buffer::new();
    buffer.format(place).len() as u64
}

/// How many instances a line has in these blocks.
fn instances(sorts: &[Sort], around: &[Around]) -> u64
    requires sorts { list_all is_small sorts.now ≡ true }
    requires depth { length around.now ≤ 3 }
    ensures { result ≡ sizes.instances sorts.now around.now }
{
    match around {
        [block, blocks @ ..] => {
            values_at(sorts, block.sort).len() as u64 * instances(sorts, blocks)
        }
        [] => 1,
    }
}

/// How many bytes a mark and its variable stand for, over all instances of their line in these blocks.
fn mark_size(sorts: &[Sort], around: &[Around], mark: u8, variable: u8) -> u64
    requires sorts { list_all is_small sorts.now ≡ true }
    requires depth { length around.now ≤ 3 }
    ensures { result ≡ sizes.mark_size sorts.now around.now mark variable }
{
    match around {
        [block, blocks @ ..] => {
            let values = values_at(sorts, block.sort);
            if variable == block.variable {
                values_size(mark, values) * instances(sorts, blocks)
            } else {
                values.len() as u64 * mark_size(sorts, blocks, mark, variable)
            }
        }
        [] => 2,
    }
}

/// How many bytes all instances of a line have in these blocks, with their line feeds.
fn line_size(sorts: &[Sort], around: &[Around], text: &[u8]) -> u64
    requires sorts { list_all is_small sorts.now ≡ true }
    requires depth { length around.now ≤ 3 }
    requires short { length text.now ≤ 1048576 }
    ensures { result ≡ sizes.line_size sorts.now around.now text.now }
{
    let each = instances(sorts, around);
    let mut size = each;
    let mut rest = text;
    'bytes: while let [byte, follow @ ..] = rest {
        match follow {
            [variable, after @ ..] if is_mark(*byte) => {
                size += mark_size(sorts, around, *byte, *variable);
                rest = after;
            }
            _ => {
                size += each;
                rest = follow;
            }
        }
    }
    size
}

/// The size of the lines so far, and the blocks round the next line, the innermost first.
#[derive(Drop)]
struct Sizing {
    size: u64,
    around: Vec<Around>,
}

impl Model for Sizing {
    ghost use Rattle.world_ground.specs.Sizes.{Sizing};

    ghost Value = { Sizing };

    ghost view = { λ s. record { size = s.size; around = s.around.items } };
}

impl Sizing {
    /// Before the first line: the header has 11 bytes.
    fn new(alloc: Global) -> Sizing
        ensures { result ≡ nothing_sized }
    {
        Sizing {
            size: 11,
            around: Vec::new(alloc),
        }
    }

    /// Adds a line.
    fn add_line(&mut self, sorts: &[Sort], text: &[u8])
        requires sorts { list_all is_small sorts.now ≡ true }
        requires depth { length self.old.around ≤ 3 }
        requires short { length text.now ≤ 1048576 }
        requires room { self.old.size < 2 ^ 63 }
        ensures { self.new ≡ record self.old { size = self.old.size + sizes.line_size sorts.now self.old.around text.now } }
    {
        self.size += line_size(sorts, self.around.as_slice(), text);
    }

    /// Adds what a line says. The error is want of memory.
    fn add(&mut self, sorts: &[Sort], item: &Item) -> Result<(), NoMemory>
        requires sorts { list_all is_small sorts.now ≡ true }
        requires fits { FitsIn (length self.old.around) (seen_item item.now) }
        requires room { self.old.size < 2 ^ 63 }
        ensures { OnOk result (self.new ≡ sized_item sorts.now self.old (seen_item item.now)) }
    {
        match item {
            Item::Body { line: _, text } => self.add_line(sorts, text),
            Item::Forall { variable, sort } => {
                let block = Around {
                    variable: *variable,
                    sort: *sort,
                };
                self.around.insert(0, block)?;
            }
            Item::End => {
                if !self.around.is_empty() {
                    self.around.remove(0);
                }
            }
        }
        Ok(())
    }
}

/// How many bytes the world script of these items has. It is found without the script.
pub fn size_of(alloc: Global, sorts: &[Sort], items: &[Item]) -> Result<u64, NoMemory>
    requires sorts { list_all is_small sorts.now ≡ true }
    requires laid { Laid 0 (map seen_item items.now) 0 }
    requires few { length items.now ≤ 1048577 }
    ensures { IfOk result (λ size. size ≡ length (script_of (lines_of sorts.now (parts_of (map seen_item items.now))))) }
{
    let mut sizing = Sizing::new(alloc);
    for item in items {
        sizing.add(sorts, item)?;
    }
    Ok(sizing.size)
}
