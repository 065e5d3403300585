//! Cells and looks in memory.
ghost use Rattle.std.specs.Prelude.{◌≡◌, ◌<◌, length};

use base_texts::Txt;
use spec_script::{Cells, Looks, Seen, Value};
use std::alloc::{AllocError, Global};

/// Entries by slot.
#[derive(Drop)]
pub struct Board {
    pub entries: Vec<Option<Value>>,
}

impl Board {
    /// Two slots without entries.
    pub fn empty(alloc: Global) -> Result<Board, AllocError> {
        Ok(Board {
            entries: vec![in alloc; None, None]?,
        })
    }
}

impl Cells for Board {
    ghost entries = { λ board. board.entries.items };

    fn get(&self, slot: u32) -> Option<&Value> {
        self.entries[slot as usize].as_ref()
    }

    fn put_int(&mut self, slot: u32, n: i64) {
        self.entries[slot as usize] = Some(Value::Int(n));
    }

    fn put_text(&mut self, slot: u32, text: Txt) {
        self.entries[slot as usize] = Some(Value::Text(text));
    }
}

/// What is seen, by slot.
#[derive(Drop)]
pub struct Window {
    pub sights: Vec<Seen>,
}

impl Looks for Window {
    ghost sights = { λ window. window.sights.items };

    fn look(&self, slot: u32) -> Seen {
        self.sights[slot as usize]
    }
}
