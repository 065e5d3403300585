ghost use Rattle.std.specs.Prelude.{◌≡◌, ◌≤◌, ◌++◌, ◌∷◌, [], codes, length, IfOk, OnOk};
ghost use Rattle.world_ground.specs.Flat.{flat_each, flat_filled, flat_lines, with_flat_line};

use crate::fill::put_filled;
use crate::ground::Ground;
use base_texts::{Name, NoMemory};
use std::alloc::Global;
use std::marker::Model;

/// Lines as one text, and for each the number of the line of the file from which it comes.
#[derive(Drop)]
pub struct Lines {
    text: Vec<u8>,
    origins: Vec<u32>,
}

impl Model for Lines {
    ghost use Rattle.world_ground.specs.Flat.{FlatLines};

    ghost Value = { FlatLines };

    ghost view = { λ lines. record { text = lines.text.items; origins = lines.origins.items } };
}

impl Lines {
    /// No lines.
    pub fn new(alloc: Global) -> Lines
        ensures { result ≡ flat_lines [] }
    {
        Lines {
            text: Vec::new(alloc),
            origins: Vec::new(alloc),
        }
    }

    /// Adds a line. The error is want of memory; so below.
    pub fn add(&mut self, origin: u32, text: &[u8]) -> Result<(), NoMemory>
        ensures { OnOk result (self.new ≡ with_flat_line (record { origin = origin; text = text.now }) self.old) }
    {
        self.text.extend_from_slice(text)?;
        self.text.push(b'\n')?;
        self.origins.push(origin)?;
        Ok(())
    }

    /// Adds other lines, in which the variable has this value and this place.
    fn add_filled(
        &mut self,
        lines: &Lines,
        variable: u8,
        value: &[u8],
        place: u64,
    ) -> Result<(), NoMemory>
        ensures { OnOk result (self.new ≡ flat_filled variable value.now place lines.now self.old) }
    {
        put_filled(
            &mut self.text,
            lines.text.as_slice(),
            variable,
            value,
            place,
        )?;
        self.origins.extend_from_slice(lines.origins.as_slice())?;
        Ok(())
    }

    /// Adds other lines once for each of the values of a variable.
    pub fn add_each(&mut self, lines: &Lines, variable: u8, values: &[Name]) -> Result<(), NoMemory>
        ensures { OnOk result (self.new ≡ flat_each variable 1 values.now lines.now self.old) }
    {
        for (i, value) in values.iter().enumerate() {
            self.add_filled(lines, variable, value.list(), i as u64 + 1)?;
        }
        Ok(())
    }

    /// The world script of these lines. Its first line comes from the first of the file.
    pub fn into_ground(self, alloc: Global) -> Result<Ground, NoMemory>
        requires { length (codes "bt-world 1\n" ++ self.text) ≤ 1048576 }
        ensures { IfOk result (λ g. g ≡ record { text = codes "bt-world 1\n" ++ self.text; origins = 1 ∷ self.origins }) }
    {
        let mut text = Vec::from_slice(alloc, b"bt-world 1\n")?;
        text.extend_from_slice(self.text.as_slice())?;
        let mut origins = Vec::from_slice(alloc, &[1])?;
        origins.extend_from_slice(self.origins.as_slice())?;
        Ok(Ground::of(text, origins))
    }
}
