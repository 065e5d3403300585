ghost use Rattle.std.specs.Prelude.{◌≡◌, ◌≤◌, length};

use std::marker::Model;

/// The world script that a ground file stands for. Contracts see its text, and for each line the number of the line of
/// the ground file from which it comes.
#[derive(Debug, Drop)]
pub struct Ground {
    text: Vec<u8>,
    origins: Vec<u32>,
}

impl Model for Ground {
    ghost use Rattle.std.specs.Prelude.{◌≤◌, length};
    ghost use Rattle.spec_world_file.specs.GroundFile.{Grounded};

    ghost Value = { Grounded };

    ghost view = { λ g. record { text = g.text.items; origins = g.origins.items } };

    ghost invariant = { λ g. length g.text.items ≤ 1048576 };
}

impl Ground {
    /// The world script of this text, with the origins of its lines. It allocates nothing.
    pub(crate) fn of(text: Vec<u8>, origins: Vec<u32>) -> Ground
        requires { length text.items ≤ 1048576 }
        ensures { result ≡ record { text = text.items; origins = origins.items } }
    {
        Ground { text, origins }
    }

    /// Lends the text.
    pub(crate) fn text(&self) -> &[u8]
        ensures value { result.now ≡ self.now.text }
        ensures short { length result.now ≤ 1048576 }
    {
        self.text.as_slice()
    }

    /// Lends the origins of the lines.
    pub(crate) fn origins(&self) -> &[u32]
        ensures { result.now ≡ self.now.origins }
    {
        self.origins.as_slice()
    }
}
