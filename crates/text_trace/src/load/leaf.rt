ghost use Rattle.std.specs.Prelude.{◌≡◌, ◌++◌, OnOk};
ghost use Rattle.spec_output.specs.LoadTexts.{leaf_id};

use base_texts::NoMemory;
use text_lines::{put_bytes, put_number};

/// Puts the ID of the leaf of this number.
pub fn put_leaf_id(out: &mut Vec<u8>, n: u32) -> Result<(), NoMemory>
    ensures { OnOk result (out.new.items ≡ out.old.items ++ leaf_id n) }
{
    put_bytes(out, b"A")?;
    put_number(out, u64::from(n))
}
