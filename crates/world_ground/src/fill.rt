ghost use Rattle.std.specs.Prelude.{◌≡◌, ◌++◌, OnOk};
ghost use Rattle.spec_world_file.specs.Blocks.{filled, standing};

use crate::marks::is_mark;
use base_texts::NoMemory;
use itoa::Buffer;

/// Adds what a mark with its variable stands for: after `$` the value, after `#` its place. The error is want of memory.
fn put_standing(out: &mut Vec<u8>, mark: u8, value: &[u8], place: u64) -> Result<(), NoMemory>
    ensures { OnOk result (out.new.items ≡ out.old.items ++ standing mark value.now place) }
{
    if mark == b'$' {
        out.extend_from_slice(value)?;
        return Ok(());
    }
    let mut buffer = Buffer::new();
    out.extend_from_slice(buffer.format(place).as_bytes())?;
    Ok(())
}

/// Adds the text, in which the variable has this value and this place. The error is want of memory.
pub fn put_filled(
    out: &mut Vec<u8>,
    text: &[u8],
    variable: u8,
    value: &[u8],
    place: u64,
) -> Result<(), NoMemory>
    ensures { OnOk result (out.new.items ≡ out.old.items ++ filled variable value.now place text.now) }
{
    let mut rest = text;
    'bytes: while let [byte, follow @ ..] = rest {
        match follow {
            [next, after @ ..] if is_mark(*byte) && *next == variable => {
                put_standing(out, *byte, value, place)?;
                rest = after;
            }
            _ => {
                out.push(*byte)?;
                rest = follow;
            }
        }
    }
    Ok(())
}
