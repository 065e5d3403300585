ghost use Rattle.std.specs.Prelude.{◌≡◌, ◌≤◌, ◌*◌, ◌++◌, IfOk, OnOk, length};
ghost use Rattle.spec_output.specs.LoadTexts.{row_line, row_sort, texts, tick_lines, world_text};

use crate::load::leaf::put_leaf_id;
use base_texts::NoMemory;
use std::alloc::Global;
use text_lines::{put_bytes, put_number};

/// Puts how the leaf of this number goes.
fn put_row_sort(out: &mut Vec<u8>, n: u32) -> Result<(), NoMemory>
    ensures { OnOk result (out.new.items ≡ out.old.items ++ row_sort n) }
{
    if n % 2 == 1 {
        put_bytes(out, b" timed ")?;
        put_number(out, u64::from(10 * (n % 7)))
    } else {
        put_bytes(out, b" replay 0 FFS")
    }
}

/// Puts the row of the leaf of this number.
fn put_row(out: &mut Vec<u8>, n: u32) -> Result<(), NoMemory>
    ensures { OnOk result (out.new.items ≡ out.old.items ++ row_line n) }
{
    put_bytes(out, b"action ")?;
    put_leaf_id(out, n)?;
    put_row_sort(out, n)?;
    put_bytes(out, b"\n")
}

/// Puts the rows of so many leaves.
fn put_rows(out: &mut Vec<u8>, count: u32) -> Result<(), NoMemory>
    requires { count ≤ 1000 }
    ensures { OnOk result (out.new.items ≡ out.old.items ++ texts row_line 1 count) }
{
    for before in 0..count {
        put_row(out, before + 1)?;
    }
    Ok(())
}

/// Puts the tick of this number.
fn put_tick(out: &mut Vec<u8>, n: u32) -> Result<(), NoMemory>
    ensures { OnOk result (out.new.items ≡ out.old.items ++ tick_lines n) }
{
    put_bytes(out, b"at ")?;
    put_number(out, 10 * u64::from(n))?;
    put_bytes(out, b"\ntick 1\n")
}

/// Puts so many ticks.
fn put_ticks(out: &mut Vec<u8>, count: u32) -> Result<(), NoMemory>
    ensures { OnOk result (out.new.items ≡ out.old.items ++ texts tick_lines 0 count) }
{
    for n in 0..count {
        put_tick(out, n)?;
    }
    Ok(())
}

/// The world script of the load of this number: `n` rows, and ten ticks for each, 10 ms apart.
pub fn load_world(alloc: Global, n: u32) -> Result<Vec<u8>, NoMemory>
    requires { n ≤ 1000 }
    ensures text { IfOk result (λ bytes. bytes.items ≡ world_text n) }
    ensures short { IfOk result (λ bytes. length bytes.items ≤ 1048576) }
{
    let mut out = Vec::new(alloc);
    put_bytes(&mut out, b"bt-world 1\n")?;
    put_rows(&mut out, n)?;
    put_ticks(&mut out, 10 * n)?;
    Ok(out)
}
