ghost use Rattle.std.specs.Prelude.{◌≡◌, ◌++◌, IfOk, OnOk, decimal};
ghost use Rattle.spec_output.specs.Summaries.{summary_line};

use base_texts::NoMemory;
use spec_output::Counts;
use std::alloc::Global;
use text_lines::{put_bytes, put_number};

/// Puts words and the number after them.
fn put_count(out: &mut Vec<u8>, words: &[u8], count: u64) -> Result<(), NoMemory>
    ensures { OnOk result (out.new.items ≡ out.old.items ++ (words.now ++ decimal count)) }
{
    put_bytes(out, words)?;
    put_number(out, count)
}

/// The line that sums up the load of this number, with its line feed: how many nodes its tree has and
/// how many events its world, and the counts of its run.
pub fn summary_line(
    alloc: Global,
    n: u32,
    nodes: u64,
    events: u64,
    counts: &Counts,
) -> Result<Vec<u8>, NoMemory>
    ensures { IfOk result (λ line. line.items ≡ summary_line n nodes events counts.now) }
{
    let mut line = Vec::new(alloc);
    put_count(&mut line, b"load ", u64::from(n))?;
    put_count(&mut line, b" nodes ", nodes)?;
    put_count(&mut line, b" events ", events)?;
    put_count(&mut line, b" start ", counts.starts)?;
    put_count(&mut line, b" running ", counts.runnings)?;
    put_count(&mut line, b" halted ", counts.haltings)?;
    put_count(&mut line, b" success ", counts.successes)?;
    put_bytes(&mut line, b"\n")?;
    Ok(line)
}
