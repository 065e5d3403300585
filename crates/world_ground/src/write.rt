ghost use Rattle.std.specs.Prelude.{◌≡◌, ◌+◌, ◌≤◌, ◌==◌, length, min, OnOk, IsErrOf};
ghost use Rattle.std.specs.List.{position_or_len};
ghost use Rattle.spec_outside.specs.Appending.{Appended, AppendedPrefix};
ghost use Rattle.spec_outside.specs.Counts.{Rose};
ghost use Rattle.spec_outside.specs.Writes.{AreLines, Writes};

use crate::ground::Ground;
use base_outside::{Sink, SinkFault};

/// How many bytes stand before the first line feed.
fn until_feed(text: &[u8]) -> usize
    ensures { result ≡ position_or_len (λ b. b == 10) text.now }
{
    text.iter().take_while(|b| **b != b'\n').count()
}

/// How many bytes the first line of the text has, with its line feed.
fn line_len(text: &[u8]) -> usize
    ensures { result ≡ min (position_or_len (λ b. b == 10) text.now + 1) (length text.now) }
{
    let until = until_feed(text);
    if until < text.len() { until + 1 } else { until }
}

/// Writes the text of the world script by one write a line. After a stop a prefix of it was written.
/// `SinkFault::Failed` comes only where the sink's count of failures rose in this call.
pub fn write_ground<K: Sink>(out: &mut K, g: &Ground) -> Result<(), SinkFault>
    ensures whole { OnOk result (Appended (K.written out.old) (K.written out.new) g.now.text) }
    ensures prefix { AppendedPrefix (K.written out.old) (K.written out.new) g.now.text }
    ensures failed { IsErrOf result SinkFault.Failed → Rose (K.faults out.old) (K.faults out.new) }
    ensures count { K.faults out.old ≤ K.faults out.new }
    ensures writes { AreLines g.now.text → Writes K.write_gives result out.old out.new }
{
    let mut rest = g.text();
    'lines: while !rest.is_empty() {
        let (line, after) = rest.split_at(line_len(rest));
        out.write(line)?;
        rest = after;
    }
    Ok(())
}
