ghost use Rattle.std.specs.Prelude.{None};
ghost use Rattle.spec_outside.specs.Writes.{Writes};
ghost use Rattle.spec_output.specs.Texts.{block_text};

use crate::watch::Watch;
use base_outside::Sink;
use run_arena::Block;
use std::alloc::Global;
use text_lines::{Names, TextStop, write_block};

/// Writes the lines of each block to a sink as soon as the block is made.
#[derive(Drop)]
pub struct Writer<'a, K: Sink> {
    /// What the lines call the nodes, the facts and the entries.
    pub names: &'a Names,
    pub out: &'a mut K,
}

impl<'a, K: Sink> Watch for Writer<'a, K> {
    ghost use Rattle.std.proofs.Common.{inl};
    ghost use Rattle.base_outside.proofs.Writings.{Writes-after, Wrote-none};

    ghost state = { λ w. record {
      text = block_text w.names.now;
      written = K.written w.out.now;
      faults = K.faults w.out.now;
      counts = None;
      expecting = None;
      lent = w.out.ghost_name;
    } };

    ghost shows = { λ old result new. Writes K.write_gives result old.out.now new.out.now };

    fn show(&mut self, alloc: Global, block: &Block) -> Result<(), TextStop> {
        write_block(alloc, self.out, block, self.names)
    }

    ghost shows_none = { λ w. Wrote-none K.write_gives w.out.now };

    ghost shows_both = { λ a b c result. Writes-after K.write_gives result a.out.now b.out.now c.out.now };

    ghost shows_stop = { λ a b why lines. inl lines };
}
