ghost use Rattle.std.specs.Prelude.{◌≡◌, ◌≤◌, ◌++◌, IfOk, OnOk, length};
ghost use Rattle.spec_output.specs.LoadTexts.{retry_text, texts, tree_text};

use crate::load::leaf::put_leaf_id;
use base_texts::NoMemory;
use std::alloc::Global;
use text_lines::put_bytes;

/// Puts the node that tries the leaf of this number up to three times.
fn put_retry(out: &mut Vec<u8>, n: u32) -> Result<(), NoMemory>
    ensures { OnOk result (out.new.items ≡ out.old.items ++ retry_text n) }
{
    put_bytes(out, b"<RetryUntilSuccessful num_attempts=\"3\"><")?;
    put_leaf_id(out, n)?;
    put_bytes(out, b"/></RetryUntilSuccessful>")
}

/// Puts so many of these nodes.
fn put_retries(out: &mut Vec<u8>, count: u32) -> Result<(), NoMemory>
    requires { count ≤ 1000 }
    ensures { OnOk result (out.new.items ≡ out.old.items ++ texts retry_text 1 count) }
{
    for before in 0..count {
        put_retry(out, before + 1)?;
    }
    Ok(())
}

/// The tree file of the load of this number: a Sequence of `n` nodes that each try a leaf up to three
/// times.
pub fn load_tree(alloc: Global, n: u32) -> Result<Vec<u8>, NoMemory>
    requires { n ≤ 1000 }
    ensures text { IfOk result (λ bytes. bytes.items ≡ tree_text n) }
    ensures short { IfOk result (λ bytes. length bytes.items ≤ 1048576) }
{
    let mut out = Vec::new(alloc);
    put_bytes(
        &mut out,
        b"<root BTCPP_format=\"4\"><BehaviorTree ID=\"Load\"><Sequence>",
    )?;
    put_retries(&mut out, n)?;
    put_bytes(&mut out, b"</Sequence></BehaviorTree></root>")?;
    Ok(out)
}
