ghost use Rattle.std.specs.Prelude.{IsUtf8};
ghost use Rattle.base_texts.specs.Stops.{Gives};
ghost use Rattle.spec_tree_file.specs.ScriptOf.{script_in};

use base_texts::Stop;
use script_reader::parse_script;
use spec_script::{Script, ScriptFault};
use std::alloc::Global;

/// The script that the text reads as, or its fault.
pub fn script(alloc: Global, text: &[u8]) -> Result<Script, Stop<ScriptFault>>
    requires { IsUtf8 text.now }
    ensures { Gives result (script_in text.now) }
{
    parse_script(alloc, text)
}
