ghost use Rattle.std.specs.Prelude.{◌≡◌, ◌≤◌, IfOk, IsErrOf, OnOk};
ghost use Rattle.spec_outside.specs.Appending.{Appended, AppendedPrefix};
ghost use Rattle.spec_outside.specs.Counts.{Rose};
ghost use Rattle.spec_serve.specs.Refusals.{misused, refused_line, request_word};

use base_outside::Sink;
use base_texts::NoMemory;
use cli_refusals::kind_word;
use spec_serve::RequestFault;
use spec_session::Misuse;
use spec_world_file::WorldFaultKind;
use std::alloc::Global;
use text_lines::{TextStop, empty_line, put_bytes, put_number, write_line};

/// Why a session does not take an event that a line asks for.
pub fn misuse_fault(misuse: Misuse) -> RequestFault
    ensures { result ≡ misused misuse }
{
    match misuse {
        Misuse::NoRunner => RequestFault::NoRunner,
        Misuse::NoLeaf => RequestFault::NoLeaf,
        Misuse::NoOutput => RequestFault::NoOutput,
        Misuse::MomentBack => RequestFault::Line(WorldFaultKind::MomentBack),
        Misuse::MomentLate => RequestFault::Line(WorldFaultKind::Range),
        Misuse::NoFact => RequestFault::Line(WorldFaultKind::NoName),
        Misuse::BadTelling => RequestFault::Line(WorldFaultKind::TooMany),
        Misuse::Over | Misuse::NoEvent => RequestFault::End,
    }
}

/// The word of a refusal.
fn fault_word(fault: RequestFault) -> &'static [u8]
    ensures { result.now ≡ request_word fault }
{
    match fault {
        RequestFault::Line(kind) => kind_word(kind),
        RequestFault::NoRunner => b"NoRunner",
        RequestFault::NoLeaf => b"NoLeaf",
        RequestFault::NoOutput => b"NoOutput",
        RequestFault::TooLong => b"TooLong",
        RequestFault::TooMany => b"TooMany",
        RequestFault::End => b"End",
    }
}

/// The line that says that the line of this number is refused.
fn refused_line(alloc: Global, fault: RequestFault, number: u64) -> Result<Vec<u8>, NoMemory>
    ensures { IfOk result (λ line. line.items ≡ refused_line fault number) }
{
    let mut line = empty_line(alloc)?;
    put_bytes(&mut line, b"refused request ")?;
    put_bytes(&mut line, fault_word(fault))?;
    put_bytes(&mut line, b" ")?;
    put_number(&mut line, number)?;
    put_bytes(&mut line, b"\n")?;
    Ok(line)
}

/// Writes that the line of this number is refused.
pub fn write_refused<K: Sink>(
    alloc: Global,
    fault: RequestFault,
    number: u64,
    out: &mut K,
) -> Result<(), TextStop>
    ensures whole { OnOk result (Appended (K.written out.old) (K.written out.new) (refused_line fault number)) }
    ensures prefix { AppendedPrefix (K.written out.old) (K.written out.new) (refused_line fault number) }
    ensures failed { IsErrOf result TextStop.WriteFault → Rose (K.faults out.old) (K.faults out.new) }
    ensures count { K.faults out.old ≤ K.faults out.new }
{
    let line = refused_line(alloc, fault, number)?;
    write_line(out, line.as_slice())
}
