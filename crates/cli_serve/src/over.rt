ghost use Rattle.std.specs.Prelude.{◌≡◌};
ghost use Rattle.cli_serve.specs.Serving.{stopped_exit, unfinished_exit};
ghost use Rattle.spec_serve.specs.Talks.{faulted};

use base_texts::NoMemory;
use spec_program::Exit;
use spec_serve::RequestFault;
use text_lines::TextStop;

/// Why no line is read any more.
#[derive(Clone, Copy)]
pub enum Over {
    /// The run has ended in a fault.
    Faulted,
    /// A line is refused.
    Refused(RequestFault),
    /// What is to be written was not written.
    Stopped(TextStop),
}

impl From<TextStop> for Over {
    ghost use Rattle.std.specs.Prelude.{◌≡◌};
    ghost use Rattle.cli_serve.specs.declared.over.Over.TheVariants.{Stopped};

    ghost from_gives = { λ stop over. over ≡ Stopped stop };

    fn from(stop: TextStop) -> Over {
        Over::Stopped(stop)
    }
}

impl From<NoMemory> for Over {
    ghost use Rattle.std.specs.Prelude.{◌≡◌};
    ghost use Rattle.cli_serve.specs.declared.over.Over.TheVariants.{Stopped};
    ghost use Rattle.text_lines.specs.declared.stop.TextStop.TheVariants.{NoMemory as no_memory};

    ghost from_gives = { λ _ over. over ≡ Stopped no_memory };

    fn from(_e: NoMemory) -> Over {
        Over::Stopped(TextStop::NoMemory)
    }
}

/// The exit of a program that could not write what it has to say.
pub fn stopped_exit(stop: TextStop) -> Exit
    ensures { result ≡ stopped_exit stop }
{
    match stop {
        TextStop::WriteFault => Exit::Write,
        TextStop::NoMemory => Exit::Memory,
    }
}

/// The exit where a finish ends in a fault, by which the program would have ended with this one.
fn faulted(exit: Exit) -> Exit
    ensures { result ≡ faulted exit }
{
    match exit {
        Exit::Done => Exit::Fault,
        other => other,
    }
}

/// The exit where a finish comes to no end, by which the program would have ended with this one.
pub fn unfinished_exit(over: Over, exit: Exit) -> Exit
    ensures { result ≡ unfinished_exit over exit }
{
    match over {
        Over::Stopped(stop) => stopped_exit(stop),
        Over::Faulted | Over::Refused(_) => faulted(exit),
    }
}
