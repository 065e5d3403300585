ghost use Rattle.std.specs.Prelude.{◌≡◌, [], OnOk};
ghost use Rattle.cli_serve.specs.Asking.{Asks, is_request_word};
ghost use Rattle.spec_serve.specs.Requests.{RequestReads};

use base_texts::Stop;
use spec_serve::Request;
use spec_world_file::WorldFaultKind;
use std::alloc::Global;
use world_draft::Reading;
use world_lines::{content, cut, is};
use world_reader::read_text;

/// Whether a line of a host may begin with this word: those of moments and events.
fn is_request(word: &[u8]) -> bool
    ensures { result ≡ is_request_word word.now }
{
    is(word, "at") || is(word, "tick") || is(word, "halt") || is(word, "set") || is(word, "tell")
}

/// Reads the text of a line of a host, after those before it, whose events were taken; or answers what is wrong with it.
pub fn read_request(
    alloc: Global,
    reading: &mut Reading,
    text: &[u8],
) -> Result<Request, Stop<WorldFaultKind>>
    requires { reading.old.events ≡ [] }
    ensures reads { Asks result reading.new (RequestReads reading.old text.now) }
    ensures taken { OnOk result (reading.new.events ≡ []) }
{
    let line = content(text);
    if is(line, "finish") {
        return Ok(Request::Finish);
    }
    let (word, _) = cut(line);
    if !is_request(word) {
        return Err(Stop::Fault(WorldFaultKind::BadLine));
    }
    read_text(alloc, reading, text)?;
    match reading.take_event() {
        Some(event) => Ok(Request::Make(event)),
        None => Ok(Request::At),
    }
}
