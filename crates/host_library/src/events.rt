//! The events of a session.
ghost use Rattle.std.specs.Prelude.{◌≡◌, ◌<◌, ◌≤◌, [], ◌∷◌, ◌++◌, IfNone, IfOk, IfSome, IsTrue, IsUtf8, OnErr, OnOk, Some, length};
ghost use types.Logic.{sem};
ghost use Rattle.host_library.specs.declared.hosted.Hosted.{Hosted as HostedOf};
ghost use Rattle.spec_world.specs.declared.world.Telling.TheVariants.{Success};
ghost use Rattle.spec_script.specs.declared.value.Value.TheVariants.{Text};
ghost use Rattle.spec_world.specs.Worlds.{is_name};
ghost use Rattle.host_session.specs.Reads.{next_moment};
ghost use Rattle.host_library.specs.Codes.{no_memory, ok};
ghost use Rattle.host_library.specs.Events.{Finishes, Forgets, Halts, IntGiven, LeafTold, Nexts, Sets, TellTold, Tells, TextGiven, Ticks, has_place, is_due, text_fits};
ghost use Rattle.host_library.specs.Owned.{hosted_owns};

use crate::codes::{FAULT, MISUSE, NO_EVENT, NO_MEMORY, OK, code_of};
use crate::hosted::Hosted;
use crate::text::is_utf8;
use base_tables::{MOST_OUTPUTS, MOST_TEXT_BYTES};
use base_texts::{Items, NoMemory, Txt};
use spec_script::Value;
use spec_world::{Telling, ToldOut, What};
use std::alloc::Global;
use world_lines::{is_name, name_of};

/// The number of the status SUCCESS.
const SUCCESS: u32 = 2;
/// The number of the status FAILURE.
const FAILURE: u32 = 3;

impl Hosted {
    /// The runner of this number; none where the world has no such runner.
    fn runner(&self, number: u32) -> Option<u8>
        ensures some { IfSome result (λ runner. runner ≡ number) }
        ensures none { IfNone result (self.now.session.world.runners < number) }
    {
        if number <= u32::from(self.session.world().runners) {
            Some(number as u8)
        } else {
            None
        }
    }

    /// Ticks a runner.
    fn tick(&mut self, runner: u32, at: u64) -> u32
        ensures { Ticks self.old runner at result self.new }
    {
        match self.runner(runner) {
            Some(runner) => code_of(self.session.event(What::Tick(runner), at)),
            None => MISUSE,
        }
    }

    /// Halts a runner.
    fn halt(&mut self, runner: u32, at: u64) -> u32
        ensures { Halts self.old runner at result self.new }
    {
        match self.runner(runner) {
            Some(runner) => code_of(self.session.event(What::Halt(runner), at)),
            None => MISUSE,
        }
    }

    /// Changes a fact.
    fn set(&mut self, fact: u32, value: i64, at: u64) -> u32
        ensures { Sets self.old fact value at result self.new }
    {
        code_of(self.session.event(What::Change { fact, value }, at))
    }

    /// Finishes a runner.
    fn finish(&mut self, runner: u32) -> u32
        ensures { Finishes self.old runner result self.new }
    {
        match self.runner(runner) {
            Some(runner) => code_of(self.session.finish(runner)),
            None => MISUSE,
        }
    }

    /// Whether the next of the world's own events is at this moment or before it.
    fn is_due(&self, until: u64) -> bool
        ensures { result ≡ is_due (next_moment self.now.session.own) until }
    {
        match self.session.next_at() {
            Some(at) => at <= until,
            None => false,
        }
    }

    /// Makes the next of the world's own events, where it is due.
    fn next(&mut self, until: u64) -> u32
        ensures { Nexts self.old until result self.new }
    {
        if self.is_due(until) {
            code_of(self.session.own_event())
        } else {
            NO_EVENT
        }
    }

    /// Adds an output to those that the next telling has.
    fn add_out(&mut self, name: &[u8], value: Value) -> Result<(), NoMemory>
        requires { IsTrue (is_name name.now) }
        ensures ok { OnOk result (self.new.outs.items ≡ self.old.outs.items ++ record { port = name.now; value = value } ∷ []) }
        ensures err { OnErr result (self.new.outs.items ≡ self.old.outs.items) }
        ensures session { self.new.session ≡ self.old.session }
    {
        let port = name_of(self.alloc, name)?;
        self.outs.push(ToldOut { port, value })?;
        Ok(())
    }

    /// Whether an output of this name may be added.
    fn has_place(&self, name: &[u8]) -> bool
        ensures { result ≡ has_place self.now name.now }
    {
        self.session.is_usable() && is_name(name) && self.outs.len() < MOST_OUTPUTS
    }

    /// Gives an output a number.
    fn output_int(&mut self, name: &[u8], value: i64) -> u32
        ensures { IntGiven self.old name.now value result self.new }
    {
        if !self.has_place(name) {
            return MISUSE;
        }
        stored(self.add_out(name, Value::Int(value)))
    }

    /// Adds an output with this text.
    fn add_text(&mut self, name: &[u8], text: &[u8]) -> Result<(), NoMemory>
        requires name { IsTrue (is_name name.now) }
        requires utf8 { IsUtf8 text.now }
        requires short { length text.now ≤ 4096 }
        ensures ok { OnOk result (self.new.outs.items ≡ self.old.outs.items ++ record { port = name.now; value = Text text.now } ∷ []) }
        ensures err { OnErr result (self.new.outs.items ≡ self.old.outs.items) }
        ensures session { self.new.session ≡ self.old.session }
    {
        let bytes = Vec::from_slice(self.alloc, text)?;
        let text = Txt::of(bytes)?;
        self.add_out(name, Value::Text(text))
    }

    /// Gives an output a text.
    fn output_text(&mut self, name: &[u8], text: &[u8]) -> u32
        ensures { TextGiven self.old name.now text.now result self.new }
    {
        if !self.has_place(name) || !text_fits(text) {
            return MISUSE;
        }
        stored(self.add_text(name, text))
    }

    /// Forgets the outputs.
    fn clear_outs(&mut self)
        ensures { Forgets self.old self.new }
    {
        self.outs.clear();
    }

    /// Tells a leaf something.
    fn tell_as(&mut self, runner: u8, uid: u32, telling: Telling, at: u64) -> u32
        ensures { LeafTold self.old runner uid telling at result self.new }
    {
        let what = What::Tell {
            runner,
            uid,
            telling,
        };
        let code = code_of(self.session.event(what, at));
        if code != MISUSE {
            self.outs.clear();
        }
        code
    }

    /// Tells a leaf that it has succeeded, with the outputs.
    fn tell_success(&mut self, runner: u8, uid: u32, at: u64) -> u32
        ensures { TellTold (Some (Success self.old.outs.items)) self.old runner uid at result self.new }
    {
        match copy_outs(self.alloc, self.outs.as_slice()) {
            Ok(outs) => self.tell_as(runner, uid, Telling::Success(Items::of(outs)), at),
            Err(NoMemory) => NO_MEMORY,
        }
    }

    /// Tells a leaf of a runner how it ended, or whether it holds.
    fn tell_of(&mut self, runner: u8, uid: u32, status: u32, at: u64) -> u32
        ensures { Tells self.old runner uid status at result self.new }
    {
        if status == SUCCESS {
            self.tell_success(runner, uid, at)
        } else if status == FAILURE {
            self.tell_as(runner, uid, Telling::Failure, at)
        } else {
            MISUSE
        }
    }

    /// Tells a leaf how it ended, or whether it holds.
    fn tell(&mut self, runner: u32, uid: u32, status: u32, at: u64) -> u32
        ensures { Tells self.old runner uid status at result self.new }
    {
        match self.runner(runner) {
            Some(runner) => self.tell_of(runner, uid, status, at),
            None => MISUSE,
        }
    }
}

/// Whether a text may be the value of an output.
fn text_fits(text: &[u8]) -> bool
    ensures { result ≡ text_fits text.now }
{
    text.len() <= MOST_TEXT_BYTES && is_utf8(text)
}

/// How the adding of an output has ended.
fn stored(added: Result<(), NoMemory>) -> u32
    ensures ok { OnOk added (result ≡ ok) }
    ensures err { OnErr added (result ≡ no_memory) }
{
    match added {
        Ok(()) => OK,
        Err(NoMemory) => NO_MEMORY,
    }
}

/// A copy of a value.
fn copy_value(alloc: Global, value: &Value) -> Result<Value, NoMemory>
    ensures { IfOk result (λ copied. copied ≡ value.now) }
{
    match value {
        Value::Int(n) => Ok(Value::Int(*n)),
        Value::Text(text) => Ok(Value::Text(text.copy(alloc)?)),
    }
}

/// Copies of outputs.
fn copy_outs(alloc: Global, outs: &[ToldOut]) -> Result<Vec<ToldOut>, NoMemory>
    ensures { IfOk result (λ copies. copies.items ≡ outs.now) }
{
    let mut copies = Vec::new(alloc);
    for out in outs {
        let port = out.port.copy(alloc)?;
        let value = copy_value(alloc, &out.value)?;
        copies.push(ToldOut { port, value })?;
    }
    Ok(copies)
}

/// Ticks a runner of the session at this pointer.
#[unsafe(no_mangle)]
pub unsafe extern "C" fn bt_tick(session: *mut u8, runner: u32, now_ms: u64) -> u32
    ghost before: { Hosted }
    requires* { sem 𝓛 (hosted_owns session before) }
    ensures* { ∃ₛ (λ (after : HostedOf). sem 𝓛 (hosted_owns session after) ∗ ⌜ Ticks before runner now_ms result after ⌝) }
{
    Hosted::tick(&mut *(session as *mut Hosted), runner, now_ms)
}

/// Halts a runner of the session at this pointer.
#[unsafe(no_mangle)]
pub unsafe extern "C" fn bt_halt(session: *mut u8, runner: u32, now_ms: u64) -> u32
    ghost before: { Hosted }
    requires* { sem 𝓛 (hosted_owns session before) }
    ensures* { ∃ₛ (λ (after : HostedOf). sem 𝓛 (hosted_owns session after) ∗ ⌜ Halts before runner now_ms result after ⌝) }
{
    Hosted::halt(&mut *(session as *mut Hosted), runner, now_ms)
}

/// Changes a fact of the session at this pointer.
#[unsafe(no_mangle)]
pub unsafe extern "C" fn bt_set(session: *mut u8, fact: u32, value: i64, now_ms: u64) -> u32
    ghost before: { Hosted }
    requires* { sem 𝓛 (hosted_owns session before) }
    ensures* { ∃ₛ (λ (after : HostedOf). sem 𝓛 (hosted_owns session after) ∗ ⌜ Sets before fact value now_ms result after ⌝) }
{
    Hosted::set(&mut *(session as *mut Hosted), fact, value, now_ms)
}

/// Tells a leaf of the session at this pointer.
#[unsafe(no_mangle)]
pub unsafe extern "C" fn bt_tell(
    session: *mut u8,
    runner: u32,
    uid: u32,
    status: u32,
    now_ms: u64,
) -> u32
    ghost before: { Hosted }
    requires* { sem 𝓛 (hosted_owns session before) }
    ensures* { ∃ₛ (λ (after : HostedOf). sem 𝓛 (hosted_owns session after) ∗ ⌜ Tells before runner uid status now_ms result after ⌝) }
{
    Hosted::tell(&mut *(session as *mut Hosted), runner, uid, status, now_ms)
}

/// Gives an output of the next telling a number, in the session at this pointer.
#[unsafe(no_mangle)]
pub unsafe extern "C" fn bt_output_int(session: *mut u8, name: &[u8], value: i64) -> u32
    ghost before: { Hosted }
    requires* { sem 𝓛 (hosted_owns session before) }
    ensures* { ∃ₛ (λ (after : HostedOf). sem 𝓛 (hosted_owns session after) ∗ ⌜ IntGiven before name.now value result after ⌝) }
{
    Hosted::output_int(&mut *(session as *mut Hosted), name, value)
}

/// Gives an output of the next telling a text, in the session at this pointer.
#[unsafe(no_mangle)]
pub unsafe extern "C" fn bt_output_text(session: *mut u8, name: &[u8], text: &[u8]) -> u32
    ghost before: { Hosted }
    requires* { sem 𝓛 (hosted_owns session before) }
    ensures* { ∃ₛ (λ (after : HostedOf). sem 𝓛 (hosted_owns session after) ∗ ⌜ TextGiven before name.now text.now result after ⌝) }
{
    Hosted::output_text(&mut *(session as *mut Hosted), name, text)
}

/// Forgets the outputs for the next telling, in the session at this pointer.
#[unsafe(no_mangle)]
pub unsafe extern "C" fn bt_output_clear(session: *mut u8)
    ghost before: { Hosted }
    requires* { sem 𝓛 (hosted_owns session before) }
    ensures* { ∃ₛ (λ (after : HostedOf). sem 𝓛 (hosted_owns session after) ∗ ⌜ Forgets before after ⌝) }
{
    Hosted::clear_outs(&mut *(session as *mut Hosted));
}

/// Makes the world's own next event up to a moment, in the session at this pointer.
#[unsafe(no_mangle)]
pub unsafe extern "C" fn bt_next(session: *mut u8, until_ms: u64) -> u32
    ghost before: { Hosted }
    requires* { sem 𝓛 (hosted_owns session before) }
    ensures* { ∃ₛ (λ (after : HostedOf). sem 𝓛 (hosted_owns session after) ∗ ⌜ Nexts before until_ms result after ⌝) }
{
    Hosted::next(&mut *(session as *mut Hosted), until_ms)
}

/// Finishes a runner of the session at this pointer.
#[unsafe(no_mangle)]
pub unsafe extern "C" fn bt_finish(session: *mut u8, runner: u32) -> u32
    ghost before: { Hosted }
    requires* { sem 𝓛 (hosted_owns session before) }
    ensures* { ∃ₛ (λ (after : HostedOf). sem 𝓛 (hosted_owns session after) ∗ ⌜ Finishes before runner result after ⌝) }
{
    Hosted::finish(&mut *(session as *mut Hosted), runner)
}
