ghost use Rattle.std.specs.Prelude.{◌≡◌, ◌≢◌, ◌≤◌, ◌⊎◌, ◌<◌, ◌+◌, ℕ, List, [], ◌∷◌, Err, IfErr, IfOk, Ok, OnOk, false, length, true};
ghost use Rattle.spec_outside.specs.Counts.{Rose};
ghost use Rattle.spec_output.specs.Lines.{line_names};
ghost use Rattle.spec_session.specs.Labels.{labels};
ghost use Rattle.spec_program.specs.declared.exit.Exit.TheVariants as exit;
ghost use Rattle.spec_serve.specs.Served.{Hears, IsHeard};
ghost use Rattle.spec_serve.specs.Talks.{Heard, HeardSaid, LinesSaid, Said, Serves, finish_all, ok_line, only, ready_line, refuse};
ghost use Rattle.cli_serve.specs.Serving.{Answers, CanEnd, CanGoOn, CanRead, FinishOver, HasEnded, HasSaid, IsHandedOn, IsLeft, IsOver, IsPart, IsReady, IsStop, IsUnread, Shows, TakesAll, TookLine, Writes, sink};
ghost use Rattle.cli_serve.specs.Taking.{Asked, IsAsked, untaken};

use crate::answer::{Starts, write_answer};
use crate::over::{Over, stopped_exit, unfinished_exit};
use crate::refusal::{misuse_fault, write_refused};
use crate::request::read_request;
use base_outside::{Lines, Sink};
use base_texts::{NoMemory, Stop};
use host_session::Session;
use spec_outside::LineFault;
use spec_program::Exit;
use spec_serve::{Request, RequestFault};
use spec_session::{Ended, Misuse};
use spec_world::Event;
use std::alloc::Global;
use text_lines::{Names, TextStop, empty_line, names_of, put_bytes, put_number, write_line};
use world_draft::Reading;

/// A session that is served.
#[derive(Drop)]
pub struct Serving {
    alloc: Global,
    session: Session,
    names: Names,
    /// What the next line is read after.
    reading: Reading,
    starts: Starts,
    /// The line that was taken last.
    text: Vec<u8>,
    /// Room for a line that is written.
    line: Vec<u8>,
}

/// The number of the last line that may be taken.
const LAST_LINE: u64 = 4_294_967_295;

/// Why a line could not be taken.
fn untaken(fault: LineFault) -> Over
    ensures { result ≡ untaken fault }
{
    match fault {
        LineFault::TooLong => Over::Refused(RequestFault::TooLong),
        LineFault::Failed | LineFault::Cut => Over::Refused(RequestFault::End),
        LineFault::NoMemory => Over::Stopped(TextStop::NoMemory),
    }
}

/// Whether there was no further event of the world to make.
fn is_unfound(made: &Result<(), Ended>) -> bool
    ensures unfound { result ≡ true → made.now ≡ Err (Ended.Misused Misuse.NoEvent) }
    ensures found { result ≡ false → made.now ≢ Err (Ended.Misused Misuse.NoEvent) }
{
    match made {
        Err(Ended::Misused(Misuse::NoEvent)) => true,
        _ => false,
    }
}

/// What a session is served with: the names of its lines, the places of starts, and room for a line.
fn fittings(alloc: Global, session: &Session) -> Result<(Names, Starts, Vec<u8>), NoMemory>
    ensures names { IfOk result (λ fittings. fittings.0 ≡ line_names session.now.tree session.now.world) }
    ensures places { IfOk result (λ fittings. length (labels session.now.tree) < length fittings.1.places.items) }
{
    let names = names_of(alloc, session.tree(), session.world(), session.slots())?;
    let starts = Starts::new(alloc, session.nodes())?;
    let line = empty_line(alloc)?;
    Ok((names, starts, line))
}

impl Serving {
    /// Begins to serve a session, whose lines are read after what was read of its world.
    pub fn new(alloc: Global, session: Session, reading: Reading) -> Result<Serving, NoMemory>
        requires usable { session.usable ≡ true }
        requires events { reading.events ≡ [] }
        requires own { TakesAll session.own session }
        ensures ready { IfOk result IsReady }
        ensures serves { IfOk result (λ serving. (serving.session ≡ session) × (serving.reading ≡ reading)) }
    {
        let (names, starts, line) = match fittings(alloc, &session) {
            Ok(fittings) => fittings,
            Err(NoMemory) => {
                drop(session);
                drop(reading);
                return Err(NoMemory);
            }
        };
        Ok(Serving {
            alloc,
            session,
            names,
            reading,
            starts,
            text: Vec::new(alloc),
            line,
        })
    }

    /// Writes the block of an event that was made so.
    fn show<K: Sink>(&mut self, made: Result<(), Ended>, out: &mut K) -> Result<(), Over>
        requires places { length (labels self.old.session.tree) < length self.old.starts.places.items }
        requires names { self.old.names ≡ line_names self.old.session.tree self.old.session.world }
        ensures shows { Shows made self.old.session result
            (sink (K.written out.old) (K.handed out.old) (K.faults out.old))
            (sink (K.written out.new) (K.handed out.new) (K.faults out.new)) }
        ensures kept { (self.new.session ≡ self.old.session) × (self.new.reading ≡ self.old.reading) }
        ensures names { self.new.names ≡ self.old.names }
        ensures places { length self.new.starts.places.items ≡ length self.old.starts.places.items }
        ensures count { K.faults out.old ≤ K.faults out.new }
    {
        let shown = match made {
            Ok(()) => Ok(()),
            Err(Ended::Fault(_)) => Err(Over::Faulted),
            Err(Ended::NoMemory) => return Err(Over::Stopped(TextStop::NoMemory)),
            Err(Ended::Misused(misuse)) => return Err(Over::Refused(misuse_fault(misuse))),
        };
        write_answer(
            &mut self.line,
            out,
            &self.session,
            &self.names,
            &mut self.starts,
        )?;
        shown
    }

    /// Makes the world's own events, and writes the block of each.
    fn make_own<K: Sink>(&mut self, out: &mut K) -> Result<(), Over>
        requires ready { IsReady self.old }
        ensures whole { OnOk result ((heard : Heard) →
            IsPart (Serves self.old.session.own heard self.old.reading self.old.session)
            (HeardSaid heard self.old.reading self.new.session)
            (sink (K.written out.old) (K.handed out.old) (K.faults out.old))
            (sink (K.written out.new) (K.handed out.new) (K.faults out.new))) }
        ensures over { IfErr result (λ over. (heard : Heard) → IsUnread over heard →
            IsOver over 0 self.new.session (Serves self.old.session.own heard self.old.reading self.old.session)
            (sink (K.written out.old) (K.handed out.old) (K.faults out.old))
            (sink (K.written out.new) (K.handed out.new) (K.faults out.new))) }
        ensures reading { self.new.reading ≡ self.old.reading }
        ensures left { IsLeft result self.new }
        ensures count { K.faults out.old ≤ K.faults out.new }
    {
        'events: loop {
            let made = self.session.own_event();
            if is_unfound(&made) {
                return Ok(());
            }
            self.show(made, out)?;
        }
    }

    /// Says how many nodes there are, and that lines are read from now on.
    fn say_ready<K: Sink>(&mut self, out: &mut K) -> Result<(), Over>
        ensures says { Writes (ready_line self.old.session ∷ []) (Ok tt) result
            (sink (K.written out.old) (K.handed out.old) (K.faults out.old))
            (sink (K.written out.new) (K.handed out.new) (K.faults out.new)) }
        ensures handed { OnOk result (IsHandedOn (sink (K.written out.new) (K.handed out.new) (K.faults out.new))) }
        ensures kept { (self.new.session ≡ self.old.session) × (self.new.reading ≡ self.old.reading) }
        ensures names { self.new.names ≡ self.old.names }
        ensures places { self.new.starts ≡ self.old.starts }
        ensures count { K.faults out.old ≤ K.faults out.new }
    {
        self.line.clear();
        put_bytes(&mut self.line, b"ready ")?;
        put_number(&mut self.line, self.session.nodes() as u64)?;
        put_bytes(&mut self.line, b"\n")?;
        self.hand_on(out)
    }

    /// Says that a line was answered.
    fn say_ok<K: Sink>(&mut self, out: &mut K) -> Result<(), Over>
        ensures says { Writes (ok_line ∷ []) (Ok tt) result
            (sink (K.written out.old) (K.handed out.old) (K.faults out.old))
            (sink (K.written out.new) (K.handed out.new) (K.faults out.new)) }
        ensures handed { OnOk result (IsHandedOn (sink (K.written out.new) (K.handed out.new) (K.faults out.new))) }
        ensures kept { (self.new.session ≡ self.old.session) × (self.new.reading ≡ self.old.reading) }
        ensures names { self.new.names ≡ self.old.names }
        ensures places { self.new.starts ≡ self.old.starts }
        ensures count { K.faults out.old ≤ K.faults out.new }
    {
        self.line.clear();
        put_bytes(&mut self.line, b"ok\n")?;
        self.hand_on(out)
    }

    /// Writes the line that was put, and hands on all that was written.
    fn hand_on<K: Sink>(&mut self, out: &mut K) -> Result<(), Over>
        ensures says { Writes (self.old.line.items ∷ []) (Ok tt) result
            (sink (K.written out.old) (K.handed out.old) (K.faults out.old))
            (sink (K.written out.new) (K.handed out.new) (K.faults out.new)) }
        ensures handed { OnOk result (IsHandedOn (sink (K.written out.new) (K.handed out.new) (K.faults out.new))) }
        ensures same { self.new ≡ self.old }
        ensures count { K.faults out.old ≤ K.faults out.new }
    {
        write_line(out, self.line.as_slice())?;
        match out.flush() {
            Ok(()) => Ok(()),
            Err(fault) => Err(Over::Stopped(TextStop::from(fault))),
        }
    }

    /// Reads what the line that was taken asks, which has this number.
    fn request(&mut self, number: u64) -> Result<Request, Over>
        requires ready { CanRead self.old }
        ensures asks { Asked number self.old.text.items self.old.reading result self.new.reading }
        ensures session { self.new.session ≡ self.old.session }
        ensures left { IsLeft result self.new }
    {
        if number > LAST_LINE {
            return Err(Over::Refused(RequestFault::TooMany));
        }
        match read_request(self.alloc, &mut self.reading, self.text.as_slice()) {
            Ok(request) => Ok(request),
            Err(Stop::Fault(kind)) => Err(Over::Refused(RequestFault::Line(kind))),
            Err(Stop::NoMemory) => Err(Over::Stopped(TextStop::NoMemory)),
        }
    }

    /// Takes the next line, which has this number, and reads what it asks. The end of the input asks for the finish.
    fn next_request<L: Lines>(&mut self, lines: &mut L, number: u64) -> Result<Request, Over>
        requires ready { CanRead self.old }
        ensures asks { IsAsked (L.ahead lines.old) (Rose (L.faults lines.old) (L.faults lines.new)) number self.old.reading
            result (L.ahead lines.new) self.new.reading }
        ensures session { self.new.session ≡ self.old.session }
        ensures left { IsLeft result self.new }
        ensures line_count { L.faults lines.old ≤ L.faults lines.new }
    {
        match lines.next(&mut self.text) {
            Ok(true) => self.request(number),
            Ok(false) => Ok(Request::Finish),
            Err(fault) => Err(untaken(fault)),
        }
    }

    /// Makes the event that a line asks for, writes its block, and says that the line was answered.
    fn make<K: Sink>(&mut self, event: Event, out: &mut K) -> Result<(), Over>
        requires ready { CanRead self.old }
        ensures goes_on { OnOk result ((heard : Heard) (number : ℕ) →
            IsPart (Answers (Request.Make event) number self.old.reading self.old.session heard)
            (LinesSaid heard.texts heard.broken (number + 1) self.old.reading self.new.session)
            (sink (K.written out.old) (K.handed out.old) (K.faults out.old))
            (sink (K.written out.new) (K.handed out.new) (K.faults out.new))) }
        ensures over { IfErr result (λ over. (heard : Heard) (number : ℕ) → IsUnread over heard →
            IsOver over number self.new.session (Answers (Request.Make event) number self.old.reading self.old.session heard)
            (sink (K.written out.old) (K.handed out.old) (K.faults out.old))
            (sink (K.written out.new) (K.handed out.new) (K.faults out.new))) }
        ensures reading { self.new.reading ≡ self.old.reading }
        ensures handed { OnOk result (IsHandedOn (sink (K.written out.new) (K.handed out.new) (K.faults out.new))) }
        ensures left { IsLeft result self.new }
        ensures count { K.faults out.old ≤ K.faults out.new }
    {
        let Event { at, what } = event;
        let made = self.session.event(what, at);
        self.show(made, out)?;
        self.say_ok(out)
    }

    /// Answers the next line, which has this number, and says whether lines are still read.
    fn answer<L: Lines, K: Sink>(
        &mut self,
        lines: &mut L,
        number: u64,
        out: &mut K,
    ) -> Result<bool, Over>
        requires ready { CanRead self.old }
        requires handed { IsHandedOn (sink (K.written out.old) (K.handed out.old) (K.faults out.old)) }
        ensures goes_on { result ≡ Ok true → (text : List ℕ) × TookLine (L.ahead lines.old) text (L.ahead lines.new)
            × ((heard : Heard) → IsPart (LinesSaid (text ∷ heard.texts) heard.broken number self.old.reading self.old.session)
            (LinesSaid heard.texts heard.broken (number + 1) self.new.reading self.new.session)
            (sink (K.written out.old) (K.handed out.old) (K.faults out.old))
            (sink (K.written out.new) (K.handed out.new) (K.faults out.new))) }
        ensures counted { result ≡ Ok true → number ≤ LAST_LINE }
        ensures ends { result ≡ Ok false → (heard : Heard) × Hears (L.ahead lines.old) ⊥ heard
            × LinesSaid heard.texts heard.broken number self.old.reading self.old.session (finish_all exit.Done self.new.session)
            × (K.written out.new ≡ K.written out.old) }
        ensures over { IfErr result (λ over. (heard : Heard)
            × Hears (L.ahead lines.old) (Rose (L.faults lines.old) (L.faults lines.new) ⊎ IsStop over) heard
            × IsOver over number self.new.session
            (LinesSaid heard.texts heard.broken number self.old.reading self.old.session)
            (sink (K.written out.old) (K.handed out.old) (K.faults out.old))
            (sink (K.written out.new) (K.handed out.new) (K.faults out.new))) }
        ensures handed { OnOk result (IsHandedOn (sink (K.written out.new) (K.handed out.new) (K.faults out.new))) }
        ensures left { IsLeft result self.new }
        ensures line_count { L.faults lines.old ≤ L.faults lines.new }
        ensures count { K.faults out.old ≤ K.faults out.new }
    {
        match self.next_request(lines, number)? {
            Request::Finish => Ok(false),
            Request::At => {
                self.say_ok(out)?;
                Ok(true)
            }
            Request::Make(event) => {
                self.make(event, out)?;
                Ok(true)
            }
        }
    }

    /// Answers line after line up to a finish, or one that is not answered: why, and its number.
    fn answer_all<L: Lines, K: Sink>(
        &mut self,
        lines: &mut L,
        out: &mut K,
    ) -> Result<(), (Over, u64)>
        requires ready { CanRead self.old }
        requires handed { IsHandedOn (sink (K.written out.old) (K.handed out.old) (K.faults out.old)) }
        ensures ends { OnOk result ((heard : Heard) × Hears (L.ahead lines.old) ⊥ heard
            × IsPart (LinesSaid heard.texts heard.broken 1 self.old.reading self.old.session)
            (λ rest. rest ≡ finish_all exit.Done self.new.session)
            (sink (K.written out.old) (K.handed out.old) (K.faults out.old))
            (sink (K.written out.new) (K.handed out.new) (K.faults out.new))) }
        ensures over { IfErr result (λ at. (heard : Heard)
            × Hears (L.ahead lines.old) (Rose (L.faults lines.old) (L.faults lines.new) ⊎ IsStop at.0) heard
            × IsOver at.0 at.1 self.new.session
            (LinesSaid heard.texts heard.broken 1 self.old.reading self.old.session)
            (sink (K.written out.old) (K.handed out.old) (K.faults out.old))
            (sink (K.written out.new) (K.handed out.new) (K.faults out.new))) }
        ensures left { OnOk result (CanRead self.new) }
        ensures left_over { IfErr result (λ at. CanEnd at.0 self.new) }
        ensures line_count { L.faults lines.old ≤ L.faults lines.new }
        ensures count { K.faults out.old ≤ K.faults out.new }
    {
        let mut number = 1;
        'lines: loop {
            match self.answer(lines, number, out) {
                Ok(true) => number += 1,
                Ok(false) => return Ok(()),
                Err(over) => return Err((over, number)),
            }
        }
    }

    /// Finishes the runners in order, and writes the block of each.
    fn finish<K: Sink>(&mut self, out: &mut K) -> Result<(), Over>
        requires ready { CanGoOn self.old }
        ensures whole { OnOk result ((exit : Exit) → IsPart (λ said. said ≡ finish_all exit self.old.session) (λ rest. rest ≡ only exit)
            (sink (K.written out.old) (K.handed out.old) (K.faults out.old))
            (sink (K.written out.new) (K.handed out.new) (K.faults out.new))) }
        ensures over { IfErr result (λ over. (exit : Exit) → FinishOver over (finish_all exit self.old.session) exit
            (sink (K.written out.old) (K.handed out.old) (K.faults out.old))
            (sink (K.written out.new) (K.handed out.new) (K.faults out.new))) }
        ensures count { K.faults out.old ≤ K.faults out.new }
    {
        let runners = self.session.world().runners;
        for place in 0..runners {
            let made = self.session.finish(place + 1);
            self.show(made, out)?;
        }
        Ok(())
    }

    /// Finishes the runners, and gives the exit: this one, or another one where that comes to no end.
    fn end<K: Sink>(&mut self, exit: Exit, out: &mut K) -> Exit
        requires ready { CanGoOn self.old }
        requires exit { (exit ≡ Exit.Done) ⊎ (exit ≡ Exit.Request) }
        ensures says { HasSaid (finish_all exit self.old.session) result
            (sink (K.written out.old) (K.handed out.old) (K.faults out.old))
            (sink (K.written out.new) (K.handed out.new) (K.faults out.new)) }
        ensures count { K.faults out.old ≤ K.faults out.new }
    {
        match self.finish(out) {
            Ok(()) => exit,
            Err(over) => unfinished_exit(over, exit),
        }
    }

    /// Writes that the line of this number is refused, and finishes the runners.
    fn refuse<K: Sink>(&mut self, fault: RequestFault, number: u64, out: &mut K) -> Exit
        requires ready { CanGoOn self.old }
        ensures says { HasSaid (refuse fault number self.old.session) result
            (sink (K.written out.old) (K.handed out.old) (K.faults out.old))
            (sink (K.written out.new) (K.handed out.new) (K.faults out.new)) }
        ensures count { K.faults out.old ≤ K.faults out.new }
    {
        match write_refused(self.alloc, fault, number, out) {
            Ok(()) => self.end(Exit::Request, out),
            Err(stop) => stopped_exit(stop),
        }
    }

    /// Makes the world's own events, and says that lines are read.
    fn begin<K: Sink>(&mut self, out: &mut K) -> Result<(), Over>
        requires ready { IsReady self.old }
        ensures whole { OnOk result ((heard : Heard) →
            IsPart (Serves self.old.session.own heard self.old.reading self.old.session)
            (LinesSaid heard.texts heard.broken 1 self.old.reading self.new.session)
            (sink (K.written out.old) (K.handed out.old) (K.faults out.old))
            (sink (K.written out.new) (K.handed out.new) (K.faults out.new))) }
        ensures over { IfErr result (λ over. (heard : Heard) → IsUnread over heard →
            IsOver over 0 self.new.session (Serves self.old.session.own heard self.old.reading self.old.session)
            (sink (K.written out.old) (K.handed out.old) (K.faults out.old))
            (sink (K.written out.new) (K.handed out.new) (K.faults out.new))) }
        ensures handed { OnOk result (IsHandedOn (sink (K.written out.new) (K.handed out.new) (K.faults out.new))) }
        ensures reading { self.new.reading ≡ self.old.reading }
        ensures left { IsLeft result self.new }
        ensures count { K.faults out.old ≤ K.faults out.new }
    {
        self.make_own(out)?;
        self.say_ready(out)
    }

    /// Ends where no line is read any more, for this reason, at the line of this number.
    fn ended<K: Sink>(&mut self, over: Over, number: u64, out: &mut K) -> Exit
        requires ready { CanEnd over self.old }
        ensures says { HasEnded over number self.old.session result
            (sink (K.written out.old) (K.handed out.old) (K.faults out.old))
            (sink (K.written out.new) (K.handed out.new) (K.faults out.new)) }
        ensures count { K.faults out.old ≤ K.faults out.new }
    {
        match over {
            Over::Faulted => Exit::Fault,
            Over::Refused(fault) => self.refuse(fault, number, out),
            Over::Stopped(stop) => stopped_exit(stop),
        }
    }

    /// Serves: makes the world's own events, answers line after line, and finishes the runners at the end.
    pub fn run<L: Lines, K: Sink>(&mut self, lines: &mut L, out: &mut K) -> Exit
        requires ready { IsReady self.old }
        ensures says { (heard : Heard) × IsHeard (L.ahead lines.old) (Rose (L.faults lines.old) (L.faults lines.new)) result heard
            × (said : Said) × Serves self.old.session.own heard self.old.reading self.old.session said
            × HasSaid said result
            (sink (K.written out.old) (K.handed out.old) (K.faults out.old))
            (sink (K.written out.new) (K.handed out.new) (K.faults out.new)) }
        ensures line_count { L.faults lines.old ≤ L.faults lines.new }
        ensures count { K.faults out.old ≤ K.faults out.new }
    {
        match self.begin(out) {
            Ok(()) => match self.answer_all(lines, out) {
                Ok(()) => self.end(Exit::Done, out),
                Err((over, number)) => self.ended(over, number, out),
            },
            Err(over) => self.ended(over, 0, out),
        }
    }
}
