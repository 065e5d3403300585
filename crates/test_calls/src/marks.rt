//! When the calls of a run are made.

use base_outside::{MemSink, Sink, SinkFault};
use base_texts::{Items, NoMemory};
use cli_program::add_driver;
use run_driver::{Call, CallPhase, Driver, FactTable, Outs};
use run_leaves::{Conditions, Timed, Told};
use spec_program::Exit;
use spec_run::{DriverKind, Reply, Totals};
use spec_script::Value;
use spec_world::Telling;
use std::alloc::{AllocError, Global};
use std::cell::Cell;
use std::rc::Rc;
use std::test::Fail;
use test_bed::run_with;

/// Cells that drivers and a sink share: each marks there what it does.
#[derive(Drop)]
struct Marks {
    count: Cell<usize>,
    cells: Cell<[char; 16]>,
}

impl Marks {
    /// Cells without marks.
    fn new() -> Marks {
        Marks {
            count: Cell::new(0),
            cells: Cell::new([' '; 16]),
        }
    }

    /// Marks the next cell. After the last cell there are no further marks.
    fn mark(&self, mark: char) {
        let count = self.count.get();
        let mut cells = self.cells.get();
        if let Some(cell) = cells.get_mut(count) {
            *cell = mark;
        }
        self.cells.set(cells);
        self.count.set(count.saturating_add(1));
    }

    /// The marks so far.
    fn text(&self, alloc: Global) -> Result<String, AllocError> {
        let mut text = String::new(alloc);
        for mark in self.cells.get().iter().take(self.count.get()) {
            text.push(*mark)?;
        }
        Ok(text)
    }
}

/// A driver that marks each of its calls, and otherwise does what the driver in it does.
#[derive(Drop)]
struct Marked<D> {
    driver: D,
    marks: Rc<Marks>,
    start: char,
    running: char,
    halted: char,
    told: char,
}

impl<D: Driver> Driver for Marked<D> {
    ghost state = { λ d. D.state d.driver };

    fn kind(&self) -> DriverKind {
        self.driver.kind()
    }

    fn totals(&self) -> Totals {
        self.driver.totals()
    }

    fn held(&self) -> u32 {
        self.driver.held()
    }

    fn inputs(&self, instance: u32) -> &[Option<Value>] {
        self.driver.inputs(instance)
    }

    fn prepare(&mut self, count: u32) -> Result<(), NoMemory> {
        self.driver.prepare(count)
    }

    fn call(&mut self, call: &Call, facts: &mut FactTable, outs: &mut Outs) -> Reply {
        self.marks.mark(match call.phase {
            CallPhase::Start => self.start,
            CallPhase::Running => self.running,
        });
        self.driver.call(call, facts, outs)
    }

    fn halted(&mut self, instance: u32) {
        self.marks.mark(self.halted);
        self.driver.halted(instance)
    }

    fn tell(&mut self, instance: u32, telling: Telling) {
        self.marks.mark(self.told);
        self.driver.tell(instance, telling)
    }

    fn keep_inputs(&mut self, instance: u32, inputs: Items<Option<Value>>) {
        self.driver.keep_inputs(instance, inputs)
    }
}

/// The first words of blocks.
const HEADERS: [&[u8]; 5] = [b"tick ", b"halt ", b"set ", b"tell ", b"finish "];

/// A sink that marks the first line of each block, and otherwise does what the sink in it does.
#[derive(Drop)]
struct MarkedSink<K> {
    sink: K,
    marks: Rc<Marks>,
}

impl<K: Sink> Sink for MarkedSink<K> {
    ghost written = { λ s. K.written s.sink };

    ghost handed = { λ s. K.handed s.sink };

    ghost faults = { λ s. K.faults s.sink };

    ghost write_gives = { λ old piece answer new. K.write_gives old.sink piece answer new.sink };

    ghost piece_appends = { λ old new. K.piece_appends old.sink new.sink };

    ghost failure_counts = { λ old new. K.failure_counts old.sink new.sink };

    fn write(&mut self, piece: &[u8]) -> Result<(), SinkFault> {
        for header in HEADERS {
            if piece.starts_with(header) {
                self.marks.mark('|');
            }
        }
        self.sink.write(piece)
    }

    fn flush(&mut self) -> Result<(), SinkFault> {
        self.sink.flush()
    }
}

/// Marks what a run does: `C` where a condition begins, `T`, `t` and `h` where a timed action begins,
/// goes on and is halted, `O`, `o` and `d` where an action that is told how it ended begins, goes on and is told, and `|`
/// for the first line of a block.
fn run_marked(
    alloc: Global,
    nodes: &str,
    lines: &str,
    marks: &Rc<Marks>,
) -> Result<Exit, NoMemory> {
    let mut sink = MarkedSink {
        sink: MemSink::new(alloc, Vec::new(alloc)),
        marks: marks.clone()?,
    };
    let mut roster: Vec<Box<dyn Driver>> = Vec::new(alloc);
    let driver = Marked {
        driver: Conditions::new(alloc),
        marks: marks.clone()?,
        start: 'C',
        running: 'c',
        halted: 'k',
        told: 'i',
    };
    add_driver(&mut roster, Box::new(alloc, driver)?)?;
    let driver = Marked {
        driver: Timed::new(alloc),
        marks: marks.clone()?,
        start: 'T',
        running: 't',
        halted: 'h',
        told: 'i',
    };
    add_driver(&mut roster, Box::new(alloc, driver)?)?;
    let driver = Marked {
        driver: Told::new(alloc),
        marks: marks.clone()?,
        start: 'O',
        running: 'o',
        halted: 'k',
        told: 'd',
    };
    add_driver(&mut roster, Box::new(alloc, driver)?)?;
    run_with(alloc, nodes, lines, &mut sink, &mut roster)
}

/// The marks of a run, in order, and its exit.
fn marks_of(alloc: Global, nodes: &str, lines: &str) -> Result<String, NoMemory> {
    let marks = Rc::new(alloc, Marks::new())?;
    let exit = run_marked(alloc, nodes, lines, &marks)?;
    Ok(format!(in alloc; "{} {exit:?}", marks.text(alloc)?)?)
}

/// The calls of an event come after the block before it, and before its own block is written.
#[test]
fn calls_in_time(rt: HostRuntime) -> Result<(), Fail> {
    for (nodes, lines, want) in [
        (
            "<Sequence><A/><B/></Sequence>",
            "fact x 1 / condition A is x == 1 / action B timed 300 / tick 1 / at 299 / tick 1 / at 300 / tick 1",
            "CT|t|t|| Done",
        ),
        (
            "<ReactiveSequence><Ok/><B/></ReactiveSequence>",
            "fact ok 1 / condition Ok is ok == 1 / action B timed 100 / tick 1 / at 10 / set ok 0 / tick 1",
            "CT||Ch|| Done",
        ),
        (
            "<Sequence><A/></Sequence>",
            "action A told / tick 1 / tell 1 2 SUCCESS / tick 1",
            "O|d|o|| Done",
        ),
    ] {
        assert_eq!(rt;
            marks_of(rt.alloc(), nodes, lines)?.as_str(),
            want,
            "{nodes}"
        );
    }
    Ok(())
}
