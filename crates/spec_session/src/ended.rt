use spec_run::RunFault;

/// Why a session does not take an event, which then changes nothing.
#[derive(Clone, Copy, Debug, PartialEq, Eq)]
pub enum Misuse {
    /// An event has ended in a fault or for want of memory.
    Over,
    /// The moment is before that of the last event.
    MomentBack,
    /// The moment is after the last one that there is.
    MomentLate,
    /// No runner has this number.
    NoRunner,
    /// No fact has this number.
    NoFact,
    /// No leaf that can be told something has this uid.
    NoLeaf,
    /// The row of the leaf has no such output as one that is told.
    NoOutput,
    /// An output is told twice, or a text that is too long.
    BadTelling,
    /// The world's own events were all made.
    NoEvent,
}

/// Why an event was not made to its end.
#[derive(Clone, Copy, Debug, PartialEq, Eq)]
pub enum Ended {
    /// It was not taken, and nothing has changed.
    Misused(Misuse),
    /// A node faulted. Nothing is held, and no event is taken any more.
    Fault(RunFault),
    /// Memory was wanting. Nothing is held, and no event is taken any more.
    NoMemory,
}
