use spec_world::Event;

/// What a line of a host asks.
#[derive(Debug, Drop)]
pub enum Request {
    /// That the runners are finished.
    Finish,
    /// That later events come at another moment.
    At,
    /// That an event is made.
    Make(Event),
}
