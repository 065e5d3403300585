/// What a tick decides of a modelled run.
#[derive(Clone, Copy, Debug)]
pub enum Verdict {
    /// All goals are true.
    Reaches,
    /// The root failed, and not all goals are true.
    Fails,
    GoesOn,
}
