/// How a tree is ticked in its modelled run.
#[derive(Clone, Copy, Debug)]
pub struct Pace {
    /// The most ticks of the run.
    pub ticks: u32,
    /// The time from one tick to the next, in milliseconds.
    pub period: u64,
}
