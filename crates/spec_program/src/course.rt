/// By which events a tree is run, and what is written of it.
#[derive(Clone, Copy, Debug, PartialEq, Eq)]
pub enum Course {
    /// Those of the world's script, whose trace is written.
    Script,
    /// So many rounds: in each the clock is asked once, and every runner is ticked in order.
    Rounds(u32),
    /// Those of the world's script, where the line is written that sums up a load of so many leaves.
    Load(u32),
}
