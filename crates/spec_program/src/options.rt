/// The options that a command may have.
#[derive(Clone, Copy)]
pub enum Options {
    /// `--main`
    Main,
    /// `--main` and `--ticks`
    Rounds,
    /// `--expand`, `--ticks` and `--period`
    Limits,
}
