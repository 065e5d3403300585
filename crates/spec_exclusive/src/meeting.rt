/// How two leaves of one runner may meet.
#[derive(Clone, Copy, Debug, PartialEq, Eq)]
pub enum Meeting {
    /// They are never held together.
    Never,
    /// They may be held together within a tick only, before the one is halted.
    Handover,
    /// They may be held together after an event.
    Together,
}
