/// A numeric port that can be read from a blackboard entry.
#[derive(Clone, Copy, Debug, PartialEq, Eq)]
pub enum NumericPort {
    SuccessCount,
    FailureCount,
    NumAttempts,
    NumCycles,
    Msec,
    DelayMsec,
    ThenSkip,
    NumberOfRetries,
    Hz,
}

/// Why a visit or a halt faulted.
#[derive(Clone, Copy, Debug, PartialEq, Eq)]
pub enum Cause {
    /// A script reads an entry that is not there.
    NoEntry { slot: u32 },
    /// A row reads an input that is not there: the one at this place among the row's ports.
    NoInput { place: u8 },
    /// A number, or the sum that an effect makes, would not fit 64 bits.
    Overflow,
    /// A division by 0.
    ZeroDivisor,
    /// A quotient that is no whole number.
    NotWhole,
    /// A number stands where a text must, or a text where a number must.
    Mixed,
    /// A joined text would have more than 4,096 bytes.
    TextTooLong,
    /// The length of an action is not 0 to 1,000,000,000,000 milliseconds.
    Range,
    /// A numeric port holds no number of its range.
    BadPort { port: NumericPort },
}

/// A fault of the node with this uid.
#[derive(Clone, Copy, Debug, PartialEq, Eq)]
pub struct NodeFault {
    pub uid: u32,
    pub cause: Cause,
}

/// A fault of a node of this runner.
#[derive(Clone, Copy, Debug, PartialEq, Eq)]
pub struct RunFault {
    pub runner: u8,
    pub uid: u32,
    pub cause: Cause,
}
