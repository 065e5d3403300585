ghost use Rattle.std.specs.Prelude.{◌≡◌};

use base_texts::Stop;

/// Why a text is no script. A place is a number of bytes before it: that of the first byte of a token, or
/// the text's length.
#[derive(Clone, Copy, Debug, PartialEq, Eq)]
pub enum ScriptFault {
    /// The text has more than 4,096 bytes.
    TooLong,
    /// No token begins here, or no script goes on with the token here.
    Syntax { place: u32 },
    /// A number that is no whole one, as `1.5` or `1e3`.
    RealNumber { place: u32 },
    /// A number above 9,223,372,036,854,775,807.
    NumberTooWide { place: u32 },
    /// The first token of a statement whose expression is higher than 64.
    TooNested { place: u32 },
}

/// Why a script or an expression has no value.
#[derive(Clone, Copy, Debug, PartialEq, Eq)]
pub enum ExecFault {
    /// The slot of a name has no entry.
    NoEntry { slot: u32 },
    /// A number would not fit 64 bits.
    Overflow,
    /// A division by 0.
    ZeroDivisor,
    /// A quotient that is no whole number.
    NotWhole,
    /// A text where a number must be, or a number with a text.
    Mixed,
    /// A joined text of more than 4,096 bytes.
    TextTooLong,
}

impl From<ExecFault> for Stop<ExecFault> {
    ghost use Rattle.base_texts.specs.declared.stop.Stop.TheVariants.{Fault};

    ghost from_gives = { λ fault stop. stop ≡ Fault fault };

    fn from(fault: ExecFault) -> Stop<ExecFault> {
        Stop::Fault(fault)
    }
}
