ghost use Rattle.std.specs.Prelude.{◌≡◌, ◌++◌, OnOk};
ghost use Rattle.spec_output.specs.Lines.{cause_words, port_word, value_words};

use crate::names::Names;
use crate::put::{put_bytes, put_quoted, put_signed};
use base_texts::NoMemory;
use spec_run::{Cause, NumericPort};
use spec_script::Value;

/// The name of the port, as a fault tells it.
pub fn port_word(port: NumericPort) -> &'static [u8]
    ensures { result.now ≡ port_word port }
{
    match port {
        NumericPort::SuccessCount => b"success_count",
        NumericPort::FailureCount => b"failure_count",
        NumericPort::NumAttempts => b"num_attempts",
        NumericPort::NumCycles => b"num_cycles",
        NumericPort::Msec => b"msec",
        NumericPort::DelayMsec => b"delay_msec",
        NumericPort::ThenSkip => b"then_skip",
        NumericPort::NumberOfRetries => b"number_of_retries",
        NumericPort::Hz => b"hz",
    }
}

/// Adds the words of the cause of a fault of the node with this uid. The error is want of memory.
pub fn put_cause(out: &mut Vec<u8>, uid: u32, cause: Cause, names: &Names) -> Result<(), NoMemory>
    ensures { OnOk result (out.new.items ≡ out.old.items ++ cause_words names.now uid cause) }
{
    match cause {
        Cause::NoEntry { slot } => {
            put_bytes(out, b"NoEntry ")?;
            names.put_cell(out, slot)
        }
        Cause::NoInput { place } => {
            put_bytes(out, b"NoInput ")?;
            put_bytes(out, names.input_name(uid, place))
        }
        Cause::Overflow => put_bytes(out, b"Overflow"),
        Cause::Range => put_bytes(out, b"Range"),
        Cause::ZeroDivisor => put_bytes(out, b"ZeroDivisor"),
        Cause::NotWhole => put_bytes(out, b"NotWhole"),
        Cause::Mixed => put_bytes(out, b"Mixed"),
        Cause::TextTooLong => put_bytes(out, b"TextTooLong"),
        Cause::BadPort { port } => {
            put_bytes(out, b"BadPort ")?;
            put_bytes(out, port_word(port))
        }
    }
}

/// Adds the value: a number in decimal, or a text in quotes. The error is want of memory.
pub fn put_value(out: &mut Vec<u8>, value: &Value) -> Result<(), NoMemory>
    ensures { OnOk result (out.new.items ≡ out.old.items ++ value_words value.now) }
{
    match value {
        Value::Int(n) => put_signed(out, *n),
        Value::Text(text) => put_quoted(out, text.list()),
    }
}
