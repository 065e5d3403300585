//! A run that is watched for what is expected of it, and the lines that tell what became of that.

mod expecter;
mod run;
mod verdicts;

pub use run::{Expecting, run_expected};
