//! Tests alone: what ground files stand for, their faults, and the worlds of their texts.

mod faults;
mod long;
mod stage;
mod texts;
