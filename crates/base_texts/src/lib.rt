//! Names, texts, lists and boxes, which contracts see as plain data, and want of memory.
#![tactic(auto)]

mod boxed;
mod items;
mod name;
mod shared;
mod stop;
mod txt;

pub use boxed::Boxed;
pub use items::Items;
pub use name::{Name, copy_names};
pub use shared::Shared;
pub use stop::{NoMemory, Stop};
pub use txt::Txt;
