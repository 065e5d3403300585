ghost use Rattle.base_texts.specs.declared.stop.Stop.TheVariants.{NoMemory as no_memory};
ghost use Rattle.std.specs.Prelude.{◌≡◌};

use std::alloc::{AllocError, AllocFailed};

/// Want of memory, that is, out of memory: an allocation failed.
#[derive(Clone, Copy, Debug, PartialEq, Eq)]
pub struct NoMemory;

/// Why a call stopped: a fault of its own, or want of memory.
#[derive(Debug, Drop)]
pub enum Stop<F> {
    /// The fault that the call's contract names.
    Fault(F),
    /// Want of memory, which may come wherever the call allocates.
    NoMemory,
}

impl From<AllocError> for NoMemory {
    fn from(_e: AllocError) -> NoMemory {
        NoMemory
    }
}

impl<T: Drop> From<AllocFailed<T>> for NoMemory {
    fn from(_e: AllocFailed<T>) -> NoMemory {
        NoMemory
    }
}

impl<F> From<NoMemory> for Stop<F> {
    ghost from_gives = { λ _ stop. stop ≡ no_memory };

    fn from(_e: NoMemory) -> Stop<F> {
        Stop::NoMemory
    }
}

impl<F> From<AllocError> for Stop<F> {
    ghost from_gives = { λ _ stop. stop ≡ no_memory };

    fn from(_e: AllocError) -> Stop<F> {
        Stop::NoMemory
    }
}

impl<T: Drop, F> From<AllocFailed<T>> for Stop<F> {
    ghost from_gives = { λ _ stop. stop ≡ no_memory };

    fn from(_e: AllocFailed<T>) -> Stop<F> {
        Stop::NoMemory
    }
}
