ghost use Rattle.std.specs.Prelude.{[], ◌∷◌, ◌++◌, ◌≡◌, OnErr, OnOk, map};
ghost use Rattle.spec_run.specs.Drivers.{HoldsNothing, NothingHeld};

use base_texts::NoMemory;
use run_driver::Driver;

/// Adds a driver that holds nothing to a roster that holds nothing. Refused, the roster is as before, and
/// the driver is dropped.
pub fn add_driver(
    roster: &mut Vec<Box<dyn Driver>>,
    driver: Box<dyn Driver>,
) -> Result<(), NoMemory>
    requires roster { NothingHeld (map (λ b. state b) roster.old.items) }
    requires driver { HoldsNothing (state driver) }
    ensures ok { OnOk result (map (λ b. state b) roster.new.items ≡ map (λ b. state b) roster.old.items ++ state driver ∷ []) }
    ensures err { OnErr result (map (λ b. state b) roster.new.items ≡ map (λ b. state b) roster.old.items) }
    ensures none { NothingHeld (map (λ b. state b) roster.new.items) }
{
    roster.push(driver)?;
    Ok(())
}
