use std::marker::Model;

/// What a driver keeps for a leaf that is told nothing: the moment since which it is held, in milliseconds, the number of
/// its completions, counted up to 64, and, for an action whose length is worked out where it begins, that length of the
/// last time that it was held, in milliseconds. Contracts see an instance.
#[derive(Clone, Copy, Debug, PartialEq, Eq)]
pub struct Hold {
    pub since: Option<u64>,
    pub completions: u8,
    pub length: Option<u64>,
}

impl Model for Hold {
    ghost use Rattle.std.specs.Prelude.{[], None};
    ghost use Rattle.spec_run.specs.declared.leaf.Instance.{Instance};

    ghost Value = { Instance };

    ghost view = { λ hold. record { since = hold.since; completions = hold.completions; told = None; length = hold.length; inputs = [] } };

    ghost inverse = { λ instance. record { since = instance.since; completions = instance.completions; length = instance.length } };
}
