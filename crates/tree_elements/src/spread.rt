ghost use Rattle.std.specs.Prelude.{◌<◌};

use base_texts::Name;
use std::hash::{FoldHasher, Hash, Hasher};

/// Among so few names a table may be as slow as a list.
const FEW: usize = 1_000;

/// How many classes of hashes are told apart.
const CLASSES: usize = 256;

/// The class of a name's hash, which is where it stands in a table of so many places.
fn class_of(name: &Name) -> usize
    ensures { result < 256 }
{
    let mut hasher = FoldHasher::default();
    name.hash(&mut hasher);
    let hash = hasher.finish();
    ((hash ^ hash >> 32) % CLASSES as u64) as usize
}

/// How many of the names are of each class.
fn counts_of(attributes: &[(Name, Name)]) -> [usize; CLASSES] {
    let mut counts = [0usize; CLASSES];
    for (name, _) in attributes {
        let class = class_of(name);
        counts[class] = counts[class].saturating_add(1);
    }
    counts
}

/// Whether the names are spread over a table of their hashes. The seed of hashes is fixed, so that names can be computed
/// which all stand in one place, and such a table is as slow as a list. Contracts say nothing of it, since what is found
/// in a table is the same however names are spread.
pub fn are_spread(attributes: &[(Name, Name)]) -> bool {
    if attributes.len() <= FEW {
        return true;
    }
    let most = attributes.len() / 64 + 32;
    counts_of(attributes).iter().all(|count| *count <= most)
}
