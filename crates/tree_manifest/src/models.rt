ghost use Rattle.std.specs.Prelude.{◌≡◌, option_copied};
ghost use Rattle.spec_tree_file.specs.Models.{model_of};

use crate::known::KnownModel;
use base_texts::Name;
use indexmap::IndexMap;
use std::marker::Model;

/// The models of a file by their IDs. Contracts see their list, in the order of the file.
#[derive(Drop)]
pub struct Manifest {
    pub(crate) models: IndexMap<Name, KnownModel>,
}

impl Model for Manifest {
    ghost use Rattle.std.specs.Prelude.{List, ℕ};
    ghost use Rattle.spec_tree_file.specs.declared.models.NodeModel.{NodeModel};

    ghost Value = { List (List ℕ × NodeModel) };

    ghost view = { λ manifest. manifest.models.entries };
}

/// The model of the leaves of this ID. None where the file has none. It allocates nothing.
pub fn model<'a>(manifest: &'a Manifest, id: &Name) -> Option<&'a KnownModel>
    ensures { option_copied result ≡ model_of id.now manifest.now }
{
    manifest.models.get(id)
}
