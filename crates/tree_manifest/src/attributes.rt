ghost use Rattle.std.specs.Prelude.{◌≡◌, option_copied};
ghost use Rattle.spec_tree_file.specs.Attributes.{value_of};

use base_texts::Name;

/// The value of the attribute of this name.
pub fn attribute<'a>(attributes: &'a [(Name, Name)], name: &[u8]) -> Option<&'a Name>
    ensures { option_copied result ≡ value_of name.now attributes.now }
{
    for (key, value) in attributes {
        if name == key.list() {
            return Some(value);
        }
    }
    None
}
