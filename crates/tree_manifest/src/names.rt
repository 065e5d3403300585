ghost use Rattle.std.specs.Prelude.{◌≡◌};
ghost use Rattle.std.specs.List.{list_all};
ghost use Rattle.spec_tree_file.specs.Marks.{is_name, is_name_first, is_name_rest};
ghost use Rattle.spec_tree.specs.Values.{is_port_name};
ghost use Rattle.spec_tree_file.specs.Models.{can_be_written, holds_models, is_model, is_port};

use script_reader::is_identifier_start;

/// Whether the name of an attribute may begin with the byte.
fn can_begin(c: u8) -> bool
    ensures { result ≡ is_name_first c }
{
    is_identifier_start(c) || c >= 128
}

/// Whether the name of an attribute may go on with the byte.
fn can_go_on(c: u8) -> bool
    ensures { result ≡ is_name_rest c }
{
    can_begin(c) || c.is_ascii_digit() || c == b'-' || c == b'.' || c == b':'
}

/// Whether the name of an attribute may go on with each of the bytes.
fn all_go_on(bytes: &[u8]) -> bool
    ensures { result ≡ list_all is_name_rest bytes.now }
{
    bytes.iter().all(|c| can_go_on(*c))
}

/// Whether the bytes can be the name of an attribute.
fn can_be_name(bytes: &[u8]) -> bool
    ensures { result ≡ is_name bytes.now }
{
    match bytes.first() {
        Some(c) => can_begin(*c) && all_go_on(bytes),
        None => false,
    }
}

/// Whether an attribute of this name can be a port: `name`, `ID` and what begins with `_` are none.
pub fn is_port_name(name: &[u8]) -> bool
    ensures { result ≡ is_port_name name.now }
{
    name != b"name".as_slice() && name != b"ID".as_slice() && name.first() != Some(&b'_')
}

/// Whether a port of this name can be written as an attribute of a node.
pub fn can_be_written(name: &[u8]) -> bool
    ensures { result ≡ can_be_written name.now }
{
    is_port_name(name) && can_be_name(name)
}

/// Whether an element of this name is a port of a model.
pub fn is_port(name: &[u8]) -> bool
    ensures { result ≡ is_port name.now }
{
    name == b"input_port".as_slice()
        || name == b"output_port".as_slice()
        || name == b"inout_port".as_slice()
}

/// Whether an element of this name is a model.
pub fn is_model(name: &[u8]) -> bool
    ensures { result ≡ is_model name.now }
{
    name == b"Action".as_slice() || name == b"Condition".as_slice()
}

/// Whether an element of this name holds the models of a file.
pub fn holds_models(name: &[u8]) -> bool
    ensures { result ≡ holds_models name.now }
{
    name == b"TreeNodesModel".as_slice()
}
