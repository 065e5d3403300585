ghost use Rattle.std.specs.Prelude.{◌≡◌, ◌<◌, ◌^◌};
ghost use Rattle.spec_tree.specs.Terms.{node_count};

use spec_tree::Term;

/// The number of nodes of a term.
pub fn nodes_in(term: &Term) -> u32
    requires { node_count term.now < 2 ^ 32 }
    ensures { result ≡ node_count term.now }
{
    let mut count = 1;
    for child in term.children.list() {
        count += nodes_in(child);
    }
    count
}
