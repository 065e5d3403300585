ghost use Rattle.std.specs.Prelude.{◌≡◌};
ghost use Rattle.spec_world_file.specs.WorldFile as file;
ghost use Rattle.spec_world_file.specs.WorldFile.{is_known};

use crate::facts::Facts;
use crate::ports::Ports;
use spec_script::Expr;

/// Whether the name is one of the ports or of the facts.
fn knows(facts: &Facts, ports: &Ports, name: &[u8]) -> bool
    ensures { result ≡ is_known ports.now facts.now name.now }
{
    ports.has(name) || facts.has(name)
}

/// Whether each name of the expression is one of the ports or of the facts.
pub fn knows_all(facts: &Facts, ports: &Ports, e: &Expr) -> bool
    ensures { result ≡ file.knows_all ports.now facts.now e.now }
{
    match e {
        Expr::Num(_) => true,
        Expr::Lit(_) => true,
        Expr::Look(name) => knows(facts, ports, name.list()),
        Expr::Group(a) => knows_all(facts, ports, a.get()),
        Expr::Unary(_, a) => knows_all(facts, ports, a.get()),
        Expr::Binary(_, a, b) => {
            if !knows_all(facts, ports, a.get()) {
                return false;
            }
            knows_all(facts, ports, b.get())
        }
        Expr::Choose(a, b, c) => {
            if !knows_all(facts, ports, a.get()) {
                return false;
            }
            if !knows_all(facts, ports, b.get()) {
                return false;
            }
            knows_all(facts, ports, c.get())
        }
    }
}
