ghost use Rattle.std.specs.Prelude.{◌≡◌, [], bytes_eq};
ghost use Rattle.std.specs.List.{list_any};
ghost use Rattle.spec_world_file.specs.WorldFile as file;
ghost use Rattle.spec_world_file.specs.WorldFile.{is_known};
ghost use Rattle.expect_reader.specs.Reading.{subject_seen};

use base_texts::Name;
use spec_expect::Place;
use spec_script::Expr;
use spec_world::{Fact, World};

/// What the lines of a file speak of: the facts and the runners of a world, and the nodes of a tree.
#[derive(Drop)]
pub struct Subject<'a> {
    pub facts: &'a [Fact],
    pub runners: u8,
    pub places: &'a [Place],
}

/// What lines speak of that are about the run in this world of a tree with these nodes.
pub fn subject_of<'a>(world: &'a World, places: &'a [Place]) -> Subject<'a>
    ensures { subject_seen result ≡ record { facts = world.entry.now.facts; runners = world.entry.now.runners; places = places.entry.now } }
{
    Subject {
        facts: world.facts.list(),
        runners: world.runners,
        places,
    }
}

/// Whether a fact has this name.
fn has_fact(facts: &[Fact], name: &Name) -> bool
    ensures { result ≡ list_any (λ fact. bytes_eq name.now fact.name) facts.now }
{
    facts.iter().any(|fact| *name == fact.name)
}

/// Whether a name is that of a fact, where there are no ports.
fn is_fact(facts: &[Fact], name: &Name) -> bool
    ensures { result ≡ is_known [] facts.now name.now }
{
    has_fact(facts, name)
}

/// Whether each name of the expression is that of a fact.
pub fn knows_all(facts: &[Fact], e: &Expr) -> bool
    ensures { result ≡ file.knows_all [] facts.now e.now }
{
    match e {
        Expr::Num(_) => true,
        Expr::Lit(_) => true,
        Expr::Look(name) => is_fact(facts, name),
        Expr::Group(a) => knows_all(facts, a.get()),
        Expr::Unary(_, a) => knows_all(facts, a.get()),
        Expr::Binary(_, a, b) => {
            if !knows_all(facts, a.get()) {
                return false;
            }
            knows_all(facts, b.get())
        }
        Expr::Choose(a, b, c) => {
            if !knows_all(facts, a.get()) {
                return false;
            }
            if !knows_all(facts, b.get()) {
                return false;
            }
            knows_all(facts, c.get())
        }
    }
}
