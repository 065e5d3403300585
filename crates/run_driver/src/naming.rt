ghost use Rattle.std.specs.Prelude.{◌≡◌, ◌≤◌, ◌++◌, ◌∷◌, [], ℕ, OnOk, IfOk, length, unwrap_or};
ghost use Rattle.spec_script.specs.Scripts.{names_of};
ghost use Rattle.spec_run.specs.Leaf.{place_from, place_of as place_in};
ghost use Rattle.spec_world.specs.Worlds.{names_of_facts};
ghost use Rattle.run_driver.specs.Places.{with_places};

use base_texts::{Name, NoMemory};
use spec_script::Expr;
use spec_world::Fact;
use std::alloc::Global;

/// What the expressions of a row may name: its input ports, and the facts of its world.
#[derive(Drop)]
pub(crate) struct Names<'a> {
    pub(crate) ports: &'a [Name],
    pub(crate) facts: &'a [Fact],
    pub(crate) ghost few_ports: { length ports.now ≤ 8 },
    pub(crate) ghost few_facts: { length facts.now ≤ 1024 },
}

/// The place of the input port of this name; none where there is no such port.
fn port_place(ports: &[Name], name: &Name) -> Option<u32>
    requires { length ports.now ≤ 8 }
    ensures { (other : ℕ) → place_from 0 ports.now name.now other ≡ unwrap_or result other }
{
    for (place, port) in ports.iter().enumerate() {
        if port == name {
            return Some(place as u32);
        }
    }
    None
}

/// The place of the fact of this name, after the eight inputs; 0 where there is no such fact.
fn fact_place(facts: &[Fact], name: &Name) -> u32
    requires { length facts.now ≤ 1024 }
    ensures { result ≡ place_from 8 (names_of_facts facts.now) name.now 0 }
{
    for (number, fact) in facts.iter().enumerate() {
        if fact.name == *name {
            return 8 + number as u32;
        }
    }
    0
}

/// The place of a name: that of its input port, else that of its fact, else 0.
fn place_of(names: &Names, name: &Name) -> u32
    ensures { result ≡ place_in names.now.ports.now names.now.facts.now name.now }
{
    match port_place(names.ports, name) {
        Some(place) => place,
        None => fact_place(names.facts, name),
    }
}

/// Adds a name with its place. The error is want of memory.
fn add_name(
    alloc: Global,
    name: &Name,
    names: &Names,
    places: &mut Vec<(Name, u32)>,
) -> Result<(), NoMemory>
    ensures { let place = place_in names.now.ports.now names.now.facts.now in
        OnOk result (places.new.items ≡ places.old.items ++ with_places place (name.now ∷ [])) }
{
    places.push((name.copy(alloc)?, place_of(names, name)))?;
    Ok(())
}

/// Adds the names of an expression with their places. The error is want of memory.
fn add_names(
    alloc: Global,
    e: &Expr,
    names: &Names,
    places: &mut Vec<(Name, u32)>,
) -> Result<(), NoMemory>
    ensures { let place = place_in names.now.ports.now names.now.facts.now in
        OnOk result (places.new.items ≡ places.old.items ++ with_places place (names_of e.now)) }
{
    match e {
        Expr::Num(_) | Expr::Lit(_) => Ok(()),
        Expr::Look(name) => add_name(alloc, name, names, places),
        Expr::Group(a) | Expr::Unary(_, a) => add_names(alloc, a.get(), names, places),
        Expr::Binary(_, a, b) => {
            add_names(alloc, a.get(), names, places)?;
            add_names(alloc, b.get(), names, places)
        }
        Expr::Choose(a, b, c) => {
            add_names(alloc, a.get(), names, places)?;
            add_names(alloc, b.get(), names, places)?;
            add_names(alloc, c.get(), names, places)
        }
    }
}

/// The names of an expression with their places, or want of memory.
pub(crate) fn places_of(
    alloc: Global,
    e: &Expr,
    names: &Names,
) -> Result<Vec<(Name, u32)>, NoMemory>
    ensures { let place = place_in names.now.ports.now names.now.facts.now in
        IfOk result (λ places. places.items ≡ with_places place (names_of e.now)) }
{
    let mut places = Vec::new(alloc);
    add_names(alloc, e, names, &mut places)?;
    Ok(places)
}
