//! What a host reads of a session: of its nodes, its blackboards and its facts.

use crate::opening::open;
use base_texts::{Items, Name, NoMemory};
use host_session::Session;
use spec_script::Value;
use spec_session::Label;
use spec_world::{Telling, ToldOut, What};
use std::alloc::Global;
use std::process::Abort;

/// A tree in a tree: the leaf goes where its port says, and tells how many steps it has made.
static TREE: &str = "<root BTCPP_format=\"4\" main_tree_to_execute=\"Main\">\
<BehaviorTree ID=\"Main\"><Sequence><Script code=\"goal := 7\"/><SubTree ID=\"Drive\" name=\"way\" to=\"{goal}\" spare=\"{goal}\" pace=\"2\"/></Sequence></BehaviorTree>\
<BehaviorTree ID=\"Drive\"><Go name=\"legs\" to=\"{to}\" fast=\"yes\" steps=\"{steps}\"/></BehaviorTree></root>";

static WORLD: &str = "bt-world 1\nfact calm 3\naction Go(to,fast) told\nout steps\n";

/// A text, or `?` where it is none.
fn text(name: &Name) -> &str {
    str::from_utf8(name.list()).unwrap_or("?")
}

/// A line that tells of a node, with its status.
fn line_of(alloc: Global, session: &Session, uid: u32, label: &Label) -> Result<String, NoMemory> {
    let status = session.status(1, uid);
    Ok(format!(in alloc;
        "{uid} {} {} {} {} {status:?}\n",
        text(&label.id),
        text(&label.name),
        text(&label.path),
        label.scope
    )?)
}

/// The lines of all nodes.
fn lines_of(alloc: Global, session: &Session) -> Result<String, NoMemory> {
    let mut lines = String::new(alloc);
    for before in 0..u32::try_from(session.nodes()).unwrap_or(0) {
        if let Some(label) = session.label(before + 1) {
            lines.push_str(line_of(alloc, session, before + 1, label)?.as_str())?;
        }
    }
    Ok(lines)
}

/// The value of the leaf's port, and that of its output's entry.
fn values_of(alloc: Global, session: &Session) -> Result<String, NoMemory> {
    let to = Name::copied(alloc, b"to")?;
    let fast = Name::copied(alloc, b"fast")?;
    let steps = Name::copied(alloc, b"steps")?;
    Ok(format!(in alloc;
        "{:?} {:?} {:?} {:?}",
        session.port(1, 4, &to),
        session.port(2, 4, &to),
        session.port(1, 4, &fast).is_some(),
        session.entry(1, 3, &steps)
    )?)
}

/// The values of the entries of the leaf's scope and of the key that is handed down: of a name that a node in the scope
/// names, of one that is mapped and named by none, and of one that has a literal.
fn keys_of(alloc: Global, session: &Session) -> Result<String, NoMemory> {
    let goal = Name::copied(alloc, b"goal")?;
    let to = Name::copied(alloc, b"to")?;
    let spare = Name::copied(alloc, b"spare")?;
    let pace = Name::copied(alloc, b"pace")?;
    Ok(format!(in alloc;
        "{:?} {:?} {:?} {:?}",
        session.entry(1, 0, &goal),
        session.entry(1, 3, &to),
        session.entry(1, 3, &spare),
        session.entry(1, 3, &pace)
    )?)
}

/// Reads the entries of keys, once they are written.
fn read_keys(rt: &impl Abort, alloc: Global, session: &mut Session) -> Result<(), NoMemory> {
    make(rt, session, What::Tick(1));
    assert_eq!(rt;
        keys_of(alloc, session)?.as_str(),
        "Some(Int(7)) Some(Int(7)) None Some(Int(2))"
    );
    Ok(())
}

/// Tells the leaf that it has made two steps.
fn telling(alloc: Global) -> Result<Telling, NoMemory> {
    let mut outs = Vec::new(alloc);
    outs.push(ToldOut {
        port: Name::copied(alloc, b"steps")?,
        value: Value::Int(2),
    })?;
    Ok(Telling::Success(Items::of(outs)))
}

/// Makes an event, which is taken.
fn make(rt: &impl Abort, session: &mut Session, what: What) {
    assert!(rt; session.event(what, 5).is_ok());
}

/// Reads a session before, while and after its leaf runs.
fn read(rt: &impl Abort, alloc: Global, session: &mut Session) -> Result<(), NoMemory> {
    assert_eq!(rt; values_of(alloc, session)?.as_str(), "None None true None");
    make(rt, session, What::Tick(1));
    assert_eq!(rt;
        lines_of(alloc, session)?.as_str(),
        "\
1 Sequence Sequence Sequence 0 Some(Running)
2 Script Script Script 0 Some(Success)
3 Drive way way 0 Some(Running)
4 Go legs way/legs 3 Some(Running)
"
    );
    assert_eq!(rt;
        values_of(alloc, session)?.as_str(),
        "Some(Int(7)) None true None"
    );
    make(
        rt,
        session,
        What::Tell {
            runner: 1,
            uid: 4,
            telling: telling(alloc)?,
        },
    );
    make(rt, session, What::Tick(1));
    assert_eq!(rt;
        values_of(alloc, session)?.as_str(),
        "Some(Int(7)) None true Some(Int(2))"
    );
    assert_eq!(rt; session.status(1, 4), Some(spec_run::Status::Idle));
    assert_eq!(rt; session.status(1, 5), None);
    assert_eq!(rt; session.status(2, 4), None);
    assert_eq!(rt; session.facts(), [3].as_slice());
    assert_eq!(rt; session.leaves(), 1);
    assert_eq!(rt; session.last(), 5);
    Ok(())
}

/// A leaf that goes on while another node writes its input.
static WRITTEN: &str =
    "<root BTCPP_format=\"4\"><BehaviorTree ID=\"M\"><Sequence><Script code=\"x := 1\"/>\
<Parallel><Go to=\"{x}\"/><Script code=\"x := 2\"/></Parallel></Sequence></BehaviorTree></root>";

/// Reads what the inputs of a leaf were when it was started, and what its port has after that.
fn read_inputs(rt: &impl Abort, alloc: Global, session: &mut Session) -> Result<(), NoMemory> {
    let to = Name::copied(alloc, b"to")?;
    assert_eq!(rt; session.inputs(1, 4).len(), 0);
    make(rt, session, What::Tick(1));
    let told = format!(in alloc; "{:?} {:?}", session.inputs(1, 4), session.port(1, 4, &to))?;
    assert_eq!(rt; told.as_str(), "[Some(Int(1)), None] Some(Int(2))");
    assert_eq!(rt; session.inputs(1, 1).len(), 0);
    assert_eq!(rt; session.inputs(1, 9).len(), 0);
    assert_eq!(rt; session.inputs(2, 4).len(), 0);
    make(rt, session, What::Halt(1));
    assert_eq!(rt; session.inputs(1, 4).len(), 2);
    Ok(())
}

#[test]
fn sessions_are_read(rt: HostRuntime) -> Result<(), NoMemory> {
    let mut session = open(&rt, rt.alloc(), TREE, WORLD);
    let done = read(&rt, rt.alloc(), &mut session);
    drop(session);
    done
}

#[test]
fn keys_are_found_where_they_are_named(rt: HostRuntime) -> Result<(), NoMemory> {
    let mut session = open(&rt, rt.alloc(), TREE, WORLD);
    let done = read_keys(&rt, rt.alloc(), &mut session);
    drop(session);
    done
}

#[test]
fn inputs_are_those_of_the_start(rt: HostRuntime) -> Result<(), NoMemory> {
    let mut session = open(&rt, rt.alloc(), WRITTEN, WORLD);
    let done = read_inputs(&rt, rt.alloc(), &mut session);
    drop(session);
    done
}
