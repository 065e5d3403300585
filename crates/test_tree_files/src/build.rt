//! What tree files are read as, and the first fault of each.

ghost use Rattle.std.specs.Prelude.{◌≡◌, Ok};
ghost use Rattle.tree_elements.specs.Valid.{IsValid};
ghost use Rattle.spec_tree_file.specs.Models.{manifest_in};

use base_texts::{Name, NoMemory, Shared, Stop};
use spec_script::{Script, Value};
use spec_tree::{Guards, Port, PortValue, Term, Tree};
use spec_tree_file::{BuildFault, Elements};
use std::alloc::{AllocError, Global};
use std::test::Fail;
use tree_build::{build, work};
use tree_elements::read_elements;
use tree_manifest::{Manifest, manifest_of};

/// The text of a name.
fn text(name: &Name) -> &str {
    str::from_utf8(name.list()).unwrap_or("?")
}

/// A port as it is read: numbers bare, texts in quotes, keys in braces.
fn port_text(alloc: Global, port: &Port) -> Result<String, AllocError> {
    let name = text(&port.name);
    match &port.value {
        PortValue::Lit(Value::Int(n)) => format!(in alloc; " {name}={n}"),
        PortValue::Lit(Value::Text(t)) => {
            format!(in alloc; " {name}='{}'", str::from_utf8(t.list()).unwrap_or("?"))
        }
        PortValue::Key(key) => format!(in alloc; " {name}={{{}}}", text(key)),
    }
}

/// The number of statements of a script, where it is there.
fn script_text(
    alloc: Global,
    name: &str,
    script: &Option<Shared<Script>>,
) -> Result<String, AllocError> {
    match script {
        Some(script) => format!(in alloc; " {name}:{}", script.get().stmts.list().len()),
        None => format!(in alloc; ""),
    }
}

/// The guards of a node that are there, with their numbers of statements.
fn guards_text(alloc: Global, guards: &Guards) -> Result<String, AllocError> {
    let mut all = String::new(alloc);
    for (name, script) in [
        ("failure_if", &guards.failure_if),
        ("success_if", &guards.success_if),
        ("skip_if", &guards.skip_if),
        ("while_true", &guards.while_true),
        ("on_success", &guards.on_success),
        ("on_failure", &guards.on_failure),
        ("post", &guards.post),
        ("on_halted", &guards.on_halted),
    ] {
        all.push_str(script_text(alloc, name, script)?.as_str())?;
    }
    Ok(all)
}

/// A node without its children.
fn put_head(alloc: Global, term: &Term, out: &mut String) -> Result<(), AllocError> {
    let (id, name) = (text(&term.id), text(&term.name));
    out.push_str(format!(in alloc; "{:?} {id} {name}", term.kind)?.as_str())?;
    for port in term.ports.iter() {
        out.push_str(port_text(alloc, port)?.as_str())?;
    }
    if term.autoremap {
        out.push_str(" autoremap")?;
    }
    out.push_str(script_text(alloc, "code", &term.code)?.as_str())?;
    out.push_str(guards_text(alloc, &term.guards)?.as_str())?;
    Ok(())
}

/// A node with its children in parentheses.
fn put_term(alloc: Global, term: &Term, out: &mut String) -> Result<(), AllocError> {
    put_head(alloc, term, out)?;
    for child in term.children.list() {
        out.push_str(" (")?;
        put_term(alloc, child, out)?;
        out.push_str(")")?;
    }
    Ok(())
}

/// A fault in words.
fn fault_text(alloc: Global, fault: &BuildFault) -> Result<String, AllocError> {
    match fault {
        BuildFault::NotRoot { place } => format!(in alloc; "NotRoot {place}"),
        BuildFault::Format => format!(in alloc; "Format"),
        BuildFault::DoubleTree { id } => format!(in alloc; "DoubleTree '{}'", text(id)),
        BuildFault::NoMain => format!(in alloc; "NoMain"),
        BuildFault::NoTree { id } => format!(in alloc; "NoTree '{}'", text(id)),
        BuildFault::TooManyNodes => format!(in alloc; "TooManyNodes"),
        BuildFault::TooDeep { uid } => format!(in alloc; "TooDeep {uid}"),
        BuildFault::UnknownNode { uid } => format!(in alloc; "UnknownNode {uid}"),
        BuildFault::Recursive { id } => format!(in alloc; "Recursive '{}'", text(id)),
        BuildFault::TooManyScopes => format!(in alloc; "TooManyScopes"),
        BuildFault::ChildCount { uid } => format!(in alloc; "ChildCount {uid}"),
        BuildFault::UnknownPort { uid } => format!(in alloc; "UnknownPort {uid}"),
        BuildFault::OldSubTree { uid } => format!(in alloc; "OldSubTree {uid}"),
        BuildFault::BadLiteral { uid } => format!(in alloc; "BadLiteral {uid}"),
        BuildFault::BadScript { uid, fault } => format!(in alloc; "BadScript {uid} {fault:?}"),
        BuildFault::TooManyKeys => format!(in alloc; "TooManyKeys"),
        BuildFault::TooMuchWork => format!(in alloc; "TooMuchWork"),
    }
}

/// A tree as text: the ID of its main tree, and its nodes.
fn tree_text(alloc: Global, tree: &Tree) -> Result<String, AllocError> {
    let mut all = format!(in alloc; "{}: ", text(&tree.main))?;
    put_term(alloc, &tree.term, &mut all)?;
    Ok(all)
}

/// What the elements of a file are read as, with its models and the main tree that is asked for.
fn built_text(
    alloc: Global,
    elements: &Elements,
    models: &Manifest,
    main: Option<&Name>,
) -> Result<String, AllocError>
    requires valid { IsValid elements.now.root }
    requires models { manifest_in elements.now.root ≡ Ok models.now }
{
    match build(alloc, elements, models, main) {
        Ok(tree) => tree_text(alloc, &tree),
        Err(Stop::Fault(fault)) => fault_text(alloc, &fault),
        Err(Stop::NoMemory) => String::from_str(alloc, "no memory"),
    }
}

/// What the elements of a file are read as, where the main tree is asked for by its name as a text.
fn asked_text(
    alloc: Global,
    elements: &Elements,
    models: &Manifest,
    main: Option<&str>,
) -> Result<String, AllocError>
    requires valid { IsValid elements.now.root }
    requires models { manifest_in elements.now.root ≡ Ok models.now }
{
    match main {
        Some(id) => {
            let Ok(name) = Name::copied(alloc, id.as_bytes()) else {
                return String::from_str(alloc, "no memory");
            };
            built_text(alloc, elements, models, Some(&name))
        }
        None => built_text(alloc, elements, models, None),
    }
}

/// What the elements of a file are read as, with the models among them.
fn elements_text(
    alloc: Global,
    elements: &Elements,
    main: Option<&str>,
) -> Result<String, AllocError>
    requires { IsValid elements.now.root }
{
    match manifest_of(alloc, elements) {
        Ok(models) => asked_text(alloc, elements, &models, main),
        Err(_) => String::from_str(alloc, "no models"),
    }
}

/// What a file is read as.
fn file_text(alloc: Global, file: &[u8], main: Option<&str>) -> Result<String, AllocError> {
    if file.len() > 1_048_576 {
        return String::from_str(alloc, "too long");
    }
    match read_elements(alloc, file) {
        Ok(elements) => elements_text(alloc, &elements, main),
        Err(_) => String::from_str(alloc, "no elements"),
    }
}

/// The beginning of a file of version 4.
const FOUR: &str = "<root BTCPP_format=\"4\">";

/// The beginning of a file of version 3.
const THREE: &str = "<root>";

/// What a node is read as that is the main tree of a file with this beginning. The file has another
/// tree, `S`.
fn node_text(alloc: Global, root: &str, node: &str) -> Result<String, AllocError> {
    let file = format!(in alloc;
        "{root}<BehaviorTree ID=\"M\">{node}</BehaviorTree><BehaviorTree ID=\"S\"><A/></BehaviorTree></root>"
    )?;
    file_text(alloc, file.as_bytes(), Some("M"))
}

/// Files with the main tree that is asked for, and what each is read as.
static FILES: [(&str, Option<&str>, &str); 28] = [
    ("<tree/>", None, "NotRoot 0"),
    ("<root BTCPP_format=\"5\"><a/></root>", None, "NotRoot 23"),
    ("<root BTCPP_format=\"5\"/>", None, "Format"),
    ("<root BTCPP_format=\"\"/>", None, "Format"),
    ("<root BTCPP_format=\"03\"/>", None, "Format"),
    ("<root BTCPP_format=\"4\"/>", None, "NoMain"),
    ("<root BTCPP_format=\"3\"/>", None, "NoMain"),
    ("<root/>", None, "NoMain"),
    ("<root><a/></root>", None, "NotRoot 6"),
    (
        "<root BTCPP_format=\"3\"><BehaviorTree/><BehaviorTree ID=\"\"/></root>",
        None,
        "DoubleTree ''",
    ),
    (
        "<root main_tree_to_execute=\"C\"><BehaviorTree ID=\"A\"/></root>",
        None,
        "NoTree 'C'",
    ),
    (
        "<root><BehaviorTree ID=\"A\"/><BehaviorTree ID=\"B\"/></root>",
        Some("A"),
        "ChildCount 0",
    ),
    (
        "<root main_tree_to_execute=\"M\"><BehaviorTree ID=\"M\"><Sequence><A/><SubTree ID=\"S\"/></Sequence></BehaviorTree><BehaviorTree ID=\"S\"/></root>",
        None,
        "ChildCount 3",
    ),
    (
        "<root main_tree_to_execute=\"M\"><BehaviorTree ID=\"M\"><SubTree ID=\"S\"/></BehaviorTree><BehaviorTree ID=\"S\"><SubTreePlus ID=\"M\"/></BehaviorTree></root>",
        None,
        "Recursive 'M'",
    ),
    (
        "<root><BehaviorTree ID=\"M\"><A e=\"1\"/></BehaviorTree><TreeNodesModel><Action ID=\"A\"><input_port name=\"c\"/></Action></TreeNodesModel></root>",
        None,
        "UnknownPort 1",
    ),
    (
        "<root><BehaviorTree ID=\"M\"><SequenceStar><A b=\"1\"/></SequenceStar></BehaviorTree><TreeNodesModel><Control ID=\"SequenceStar\"/><SubTreePlus ID=\"S\"><input_port/></SubTreePlus><Action ID=\"A\"><input_port name=\"b\"/><input_port name=\"c\" default=\"2\"/></Action></TreeNodesModel></root>",
        None,
        "M: SequenceWithMemory SequenceWithMemory SequenceWithMemory (Leaf A A b=1 c=2)",
    ),
    (
        "<root BTCPP_format=\"4\"><BehaviorTree/><BehaviorTree ID=\"\"/></root>",
        None,
        "DoubleTree ''",
    ),
    (
        "<root BTCPP_format=\"4\"><BehaviorTree ID=\"A\"/><BehaviorTree ID=\"B\"/></root>",
        None,
        "NoMain",
    ),
    (
        "<root BTCPP_format=\"4\" main_tree_to_execute=\"C\"><BehaviorTree ID=\"A\"/></root>",
        None,
        "NoTree 'C'",
    ),
    (
        "<root BTCPP_format=\"4\" main_tree_to_execute=\"C\"><BehaviorTree ID=\"A\"><X/></BehaviorTree></root>",
        Some("A"),
        "A: Leaf X X",
    ),
    (
        "<root BTCPP_format=\"4\" main_tree_to_execute=\"\"><BehaviorTree><X/></BehaviorTree><BehaviorTree ID=\"B\"/></root>",
        None,
        ": Leaf X X",
    ),
    (
        "<root BTCPP_format=\"4\"><BehaviorTree ID=\"M\"/></root>",
        None,
        "ChildCount 0",
    ),
    (
        "<root BTCPP_format=\"4\"><BehaviorTree ID=\"M\"><SubTree ID=\"M\"/></BehaviorTree></root>",
        None,
        "Recursive 'M'",
    ),
    (
        "<root BTCPP_format=\"4\" main_tree_to_execute=\"M\"><BehaviorTree ID=\"M\"><Sequence><A/><SubTree ID=\"S\"/></Sequence></BehaviorTree><BehaviorTree ID=\"S\"/></root>",
        None,
        "ChildCount 3",
    ),
    (
        "<root BTCPP_format=\"4\" main_tree_to_execute=\"M\"><BehaviorTree ID=\"M\"><Sequence><SubTree ID=\"S\" a=\"{b}\" c=\"{=}\" d=\"7\" _autoremap=\"1\" name=\"n\"/><A/></Sequence></BehaviorTree><BehaviorTree ID=\"S\"><Inverter><B/></Inverter></BehaviorTree></root>",
        None,
        "M: Sequence Sequence Sequence (SubTree S n a={b} c={c} d=7 autoremap (Inverter Inverter Inverter (Leaf B B))) (Leaf A A)",
    ),
    (
        "<root BTCPP_format=\"4\"><BehaviorTree ID=\"M\"><A b=\"1\" _x=\"2\"/></BehaviorTree><TreeNodesModel><Action ID=\"A\"><input_port name=\"c\" default=\"{=}\"/><output_port name=\"b\" default=\"5\"/><inout_port name=\"d\"/></Action></TreeNodesModel></root>",
        None,
        "M: Leaf A A b=1 c={c}",
    ),
    (
        "<root BTCPP_format=\"4\"><BehaviorTree ID=\"M\"><A e=\"1\"/></BehaviorTree><TreeNodesModel><Action ID=\"A\"><input_port name=\"c\" default=\"{}\"/></Action></TreeNodesModel></root>",
        None,
        "UnknownPort 1",
    ),
    (
        "<root BTCPP_format=\"4\"><BehaviorTree ID=\"M\"><A/></BehaviorTree><TreeNodesModel><Action ID=\"A\"><input_port name=\"c\" default=\"{}\"/></Action></TreeNodesModel></root>",
        None,
        "BadLiteral 1",
    ),
];

/// Each of `FILES` is read as wanted.
#[test]
fn files(rt: HostRuntime) -> Result<(), Fail> {
    let alloc = rt.alloc();
    for (file, main, wanted) in &FILES {
        assert_eq!(rt;
            file_text(alloc, file.as_bytes(), *main)?.as_str(),
            *wanted,
            "{file}"
        );
    }
    Ok(())
}

/// Nodes, and what the tree of each is read as, in either version.
static NODES: [(&str, &str); 41] = [
    ("<Sequence/>", "ChildCount 1"),
    (
        "<Control ID=\"Sequence\" name=\"s\"><A/></Control>",
        "M: Sequence Sequence s (Leaf A A)",
    ),
    (
        "<Decorator ID=\"Sequence\"><A/></Decorator>",
        "UnknownNode 1",
    ),
    (
        "<Sequence ID=\"X\"><A/></Sequence>",
        "M: Sequence Sequence Sequence (Leaf A A)",
    ),
    ("<Sequence x=\"1\"><A/></Sequence>", "UnknownPort 1"),
    ("<Action/>", "UnknownNode 1"),
    ("<Action ID=\"root\"/>", "M: Leaf root root"),
    (
        "<Condition ID=\"A\" name=\"n\" p=\"{q}\"/>",
        "M: Leaf A n p={q}",
    ),
    ("<Action ID=\"A\"><B/></Action>", "UnknownNode 1"),
    ("<Action ID=\"AlwaysSuccess\"><B/></Action>", "ChildCount 1"),
    ("<Control ID=\"A\"/>", "UnknownNode 1"),
    ("<root/>", "UnknownNode 1"),
    ("<A><B/></A>", "UnknownNode 1"),
    ("<N x=\"{}\"/>", "BadLiteral 1"),
    ("<N x=\"{a b}\"/>", "BadLiteral 1"),
    (
        "<N x=\"-0\" y=\"-7\" z=\"9223372036854775808\"/>",
        "M: Leaf N N x='-0' y=-7 z='9223372036854775808'",
    ),
    (
        "<Parallel failure_count=\"{f}\"><A/></Parallel>",
        "M: Parallel Parallel Parallel failure_count={f} success_count=-1 (Leaf A A)",
    ),
    (
        "<Switch2 variable=\"{v}\" case_2=\"b\" case_1=\"1\"><A/><B/><C/></Switch2>",
        "M: Switch(2) Switch2 Switch2 variable={v} case_2='b' case_1=1 (Leaf A A) (Leaf B B) (Leaf C C)",
    ),
    (
        "<Switch2 variable=\"{v}\" case_1=\"1\"><A/><B/><C/></Switch2>",
        "BadLiteral 1",
    ),
    (
        "<Switch2 case_3=\"c\"><A/><B/><C/></Switch2>",
        "UnknownPort 1",
    ),
    (
        "<Switch2 variable=\"\" case_1=\"\" case_2=\"\"><A/><B/></Switch2>",
        "ChildCount 1",
    ),
    ("<IfThenElse><A/></IfThenElse>", "ChildCount 1"),
    (
        "<RetryUntilSuccessful num_attempts=\"0\"><A/></RetryUntilSuccessful>",
        "BadLiteral 1",
    ),
    (
        "<RetryUntilSuccessful num_attempts=\"-1\"><A/></RetryUntilSuccessful>",
        "M: Retry RetryUntilSuccessful RetryUntilSuccessful num_attempts=-1 (Leaf A A)",
    ),
    ("<Repeat num_cycles=\"1001\"><A/></Repeat>", "BadLiteral 1"),
    (
        "<Timeout msec=\"4294967296\"><A/></Timeout>",
        "BadLiteral 1",
    ),
    ("<Delay><A/></Delay>", "BadLiteral 1"),
    (
        "<RunOnce><A/></RunOnce>",
        "M: RunOnce RunOnce RunOnce then_skip='true' (Leaf A A)",
    ),
    ("<RunOnce then_skip=\"2\"><A/></RunOnce>", "BadLiteral 1"),
    ("<Script/>", "BadLiteral 1"),
    (
        "<Script code=\"x:=1; y=2\"/>",
        "M: ScriptNode Script Script code:2",
    ),
    (
        "<Script code=\"1.5\" _post=\"(\"/>",
        "BadScript 1 RealNumber { place: 0 }",
    ),
    (
        "<ScriptCondition code=\"x\" _while=\"x\" _skipIf=\"1;2\"/>",
        "M: ScriptCondition ScriptCondition ScriptCondition code:1 skip_if:2 while_true:1",
    ),
    (
        "<A _onHalted=\")\" _failureIf=\"\"/>",
        "BadScript 1 Syntax { place: 0 }",
    ),
    (
        "<A _post=\"1.5\" _while=\"(\"/>",
        "BadScript 1 Syntax { place: 1 }",
    ),
    ("<Script x=\"{}\"/>", "UnknownPort 1"),
    ("<N x=\"{}\" _post=\"(\"/>", "BadLiteral 1"),
    ("<SubTree ID=\"N\" x=\"{}\"/>", "NoTree 'N'"),
    ("<SubTree ID=\"M\" x=\"{}\"/>", "Recursive 'M'"),
    (
        "<Repeat num_cycles=\"1000\"><Repeat num_cycles=\"{k}\"><A/></Repeat></Repeat>",
        "TooMuchWork",
    ),
    (
        "<Sequence><A/><Inverter><B x=\"{}\"/></Inverter><Sequence/></Sequence>",
        "BadLiteral 4",
    ),
];

/// Each of `NODES` is read as wanted, in either version.
#[test]
fn nodes(rt: HostRuntime) -> Result<(), Fail> {
    let alloc = rt.alloc();
    for (node, wanted) in &NODES {
        assert_eq!(rt; node_text(alloc, FOUR, node)?.as_str(), *wanted, "{node}");
        assert_eq!(rt; node_text(alloc, THREE, node)?.as_str(), *wanted, "{node}");
    }
    Ok(())
}

/// Nodes that the versions read in different ways, and what the tree of each is read as in version
/// 3 and in version 4.
static VERSIONS: [(&str, &str, &str); 27] = [
    (
        "<SequenceStar/>",
        "ChildCount 1",
        "M: Leaf SequenceStar SequenceStar",
    ),
    (
        "<SequenceStar name=\"s\"><A/></SequenceStar>",
        "M: SequenceWithMemory SequenceWithMemory s (Leaf A A)",
        "UnknownNode 1",
    ),
    (
        "<SequenceStar x=\"1\"><A/></SequenceStar>",
        "UnknownPort 1",
        "UnknownNode 1",
    ),
    (
        "<Control ID=\"SequenceStar\"><A/></Control>",
        "M: SequenceWithMemory SequenceWithMemory SequenceWithMemory (Leaf A A)",
        "UnknownNode 1",
    ),
    (
        "<Action ID=\"SequenceStar\"/>",
        "UnknownNode 1",
        "M: Leaf SequenceStar SequenceStar",
    ),
    (
        "<Action ID=\"SubTreePlus\"/>",
        "M: Leaf SubTreePlus SubTreePlus",
        "M: Leaf SubTreePlus SubTreePlus",
    ),
    (
        "<SubTreePlus/>",
        "NoTree ''",
        "M: Leaf SubTreePlus SubTreePlus",
    ),
    (
        "<SubTreePlus ID=\"S\"><A/></SubTreePlus>",
        "ChildCount 1",
        "UnknownNode 1",
    ),
    (
        "<SubTreePlus ID=\"S\" a=\"{b}\" name=\"n\" _skipIf=\"1\"/>",
        "M: SubTree S n a={b} skip_if:1 (Leaf A A)",
        "M: Leaf SubTreePlus n a={b} skip_if:1",
    ),
    (
        "<SubTreePlus ID=\"S\" _autoremap=\"0\" __autoremap=\"1\"/>",
        "M: SubTree S S autoremap (Leaf A A)",
        "M: Leaf SubTreePlus SubTreePlus",
    ),
    (
        "<SubTreePlus ID=\"S\" _autoremap=\"true\" __autoremap=\"false\"/>",
        "M: SubTree S S autoremap (Leaf A A)",
        "M: Leaf SubTreePlus SubTreePlus",
    ),
    (
        "<SubTreePlus ID=\"S\" _autoremap=\"0\" __autoremap=\"false\"/>",
        "M: SubTree S S (Leaf A A)",
        "M: Leaf SubTreePlus SubTreePlus",
    ),
    (
        "<SubTreePlus ID=\"S\" __autoremap=\"yes\"/>",
        "BadLiteral 1",
        "M: Leaf SubTreePlus SubTreePlus",
    ),
    (
        "<SubTreePlus ID=\"S\" _autoremap=\"1\" __autoremap=\"yes\"/>",
        "BadLiteral 1",
        "M: Leaf SubTreePlus SubTreePlus",
    ),
    (
        "<SubTreePlus ID=\"S\" _autoremap=\"yes\" __autoremap=\"1\"/>",
        "BadLiteral 1",
        "M: Leaf SubTreePlus SubTreePlus",
    ),
    (
        "<SubTreePlus ID=\"S\" _skipIf=\"(\" __autoremap=\"yes\"/>",
        "BadLiteral 1",
        "BadScript 1 Syntax { place: 1 }",
    ),
    (
        "<Inverter __autoremap=\"yes\"><A/></Inverter>",
        "M: Inverter Inverter Inverter (Leaf A A)",
        "M: Inverter Inverter Inverter (Leaf A A)",
    ),
    (
        "<SubTree ID=\"S\" name=\"n\"/>",
        "M: SubTree S n (Leaf A A)",
        "M: SubTree S n (Leaf A A)",
    ),
    (
        "<SubTree ID=\"S\" a=\"b\"/>",
        "OldSubTree 1",
        "M: SubTree S S a='b' (Leaf A A)",
    ),
    (
        "<SubTree ID=\"S\" _autoremap=\"1\"/>",
        "OldSubTree 1",
        "M: SubTree S S autoremap (Leaf A A)",
    ),
    (
        "<SubTree ID=\"S\" __autoremap=\"yes\"/>",
        "OldSubTree 1",
        "M: SubTree S S (Leaf A A)",
    ),
    (
        "<SubTree ID=\"S\" _skipIf=\"(\"/>",
        "OldSubTree 1",
        "BadScript 1 Syntax { place: 1 }",
    ),
    (
        "<SubTree ID=\"S\" a=\"{}\"/>",
        "OldSubTree 1",
        "BadLiteral 1",
    ),
    (
        "<SubTree ID=\"S\" a=\"{}\"><A/></SubTree>",
        "ChildCount 1",
        "ChildCount 1",
    ),
    (
        "<Sequence><A/><SubTree ID=\"S\" a=\"1\"/></Sequence>",
        "OldSubTree 3",
        "M: Sequence Sequence Sequence (Leaf A A) (SubTree S S a=1 (Leaf A A))",
    ),
    (
        "<Sequence><SubTree ID=\"S\" a=\"1\"/><N x=\"{}\"/></Sequence>",
        "OldSubTree 2",
        "BadLiteral 4",
    ),
    (
        "<Sequence><N x=\"{}\"/><SubTree ID=\"S\" a=\"1\"/></Sequence>",
        "BadLiteral 2",
        "BadLiteral 2",
    ),
];

/// Each of `VERSIONS` is read as wanted, in version 3 and in version 4.
#[test]
fn versions(rt: HostRuntime) -> Result<(), Fail> {
    let alloc = rt.alloc();
    for (node, three, four) in &VERSIONS {
        assert_eq!(rt; node_text(alloc, THREE, node)?.as_str(), *three, "{node}");
        assert_eq!(rt; node_text(alloc, FOUR, node)?.as_str(), *four, "{node}");
    }
    Ok(())
}
