//! Trees with their leaves replaced.

ghost use Rattle.std.specs.Prelude.{◌≡◌, Ok};
ghost use Rattle.tree_elements.specs.Valid.{IsValid};
ghost use Rattle.spec_tree_file.specs.Models.{manifest_in};

use base_texts::{Name, NoMemory, Shared, Stop};
use spec_script::{Script, Value};
use spec_tree::{Guards, Kind, Port, PortValue, Term, Tree};
use spec_tree_file::{Elements, MockFault, Rules};
use std::alloc::Global;
use std::test::Fail;
use tree_build::build;
use tree_elements::read_elements;
use tree_manifest::{Manifest, manifest_of};
use tree_mock::{read_rules, substitute};

/// A name as a text.
fn shown(name: &Name) -> &str {
    str::from_utf8(name.list()).unwrap_or("?")
}

/// A port with its value.
fn port_text(alloc: Global, port: &Port) -> Result<String, NoMemory> {
    let name = shown(&port.name);
    let text = match &port.value {
        PortValue::Lit(Value::Int(n)) => format!(in alloc; " {name}={n}")?,
        PortValue::Lit(Value::Text(text)) => {
            let text = str::from_utf8(text.list()).unwrap_or("?");
            format!(in alloc; " {name}='{text}'")?
        }
        PortValue::Key(key) => format!(in alloc; " {name}={{{}}}", shown(key))?,
    };
    Ok(text)
}

/// A script of this attribute, and nothing where there is none.
fn script_text(
    alloc: Global,
    attribute: &str,
    script: &Option<Shared<Script>>,
) -> Result<String, NoMemory> {
    match script {
        Some(script) => {
            let script = str::from_utf8(script.get().text.list()).unwrap_or("?");
            Ok(format!(in alloc; " {attribute}='{script}'")?)
        }
        None => Ok(String::new(alloc)),
    }
}

/// The guards that are there.
fn guards_text(alloc: Global, guards: &Guards) -> Result<String, NoMemory> {
    let mut text = script_text(alloc, "_failureIf", &guards.failure_if)?;
    text.push_str(script_text(alloc, "_successIf", &guards.success_if)?.as_str())?;
    text.push_str(script_text(alloc, "_skipIf", &guards.skip_if)?.as_str())?;
    text.push_str(script_text(alloc, "_while", &guards.while_true)?.as_str())?;
    text.push_str(script_text(alloc, "_onSuccess", &guards.on_success)?.as_str())?;
    text.push_str(script_text(alloc, "_onFailure", &guards.on_failure)?.as_str())?;
    text.push_str(script_text(alloc, "_post", &guards.post)?.as_str())?;
    text.push_str(script_text(alloc, "_onHalted", &guards.on_halted)?.as_str())?;
    Ok(text)
}

/// A node without its children: its ID, its name in quotes, its ports, its code and its guards.
fn node_text(alloc: Global, node: &Term) -> Result<String, NoMemory> {
    let sort = match node.kind {
        Kind::Leaf => "leaf ",
        Kind::SubTree => "SubTree ",
        _ => "",
    };
    let mut text = format!(in alloc; "{sort}{} '{}'", shown(&node.id), shown(&node.name))?;
    for port in node.ports.iter() {
        text.push_str(port_text(alloc, port)?.as_str())?;
    }
    text.push_str(script_text(alloc, "code", &node.code)?.as_str())?;
    text.push_str(guards_text(alloc, &node.guards)?.as_str())?;
    Ok(text)
}

/// A node with all below it, its children in parentheses.
fn term_text(alloc: Global, term: &Term) -> Result<String, NoMemory> {
    let mut text = node_text(alloc, term)?;
    if !term.children.list().is_empty() {
        text.push_str("(")?;
        for child in term.children.list() {
            text.push_str(term_text(alloc, child)?.as_str())?;
            text.push_str("; ")?;
        }
        text.push_str(")")?;
    }
    Ok(text)
}

/// What the rules make of a tree: the text of its root, or a fault.
fn substituted_text(alloc: Global, tree: &Tree, rules: &Rules) -> Result<String, NoMemory> {
    let fault = match substitute(alloc, tree, rules) {
        Ok(tree) => return term_text(alloc, &tree.term),
        Err(Stop::Fault(MockFault::TooManyNodes)) => "TooManyNodes",
        Err(Stop::Fault(MockFault::TooDeep)) => "TooDeep",
        Err(Stop::Fault(MockFault::TooManyKeys)) => "TooManyKeys",
        Err(Stop::Fault(MockFault::TooMuchWork)) => "TooMuchWork",
        Err(Stop::Fault(_)) => "another fault",
        Err(Stop::NoMemory) => return Err(NoMemory),
    };
    Ok(String::from_str(alloc, fault)?)
}

/// What the rules of a file make of a tree.
fn tree_text(alloc: Global, tree: &Tree, rules: &str) -> Result<String, NoMemory> {
    match read_rules(alloc, rules.as_bytes()) {
        Ok(rules) => substituted_text(alloc, tree, &rules),
        Err(_) => Ok(String::from_str(alloc, "no rules")?),
    }
}

/// What the rules make of the tree of these elements and models.
fn built_text(
    alloc: Global,
    elements: &Elements,
    models: &Manifest,
    rules: &str,
) -> Result<String, NoMemory>
    requires valid { IsValid elements.now.root }
    requires models { manifest_in elements.now.root ≡ Ok models.now }
{
    match build(alloc, elements, models, None) {
        Ok(tree) => tree_text(alloc, &tree, rules),
        Err(_) => Ok(String::from_str(alloc, "no tree")?),
    }
}

/// What the rules make of the tree of these elements.
fn elements_text(alloc: Global, elements: &Elements, rules: &str) -> Result<String, NoMemory>
    requires { IsValid elements.now.root }
{
    match manifest_of(alloc, elements) {
        Ok(models) => built_text(alloc, elements, &models, rules),
        Err(_) => Ok(String::from_str(alloc, "no models")?),
    }
}

/// What the rules make of the tree of a file.
fn file_text(alloc: Global, file: &str, rules: &str) -> Result<String, NoMemory> {
    if file.len() > 1_048_576 {
        return Ok(String::from_str(alloc, "too long")?);
    }
    match read_elements(alloc, file.as_bytes()) {
        Ok(elements) => elements_text(alloc, &elements, rules),
        Err(_) => Ok(String::from_str(alloc, "no elements")?),
    }
}

/// What the rules, as the members of an object, make of the tree of these nodes. Other trees may stand after them.
fn nodes_text(alloc: Global, nodes: &str, rules: &str) -> Result<String, NoMemory> {
    let file = format!(in alloc;
        "<root BTCPP_format=\"4\" main_tree_to_execute=\"M\"><BehaviorTree ID=\"M\">{nodes}</BehaviorTree></root>"
    )?;
    let rules = format!(in alloc;
        "{{\"TestNodeConfigs\":{{\"New\":{{\"async_delay\":100,\"return_status\":\"SUCCESS\",\"post_script\":\"m := 5\"}},\"AlwaysSuccess\":{{\"return_status\":\"FAILURE\"}}}},\"SubstitutionRules\":{{{rules}}}}}"
    )?;
    file_text(alloc, file.as_str(), rules.as_str())
}

/// Nodes, rules, and what the rules make of the nodes. There are two configurations, `New` and `AlwaysSuccess`.
static TREES: [(&str, &str, &str); 22] = [
    ("<A/>", "", "leaf A 'A'"),
    (
        "<Sequence><A name='talk'/><B/></Sequence>",
        r#""ta*":"New""#,
        "Sequence 'Sequence'(Delay 'talk' delay_msec=100(AlwaysSuccess 'AlwaysSuccess' _post='m := 5'; ); leaf B 'B'; )",
    ),
    (
        "<Sequence><A name='talk'/><B/></Sequence>",
        r#""ta*":"Old""#,
        "Sequence 'Sequence'(leaf Old 'talk'; leaf B 'B'; )",
    ),
    (
        "<AlwaysFailure name='talk'/>",
        r#""ta*":"AlwaysFailure""#,
        "AlwaysFailure 'talk'",
    ),
    (
        "<AlwaysFailure name='talk'/>",
        r#""ta*":"AlwaysSuccess""#,
        "Delay 'talk' delay_msec=0(AlwaysFailure 'AlwaysFailure'; )",
    ),
    ("<A/>", r#""A":"Sequence""#, "leaf Sequence 'A'"),
    ("<A/>", r#""A":"""#, "leaf  'A'"),
    ("<A/>", r#""a":"X""#, "leaf A 'A'"),
    (
        "<Script name='s' code='x := 1'/>",
        r#""s":"X""#,
        "leaf X 's'",
    ),
    (
        "<ScriptCondition code='1'/>",
        r#""*":"AlwaysFailure""#,
        "AlwaysFailure 'ScriptCondition'",
    ),
    ("<AlwaysSuccess/>", r#""*":"X""#, "leaf X 'AlwaysSuccess'"),
    (
        "<A p='1' q='{k}' r='t'/>",
        r#""A":"X""#,
        "leaf X 'A' p=1 q={k} r='t'",
    ),
    (
        "<A p='1' _skipIf='x' _post='y := 1'/>",
        r#""A":"X""#,
        "leaf X 'A' p=1 _skipIf='x' _post='y := 1'",
    ),
    (
        "<A p='1' _skipIf='x' _onHalted='y := 1'/>",
        r#""A":"AlwaysFailure""#,
        "AlwaysFailure 'A' _skipIf='x' _onHalted='y := 1'",
    ),
    (
        "<A p='1' _failureIf='1' _while='x'/>",
        r#""A":"New""#,
        "Delay 'A' delay_msec=100 _failureIf='1' _while='x'(AlwaysSuccess 'AlwaysSuccess' _post='m := 5'; )",
    ),
    (
        "<Sequence name='A'><A/></Sequence>",
        r#""A":"X""#,
        "Sequence 'A'(leaf X 'A'; )",
    ),
    (
        "<A/>",
        r#""A":"Last","A*":"Later","*":"First""#,
        "leaf First 'A'",
    ),
    ("<A/>", r#""A*":"Later","A":"First""#, "leaf First 'A'"),
    (
        "<SubTree ID='S' name='arm'/></BehaviorTree><BehaviorTree ID='S'><Sequence><A/><SubTree ID='T'/></Sequence></BehaviorTree><BehaviorTree ID='T'><A/>",
        r#""arm/A":"X","arm/T/A":"Y","A":"Z""#,
        "SubTree S 'arm'(Sequence 'Sequence'(leaf X 'A'; SubTree T 'T'(leaf Y 'A'; ); ); )",
    ),
    (
        "<SubTree ID='S' name='arm'/></BehaviorTree><BehaviorTree ID='S'><A/>",
        r#""A":"X","arm":"Y""#,
        "SubTree S 'arm'(leaf A 'A'; )",
    ),
    (
        "<Sequence><SubTree ID='S' name='a'/><SubTree ID='S' name='b'/></Sequence></BehaviorTree><BehaviorTree ID='S'><A/>",
        r#""b/*":"X""#,
        "Sequence 'Sequence'(SubTree S 'a'(leaf A 'A'; ); SubTree S 'b'(leaf X 'A'; ); )",
    ),
    (
        "<Sequence name='x'><A/></Sequence>",
        r#""x/A":"X""#,
        "Sequence 'x'(leaf A 'A'; )",
    ),
];

#[test]
fn trees(rt: HostRuntime) -> Result<(), Fail> {
    let alloc = rt.alloc();
    for (nodes, rules, wanted) in &TREES {
        assert_eq!(rt;
            nodes_text(alloc, nodes, rules)?.as_str(),
            *wanted,
            "{nodes} {rules}"
        );
    }
    Ok(())
}

/// Without configurations a rule may name the two built-in leaves.
#[test]
fn built_in_leaves(rt: HostRuntime) -> Result<(), Fail> {
    let alloc = rt.alloc();
    let file =
        "<root BTCPP_format='4'><BehaviorTree ID='M'><AlwaysFailure name='talk'/></BehaviorTree></root>";
    let rules = r#"{"SubstitutionRules":{"ta*":"AlwaysSuccess"}}"#;
    assert_eq!(rt;
        file_text(alloc, file, rules)?.as_str(),
        "AlwaysSuccess 'talk'"
    );
    Ok(())
}

/// So many copies of a text.
fn copies(alloc: Global, text: &str, times: usize) -> Result<String, NoMemory> {
    Ok(text.repeat(alloc, times)?)
}

/// Nodes within their limits, and what they become where each leaf gets a node more.
#[test]
fn limits(rt: HostRuntime) -> Result<(), Fail> {
    let alloc = rt.alloc();
    let many = copies(alloc, "<A/>", 2048)?;
    let most = copies(alloc, "<A/>", 2047)?;
    let open = copies(alloc, "<Inverter>", 255)?;
    let close = copies(alloc, "</Inverter>", 255)?;
    let work = copies(alloc, "<A/>", 60)?;
    let rows = [
        (
            format!(in alloc; "<Sequence>{many}</Sequence>")?,
            "TooManyNodes",
        ),
        (format!(in alloc; "{open}<A/>{close}")?, "TooDeep"),
        (
            format!(in alloc; "<Repeat num_cycles='1000'><Sequence>{work}</Sequence></Repeat>")?,
            "TooMuchWork",
        ),
    ];
    for (nodes, wanted) in &rows {
        assert_eq!(rt;
            nodes_text(alloc, nodes.as_str(), "\"*\":\"New\"")?.as_str(),
            *wanted,
            "{wanted}"
        );
    }
    let largest = format!(in alloc; "<Sequence>{most}</Sequence>")?;
    let text = nodes_text(alloc, largest.as_str(), "\"*\":\"New\"")?;
    assert!(rt; text.as_str().starts_with("Sequence 'Sequence'(Delay 'A'"));
    Ok(())
}

/// A tree of 4,080 slots gets one more in each of its 255 scopes.
#[test]
fn slots(rt: HostRuntime) -> Result<(), Fail> {
    let alloc = rt.alloc();
    let mut script = String::from_str(alloc, "k0 := 0")?;
    for key in 1..16 {
        script.push_str(format!(in alloc; "; k{key} := 0")?.as_str())?;
    }
    let scopes = copies(alloc, "<SubTree ID='S'/>", 255)?;
    let nodes = format!(in alloc;
        "<Sequence>{scopes}</Sequence></BehaviorTree><BehaviorTree ID='S'><A _post='{script}'/>"
    )?;
    assert_eq!(rt;
        nodes_text(alloc, nodes.as_str(), "\"*\":\"New\"")?.as_str(),
        "TooManyKeys"
    );
    Ok(())
}
