//! Trees as they are printed: each printed file is printed as itself.

use crate::rows::{compare, file_told};
use base_outside::SureSink;
use base_texts::NoMemory;
use spec_tree::Tree;
use std::alloc::Global;
use text_lines::write_tree;

/// What a tree is printed as.
fn tree_text(alloc: Global, tree: &Tree) -> Result<String, NoMemory> {
    let mut sink = SureSink::new(alloc);
    if write_tree(alloc, &mut sink, tree).is_err() {
        return Err(NoMemory);
    }
    let text = str::from_utf8(sink.list()).unwrap_or("?");
    Ok(String::from_str(alloc, text)?)
}

/// What the tree of a file is printed as.
fn printed(alloc: Global, file: &str) -> Result<String, NoMemory> {
    file_told(alloc, file, tree_text)
}

/// A file as Groot2 saves it, and its printed form.
const SAVED: (&str, &str) = (
    r#"<?xml version="1.0" encoding="UTF-8"?>
<root BTCPP_format="4" main_tree_to_execute="Main">
  <BehaviorTree ID="Main">
    <Sequence name="top" _description="go">
      <SaySomething message="hello"/>
    </Sequence>
  </BehaviorTree>
  <!-- Description of Node Models (used by Groot) -->
  <TreeNodesModel>
    <Action ID="SaySomething">
      <input_port name="message" type="std::string">text to say</input_port>
      <input_port name="level" default="3"/>
    </Action>
  </TreeNodesModel>
</root>
"#,
    r#"<root BTCPP_format="4" main_tree_to_execute="Main">
  <BehaviorTree ID="Main">
    <Sequence name="top">
      <SaySomething message="hello" level="3"/>
    </Sequence>
  </BehaviorTree>
</root>
"#,
);

/// Trees that are opened twice, one inside another, and one that is not opened.
const TREES: (&str, &str) = (
    r#"<root BTCPP_format="4" main_tree_to_execute="Main">
  <BehaviorTree ID="Low"><Leaf/></BehaviorTree>
  <BehaviorTree ID="Idle"><Leaf/></BehaviorTree>
  <BehaviorTree ID="High"><Inverter><SubTree ID="Low" to="{=}"/></Inverter></BehaviorTree>
  <BehaviorTree ID="Main">
    <Sequence>
      <SubTree ID="High" name="first" _autoremap="1" key="{other}" n="-7"/>
      <SubTree ID="Low"/>
      <SubTree ID="High"/>
    </Sequence>
  </BehaviorTree>
</root>"#,
    r#"<root BTCPP_format="4" main_tree_to_execute="Main">
  <BehaviorTree ID="Main">
    <Sequence>
      <SubTree ID="High" name="first" _autoremap="true" key="{other}" n="-7"/>
      <SubTree ID="Low"/>
      <SubTree ID="High"/>
    </Sequence>
  </BehaviorTree>
  <BehaviorTree ID="High">
    <Inverter>
      <SubTree ID="Low" to="{to}"/>
    </Inverter>
  </BehaviorTree>
  <BehaviorTree ID="Low">
    <Leaf/>
  </BehaviorTree>
</root>
"#,
);

/// Explicit and compact nodes, defaults, scripts, guards in another order, and references.
const NODES: (&str, &str) = (
    r#"<root BTCPP_format="4">
  <BehaviorTree ID="a &amp; &quot;b&quot;">
    <Control ID="Parallel" failure_count="2">
      <Decorator ID="RunOnce"><Action ID="open-door" tool='&apos;&#x9;"' name="open &lt;"/></Decorator>
      <Action ID="Sequence_2" name="Sequence_2"/>
      <Condition ID="root" text="{=}"/>
      <Action ID="AlwaysSuccess" _post="y := 2" _failureIf="x &lt; 1&#10;"/>
      <Script code="x := 'a>b'" _onHalted="z" _while="true"/>
    </Control>
  </BehaviorTree>
</root>"#,
    r#"<root BTCPP_format="4" main_tree_to_execute="a &amp; &quot;b&quot;">
  <BehaviorTree ID="a &amp; &quot;b&quot;">
    <Parallel failure_count="2" success_count="-1">
      <RunOnce then_skip="true">
        <Action ID="open-door" name="open &lt;" tool="'&#9;&quot;"/>
      </RunOnce>
      <Sequence_2/>
      <Action ID="root" text="{text}"/>
      <AlwaysSuccess _failureIf="x &lt; 1&#10;" _post="y := 2"/>
      <Script code="x := 'a>b'" _while="true" _onHalted="z"/>
    </Parallel>
  </BehaviorTree>
</root>
"#,
);

/// Files with their printed trees.
#[test]
fn printed_trees(rt: HostRuntime) -> Result<(), NoMemory> {
    compare(&rt, rt.alloc(), printed, &[SAVED, TREES, NODES])
}

/// A printed tree is printed as itself.
#[test]
fn printed_trees_are_printed_as_themselves(rt: HostRuntime) -> Result<(), NoMemory> {
    let rows = [(SAVED.1, SAVED.1), (TREES.1, TREES.1), (NODES.1, NODES.1)];
    compare(&rt, rt.alloc(), printed, &rows)
}
