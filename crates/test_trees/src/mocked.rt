//! Trees that rules make, printed, and what is refused of them.

use base_texts::NoMemory;
use std::alloc::Global;
use std::test::Fail;
use test_bed::{given_by, joined, shelf_with_rules, tree_of};

/// The words that print what the rules `R` make of the tree `T`.
const PRINT: [&str; 4] = ["mock", "--print", "T", "R"];

/// What these words write over this tree file and these rules, of which these reads fail, with the exit after it.
fn made(
    alloc: Global,
    words: &[&str],
    tree: &str,
    rules: &str,
    fails: &[u64],
) -> Result<String, NoMemory> {
    let mut shelf = shelf_with_rules(alloc, tree.as_bytes(), b"", rules.as_bytes(), fails)?;
    given_by(alloc, words, &mut shelf)
}

/// A robot with two arms, each of which opens the tree of a hand.
const ARMS: &str = "\
<root BTCPP_format=\"4\" main_tree_to_execute=\"Robot\">
  <BehaviorTree ID=\"Robot\">
    <Sequence>
      <SubTree ID=\"Arm\" name=\"left\" load=\"{cup}\"/>
      <SubTree ID=\"Arm\" name=\"right\"/>
      <SubTree ID=\"Hand\"/>
    </Sequence>
  </BehaviorTree>
  <BehaviorTree ID=\"Arm\">
    <Fallback>
      <Reach/>
      <SubTree ID=\"Hand\"/>
    </Fallback>
  </BehaviorTree>
  <BehaviorTree ID=\"Hand\">
    <Grip force=\"3\"/>
  </BehaviorTree>
</root>
";

const ARMS_PRINTED: &str = "\
<root BTCPP_format=\"4\" main_tree_to_execute=\"Robot\">
  <BehaviorTree ID=\"Robot\">
    <Sequence>
      <SubTree ID=\"Arm\" name=\"left\" load=\"{cup}\"/>
      <SubTree ID=\"Arm\" name=\"right\"/>
      <SubTree ID=\"Hand\"/>
    </Sequence>
  </BehaviorTree>
  <BehaviorTree ID=\"Arm\">
    <Fallback>
      <Reach/>
      <SubTree ID=\"Hand\"/>
    </Fallback>
  </BehaviorTree>
  <BehaviorTree ID=\"Hand\">
    <Grip force=\"3\"/>
  </BehaviorTree>
</root>
<!-- nodes 13 work 13 -->
Done";

/// The hand of the right arm alone is another one.
const RIGHT_HAND: &str = "\
<root BTCPP_format=\"4\" main_tree_to_execute=\"Robot\">
  <BehaviorTree ID=\"Robot\">
    <Sequence>
      <SubTree ID=\"Arm\" name=\"left\" load=\"{cup}\"/>
      <SubTree ID=\"Arm (right)\" name=\"right\"/>
      <SubTree ID=\"Hand\"/>
    </Sequence>
  </BehaviorTree>
  <BehaviorTree ID=\"Arm\">
    <Fallback>
      <Reach/>
      <SubTree ID=\"Hand\"/>
    </Fallback>
  </BehaviorTree>
  <BehaviorTree ID=\"Hand\">
    <Grip force=\"3\"/>
  </BehaviorTree>
  <BehaviorTree ID=\"Arm (right)\">
    <Fallback>
      <Reach/>
      <SubTree ID=\"Hand (right/Hand)\" name=\"Hand\"/>
    </Fallback>
  </BehaviorTree>
  <BehaviorTree ID=\"Hand (right/Hand)\">
    <Delay name=\"Grip\" delay_msec=\"20\">
      <AlwaysFailure _post=\"m := 1\"/>
    </Delay>
  </BehaviorTree>
</root>
<!-- nodes 14 work 14 -->
Done";

/// A tree that is opened once, or always by one path, keeps its ID.
const ONE_PATH: &str = "\
<root BTCPP_format=\"4\" main_tree_to_execute=\"M\">
  <BehaviorTree ID=\"M\">
    <Sequence>
      <SubTree ID=\"N\"/>
      <SubTree ID=\"N\" x=\"1\"/>
      <SubTree ID=\"O\" name=\"o\"/>
    </Sequence>
  </BehaviorTree>
  <BehaviorTree ID=\"N\">
    <AlwaysSuccess name=\"A\"/>
  </BehaviorTree>
  <BehaviorTree ID=\"O\">
    <C name=\"B\" p=\"{x}\"/>
  </BehaviorTree>
</root>
<!-- nodes 7 work 7 -->
Done";

/// Tree files, rules, and what is printed.
static PRINTED: [(&str, &str, &str); 6] = [
    (ARMS, "{}", ARMS_PRINTED),
    (
        ARMS,
        r#"{"SubstitutionRules":{"Robot/left/Reach":"AlwaysSuccess"}}"#,
        ARMS_PRINTED,
    ),
    (
        ARMS,
        r#"{"TestNodeConfigs":{"Lame":{"return_status":"FAILURE","async_delay":20,"post_script":"m := 1"}},"SubstitutionRules":{"right/*/Grip":"Lame"}}"#,
        RIGHT_HAND,
    ),
    (
        "<root BTCPP_format=\"4\" main_tree_to_execute=\"M\"><BehaviorTree ID=\"M\"><Sequence><SubTree ID=\"N\"/><SubTree ID=\"N\" x=\"1\"/><SubTree ID=\"O\" name=\"o\"/></Sequence></BehaviorTree><BehaviorTree ID=\"N\"><A/></BehaviorTree><BehaviorTree ID=\"O\"><B p=\"{x}\"/></BehaviorTree></root>",
        r#"{"SubstitutionRules":{"N/A":"AlwaysSuccess","*B":"C"}}"#,
        ONE_PATH,
    ),
    // A leaf may have the ID of another node, which no tree file can say.
    (
        "<root BTCPP_format=\"4\"><BehaviorTree ID=\"M\"><A/></BehaviorTree></root>",
        r#"{"SubstitutionRules":{"A":"Sequence"}}"#,
        "<root BTCPP_format=\"4\" main_tree_to_execute=\"M\">\n  <BehaviorTree ID=\"M\">\n    <Action ID=\"Sequence\" name=\"A\"/>\n  </BehaviorTree>\n</root>\n<!-- nodes 1 work 1 -->\nDone",
    ),
    (
        "<root BTCPP_format=\"4\"><BehaviorTree ID=\"M\"><A/></BehaviorTree></root>",
        r#"{"TestNodeConfigs":{"New":{"return_status":"SUCCESS"}}}"#,
        "<root BTCPP_format=\"4\" main_tree_to_execute=\"M\">\n  <BehaviorTree ID=\"M\">\n    <A/>\n  </BehaviorTree>\n</root>\n<!-- nodes 1 work 1 -->\nDone",
    ),
];

/// The tree that rules make is printed.
#[test]
fn mocked_trees_are_printed(rt: HostRuntime) -> Result<(), Fail> {
    let rows = &PRINTED;
    for (tree, rules, want) in rows {
        let text = made(rt.alloc(), &PRINT, tree, rules, &[])?;
        assert_eq!(rt; text.as_str(), *want, "{rules}");
    }
    Ok(())
}

/// Nodes, rules, and the refusal: the tree comes before the rules, and these before the limits.
static REFUSED: [(&str, &str, &str); 6] = [
    ("<A>", "{", "refused tree Unmatched 47\nTree"),
    ("<A/>", "{", "refused rules Json\nRules"),
    ("<A/>", "[]", "refused rules Form ''\nRules"),
    (
        "<A/>",
        r#"{"TestNodeConfigs":{"New":{"return_status":"SUCCESS","post_script":"m :="}}}"#,
        "refused rules BadScript 'New' Syntax 4\nRules",
    ),
    (
        "<Repeat num_cycles=\"1000\"><Repeat num_cycles=\"98\"><A/></Repeat></Repeat>",
        r#"{"TestNodeConfigs":{"New":{"return_status":"SUCCESS"}},"SubstitutionRules":{"A":"New"}}"#,
        "refused rules TooMuchWork\nRules",
    ),
    ("", "{}", "refused tree ChildCount 0\nTree"),
];

/// What can't be printed is refused.
#[test]
fn trees_and_rules_are_refused(rt: HostRuntime) -> Result<(), Fail> {
    let rows = &REFUSED;
    for (nodes, rules, want) in rows {
        let tree = tree_of(rt.alloc(), nodes)?;
        let text = made(rt.alloc(), &PRINT, tree.as_str(), rules, &[])?;
        assert_eq!(rt; text.as_str(), *want, "{nodes} {rules}");
    }
    Ok(())
}

/// Words, the reads that fail, and what is answered over a tree file of one tree M and rules that are none.
static WORDS: [(&[&str], &[u64], &str); 11] = [
    (&["mock"], &[], "refused words\nWords"),
    (&["mock", "--print"], &[], "refused words\nWords"),
    (&["mock", "--print", "T"], &[], "refused words\nWords"),
    (&["mock", "T", "R"], &[], "refused words\nWords"),
    (
        &["mock", "T", "R", "--print"],
        &[],
        "refused world Header 1\nWorld",
    ),
    (
        &["mock", "--print", "T", "R", "--strict"],
        &[],
        "refused words\nWords",
    ),
    (
        &["mock", "--print", "T", "R"],
        &[],
        "refused rules Json\nRules",
    ),
    (
        &["mock", "--print", "T", "R", "--main", "M"],
        &[],
        "refused rules Json\nRules",
    ),
    (
        &["mock", "--print", "T", "R", "--main", "N"],
        &[],
        "refused tree NoTree 'N'\nTree",
    ),
    (
        &["mock", "--print", "T", "R"],
        &[1],
        "refused read tree\nRead",
    ),
    (
        &["mock", "--print", "T", "R"],
        &[2],
        "refused read rules\nRead",
    ),
];

/// The tree file is read first, and the rules after it, and no other file.
#[test]
fn words_of_mocked_trees(rt: HostRuntime) -> Result<(), Fail> {
    let rows = &WORDS;
    for (words, fails, want) in rows {
        let tree = tree_of(rt.alloc(), "<A/>")?;
        let text = made(rt.alloc(), words, tree.as_str(), "{", fails)?;
        assert_eq!(rt; text.as_str(), *want);
    }
    Ok(())
}

/// A file without rules, and with so many blanks.
fn padded(alloc: Global, blanks: usize) -> Result<String, NoMemory> {
    let blanks = " ".repeat(alloc, blanks)?;
    let text = joined(alloc, &["{}", blanks.as_str()])?;
    Ok(text)
}

/// A rules file is refused by its length before the tree file is read as what it is.
#[test]
fn rules_may_be_too_long(rt: HostRuntime) -> Result<(), Fail> {
    let alloc = rt.alloc();
    for (blanks, want) in [
        (1_048_574, "refused tree Unmatched 47\nTree"),
        (1_048_575, "refused rules TooLong\nRules"),
    ] {
        let tree = tree_of(alloc, "<A>")?;
        let rules = padded(alloc, blanks)?;
        let text = made(alloc, &PRINT, tree.as_str(), rules.as_str(), &[])?;
        assert_eq!(rt; text.as_str(), want);
    }
    Ok(())
}
