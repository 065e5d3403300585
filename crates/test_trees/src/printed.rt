//! Trees that are printed, and read again.

use std::test::Fail;
use test_bed::given;

/// A file as Groot2 saves it.
const SAVED: &str = "\
<?xml version=\"1.0\" encoding=\"UTF-8\"?>
<root BTCPP_format=\"4\" main_tree_to_execute=\"Main\">
  <BehaviorTree ID=\"Main\">
    <Sequence name=\"top\" _description=\"go\">
      <SaySomething message=\"hello\"/>
    </Sequence>
  </BehaviorTree>
  <!-- Description of Node Models (used by Groot) -->
  <TreeNodesModel>
    <Action ID=\"SaySomething\">
      <input_port name=\"message\" type=\"std::string\">text to say</input_port>
      <input_port name=\"level\" default=\"3\"/>
    </Action>
  </TreeNodesModel>
</root>
";

const SAVED_PRINTED: &str = "\
<root BTCPP_format=\"4\" main_tree_to_execute=\"Main\">
  <BehaviorTree ID=\"Main\">
    <Sequence name=\"top\">
      <SaySomething message=\"hello\" level=\"3\"/>
    </Sequence>
  </BehaviorTree>
</root>
<!-- nodes 2 work 2 -->
Done";

/// A longer file as Groot2 saves it: two trees, mappings, and five models with ports and defaults.
const PATROL: &str = "\
<?xml version=\"1.0\" encoding=\"UTF-8\"?>
<root BTCPP_format=\"4\" main_tree_to_execute=\"Patrol\">
  <BehaviorTree ID=\"Patrol\">
    <Sequence name=\"patrol\" _description=\"twice\">
      <Script name=\"begin\" code=\"target := 'A1'; tries := 0\"/>
      <Fallback>
        <BatteryOk min=\"20\" _skipIf=\"tries &gt; 3\"/>
        <Charge/>
      </Fallback>
      <SubTree ID=\"Visit\" name=\"first\" place=\"{target}\" speed=\"2\" _autoremap=\"true\"/>
      <RetryUntilSuccessful num_attempts=\"{tries}\">
        <SubTree ID=\"Visit\" place=\"B2\" done=\"{=}\" _autoremap=\"false\"/>
      </RetryUntilSuccessful>
    </Sequence>
  </BehaviorTree>
  <BehaviorTree ID=\"Visit\">
    <ReactiveSequence>
      <Inverter>
        <Condition ID=\"Bumped\" name=\"bumped?\"/>
      </Inverter>
      <Action ID=\"MoveTo\" goal=\"{place}\" _onSuccess=\"done := 1\"/>
      <TakePhoto file=\"a &amp; b\"/>
    </ReactiveSequence>
  </BehaviorTree>
  <!-- Description of Node Models (used by Groot) -->
  <TreeNodesModel>
    <Condition ID=\"BatteryOk\" editable=\"true\">
      <input_port name=\"min\" default=\"10\" type=\"int\">percent</input_port>
    </Condition>
    <Condition ID=\"Bumped\" editable=\"true\"/>
    <Action ID=\"Charge\" editable=\"true\">
      <input_port name=\"power\" default=\"1\"/>
      <output_port name=\"level\" default=\"{=}\"/>
    </Action>
    <Action ID=\"MoveTo\" editable=\"true\">
      <input_port name=\"goal\"/>
      <input_port name=\"speed\" default=\"{=}\" type=\"double\"/>
    </Action>
    <Action ID=\"TakePhoto\" editable=\"true\">
      <input_port name=\"file\"/>
      <inout_port name=\"camera\" default=\"front\"/>
    </Action>
  </TreeNodesModel>
</root>
";

const PATROL_PRINTED: &str = "\
<root BTCPP_format=\"4\" main_tree_to_execute=\"Patrol\">
  <BehaviorTree ID=\"Patrol\">
    <Sequence name=\"patrol\">
      <Script name=\"begin\" code=\"target := 'A1'; tries := 0\"/>
      <Fallback>
        <BatteryOk min=\"20\" _skipIf=\"tries > 3\"/>
        <Charge power=\"1\" level=\"{level}\"/>
      </Fallback>
      <SubTree ID=\"Visit\" name=\"first\" _autoremap=\"true\" place=\"{target}\" speed=\"2\"/>
      <RetryUntilSuccessful num_attempts=\"{tries}\">
        <SubTree ID=\"Visit\" place=\"B2\" done=\"{done}\"/>
      </RetryUntilSuccessful>
    </Sequence>
  </BehaviorTree>
  <BehaviorTree ID=\"Visit\">
    <ReactiveSequence>
      <Inverter>
        <Bumped name=\"bumped?\"/>
      </Inverter>
      <MoveTo goal=\"{place}\" speed=\"{speed}\" _onSuccess=\"done := 1\"/>
      <TakePhoto file=\"a &amp; b\" camera=\"front\"/>
    </ReactiveSequence>
  </BehaviorTree>
</root>
<!-- nodes 18 work 6012 -->
Done";

/// A file of version 3.
const OLD: &str =
    "<root main_tree_to_execute=\"M\"><BehaviorTree ID=\"M\"><SequenceStar><SubTreePlus ID=\"S\" a=\"{b}\" __autoremap=\"1\"/></SequenceStar></BehaviorTree><BehaviorTree ID=\"S\"><A/></BehaviorTree></root>";

const OLD_PRINTED: &str = "\
<root BTCPP_format=\"4\" main_tree_to_execute=\"M\">
  <BehaviorTree ID=\"M\">
    <SequenceWithMemory>
      <SubTree ID=\"S\" _autoremap=\"true\" a=\"{b}\"/>
    </SequenceWithMemory>
  </BehaviorTree>
  <BehaviorTree ID=\"S\">
    <A/>
  </BehaviorTree>
</root>
<!-- nodes 3 work 3 -->
Done";

/// Files with their printed trees, each of which is printed as itself.
#[test]
fn printed_trees_check_to_themselves(rt: HostRuntime) -> Result<(), Fail> {
    let alloc = rt.alloc();
    for (file, want) in [
        (SAVED, SAVED_PRINTED),
        (PATROL, PATROL_PRINTED),
        (OLD, OLD_PRINTED),
    ] {
        let text = given(alloc, &["check", "T"], file.as_bytes(), b"", &[])?;
        assert_eq!(rt; text.as_str(), want);
        let printed = want.strip_suffix("Done").unwrap_or("?");
        let again = given(alloc, &["check", "T"], printed.as_bytes(), b"", &[])?;
        assert_eq!(rt; again.as_str(), want);
    }
    Ok(())
}
