//! Which words are commands, and which of them are refused.

use std::test::Fail;
use test_bed::answered;

const TWO_CHECKS: &str = "<Sequence><A/><B/></Sequence>";

const TWO_CONDITIONS: &str = "fact x 1\ncondition A is x == 1\ncondition B is x < 2\ntick 1";

const TWO_CHECKS_TRACE: &str = "\
tick 1 at 0
node 1 IDLE RUNNING
call 2 start SUCCESS
node 2 IDLE SUCCESS
call 3 start SUCCESS
node 3 IDLE SUCCESS
node 2 SUCCESS IDLE
node 3 SUCCESS IDLE
node 1 RUNNING SUCCESS
root 1 SUCCESS
node 1 SUCCESS IDLE
finish 1 at 0
Done";

const TWO_CHECKS_PRINTED: &str = "\
<root BTCPP_format=\"4\" main_tree_to_execute=\"M\">
  <BehaviorTree ID=\"M\">
    <Sequence>
      <A/>
      <B/>
    </Sequence>
  </BehaviorTree>
</root>
<!-- nodes 3 work 3 -->
Done";

const ONE_ROUND: &str = "\
tick 1 at 0
call 1 start SUCCESS
node 1 IDLE SUCCESS
root 1 SUCCESS
node 1 SUCCESS IDLE
finish 1 at 0
Done";

/// Words with what they are answered.
static WORDS: [(&[&str], &str); 28] = [
    (&["check"], "refused words\nWords"),
    (&["check", "T", "W"], "refused words\nWords"),
    (&["check", "T", "--mian", "M"], "refused words\nWords"),
    (&["tick", "T", "W", "--main"], "refused words\nWords"),
    (
        &["check", "T", "--main", "M", "--main", "M"],
        "refused words\nWords",
    ),
    (&["check", "T"], TWO_CHECKS_PRINTED),
    (&["check", "T", "--main", "M"], TWO_CHECKS_PRINTED),
    (&["check", "T", "--strict"], TWO_CHECKS_PRINTED),
    (
        &["check", "T", "--strict", "--main", "M"],
        TWO_CHECKS_PRINTED,
    ),
    (
        &["check", "T", "--main", "M", "--strict"],
        TWO_CHECKS_PRINTED,
    ),
    (
        &["check", "T", "--strict", "--strict"],
        "refused words\nWords",
    ),
    (&["check", "--strict", "T"], "refused words\nWords"),
    (
        &["check", "T", "--main", "--strict"],
        "refused tree NoTree '--strict'\nTree",
    ),
    (&["dead", "T", "--strict"], "refused words\nWords"),
    (&["tick", "T", "W", "--main", "M"], TWO_CHECKS_TRACE),
    (
        &["check", "T", "--main", "N"],
        "refused tree NoTree 'N'\nTree",
    ),
    (&["dead"], "refused words\nWords"),
    (&["dead", "T", "W"], "refused words\nWords"),
    (&["dead", "T", "--ticks", "1"], "refused words\nWords"),
    (&["dead", "T", "--main", "M"], "dead 0 of 3\nDone"),
    (&[], "refused words\nWords"),
    (&["tick"], "refused words\nWords"),
    (&["tick", "T"], "refused words\nWords"),
    (&["tick", "T", "W", "X"], "refused words\nWords"),
    (&["Tick", "T", "W"], "refused words\nWords"),
    (&["tick", "T", "W"], TWO_CHECKS_TRACE),
    (&["tick", "none", "W"], "refused tree Unmatched 0\nTree"),
    (&["tick", "T", "none"], "refused world Header 1\nWorld"),
];

/// Words with the numbers of rounds that are accepted and refused.
static ROUNDS: [(&[&str], &str); 10] = [
    (&["live", "T", "W"], "refused words\nWords"),
    (&["live", "T", "--ticks", "1"], "refused words\nWords"),
    (&["live", "T", "W", "--ticks"], "refused words\nWords"),
    (&["live", "T", "W", "--ticks", "0"], "refused words\nWords"),
    (&["live", "T", "W", "--ticks", "01"], "refused words\nWords"),
    (
        &["live", "T", "W", "--ticks", "100001"],
        "refused words\nWords",
    ),
    (
        &["live", "T", "W", "--ticks", "1", "--ticks", "1"],
        "refused words\nWords",
    ),
    (&["tick", "T", "W", "--ticks", "1"], "refused words\nWords"),
    (
        &["live", "T", "W", "--main", "M", "--ticks", "1"],
        ONE_ROUND,
    ),
    (
        &["live", "T", "W", "--ticks", "1", "--main", "M"],
        ONE_ROUND,
    ),
];

/// Words that are commands, and words that are none.
#[test]
fn words_are_commands_or_refused(rt: HostRuntime) -> Result<(), Fail> {
    let rows = &WORDS;
    for (words, want) in rows {
        let text = answered(rt.alloc(), words, TWO_CHECKS, TWO_CONDITIONS, &[])?;
        assert_eq!(rt; text.as_str(), *want);
    }
    Ok(())
}

/// Words of `live`.
#[test]
fn rounds_are_numbers(rt: HostRuntime) -> Result<(), Fail> {
    let rows = &ROUNDS;
    for (words, want) in rows {
        let text = answered(rt.alloc(), words, "<A/>", "action A timed 0", &[])?;
        assert_eq!(rt; text.as_str(), *want);
    }
    Ok(())
}
