//! Plan trees, step by step: what each step tells, and the tree after the last one.

use crate::stage::{Row, compare};
use crate::steps::Step;
use base_texts::NoMemory;

/// An item is picked and placed.
const PICK: &str = "bt-world 1
fact at 0
fact holding 0
fact placed 0
condition AtItem is at == 1
condition AtGoal is at == 2
condition Holding is holding == 1
condition Placed is placed == 1
action GoItem timed 100
sets at = 1
action GoGoal timed 100
sets at = 2
action Pick timed 0
needs AtItem
sets holding = 1
action Place timed 0
needs AtGoal
needs Holding
sets placed = 1
goal Placed
";

/// Two actions, each of which undoes what the other does.
const SWAP: &str = "bt-world 1
fact a 0
fact b 0
condition G1 is a == 1
condition G2 is b == 1
action A timed 0
sets a = 1
sets b = 0
action B timed 0
sets b = 1
sets a = 0
goal G1
goal G2
";

/// Three actions that achieve a condition, one that threatens it, and two without an effect, of which one is told how it
/// ended.
const THREE: &str = "bt-world 1
fact x 0
condition G is x >= 1
condition N is x != 5
condition Seen told
action Ask told
out answer
action A timed 0
sets x = 1
action Idle timed 0
action B timed 0
needs N
sets x = 2
action Low timed 0
sets x = 0
action C timed 0
sets x = 3
goal G
";

/// Two actions that need one condition.
const NEEDS: &str = "bt-world 1
fact x 0
fact y 0
fact z 0
condition X is x == 1
condition Y is y == 1
condition Z is z == 1
action MakeY timed 0
needs X
sets y = 1
action MakeZ timed 0
needs X
sets z = 1
action MakeX timed 0
sets x = 1
goal Y
goal Z
";

/// An action below another one that undoes a goal and a neighbour.
const DEEP: &str = "bt-world 1
fact k 0
fact m 0
fact o 0
fact p 0
condition Keep is k == 0
condition Mid is m == 1
condition Other is o == 1
condition Low is p == 1
action MakeMid timed 0
needs Other
needs Low
sets m = 1
action MakeLow timed 0
sets p = 1
sets k = 1
sets o = 0
goal Keep
goal Mid
";

/// An action that needs a goal.
const TWICE: &str = "bt-world 1
fact x 0
fact y 0
condition G is x == 1
condition H is y == 1
action A timed 0
sets x = 1
action B timed 0
needs G
sets y = 1
goal G
goal H
";

/// An action that adds, and one that takes away.
const ADDS: &str = "bt-world 1
fact n 0
condition Three is n >= 3
condition Low is n <= 5
action Inc timed 0
sets n += 1
action Dec timed 0
sets n += -1
goal Low
goal Three
";

/// An action that achieves a condition and threatens it too: it adds, and the condition asks for one
/// number.
const BOTH: &str = "bt-world 1
fact n 0
condition Three is n == 3
condition Four is n == 4
action Inc timed 0
sets n += 1
goal Three
goal Four
";

/// Ten actions, each of which needs what the next one does.
const LADDER: &str = "bt-world 1
fact f0 0
fact f1 0
fact f2 0
fact f3 0
fact f4 0
fact f5 0
fact f6 0
fact f7 0
fact f8 0
fact f9 0
fact k 0
condition C0 is f0 == 1
condition C1 is f1 == 1
condition C2 is f2 == 1
condition C3 is f3 == 1
condition C4 is f4 == 1
condition C5 is f5 == 1
condition C6 is f6 == 1
condition C7 is f7 == 1
condition C8 is f8 == 1
condition C9 is f9 == 1
condition K is k == 0
action A0 timed 0
needs C1
sets f0 = 1
action A1 timed 0
needs C2
sets f1 = 1
action A2 timed 0
needs C3
sets f2 = 1
action A3 timed 0
needs C4
sets f3 = 1
action A4 timed 0
needs C5
sets f4 = 1
action A5 timed 0
needs C6
sets f5 = 1
action A6 timed 0
needs C7
sets f6 = 1
action A7 timed 0
needs C8
sets f7 = 1
action A8 timed 0
needs C9
sets f8 = 1
action A9 timed 0
sets f9 = 1
sets k = 1
goal K
goal C0
";

/// Two actions with conflicts: the one that stands first in pre-order threatens the second goal, the other both.
const ORDER: &str = "bt-world 1
fact k 0
fact l 0
fact m 0
fact n 0
condition K is k == 0
condition L is l == 0
condition M is m == 1
condition N is n == 1
action MakeM timed 0
needs N
sets m = 1
sets k = 1
sets l = 1
action MakeN timed 0
sets n = 1
sets l = 1
goal K
goal L
goal M
";

/// An action that uses up what it needs.
const USES: &str = "bt-world 1
fact full 0
fact done 0
condition Full is full == 1
condition Done is done == 1
action Fill timed 0
sets full = 1
action Empty timed 0
needs Full
sets done = 1
sets full = 0
goal Full
goal Done
";

/// A plan after its first step.
static PICK_1: Row = Row {
    world: PICK,
    steps: &[Step::Expand(2)],
    want: r#"expand Place
<root BTCPP_format="4" main_tree_to_execute="Plan">
  <BehaviorTree ID="Plan">
    <ReactiveSequence>
      <ReactiveFallback>
        <Placed/>
        <ReactiveSequence>
          <AtGoal/>
          <Holding/>
          <Place/>
        </ReactiveSequence>
      </ReactiveFallback>
    </ReactiveSequence>
  </BehaviorTree>
</root>
"#,
};

/// After its second step.
static PICK_2: Row = Row {
    world: PICK,
    steps: &[Step::Expand(2), Step::Expand(5)],
    want: r#"expand Place
expand GoGoal
<root BTCPP_format="4" main_tree_to_execute="Plan">
  <BehaviorTree ID="Plan">
    <ReactiveSequence>
      <ReactiveFallback>
        <Placed/>
        <ReactiveSequence>
          <ReactiveFallback>
            <AtGoal/>
            <ReactiveSequence>
              <GoGoal/>
            </ReactiveSequence>
          </ReactiveFallback>
          <Holding/>
          <Place/>
        </ReactiveSequence>
      </ReactiveFallback>
    </ReactiveSequence>
  </BehaviorTree>
</root>
"#,
};

/// After its third step.
static PICK_3: Row = Row {
    world: PICK,
    steps: &[Step::Expand(2), Step::Expand(5), Step::Expand(9)],
    want: r#"expand Place
expand GoGoal
expand Pick
<root BTCPP_format="4" main_tree_to_execute="Plan">
  <BehaviorTree ID="Plan">
    <ReactiveSequence>
      <ReactiveFallback>
        <Placed/>
        <ReactiveSequence>
          <ReactiveFallback>
            <AtGoal/>
            <ReactiveSequence>
              <GoGoal/>
            </ReactiveSequence>
          </ReactiveFallback>
          <ReactiveFallback>
            <Holding/>
            <ReactiveSequence>
              <AtItem/>
              <Pick/>
            </ReactiveSequence>
          </ReactiveFallback>
          <Place/>
        </ReactiveSequence>
      </ReactiveFallback>
    </ReactiveSequence>
  </BehaviorTree>
</root>
"#,
};

/// After its fourth step, and a raise.
static PICK_4: Row = Row {
    world: PICK,
    steps: &[
        Step::Expand(2),
        Step::Expand(5),
        Step::Expand(9),
        Step::Conflict,
        Step::Expand(12),
        Step::Conflict,
        Step::Raise(14),
        Step::Conflict,
        Step::Raise(10),
    ],
    want: r#"expand Place
expand GoGoal
expand Pick
no conflict
expand GoItem
conflict GoItem AtGoal
raised
no conflict
not raised
<root BTCPP_format="4" main_tree_to_execute="Plan">
  <BehaviorTree ID="Plan">
    <ReactiveSequence>
      <ReactiveFallback>
        <Placed/>
        <ReactiveSequence>
          <ReactiveFallback>
            <Holding/>
            <ReactiveSequence>
              <ReactiveFallback>
                <AtItem/>
                <ReactiveSequence>
                  <GoItem/>
                </ReactiveSequence>
              </ReactiveFallback>
              <Pick/>
            </ReactiveSequence>
          </ReactiveFallback>
          <ReactiveFallback>
            <AtGoal/>
            <ReactiveSequence>
              <GoGoal/>
            </ReactiveSequence>
          </ReactiveFallback>
          <Place/>
        </ReactiveSequence>
      </ReactiveFallback>
    </ReactiveSequence>
  </BehaviorTree>
</root>
"#,
};

/// Two goals whose actions undo each other: no raise mends the conflict.
static UNDOING: Row = Row {
    world: SWAP,
    steps: &[
        Step::Expand(2),
        Step::Conflict,
        Step::Expand(6),
        Step::Conflict,
        Step::Raise(8),
        Step::Conflict,
        Step::Raise(4),
        Step::Conflict,
    ],
    want: r#"expand A
no conflict
expand B
conflict B G1
raised
conflict A G2
not raised
conflict A G2
<root BTCPP_format="4" main_tree_to_execute="Plan">
  <BehaviorTree ID="Plan">
    <ReactiveSequence>
      <ReactiveFallback>
        <G2/>
        <ReactiveSequence>
          <B/>
        </ReactiveSequence>
      </ReactiveFallback>
      <ReactiveFallback>
        <G1/>
        <ReactiveSequence>
          <A/>
        </ReactiveSequence>
      </ReactiveFallback>
    </ReactiveSequence>
  </BehaviorTree>
</root>
"#,
};

/// One condition with three templates.
static ALTERNATIVES: Row = Row {
    world: THREE,
    steps: &[
        Step::Expand(2),
        Step::Expand(3),
        Step::Expand(3),
        Step::Conflict,
        Step::Expand(3),
        Step::Conflict,
    ],
    want: r#"expand A
expand B
expand C
no conflict
untried
no conflict
<root BTCPP_format="4" main_tree_to_execute="Plan">
  <BehaviorTree ID="Plan">
    <ReactiveSequence>
      <ReactiveFallback>
        <G/>
        <ReactiveSequence>
          <A/>
        </ReactiveSequence>
        <ReactiveSequence>
          <N/>
          <B/>
        </ReactiveSequence>
        <ReactiveSequence>
          <C/>
        </ReactiveSequence>
      </ReactiveFallback>
    </ReactiveSequence>
  </BehaviorTree>
</root>
"#,
};

/// A condition that stands twice: each node has its own untried templates.
static TWO_NODES: Row = Row {
    world: NEEDS,
    steps: &[
        Step::Expand(2),
        Step::Expand(7),
        Step::Expand(5),
        Step::Expand(13),
        Step::Expand(6),
        Step::Expand(14),
    ],
    want: r#"expand MakeY
expand MakeZ
expand MakeX
expand MakeX
untried
untried
<root BTCPP_format="4" main_tree_to_execute="Plan">
  <BehaviorTree ID="Plan">
    <ReactiveSequence>
      <ReactiveFallback>
        <Y/>
        <ReactiveSequence>
          <ReactiveFallback>
            <X/>
            <ReactiveSequence>
              <MakeX/>
            </ReactiveSequence>
          </ReactiveFallback>
          <MakeY/>
        </ReactiveSequence>
      </ReactiveFallback>
      <ReactiveFallback>
        <Z/>
        <ReactiveSequence>
          <ReactiveFallback>
            <X/>
            <ReactiveSequence>
              <MakeX/>
            </ReactiveSequence>
          </ReactiveFallback>
          <MakeZ/>
        </ReactiveSequence>
      </ReactiveFallback>
    </ReactiveSequence>
  </BehaviorTree>
</root>
"#,
};

/// A sequence that is raised in two sequences, one after the other.
static TWO_RAISES: Row = Row {
    world: DEEP,
    steps: &[
        Step::Expand(3),
        Step::Expand(7),
        Step::Conflict,
        Step::Raise(9),
        Step::Conflict,
        Step::Raise(8),
        Step::Conflict,
        Step::Raise(7),
    ],
    want: r#"expand MakeMid
expand MakeLow
conflict MakeLow Keep
raised
conflict MakeLow Keep
raised
no conflict
not raised
<root BTCPP_format="4" main_tree_to_execute="Plan">
  <BehaviorTree ID="Plan">
    <ReactiveSequence>
      <ReactiveFallback>
        <Mid/>
        <ReactiveSequence>
          <ReactiveFallback>
            <Low/>
            <ReactiveSequence>
              <MakeLow/>
            </ReactiveSequence>
          </ReactiveFallback>
          <Other/>
          <MakeMid/>
        </ReactiveSequence>
      </ReactiveFallback>
      <Keep/>
    </ReactiveSequence>
  </BehaviorTree>
</root>
"#,
};

/// A goal that an action needs, too.
static GOAL_TWICE: Row = Row {
    world: TWICE,
    steps: &[
        Step::Expand(3),
        Step::Expand(6),
        Step::Expand(2),
        Step::Expand(3),
        Step::Conflict,
    ],
    want: r#"expand B
expand A
expand A
untried
no conflict
<root BTCPP_format="4" main_tree_to_execute="Plan">
  <BehaviorTree ID="Plan">
    <ReactiveSequence>
      <ReactiveFallback>
        <G/>
        <ReactiveSequence>
          <A/>
        </ReactiveSequence>
      </ReactiveFallback>
      <ReactiveFallback>
        <H/>
        <ReactiveSequence>
          <ReactiveFallback>
            <G/>
            <ReactiveSequence>
              <A/>
            </ReactiveSequence>
          </ReactiveFallback>
          <B/>
        </ReactiveSequence>
      </ReactiveFallback>
    </ReactiveSequence>
  </BehaviorTree>
</root>
"#,
};

/// Effects that add are judged by their sign.
static ADDING: Row = Row {
    world: ADDS,
    steps: &[
        Step::Expand(3),
        Step::Conflict,
        Step::Raise(5),
        Step::Conflict,
        Step::Expand(6),
        Step::Conflict,
        Step::Expand(3),
    ],
    want: r#"expand Inc
conflict Inc Low
raised
no conflict
expand Dec
conflict Dec Three
untried
<root BTCPP_format="4" main_tree_to_execute="Plan">
  <BehaviorTree ID="Plan">
    <ReactiveSequence>
      <ReactiveFallback>
        <Three/>
        <ReactiveSequence>
          <Inc/>
        </ReactiveSequence>
      </ReactiveFallback>
      <ReactiveFallback>
        <Low/>
        <ReactiveSequence>
          <Dec/>
        </ReactiveSequence>
      </ReactiveFallback>
    </ReactiveSequence>
  </BehaviorTree>
</root>
"#,
};

/// An action that threatens what it achieves: its own condition is no conflict, a neighbour's is one.
static ACHIEVES_AND_THREATENS: Row = Row {
    world: BOTH,
    steps: &[
        Step::Expand(2),
        Step::Conflict,
        Step::Expand(6),
        Step::Conflict,
        Step::Raise(8),
        Step::Conflict,
        Step::Raise(4),
        Step::Expand(3),
    ],
    want: r#"expand Inc
no conflict
expand Inc
conflict Inc Three
raised
conflict Inc Four
not raised
untried
<root BTCPP_format="4" main_tree_to_execute="Plan">
  <BehaviorTree ID="Plan">
    <ReactiveSequence>
      <ReactiveFallback>
        <Four/>
        <ReactiveSequence>
          <Inc/>
        </ReactiveSequence>
      </ReactiveFallback>
      <ReactiveFallback>
        <Three/>
        <ReactiveSequence>
          <Inc/>
        </ReactiveSequence>
      </ReactiveFallback>
    </ReactiveSequence>
  </BehaviorTree>
</root>
"#,
};

/// Several conflicts at once: of one action the head further left comes first, and before it each of an action that stands
/// earlier in pre-order.
static MANY_CONFLICTS: Row = Row {
    world: ORDER,
    steps: &[
        Step::Expand(4),
        Step::Conflict,
        Step::Expand(7),
        Step::Conflict,
    ],
    want: r#"expand MakeM
conflict MakeM K
expand MakeN
conflict MakeN L
<root BTCPP_format="4" main_tree_to_execute="Plan">
  <BehaviorTree ID="Plan">
    <ReactiveSequence>
      <K/>
      <L/>
      <ReactiveFallback>
        <M/>
        <ReactiveSequence>
          <ReactiveFallback>
            <N/>
            <ReactiveSequence>
              <MakeN/>
            </ReactiveSequence>
          </ReactiveFallback>
          <MakeM/>
        </ReactiveSequence>
      </ReactiveFallback>
    </ReactiveSequence>
  </BehaviorTree>
</root>
"#,
};

/// What an action needs it may undo, in its own sequence alone.
static USES_ITS_NEED: Row = Row {
    world: USES,
    steps: &[
        Step::Expand(3),
        Step::Conflict,
        Step::Raise(5),
        Step::Conflict,
    ],
    want: r#"expand Empty
conflict Empty Full
raised
no conflict
<root BTCPP_format="4" main_tree_to_execute="Plan">
  <BehaviorTree ID="Plan">
    <ReactiveSequence>
      <ReactiveFallback>
        <Done/>
        <ReactiveSequence>
          <Full/>
          <Empty/>
        </ReactiveSequence>
      </ReactiveFallback>
      <Full/>
    </ReactiveSequence>
  </BehaviorTree>
</root>
"#,
};
/// A node that is no condition, one that is no sequence, and a number that no node has.
static NO_SUCH_NODES: Row = Row {
    world: NEEDS,
    steps: &[
        Step::Expand(1),
        Step::Raise(1),
        Step::Expand(4),
        Step::Expand(0),
        Step::Raise(2),
    ],
    want: r#"no such condition
no such sequence
no such condition
no such condition
no such sequence
<root BTCPP_format="4" main_tree_to_execute="Plan">
  <BehaviorTree ID="Plan">
    <ReactiveSequence>
      <Y/>
      <Z/>
    </ReactiveSequence>
  </BehaviorTree>
</root>
"#,
};

/// Ten expansions, each below the one before, and two raises.
static LADDER_10: Row = Row {
    world: LADDER,
    steps: &[
        Step::Expand(3),
        Step::Expand(6),
        Step::Expand(9),
        Step::Expand(12),
        Step::Expand(15),
        Step::Expand(18),
        Step::Expand(21),
        Step::Expand(24),
        Step::Expand(27),
        Step::Expand(30),
        Step::Conflict,
        Step::Raise(32),
        Step::Conflict,
        Step::Raise(31),
    ],
    want: r#"expand A0
expand A1
expand A2
expand A3
expand A4
expand A5
expand A6
expand A7
expand A8
expand A9
conflict A9 K
raised
no conflict
not raised
<root BTCPP_format="4" main_tree_to_execute="Plan">
  <BehaviorTree ID="Plan">
    <ReactiveSequence>
      <ReactiveFallback>
        <C0/>
        <ReactiveSequence>
          <ReactiveFallback>
            <C1/>
            <ReactiveSequence>
              <ReactiveFallback>
                <C2/>
                <ReactiveSequence>
                  <ReactiveFallback>
                    <C3/>
                    <ReactiveSequence>
                      <ReactiveFallback>
                        <C4/>
                        <ReactiveSequence>
                          <ReactiveFallback>
                            <C5/>
                            <ReactiveSequence>
                              <ReactiveFallback>
                                <C6/>
                                <ReactiveSequence>
                                  <ReactiveFallback>
                                    <C7/>
                                    <ReactiveSequence>
                                      <ReactiveFallback>
                                        <C8/>
                                        <ReactiveSequence>
                                          <ReactiveFallback>
                                            <C9/>
                                            <ReactiveSequence>
                                              <A9/>
                                            </ReactiveSequence>
                                          </ReactiveFallback>
                                          <A8/>
                                        </ReactiveSequence>
                                      </ReactiveFallback>
                                      <A7/>
                                    </ReactiveSequence>
                                  </ReactiveFallback>
                                  <A6/>
                                </ReactiveSequence>
                              </ReactiveFallback>
                              <A5/>
                            </ReactiveSequence>
                          </ReactiveFallback>
                          <A4/>
                        </ReactiveSequence>
                      </ReactiveFallback>
                      <A3/>
                    </ReactiveSequence>
                  </ReactiveFallback>
                  <A2/>
                </ReactiveSequence>
              </ReactiveFallback>
              <A1/>
            </ReactiveSequence>
          </ReactiveFallback>
          <A0/>
        </ReactiveSequence>
      </ReactiveFallback>
      <K/>
    </ReactiveSequence>
  </BehaviorTree>
</root>
"#,
};

#[test]
fn plan_trees(rt: HostRuntime) -> Result<(), NoMemory> {
    let rows: [&Row; 15] = [
        &PICK_1,
        &PICK_2,
        &PICK_3,
        &PICK_4,
        &UNDOING,
        &ALTERNATIVES,
        &TWO_NODES,
        &TWO_RAISES,
        &GOAL_TWICE,
        &ADDING,
        &ACHIEVES_AND_THREATENS,
        &MANY_CONFLICTS,
        &USES_ITS_NEED,
        &NO_SUCH_NODES,
        &LADDER_10,
    ];
    compare(&rt, rt.alloc(), &rows)
}
