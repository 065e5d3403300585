//! Which effects achieve a test and which threaten it.

use plan_tree::{achieves, threatens};
use spec_plan::Test;
use spec_script::Cmp;
use spec_world::{How, Set};

/// A comparison with 3, an effect, and whether it achieves and threatens the test.
type Row = (Cmp, How, i64, bool, bool);

static ROWS: [Row; 24] = [
    (Cmp::Equal, How::To, 3, true, false),
    (Cmp::Equal, How::To, 4, false, true),
    (Cmp::Differ, How::To, 3, false, true),
    (Cmp::Less, How::To, 2, true, false),
    (Cmp::AtMost, How::To, 3, true, false),
    (Cmp::More, How::To, 3, false, true),
    (Cmp::AtLeast, How::To, 3, true, false),
    (Cmp::Equal, How::By, 1, true, true),
    (Cmp::Equal, How::By, -1, true, true),
    (Cmp::Differ, How::By, 1, true, true),
    (Cmp::Differ, How::By, -1, true, true),
    (Cmp::Less, How::By, 1, false, true),
    (Cmp::Less, How::By, -1, true, false),
    (Cmp::AtMost, How::By, 1, false, true),
    (Cmp::AtMost, How::By, -1, true, false),
    (Cmp::More, How::By, 1, true, false),
    (Cmp::More, How::By, -1, false, true),
    (Cmp::AtLeast, How::By, 1, true, false),
    (Cmp::AtLeast, How::By, -1, false, true),
    (Cmp::Equal, How::By, 0, false, false),
    (Cmp::Differ, How::By, 0, false, false),
    (Cmp::Less, How::By, 0, false, false),
    (Cmp::More, How::By, 0, false, false),
    (Cmp::AtLeast, How::By, 0, false, false),
];

#[test]
fn single_effects(rt: HostRuntime) {
    for (op, how, value, achieved, threatened) in &ROWS {
        let test = Test {
            fact: 1,
            op: *op,
            value: 3,
        };
        let effect = Set {
            fact: 1,
            how: *how,
            value: *value,
        };
        let elsewhere = Set { fact: 0, ..effect };
        assert_eq!(rt; achieves(&test, &[elsewhere, effect]), *achieved);
        assert_eq!(rt; threatens(&[elsewhere, effect], &test), *threatened);
        assert!(rt; !achieves(&test, &[elsewhere]));
        assert!(rt; !threatens(&[elsewhere], &test));
    }
}

#[test]
fn effects_together(rt: HostRuntime) {
    let test = Test {
        fact: 1,
        op: Cmp::Equal,
        value: 3,
    };
    let there = Set {
        fact: 1,
        how: How::To,
        value: 3,
    };
    let away = Set { value: 4, ..there };
    let both = [away, there];
    assert!(rt; achieves(&test, &both));
    assert!(rt; threatens(&both, &test));
}
