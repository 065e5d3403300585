//! A host, whole: its robot does what the notes of a tick ask for, and the leaf is told when it is done.

use crate::opening::open;
use base_texts::{Items, Name, NoMemory};
use host_session::Session;
use spec_run::{Answer, Note};
use spec_script::Value;
use spec_session::Ended;
use spec_world::{Telling, What};
use std::alloc::Global;
use std::process::Abort;

/// What a robot does: the leaf for which it does it, and the turns that are left.
#[derive(Drop)]
struct Robot {
    leaf: Option<u32>,
    left: u32,
}

impl Robot {
    /// Begins and stops as leaves were started and halted.
    fn obey(&mut self, notes: &[Note]) {
        for note in notes {
            match note {
                Note::Started {
                    uid,
                    answer: Answer::Running,
                } => {
                    self.leaf = Some(*uid);
                    self.left = 3;
                }
                Note::Halted { .. } | Note::Quenched { .. } => self.leaf = None,
                _ => {}
            }
        }
    }

    /// Works for a turn. The leaf whose work is done then, if one is.
    fn work(&mut self) -> Option<u32> {
        let uid = self.leaf?;
        self.left = self.left.saturating_sub(1);
        if self.left > 0 {
            return None;
        }
        self.leaf = None;
        Some(uid)
    }
}

/// Makes a turn: a tick, what it asks of the robot, and what the robot tells.
fn turn(alloc: Global, session: &mut Session, robot: &mut Robot, at: u64) -> Result<(), Ended> {
    session.event(What::Tick(1), at)?;
    robot.obey(session.block().notes.list());
    if let Some(uid) = robot.work() {
        let telling = Telling::Success(Items::of(Vec::new(alloc)));
        session.event(
            What::Tell {
                runner: 1,
                uid,
                telling,
            },
            at,
        )?;
    }
    Ok(())
}

/// Makes turns of 100 ms, and then the finish. The error is how an event has ended that was not made.
fn drive(alloc: Global, session: &mut Session, turns: u32) -> Result<(), Ended> {
    let mut robot = Robot {
        leaf: None,
        left: 0,
    };
    for number in 0..turns {
        turn(alloc, session, &mut robot, 100 * u64::from(number))?;
    }
    session.finish(1)
}

static TREE: &str = "<root BTCPP_format=\"4\"><BehaviorTree ID=\"M\">\
<Sequence _onSuccess=\"done := 1\"><Fetch/><Place/></Sequence></BehaviorTree></root>";

static WORLD: &str = "bt-world 1\naction Fetch told\naction Place told\n";

/// Drives a session for seven turns, in which the robot fetches and places.
fn fetch_and_place(rt: &impl Abort, alloc: Global, session: &mut Session) -> Result<(), NoMemory> {
    assert_eq!(rt; drive(alloc, session, 7), Ok(()));
    let done = Name::copied(alloc, b"done")?;
    assert!(rt; matches!(session.entry(1, 0, &done), Some(Value::Int(1))));
    assert_eq!(rt; session.last(), 600);
    Ok(())
}

#[test]
fn a_robot_is_driven(rt: HostRuntime) -> Result<(), NoMemory> {
    let mut session = open(&rt, rt.alloc(), TREE, WORLD);
    let driven = fetch_and_place(&rt, rt.alloc(), &mut session);
    drop(session);
    driven
}
