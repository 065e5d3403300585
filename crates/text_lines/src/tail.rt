ghost use Rattle.std.specs.Prelude.{◌≡◌, ◌≤◌, ◌++◌, codes};
ghost use Rattle.spec_output.specs.Lines.{answer_word, status_word};
ghost use Rattle.text_lines.specs.Tails.{tail_text};

use spec_run::{Answer, Status};

/// How many bytes of room a tail has: few enough that its copy is a few moves.
const ROOM: usize = 24;

/// The end of a line, in a room that has the same size for all, so that the room is copied with a
/// length known to the compiler.
#[derive(Clone, Copy, Debug)]
pub struct Tail {
    pub room: [u8; ROOM],
    /// How many bytes of the room are the end of the line.
    pub len: usize,
}

/// The ends of the lines of changed statuses, by the status before and the one after.
static CHANGES: [[Tail; 4]; 4] = [
    [
        Tail {
            room: *b" IDLE IDLE\n             ",
            len: 11,
        },
        Tail {
            room: *b" IDLE RUNNING\n          ",
            len: 14,
        },
        Tail {
            room: *b" IDLE SUCCESS\n          ",
            len: 14,
        },
        Tail {
            room: *b" IDLE FAILURE\n          ",
            len: 14,
        },
    ],
    [
        Tail {
            room: *b" RUNNING IDLE\n          ",
            len: 14,
        },
        Tail {
            room: *b" RUNNING RUNNING\n       ",
            len: 17,
        },
        Tail {
            room: *b" RUNNING SUCCESS\n       ",
            len: 17,
        },
        Tail {
            room: *b" RUNNING FAILURE\n       ",
            len: 17,
        },
    ],
    [
        Tail {
            room: *b" SUCCESS IDLE\n          ",
            len: 14,
        },
        Tail {
            room: *b" SUCCESS RUNNING\n       ",
            len: 17,
        },
        Tail {
            room: *b" SUCCESS SUCCESS\n       ",
            len: 17,
        },
        Tail {
            room: *b" SUCCESS FAILURE\n       ",
            len: 17,
        },
    ],
    [
        Tail {
            room: *b" FAILURE IDLE\n          ",
            len: 14,
        },
        Tail {
            room: *b" FAILURE RUNNING\n       ",
            len: 17,
        },
        Tail {
            room: *b" FAILURE SUCCESS\n       ",
            len: 17,
        },
        Tail {
            room: *b" FAILURE FAILURE\n       ",
            len: 17,
        },
    ],
];

/// The ends of the lines of `start` calls, by the answer.
static STARTS: [Tail; 4] = [
    Tail {
        room: *b" start RUNNING\n         ",
        len: 15,
    },
    Tail {
        room: *b" start SUCCESS\n         ",
        len: 15,
    },
    Tail {
        room: *b" start FAILURE\n         ",
        len: 15,
    },
    Tail {
        room: *b" start SKIPPED\n         ",
        len: 15,
    },
];

/// The ends of the lines of `running` calls, by the answer.
static RUNS: [Tail; 4] = [
    Tail {
        room: *b" running RUNNING\n       ",
        len: 17,
    },
    Tail {
        room: *b" running SUCCESS\n       ",
        len: 17,
    },
    Tail {
        room: *b" running FAILURE\n       ",
        len: 17,
    },
    Tail {
        room: *b" running SKIPPED\n       ",
        len: 17,
    },
];

/// The ends of the lines of a root, by its answer.
static ANSWERS: [Tail; 4] = [
    Tail {
        room: *b" RUNNING\n               ",
        len: 9,
    },
    Tail {
        room: *b" SUCCESS\n               ",
        len: 9,
    },
    Tail {
        room: *b" FAILURE\n               ",
        len: 9,
    },
    Tail {
        room: *b" SKIPPED\n               ",
        len: 9,
    },
];

static HALTED: Tail = Tail {
    room: *b" halted\n                ",
    len: 8,
};

/// The end of the line of a change: the status before and the one after. It is read from a table,
/// since most lines have one.
#[inline(always)]
pub fn change_tail(old: Status, new: Status) -> &'static Tail
    ensures text { tail_text result.now ≡ codes " " ++ status_word old ++ codes " " ++ status_word new ++ codes "\n" }
    ensures within { result.now.len ≤ 24 }
{
    &CHANGES[old as usize][new as usize]
}

/// The end of the line of a `start` call, with its answer.
#[inline(always)]
pub fn start_tail(answer: Answer) -> &'static Tail
    ensures text { tail_text result.now ≡ codes " start " ++ answer_word answer ++ codes "\n" }
    ensures within { result.now.len ≤ 24 }
{
    &STARTS[answer as usize]
}

/// The end of the line of a `running` call, with its answer.
#[inline(always)]
pub fn run_tail(answer: Answer) -> &'static Tail
    ensures text { tail_text result.now ≡ codes " running " ++ answer_word answer ++ codes "\n" }
    ensures within { result.now.len ≤ 24 }
{
    &RUNS[answer as usize]
}

/// The end of the line of a root: a blank and its answer.
#[inline(always)]
pub fn answer_tail(answer: Answer) -> &'static Tail
    ensures text { tail_text result.now ≡ codes " " ++ answer_word answer ++ codes "\n" }
    ensures within { result.now.len ≤ 24 }
{
    &ANSWERS[answer as usize]
}

/// The end of the line of a `halted` call.
#[inline(always)]
pub fn halted_tail() -> &'static Tail
    ensures text { tail_text result.now ≡ codes " halted\n" }
    ensures within { result.now.len ≤ 24 }
{
    &HALTED
}
