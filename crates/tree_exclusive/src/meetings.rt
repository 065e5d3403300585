ghost use Rattle.std.specs.Prelude.{◌≡◌};
ghost use Rattle.spec_exclusive.specs.Meetings.{meeting_at};
ghost use Rattle.spec_exclusive.specs.Pairs.{may_meet};

use spec_exclusive::Meeting;
use spec_tree::Kind;

/// How leaves may meet that stand below two children of a node of this kind, of which the earlier one
/// has this place.
pub(crate) fn meeting_at(kind: Kind, earlier: usize) -> Meeting
    ensures { result ≡ meeting_at kind earlier }
{
    match kind {
        Kind::Sequence
        | Kind::SequenceWithMemory
        | Kind::Fallback
        | Kind::Switch(_)
        | Kind::IfThenElse
        | Kind::RecoveryNode
        | Kind::RoundRobin => Meeting::Never,
        Kind::ReactiveSequence | Kind::ReactiveFallback => Meeting::Handover,
        Kind::WhileDoElse if earlier != 0 => Meeting::Never,
        _ => Meeting::Together,
    }
}

/// Whether two leaves that meet so may be held together at some moment.
pub(crate) fn may_meet(meeting: Meeting) -> bool
    ensures { result ≡ may_meet meeting }
{
    !matches!(meeting, Meeting::Never)
}
