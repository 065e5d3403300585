ghost use Rattle.std.specs.Prelude.{◌≡◌, true, ◌+◌, ◌<◌, ◌≤◌, length};
ghost use Rattle.script_code.specs.Codes.{formula};
ghost use Rattle.script_code.specs.Rooms.{fits};
ghost use Rattle.script_code.specs.Running.{code_reach, code_texts, code_value};
ghost use Rattle.spec_script.specs.Entries.{look_of};
ghost use Rattle.spec_script.specs.Operators.{int_value};

use crate::codes::ExprCode;
use crate::machine::run;
use crate::number_stack::{NumberStack, Numbers};
use crate::postfix::Postfix;
use base_texts::Stop;
use spec_script::{ExecFault, Looks, Seen};

/// Looks, for a stack of numbers.
#[derive(Drop)]
struct SeenNumbers<'a, L: Looks> {
    looks: &'a L,
}

impl<L: Looks> Numbers for SeenNumbers<'_, L> {
    ghost use Rattle.std.specs.Prelude.{length};
    ghost use Rattle.spec_script.specs.Entries.{look_of as seen};

    ghost reach = { λ s. length (L.sights s.looks.now) };

    ghost gives = { λ s. seen (L.sights s.looks.now) };

    #[inline(always)]
    fn number(&self, slot: u32) -> Result<i64, Stop<ExecFault>> {
        match self.looks.look(slot) {
            Seen::Int(n) => Ok(n),
            Seen::Text => Err(Stop::Fault(ExecFault::Mixed)),
            Seen::Absent => Err(Stop::Fault(ExecFault::NoEntry { slot })),
        }
    }
}

/// The number that a code without text literals gives over the looks, or its first fault, on a stack
/// over these places.
#[tactic(auto, using(crate::proofs::Given::number_there, crate::proofs::Given::number_given, crate::proofs::Standing::none_met))]
#[inline(always)]
fn number_on<L: Looks, const N: usize>(
    code: &Postfix,
    looks: &L,
    places: &mut [i64; N],
) -> Result<i64, ExecFault>
    requires most { N ≤ 65 }
    requires fits { fits N code.now.instrs ≡ true }
    requires reach { code_reach code.now.instrs ≤ length (L.sights looks.now) }
    requires textless { code_texts code.now.instrs ≡ 0 }
    ensures { int_value result ≡ code_value (look_of (L.sights looks.now)) code.now.instrs }
{
    let mut stack = NumberStack::empty(places);
    match run(code, &SeenNumbers { looks }, &mut stack) {
        Ok(()) => Ok(stack.take()),
        Err(Stop::Fault(fault)) => Err(fault),
        Err(Stop::NoMemory) => unreachable!(),
    }
}

/// The number that an expression without text literals gives over the looks, or its first fault. A
/// text that is looked at is `Mixed`. It takes no memory.
#[tactic(auto, unfolding(crate::specs::Codes::formula))]
pub fn number<L: Looks>(code: &ExprCode, looks: &L) -> Result<i64, ExecFault>
    requires reach { (formula code.now).reach ≤ length (L.sights looks.now) }
    requires textless { (formula code.now).texts ≡ 0 }
    ensures { int_value result ≡ (formula code.now).value (look_of (L.sights looks.now)) }
{
    if code.postfix.is_low {
        return number_on(&code.postfix, looks, &mut [0; 8]);
    }
    number_on(&code.postfix, looks, &mut [0; 65])
}
