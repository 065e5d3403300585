ghost use Rattle.std.specs.Prelude.{◌≡◌, ◌++◌, OnOk};
ghost use Rattle.spec_expect.specs.Verdicts as verdicts;

use base_texts::NoMemory;
use spec_expect::Verdict;
use text_lines::{put_bytes, put_number};

/// Puts the line of an expectation that has this line in its file.
pub fn put_verdict(out: &mut Vec<u8>, line: u32, verdict: Verdict) -> Result<(), NoMemory>
    ensures { OnOk result (out.new.items ≡ out.old.items ++ verdicts.verdict_line line verdict) }
{
    match verdict {
        Verdict::Pass => {
            put_bytes(out, b"pass ")?;
            put_number(out, u64::from(line))?;
        }
        Verdict::Fail { at } => {
            put_bytes(out, b"fail ")?;
            put_number(out, u64::from(line))?;
            put_bytes(out, b" ")?;
            put_number(out, at)?;
        }
    }
    put_bytes(out, b"\n")
}

/// Puts the line of the sum.
pub fn put_sum(out: &mut Vec<u8>, passed: u64, failed: u64) -> Result<(), NoMemory>
    ensures { OnOk result (out.new.items ≡ out.old.items ++ verdicts.sum_line passed failed) }
{
    put_bytes(out, b"expected ")?;
    put_number(out, passed)?;
    put_bytes(out, b" passed, ")?;
    put_number(out, failed)?;
    put_bytes(out, b" failed\n")
}
