ghost use Rattle.std.specs.Prelude.{◌≡◌, ◌<◌, IfOk, length, reverse};
ghost use Rattle.spec_script.specs.Grammar.{changes};
ghost use Rattle.script_reader.specs.Standing.{spot_of};
ghost use Rattle.spec_script.specs.Spots.{operand_step, after_step, closing_step, named_step, stage_step, ends_at, Checked};

use base_texts::NoMemory;
use spec_script::{BinOp, Opened, Placed, Stage, Token, Verdict};

/// The stage after a token where an operand may stand; a word leads to `word_stage`. None where the
/// token begins no operand. `NoMemory` where `opened` cannot grow, as below.
fn after_start_of_operand(
    token: &Token,
    word_stage: Stage,
    opened: &mut Vec<Opened>,
) -> Result<Option<Stage>, NoMemory>
    ensures { IfOk result (λ stage. spot_of stage opened.new.items ≡ operand_step word_stage (reverse opened.old.items) token.now) }
{
    match token {
        Token::Number(_) => Ok(Some(Stage::After)),
        Token::Text(_) => Ok(Some(Stage::After)),
        Token::Word(_) => Ok(Some(word_stage)),
        Token::Operator(BinOp::Sub) => Ok(Some(Stage::Before)),
        Token::Bang => Ok(Some(Stage::Before)),
        Token::Tilde => Ok(Some(Stage::Before)),
        Token::Open => {
            opened.push(Opened::Paren)?;
            Ok(Some(Stage::Before))
        }
        _ => Ok(None),
    }
}

/// The stage after a token that closes what is innermost. None where something else is innermost.
fn closed(opened: &mut Vec<Opened>, wanted: Opened, stage: Stage) -> Option<Stage>
    ensures { spot_of result opened.new.items ≡ closing_step wanted stage (reverse opened.old.items) }
{
    match opened.pop() {
        Some(innermost) if innermost == wanted => Some(stage),
        _ => None,
    }
}

/// The stage after a token that comes after an operand. None where it may not stand there.
fn after_operand(token: &Token, opened: &mut Vec<Opened>) -> Result<Option<Stage>, NoMemory>
    ensures { IfOk result (λ stage. spot_of stage opened.new.items ≡ after_step (reverse opened.old.items) token.now) }
{
    match token {
        Token::Operator(_) => Ok(Some(Stage::Before)),
        Token::Question => {
            opened.push(Opened::Choice)?;
            Ok(Some(Stage::Before))
        }
        Token::Colon => Ok(closed(opened, Opened::Choice, Stage::Before)),
        Token::Close => Ok(closed(opened, Opened::Paren, Stage::After)),
        Token::Semicolon => Ok(if opened.is_empty() {
            Some(Stage::Start)
        } else {
            None
        }),
        _ => Ok(None),
    }
}

/// Whether an operator may stand before `=`.
fn may_change(op: BinOp) -> bool
    ensures { result ≡ changes op }
{
    match op {
        BinOp::Add => true,
        BinOp::Sub => true,
        BinOp::Mul => true,
        BinOp::Div => true,
        _ => false,
    }
}

/// The stage after a token that comes after the name with which a statement begins. None where it may not
/// stand there.
fn after_name(token: &Token, opened: &mut Vec<Opened>) -> Result<Option<Stage>, NoMemory>
    ensures { IfOk result (λ stage. spot_of stage opened.new.items ≡ named_step (reverse opened.old.items) token.now) }
{
    match token {
        Token::Creates => Ok(Some(Stage::Before)),
        Token::Assigns => Ok(Some(Stage::Before)),
        Token::Changes(op) => Ok(if may_change(*op) {
            Some(Stage::Before)
        } else {
            None
        }),
        _ => after_operand(token, opened),
    }
}

/// The stage after a token, in any stage. None where the token may not stand there.
fn step(token: &Token, stage: Stage, opened: &mut Vec<Opened>) -> Result<Option<Stage>, NoMemory>
    ensures { IfOk result (λ next. spot_of next opened.new.items ≡ stage_step stage (reverse opened.old.items) token.now) }
{
    match (stage, token) {
        (Stage::Blank | Stage::Start, Token::Semicolon) => Ok(Some(stage)),
        (Stage::Blank | Stage::Start, _) => after_start_of_operand(token, Stage::Named, opened),
        (Stage::Named, _) => after_name(token, opened),
        (Stage::Before, _) => after_start_of_operand(token, Stage::After, opened),
        (Stage::After, _) => after_operand(token, opened),
    }
}

/// Whether a text may end here.
fn may_end(stage: Stage, opened: &[Opened]) -> bool
    ensures { result ≡ ends_at stage opened.now }
{
    match stage {
        Stage::Blank => false,
        Stage::Before => false,
        Stage::After => match opened {
            [] => true,
            [Opened::Whole] => true,
            _ => false,
        },
        _ => opened.is_empty(),
    }
}

/// Reads the tokens, from this stage and with this much open, and says whether they are a whole text.
pub fn check(tokens: &[Placed], start: Stage, mut opened: Vec<Opened>) -> Result<Verdict, NoMemory>
    ensures { IfOk result (λ verdict. Checked (start, reverse opened.items) tokens.now verdict) }
{
    let mut stage = start;
    for placed in tokens {
        match step(&placed.token, stage, &mut opened)? {
            Some(next) => stage = next,
            None => return Ok(Verdict::Stuck(placed.place)),
        }
    }
    if may_end(stage, opened.as_slice()) {
        return Ok(Verdict::Whole);
    }
    Ok(Verdict::Unfinished)
}
