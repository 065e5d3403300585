use base_texts::Txt;
use spec_script::{BinOp, UnOp};

/// An instruction of postfix code. A jump says how many of those that follow it are passed over.
#[derive(Debug, Drop)]
pub enum Instr {
    /// Puts a number on top.
    Number(i64),
    /// Puts a copy of a text on top.
    Text(Txt),
    /// Puts what a slot gives on top.
    Slot(u32),
    /// Puts an operator's result in place of its operand, the topmost.
    Unary(UnOp),
    /// Puts an operator's result in place of its operands, the two topmost.
    Binary(BinOp),
    /// Puts an operator's result in place of its left operand, the topmost. The right one is a number.
    BinaryNumber(BinOp, i64),
    /// `Binary` of `+`, `-` and `*`, which are met most.
    Add,
    Sub,
    Mul,
    /// `BinaryNumber` of `+`, `-` and `*`.
    AddNumber(i64),
    SubNumber(i64),
    MulNumber(i64),
    /// Takes the topmost. Where it is false, 0 is put there, and the jump is made.
    AndThen(usize),
    /// Takes the topmost. Where it is true, 1 is put there, and the jump is made.
    OrElse(usize),
    /// Puts 1 in place of a topmost that is true, and else 0.
    Truth,
    /// Takes the topmost, and jumps where it is false.
    Unless(usize),
    /// Jumps.
    Skip(usize),
}
