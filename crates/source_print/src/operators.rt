//! Signs of operators.
ghost use Rattle.std.specs.Prelude.{◌≡◌, ◌++◌, ◌∷◌, [], ◌≤◌, OnOk};
ghost use Rattle.source_print.specs.Expressions as print;
ghost use Rattle.source_print.specs.Statements as print_of;

use crate::names::put;
use base_types::{NoMemory, Seq};
use py_syntax::{BinaryOp, Comparison, Lexeme};

/// The sign of a comparison.
pub(crate) fn put_comparator(out: &mut Seq<Lexeme>, comparison: Comparison) -> Result<(), NoMemory>
    ensures { OnOk result (out.new ≡ out.old ++ print.comparator comparison) }
{
    match comparison {
        Comparison::Eq => put(out, Lexeme::EqEq),
        Comparison::Ne => put(out, Lexeme::NotEq),
        Comparison::Lt => put(out, Lexeme::Less),
        Comparison::Le => put(out, Lexeme::LessEq),
        Comparison::Gt => put(out, Lexeme::Greater),
        Comparison::Ge => put(out, Lexeme::GreaterEq),
        Comparison::In => put(out, Lexeme::In),
        Comparison::NotIn => put_two(out, Lexeme::Not, Lexeme::In),
        Comparison::Is => put(out, Lexeme::Is),
        Comparison::IsNot => put_two(out, Lexeme::Is, Lexeme::Not),
    }
}

fn put_two(out: &mut Seq<Lexeme>, first: Lexeme, second: Lexeme) -> Result<(), NoMemory>
    ensures { OnOk result (out.new ≡ out.old ++ first ∷ second ∷ []) }
{
    put(out, first)?;
    put(out, second)
}

/// The sign of an augmented assignment.
pub(crate) fn augmented(op: BinaryOp) -> Lexeme
    ensures { result ≡ print_of.augmented op }
{
    match op {
        BinaryOp::Add => Lexeme::PlusEq,
        BinaryOp::Sub => Lexeme::MinusEq,
        BinaryOp::Mul => Lexeme::StarEq,
        BinaryOp::FloorDiv => Lexeme::SlashSlashEq,
        BinaryOp::Mod => Lexeme::PercentEq,
    }
}

/// How strongly an operator binds.
pub(crate) fn op_strength(op: BinaryOp) -> u8
    ensures value { result ≡ print.op_strength op }
    ensures small { result ≤ 6 }
{
    match op {
        BinaryOp::Add | BinaryOp::Sub => 5,
        BinaryOp::Mul | BinaryOp::FloorDiv | BinaryOp::Mod => 6,
    }
}

/// The sign of an operator.
pub(crate) fn op_sign(op: BinaryOp) -> Lexeme
    ensures { result ≡ print.op_sign op }
{
    match op {
        BinaryOp::Add => Lexeme::Plus,
        BinaryOp::Sub => Lexeme::Minus,
        BinaryOp::Mul => Lexeme::Star,
        BinaryOp::FloorDiv => Lexeme::SlashSlash,
        BinaryOp::Mod => Lexeme::Percent,
    }
}
