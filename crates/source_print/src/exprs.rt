//! Expressions.
ghost use Rattle.std.specs.Prelude.{◌≡◌, ◌++◌, ◌∷◌, [], map, Some, None, ◌<◌, OnOk, IfOk, IfSome, MatchOption};
ghost use Rattle.py_syntax.specs.declared.lexeme.Lexeme.TheVariants as token;
ghost use Rattle.py_syntax.specs.declared.expr.Expr.{size-Expr};
ghost use Rattle.source_print.specs.Expressions as print;
ghost use Rattle.source_print.specs.Between as between;
ghost use Rattle.source_print.specs.Parts as part;

use crate::names::{put, put_comma, put_name};
use crate::operators::{op_sign, op_strength, put_comparator};
use base_owners::Shared;
use base_types::{Exact, NoMemory, Seq, Text};
use py_syntax::{Comparison, Expr, Lexeme};

/// How strongly the outermost form of an expression binds.
fn strength(expr: &Expr) -> u8
    ensures { result ≡ (print.print_of expr.now).strength }
{
    match expr {
        Expr::Or(_, _) => 1,
        Expr::And(_, _) => 2,
        Expr::Not(_) => 3,
        Expr::Compare(_, _, _) => 4,
        Expr::Binary(op, _, _) => op_strength(*op),
        Expr::Negative(_) => 7,
        _ => 8,
    }
}

/// The expression that an expression begins with, and how strongly that has to bind.
fn left_of(expr: &Expr) -> Option<(&Expr, u8)>
    ensures value { MatchOption result (part.left expr.now ≡ None)
        (λ left. part.left expr.now ≡ Some (left.0.now, left.1)) }
    ensures smaller { IfSome result (λ left. size-Expr left.0.now < size-Expr expr.now) }
{
    match expr {
        Expr::Attribute(left, _) | Expr::Call(left, _) | Expr::Subscript(left, _) => {
            Some((left.get(), 8))
        }
        Expr::Binary(op, left, _) => Some((left.get(), op_strength(*op))),
        Expr::Compare(_, left, _) => Some((left.get(), 5)),
        Expr::And(left, _) => Some((left.get(), 2)),
        Expr::Or(left, _) => Some((left.get(), 1)),
        _ => None,
    }
}

/// A parenthesis, if the expression does not bind so strongly.
fn put_parenthesis(
    out: &mut Seq<Lexeme>,
    sign: Lexeme,
    least: u8,
    expr: &Expr,
) -> Result<(), NoMemory>
    ensures { OnOk result (out.new ≡ out.old ++ part.parenthesis sign least (print.print_of expr.now)) }
{
    if strength(expr) < least {
        put(out, sign)
    } else {
        Ok(())
    }
}

/// The parenthesis behind the left side.
fn put_closing(out: &mut Seq<Lexeme>, expr: &Expr) -> Result<(), NoMemory>
    ensures { OnOk result (out.new ≡ out.old ++ part.closing (part.left expr.now)) }
{
    match left_of(expr) {
        Some((left, least)) => put_parenthesis(out, Lexeme::CloseParen, least, left),
        None => Ok(()),
    }
}

/// Goes down to the innermost left side, and puts the parentheses that open on the way. It gives the expressions that it
/// comes by, the innermost last.
fn put_openings<'a>(out: &mut Seq<Lexeme>, expr: &'a Expr) -> Result<Seq<&'a Expr>, NoMemory>
    ensures put { IfOk result (λ parts. out.new ++ part.behind (map (λ p. p.now) parts) ≡ out.old
        ++ print.expr_tokens expr.now) }
    ensures within { IfOk result (λ parts. part.NoDeeper (size-Expr expr.now) (map (λ p. p.now) parts)) }
{
    let mut parts = Seq::new(out.alloc());
    let mut current = expr;
    loop {
        parts.push(current)?;
        match left_of(current) {
            Some((left, least)) => {
                put_parenthesis(out, Lexeme::OpenParen, least, left)?;
                current = left;
            }
            None => return Ok(parts),
        }
    }
}

/// An expression. A long sum, and a long chain of attributes, calls and subscriptions, is a tree that is deep to the left
/// alone: the left sides are printed in a loop, so that the native stack holds a few calls for each open level.
#[cycle(exprs)]
pub(crate) fn put_expr(out: &mut Seq<Lexeme>, expr: &Expr) -> Result<(), NoMemory>
    ensures { OnOk result (out.new ≡ out.old ++ print.expr_tokens expr.now) }
{
    // What begins with no other expression, as a name, needs no list.
    if let None = left_of(expr) {
        return put_own(out, expr);
    }
    let mut parts = put_openings(out, expr)?;
    while let Some(part) = parts.pop() {
        put_closing(out, part)?;
        put_own(out, part)?;
    }
    Ok(())
}

/// What stands behind the left side of an expression, and all of it where it has none.
#[cycle(exprs)]
fn put_own(out: &mut Seq<Lexeme>, expr: &Expr) -> Result<(), NoMemory>
    ensures { OnOk result (out.new ≡ out.old ++ part.own expr.now) }
{
    match expr {
        Expr::Name(name) => put_name(out, name),
        Expr::Number(n) => put(out, Lexeme::Number(*n)),
        Expr::Str(text) => put(out, Lexeme::Str(text.copy()?)),
        Expr::Nothing => put(out, Lexeme::None),
        Expr::True => put(out, Lexeme::True),
        Expr::False => put(out, Lexeme::False),
        Expr::Tuple(items) => put_tuple(out, items),
        Expr::List(items) => put_list(out, items),
        Expr::Attribute(_, name) => put_attribute(out, name),
        Expr::Call(_, arguments) => put_arguments(out, arguments),
        Expr::Subscript(_, index) => put_index(out, index.get()),
        Expr::Negative(operand) => put_signed(out, Lexeme::Minus, 7, operand.get()),
        Expr::Binary(op, _, right) => {
            put_signed(out, op_sign(*op), op_strength(*op) + 1, right.get())
        }
        Expr::Compare(op, _, right) => put_compared(out, *op, right.get()),
        Expr::Not(operand) => put_signed(out, Lexeme::Not, 3, operand.get()),
        Expr::And(_, right) => put_signed(out, Lexeme::And, 3, right.get()),
        Expr::Or(_, right) => put_signed(out, Lexeme::Or, 2, right.get()),
    }
}

/// A comparison before its right operand.
#[cycle(exprs)]
fn put_compared(out: &mut Seq<Lexeme>, comparison: Comparison, expr: &Expr) -> Result<(), NoMemory>
    ensures { OnOk result (out.new ≡ out.old ++ (print.comparator comparison
        ++ print.operand 5 (print.print_of expr.now))) }
{
    put_comparator(out, comparison)?;
    put_operand(out, 5, expr)
}

/// An expression where only what binds so strongly may stand.
#[cycle(exprs)]
fn put_operand(out: &mut Seq<Lexeme>, least: u8, expr: &Expr) -> Result<(), NoMemory>
    ensures { OnOk result (out.new ≡ out.old ++ print.operand least (print.print_of expr.now)) }
{
    if strength(expr) < least {
        put(out, Lexeme::OpenParen)?;
        put_expr(out, expr)?;
        put(out, Lexeme::CloseParen)
    } else {
        put_expr(out, expr)
    }
}

/// A sign before its operand.
#[cycle(exprs)]
fn put_signed(out: &mut Seq<Lexeme>, sign: Lexeme, least: u8, expr: &Expr) -> Result<(), NoMemory>
    ensures { OnOk result (out.new ≡ out.old ++ sign ∷ print.operand least (print.print_of expr.now)) }
{
    put(out, sign)?;
    put_operand(out, least, expr)
}

fn put_attribute(out: &mut Seq<Lexeme>, name: &Text) -> Result<(), NoMemory>
    ensures { OnOk result (out.new ≡ out.old ++ token.Dot ∷ token.Name name.now ∷ []) }
{
    put(out, Lexeme::Dot)?;
    put_name(out, name)
}

#[cycle(exprs)]
fn put_arguments(out: &mut Seq<Lexeme>, arguments: &Seq<Shared<Expr>>) -> Result<(), NoMemory>
    ensures { OnOk result (out.new ≡ out.old ++ print.enclosed token.OpenParen
        (print.items (map print.print_of arguments.now)) token.CloseParen) }
{
    put(out, Lexeme::OpenParen)?;
    put_items(out, arguments)?;
    put(out, Lexeme::CloseParen)
}

#[cycle(exprs)]
fn put_index(out: &mut Seq<Lexeme>, index: &Expr) -> Result<(), NoMemory>
    ensures { OnOk result (out.new ≡ out.old ++ print.enclosed token.OpenBracket
        (print.expr_tokens index.now) token.CloseBracket) }
{
    put(out, Lexeme::OpenBracket)?;
    put_expr(out, index)?;
    put(out, Lexeme::CloseBracket)
}

#[cycle(exprs)]
fn put_list(out: &mut Seq<Lexeme>, items: &Seq<Shared<Expr>>) -> Result<(), NoMemory>
    ensures { OnOk result (out.new ≡ out.old ++ print.enclosed token.OpenBracket
        (print.items (map print.print_of items.now)) token.CloseBracket) }
{
    put(out, Lexeme::OpenBracket)?;
    put_items(out, items)?;
    put(out, Lexeme::CloseBracket)
}

#[cycle(exprs)]
fn put_tuple(out: &mut Seq<Lexeme>, items: &Seq<Shared<Expr>>) -> Result<(), NoMemory>
    ensures { OnOk result (out.new ≡ out.old ++ print.enclosed token.OpenParen
        (print.tuple_items (map print.print_of items.now)) token.CloseParen) }
{
    put(out, Lexeme::OpenParen)?;
    put_items(out, items)?;
    put_last_comma(out, items.len())?;
    put(out, Lexeme::CloseParen)
}

/// The comma behind the item of a tuple of one.
fn put_last_comma(out: &mut Seq<Lexeme>, items: usize) -> Result<(), NoMemory>
    ensures { OnOk result (out.new ≡ out.old ++ between.last_comma items) }
{
    if items == 1 {
        put(out, Lexeme::Comma)
    } else {
        Ok(())
    }
}

/// Items with commas between.
#[cycle(exprs)]
fn put_items(out: &mut Seq<Lexeme>, items: &Seq<Shared<Expr>>) -> Result<(), NoMemory>
    ensures { OnOk result (out.new ≡ out.old ++ print.items (map print.print_of items.now)) }
{
    let items = items.as_slice();
    for n in 0..items.len() {
        put_comma(out, n)?;
        put_expr(out, &items[n])?;
    }
    Ok(())
}
