//! Expressions printed.
ghost use Rattle.std.specs.Prelude.{◌≡◌, ◌≤◌, IfOk, length, string_bytes};
ghost use Rattle.{review_expr.specs.Exprs.IsTextOf, review_expr_printing.specs.Printed.expr_text};

use crate::printer::print_expression;
use review_expr::Expr;
use std::alloc::{AllocError, Global};

/// The text of an expression: members joined by ` AND ` or ` OR `, Not as `NOT ` and
/// its member, parentheses only round a list that is a member. Where it has at most 4,096 bytes it
/// is this expression again. An error where there was no memory for it.
pub fn print(alloc: Global, expr: &Expr) -> Result<String, AllocError>
    ensures text { IfOk result (λ s. string_bytes s ≡ expr_text expr.now) }
    ensures again { IfOk result (λ s. length (string_bytes s) ≤ 4096 → ∥ IsTextOf (string_bytes s) expr.now ∥₁) }
{
    match expr {
        Expr::Requirement(expression) => print_expression(alloc, expression),
        Expr::Copy(expression) => print_expression(alloc, expression),
    }
}
