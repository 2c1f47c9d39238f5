// Expressions made of others. Where memory fails, those go.
ghost use Rattle.std.specs.Prelude.{◌≡◌, IfOk};
ghost use Rattle.cad_grammar.specs.Trees as tree;
ghost use Rattle.cad_grammar.specs.Views.{expr_of, type_of};

use cad_grammar::{BinaryOperator, Expr, TypeExpr};
use std::alloc::{AllocError, Global};

/// An expression on the heap.
pub fn boxed(alloc: Global, a: Expr) -> Result<Box<Expr>, AllocError>
    ensures { IfOk result (λ b. b.value ≡ a) }
{
    match Box::new(alloc, a) {
        Ok(a) => Ok(a),
        Err(refused) => {
            drop(refused.value);
            Err(AllocError)
        }
    }
}

/// Two expressions on the heap.
pub fn boxed_both(alloc: Global, a: Expr, b: Expr) -> Result<(Box<Expr>, Box<Expr>), AllocError>
    ensures left { IfOk result (λ both. both.0.value ≡ a) }
    ensures right { IfOk result (λ both. both.1.value ≡ b) }
{
    match boxed(alloc, a) {
        Ok(a) => Ok((a, boxed(alloc, b)?)),
        Err(error) => {
            drop(b);
            Err(error)
        }
    }
}

/// An operator over two expressions.
pub fn binary(alloc: Global, operator: BinaryOperator, a: Expr, b: Expr) -> Result<Expr, AllocError>
    ensures { IfOk result (λ e. expr_of e ≡ tree.binary operator (expr_of a) (expr_of b)) }
{
    let (a, b) = boxed_both(alloc, a, b)?;
    Ok(Expr::Binary(operator, a, b))
}

/// A reference to an expression, as of a type.
pub fn reference(alloc: Global, a: Expr, to: TypeExpr) -> Result<Expr, AllocError>
    ensures { IfOk result (λ e. expr_of e ≡ tree.borrow (expr_of a) (type_of to)) }
{
    match boxed(alloc, a) {
        Ok(a) => Ok(Expr::Reference(a, to)),
        Err(error) => {
            drop(to);
            Err(error)
        }
    }
}

/// A test and both branches.
pub fn choice(alloc: Global, test: Expr, a: Expr, b: Expr) -> Result<Expr, AllocError>
    ensures { IfOk result (λ e. expr_of e ≡ tree.conditional (expr_of test) (expr_of a) (expr_of b)) }
{
    let test = match boxed(alloc, test) {
        Ok(test) => test,
        Err(error) => {
            drop(a);
            drop(b);
            return Err(error);
        }
    };
    let (a, b) = boxed_both(alloc, a, b)?;
    Ok(Expr::Conditional(test, a, b))
}
