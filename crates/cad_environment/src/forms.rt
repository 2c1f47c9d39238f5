// Forms of expressions.
ghost use Rattle.std.specs.Prelude.{◌≡◌};
ghost use Rattle.cad_grammar.specs.Views.{expr_of};
ghost use Rattle.cad_typing.specs.Receivers as spec;

use cad_grammar::Expr;

/// Whether it is a name, `self`, a member, an index or what is under `!`: it is looked up where it stands.
pub fn is_path(e: &Expr) -> bool
    ensures { result ≡ spec.is_path (expr_of e.now) }
{
    matches!(
        e,
        Expr::Name(_) | Expr::Self_ | Expr::Member(_, _) | Expr::Index(_, _) | Expr::Force(_)
    )
}

/// The same before `?.`, where a chain is looked up too.
pub fn is_path_of_chain(e: &Expr) -> bool
    ensures { result ≡ spec.is_path_of_chain (expr_of e.now) }
{
    match e {
        Expr::OptionalMember(_, _) => true,
        _ => is_path(e),
    }
}

/// Whether it is a place: a name, `self`, or a member or index of a place.
pub fn is_place(e: &Expr) -> bool
    ensures { result ≡ spec.is_place (expr_of e.now) }
{
    match e {
        Expr::Name(_) | Expr::Self_ => true,
        Expr::Member(base, _) | Expr::Index(base, _) => is_place(base),
        _ => false,
    }
}

/// Whether it is `self`.
pub fn is_self(e: &Expr) -> bool
    ensures { result ≡ spec.is_self (expr_of e.now) }
{
    matches!(e, Expr::Self_)
}

/// Whether it is `nil`.
pub fn is_nil(e: &Expr) -> bool
    ensures { result ≡ spec.is_nil (expr_of e.now) }
{
    matches!(e, Expr::Nil)
}
