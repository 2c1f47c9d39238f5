// Places, uses and forms of expressions.
ghost use Rattle.std.specs.Prelude.{◌≡◌, [], IfOk, map};
ghost use Rattle.cad_syntax.specs.Types.{pure_type};
ghost use Rattle.cad_declarations.specs.Typed as tree;
ghost use Rattle.cad_declarations.specs.Views.{place_of, use_of, term_of, targeted};

use cad_declarations::{
    Argument, Place, Term, Use, boxed_place, boxed_term, boxed_use, discard_boxed_place,
    discard_term, discard_type, discard_use,
};
use cad_syntax::{Authorization, CadType, Name, TypeId};
use cad_types::Builtin;
use std::alloc::{AllocError, Global};

/// A field of a place of a type.
pub fn field_place(alloc: Global, base: Place, of: CadType, name: Name) -> Result<Place, AllocError>
    ensures { IfOk result (λ p. place_of p ≡ tree.field (place_of base) (pure_type of) name) }
{
    match boxed_place(alloc, base) {
        Ok(base) => Ok(Place::Field { base, of, name }),
        Err(error) => {
            discard_type(of);
            Err(error)
        }
    }
}

/// A place and an expression that are parts of a tree.
fn boxed_indexed(
    alloc: Global,
    base: Place,
    index: Term,
) -> Result<(Box<Place>, Box<Term>), AllocError>
    ensures place { IfOk result (λ both. both.0.value ≡ base) }
    ensures index { IfOk result (λ both. both.1.value ≡ index) }
{
    let base = match boxed_place(alloc, base) {
        Ok(base) => base,
        Err(error) => {
            discard_term(index);
            return Err(error);
        }
    };
    match boxed_term(alloc, index) {
        Ok(index) => Ok((base, index)),
        Err(error) => {
            discard_boxed_place(base);
            Err(error)
        }
    }
}

/// A place and a use of it that are parts of a tree.
fn boxed_used(alloc: Global, base: Place, usage: Use) -> Result<(Box<Place>, Box<Use>), AllocError>
    ensures place { IfOk result (λ both. both.0.value ≡ base) }
    ensures usage { IfOk result (λ both. both.1.value ≡ usage) }
{
    let base = match boxed_place(alloc, base) {
        Ok(base) => base,
        Err(error) => {
            discard_use(usage);
            return Err(error);
        }
    };
    match boxed_use(alloc, usage) {
        Ok(usage) => Ok((base, usage)),
        Err(error) => {
            discard_boxed_place(base);
            Err(error)
        }
    }
}

/// An element of a place of a type.
pub fn element_place(
    alloc: Global,
    base: Place,
    of: CadType,
    index: Term,
) -> Result<Place, AllocError>
    ensures { IfOk result (λ p. place_of p ≡ tree.element (place_of base) (pure_type of) (term_of index)) }
{
    match boxed_indexed(alloc, base, index) {
        Ok((base, index)) => Ok(Place::Element { base, of, index }),
        Err(error) => {
            discard_type(of);
            Err(error)
        }
    }
}

/// The content of an optional place: whether nil is an error there.
pub fn content_place(alloc: Global, base: Place, forces: bool) -> Result<Place, AllocError>
    ensures { IfOk result (λ p. place_of p ≡ tree.content (place_of base) forces) }
{
    let base = boxed_place(alloc, base)?;
    Ok(Place::Content { base, forces })
}

/// A field that is read.
pub fn field_use(name: Name, authorization: Authorization) -> Use
    ensures { use_of result ≡ tree.get name authorization }
{
    Use::Field {
        name,
        authorization,
    }
}

/// A declared function that is called.
pub fn method_use(name: Name, is_view: bool, is_never: bool, arguments: Vec<Argument>) -> Use
    ensures { use_of result ≡ tree.method name is_view is_never (targeted arguments.items) }
{
    Use::Method {
        name,
        is_view,
        is_never,
        arguments,
    }
}

/// A built-in member that is read.
pub fn builtin_field_use(member: Builtin) -> Use
    ensures { use_of result ≡ tree.builtin_field member }
{
    Use::BuiltinField(member)
}

/// A built-in member that is called.
pub fn builtin_call_use(member: Builtin, types: Vec<CadType>, arguments: Vec<Argument>) -> Use
    ensures { use_of result ≡ tree.builtin_call member (map pure_type types.items) (targeted arguments.items) }
{
    Use::BuiltinCall {
        member,
        types,
        arguments,
    }
}

/// `a.n`, `a.f(..)`
pub fn on_term(alloc: Global, place: Place, usage: Use) -> Result<Term, AllocError>
    ensures { IfOk result (λ x. term_of x ≡ tree.on (place_of place) (use_of usage)) }
{
    let (place, usage) = boxed_used(alloc, place, usage)?;
    Ok(Term::On(place, usage))
}

/// `a?.n`, `a?.f(..)`: whether the result is wrapped in an optional.
pub fn chain_term(alloc: Global, base: Place, usage: Use, wraps: bool) -> Result<Term, AllocError>
    ensures { IfOk result (λ x. term_of x ≡ tree.chain (place_of base) (use_of usage) wraps) }
{
    let (base, member) = boxed_used(alloc, base, usage)?;
    Ok(Term::Chain {
        base,
        member,
        wraps,
    })
}

/// `a[e]`, where a has this type.
pub fn index_term(alloc: Global, base: Place, of: CadType, index: Term) -> Result<Term, AllocError>
    ensures { IfOk result (λ x. term_of x ≡ tree.index (place_of base) (pure_type of) (term_of index)) }
{
    match boxed_indexed(alloc, base, index) {
        Ok((base, index)) => Ok(Term::Index { base, of, index }),
        Err(error) => {
            discard_type(of);
            Err(error)
        }
    }
}

/// The case of an enum with this number.
pub fn case_term(id: TypeId, number: u32) -> Term
    ensures { term_of result ≡ tree.case id number }
{
    Term::Case(id, number)
}

/// `Type<T>()`
pub fn meta_term(of: CadType) -> Term
    ensures { term_of result ≡ tree.meta (pure_type of) }
{
    Term::Meta(of)
}

/// A struct is made.
pub fn construct_term(id: TypeId, arguments: Vec<Argument>) -> Term
    ensures { term_of result ≡ tree.construct id (targeted arguments.items) }
{
    Term::Construct(id, arguments)
}

/// `create R(..)`
pub fn create_term(id: TypeId, arguments: Vec<Argument>) -> Term
    ensures { term_of result ≡ tree.create id (targeted arguments.items) }
{
    Term::Create(id, arguments)
}

/// A function that stands outside a contract is called.
pub fn function_term(
    function: Name,
    is_view: bool,
    is_never: bool,
    arguments: Vec<Argument>,
) -> Term
    ensures { term_of result ≡ tree.call function is_view is_never (targeted arguments.items) }
{
    Term::Call {
        function,
        is_view,
        is_never,
        arguments,
    }
}

/// A built-in function, or a built-in member of a type.
pub fn builtin_term(member: Builtin, types: Vec<CadType>, arguments: Vec<Argument>) -> Term
    ensures { term_of result ≡ tree.builtin member (map pure_type types.items) (targeted arguments.items) }
{
    Term::Builtin {
        member,
        types,
        arguments,
    }
}

/// A constant of a type.
pub fn constant_term(alloc: Global, member: Builtin) -> Term
    ensures { term_of result ≡ tree.builtin member [] tree.no_arguments }
{
    builtin_term(member, Vec::new(alloc), Vec::new(alloc))
}

/// The value that the `before` with this number had.
pub fn before_term(number: u32) -> Term
    ensures { term_of result ≡ tree.before number }
{
    Term::Before(number)
}
