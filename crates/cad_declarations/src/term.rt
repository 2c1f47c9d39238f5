// Elaborated expressions: names are resolved, and each part that is transferred has the type of its place.
use cad_grammar::{BinaryOperator, CastKind, UnaryOperator};
use cad_syntax::{Address, Authorization, CadType, Name, Num, Path, Text, TypeId};
use cad_types::Builtin;

/// A place: where a value stands.
#[cycle(terms)]
#[derive(Drop)]
pub enum Place {
    /// A variable of the body: its number is how many were in scope, hidden ones among them, when it was declared.
    Variable(u32),
    /// The receiver of the function, or what the initializer makes.
    Self_,
    /// The value of a contract.
    Contract(TypeId),
    /// What a reference names.
    Target(Box<Term>),
    /// A field of a place of this type.
    Field {
        base: Box<Place>,
        of: CadType,
        name: Name,
    },
    /// An element of an array, or what stands under a key of a dictionary, of this type.
    Element {
        base: Box<Place>,
        of: CadType,
        index: Box<Term>,
    },
    /// The content of an optional place: whether nil is an error there, as in `a!`; else the chain that stands on it gives
    /// nil.
    Content {
        base: Box<Place>,
        forces: bool,
    },
}

/// What is done with a receiver.
#[cycle(terms)]
#[derive(Drop)]
pub enum Use {
    /// A field is read. Through a reference that gives a reference, its authorization is this.
    Field {
        name: Name,
        authorization: Authorization,
    },
    /// A declared function is called: whether it is `view`, and whether it never ends.
    Method {
        name: Name,
        is_view: bool,
        is_never: bool,
        arguments: Vec<Argument>,
    },
    /// A built-in member is read.
    BuiltinField(Builtin),
    /// A built-in member is called.
    BuiltinCall {
        member: Builtin,
        types: Vec<CadType>,
        arguments: Vec<Argument>,
    },
}

/// An expression.
#[cycle(terms)]
#[derive(Drop)]
pub enum Term {
    /// A number of its kind, which isn't Address.
    Number(Num),
    Address(Address),
    Bool(bool),
    Nil,
    String(Text),
    Character(Text),
    Path(Path),
    /// `Type<T>()`
    Meta(CadType),
    /// The case of an enum with this number.
    Case(TypeId, u32),
    /// The value of a variable, or of `self`, which stays.
    Copy(Box<Place>),
    /// `<-a`: the value leaves its place.
    Take(Box<Place>),
    Array {
        element: CadType,
        items: Vec<Term>,
    },
    Dictionary {
        key: CadType,
        value: CadType,
        entries: Vec<TermEntry>,
    },
    /// A struct is made.
    Construct(TypeId, Vec<Argument>),
    /// `create R(..)`
    Create(TypeId, Vec<Argument>),
    /// A function that stands outside a contract is called: whether it is `view`, and whether it never ends.
    Call {
        function: Name,
        is_view: bool,
        is_never: bool,
        arguments: Vec<Argument>,
    },
    /// A built-in function, or a built-in member of a type: `panic`, `UInt8.fromString`, `E(rawValue: 1)` ..
    Builtin {
        member: Builtin,
        types: Vec<CadType>,
        arguments: Vec<Argument>,
    },
    /// `a.n`, `a.f(..)`
    On(Box<Place>, Box<Use>),
    /// `a?.n`, `a?.f(..)`, of the contents of optionals that stand in the place: nil where one of them is nil, and
    /// whether the result is wrapped in an optional.
    Chain {
        base: Box<Place>,
        member: Box<Use>,
        wraps: bool,
    },
    /// `a[e]`, where a has this type; through a reference that gives a reference it is unauthorized.
    Index {
        base: Box<Place>,
        of: CadType,
        index: Box<Term>,
    },
    /// A hidden variable with this number, of this type, holds the value while the body is evaluated.
    Hold {
        number: u32,
        declared: CadType,
        value: Box<Term>,
        body: Box<Term>,
    },
    /// `destroy a`
    Destroy(Box<Term>),
    /// `&a as auth(..) &T`: whether one optional is taken off the place, and whether the result is an optional.
    Borrow {
        place: Box<Place>,
        authorization: Authorization,
        target: CadType,
        takes_off: bool,
        gives_optional: bool,
    },
    /// `-a`, `!a`, `*a`
    Unary(UnaryOperator, Box<Term>),
    /// `a!`
    Force(Box<Term>),
    Cast(CastKind, Box<Term>, CadType),
    /// All operators but `??`.
    Binary(BinaryOperator, Box<Term>, Box<Term>),
    /// `a ?? b`: whether b is evaluated to the content's type, else to the optional; the type of the form.
    Coalesce {
        left: Box<Term>,
        right: Box<Term>,
        takes_off: bool,
        declared: CadType,
    },
    /// `place == nil`; `!=` where it is negated.
    IsNil {
        place: Box<Place>,
        is_negated: bool,
    },
    Conditional(Box<Term>, Box<Term>, Box<Term>),
    /// The value that the `before` with this number had.
    Before(u32),
}

/// A part that is transferred to a place of this type.
#[cycle(terms)]
#[derive(Drop)]
pub struct Argument {
    pub value: Term,
    pub target: CadType,
}

#[cycle(terms)]
#[derive(Drop)]
pub struct TermEntry {
    pub key: Term,
    pub value: Term,
}
