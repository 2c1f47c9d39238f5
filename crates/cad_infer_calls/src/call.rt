// What is called, with its parameters and its result.
use cad_declarations::{Place, discard_place, discard_type, discard_types};
use cad_environment::{Hidden, discard_hidden};
use cad_parameters::{Count, Parameter, discard_parameters};
use cad_syntax::{CadType, Name, TypeId};
use cad_types::Builtin;

/// A function of a value.
#[derive(Drop)]
pub enum Method {
    /// Whether it is `view`, and whether it never ends.
    Declared {
        name: Name,
        is_view: bool,
        is_never: bool,
    },
    BuiltIn(Builtin, Vec<CadType>),
}

/// What is called.
#[derive(Drop)]
pub enum Callee {
    /// A function outside a contract: whether it is `view`, and whether it never ends.
    Function {
        name: Name,
        is_view: bool,
        is_never: bool,
    },
    Struct(TypeId),
    Resource(TypeId),
    /// A built-in function, or a built-in member of a type.
    Builtin(Builtin, Vec<CadType>),
    /// `Type<T>()`
    Type(CadType),
    Method(Place, Method),
    /// Of `a?.n`: whether the result is wrapped.
    Chain(Place, Method, bool),
    /// `before(e)`
    Before(u32),
}

/// A call without its arguments.
#[derive(Drop)]
pub struct Call {
    /// The hidden variable that holds the receiver.
    pub hidden: Option<Hidden>,
    pub callee: Callee,
    pub parameters: Vec<Parameter>,
    pub count: Count,
    /// The type of its result.
    pub outcome: CadType,
}

/// A call of a function of a value, without the value.
#[derive(Drop)]
pub struct Invocation {
    pub method: Method,
    pub parameters: Vec<Parameter>,
    pub count: Count,
    /// The type of its result.
    pub outcome: CadType,
}

/// Lets a function of a value go.
pub fn discard_method(method: Method) {
    match method {
        Method::Declared { name, .. } => drop(name),
        Method::BuiltIn(_, types) => discard_types(types),
    }
}

/// Lets go what is called.
pub fn discard_callee(callee: Callee) {
    match callee {
        Callee::Function { name, .. } => drop(name),
        Callee::Struct(id) => drop(id),
        Callee::Resource(id) => drop(id),
        Callee::Builtin(_, types) => discard_types(types),
        Callee::Type(declared) => discard_type(declared),
        Callee::Method(place, method) => {
            discard_place(place);
            discard_method(method)
        }
        Callee::Chain(place, method, _) => {
            discard_place(place);
            discard_method(method)
        }
        Callee::Before(_) => {}
    }
}

/// Lets a call go.
pub fn discard_call(call: Call) {
    discard_hidden(call.hidden);
    discard_callee(call.callee);
    discard_parameters(call.parameters);
    discard_type(call.outcome)
}

/// Lets a call of a function of a value go.
pub fn discard_invocation(invocation: Invocation) {
    discard_method(invocation.method);
    discard_parameters(invocation.parameters);
    discard_type(invocation.outcome)
}
