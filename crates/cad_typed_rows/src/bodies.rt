// Bodies that are let go, by the calls of the crate that has the types of their parts.
use crate::discard::{
    discard_befores, discard_conditions, discard_maybe_block, discard_maybe_variable,
};
use cad_declarations::{
    Bodies, DestroyedEvent, TypedBody, TypedFunction, TypedMember, TypedTransaction, TypedType,
    Variable, discard_arguments, discard_type, discard_variable,
};

/// Lets variables go, from the last one on.
pub fn discard_variables(all: Vec<Variable>) {
    let mut left = all;
    while let Some(x) = left.pop() {
        discard_variable(x);
    }
    left.destroy_empty()
}

/// Lets a function go.
pub fn discard_function(function: TypedFunction) {
    discard_variables(function.parameters);
    discard_type(function.result);
    discard_maybe_variable(function.result_variable);
    discard_conditions(function.pre);
    discard_befores(function.before);
    discard_conditions(function.post);
    discard_maybe_block(function.body)
}

/// Lets a function go, where there is one.
pub fn discard_maybe_function(x: Option<TypedFunction>) {
    match x {
        Some(x) => discard_function(x),
        None => {}
    }
}

/// Lets a transaction go.
pub fn discard_transaction(transaction: TypedTransaction) {
    discard_variables(transaction.fields);
    discard_variables(transaction.parameters);
    discard_variables(transaction.signers);
    discard_maybe_block(transaction.prepare);
    discard_conditions(transaction.pre);
    discard_befores(transaction.before);
    discard_maybe_block(transaction.execute);
    discard_conditions(transaction.post)
}

/// Lets a transaction go, where there is one.
pub fn discard_maybe_transaction(x: Option<TypedTransaction>) {
    match x {
        Some(x) => discard_transaction(x),
        None => {}
    }
}

/// Lets an event `ResourceDestroyed` go.
pub fn discard_destroyed(event: DestroyedEvent) {
    discard_arguments(event.arguments)
}

/// Lets an event `ResourceDestroyed` go, where there is one.
pub fn discard_maybe_destroyed(x: Option<DestroyedEvent>) {
    match x {
        Some(x) => discard_destroyed(x),
        None => {}
    }
}

/// Lets the body of a part of a program go.
pub fn discard_body(body: TypedBody) {
    match body {
        TypedBody::Function(function) => discard_function(function),
        TypedBody::Initializer(function) => discard_function(function),
        TypedBody::Transaction(transaction) => discard_transaction(transaction),
    }
}

/// Lets a function of a type go.
pub fn discard_member(member: TypedMember) {
    discard_function(member.function)
}

/// Lets functions of a type go, from the last one on.
pub fn discard_members(all: Vec<TypedMember>) {
    let mut left = all;
    while let Some(x) = left.pop() {
        discard_member(x);
    }
    left.destroy_empty()
}

/// Lets the bodies of a type go.
pub fn discard_type_body(body: TypedType) {
    discard_maybe_function(body.initializer);
    discard_members(body.functions);
    discard_maybe_destroyed(body.destroyed)
}

/// Lets the bodies of types go, from the last one on.
pub fn discard_type_bodies(all: Vec<TypedType>) {
    let mut left = all;
    while let Some(x) = left.pop() {
        discard_type_body(x);
    }
    left.destroy_empty()
}

/// Lets the bodies of a program go.
pub fn discard_bodies(bodies: Bodies) {
    discard_type_bodies(bodies.types);
    discard_members(bodies.functions);
    discard_maybe_transaction(bodies.transaction)
}
