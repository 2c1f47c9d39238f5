// Statements that declare variables, and values that are transferred.
ghost use Rattle.std.specs.Prelude.{◌≡◌, IfOk};
ghost use Rattle.cad_syntax.specs.Types.{pure_type};
ghost use Rattle.cad_declarations.specs.Typed as typed;
ghost use Rattle.cad_declarations.specs.Views.{argument_of, statement_of, term_of, variable_of};
ghost use Rattle.cad_environment.specs.Views.{environment_of, local_of, typing_of};
ghost use Rattle.cad_typing.specs.Containers as containers;
ghost use Rattle.cad_typing.specs.Locals as local_spec;
ghost use Rattle.cad_typing.specs.StatementForms as spec;
ghost use Rattle.cad_statement_trees.specs.Views.{statement_typing_of};

use crate::typing::StatementTyping;
use cad_declarations::{Argument, Term, TypedStatement, Variable, discard_term, discard_type};
use cad_environment::{Environment, Local, Typing};
use cad_grammar::VariableKind;
use cad_statement_parts::new_variable;
use cad_syntax::{CadType, Name};
use std::alloc::AllocError;

/// A statement that declares nothing.
pub fn alone(tree: TypedStatement) -> StatementTyping
    ensures { statement_typing_of result ≡ spec.alone (statement_of tree) }
{
    StatementTyping {
        tree,
        declares: None,
    }
}

/// A statement that declares a variable.
pub fn beside_variable(tree: TypedStatement, v: Local) -> StatementTyping
    ensures { statement_typing_of result ≡ spec.beside_variable (statement_of tree) (local_of v) }
{
    StatementTyping {
        tree,
        declares: Some(v),
    }
}

/// A value that is transferred to a type.
pub fn targeted(x: Typing, target: CadType) -> Argument
    ensures whole { argument_of result ≡ containers.targeted (typing_of x) (pure_type target) }
    ensures value { term_of result.value ≡ (typing_of x).term }
    ensures of { pure_type result.target ≡ pure_type target }
{
    discard_type(x.declared);
    Argument {
        value: x.term,
        target,
    }
}

/// The tree of a declaration.
fn declare_tree(at: u64, variable: Variable, value: Term) -> TypedStatement
    ensures { statement_of result ≡ typed.declare at (variable_of variable) (term_of value) }
{
    TypedStatement::Declare {
        at,
        variable,
        value,
    }
}

/// The declaration of a variable with a value that was transferred to its type.
fn declared_with(
    env: Environment<'_>,
    at: u64,
    kind: VariableKind,
    name: &Name,
    value: Term,
    target: CadType,
) -> Result<StatementTyping, AllocError>
    ensures { IfOk result (λ s. statement_typing_of s ≡ spec.declared (environment_of env.entry) at kind name.now (record { value = term_of value; target = pure_type target })) }
{
    match variable_as(env, kind, name, target) {
        Ok((variable, v)) => {
            let tree = declare_tree(at, variable, value);
            Ok(beside_variable(tree, v))
        }
        Err(error) => {
            discard_term(value);
            Err(error)
        }
    }
}

/// The variable that is declared next, of a type that isn't needed behind it.
fn variable_as(
    env: Environment<'_>,
    kind: VariableKind,
    name: &Name,
    t: CadType,
) -> Result<(Variable, Local), AllocError>
    ensures entry { IfOk result (λ x. variable_of x.0 ≡ local_spec.entry_of (environment_of env.entry) (local_spec.next_local (environment_of env.entry) kind name.now (pure_type t))) }
    ensures local { IfOk result (λ x. local_of x.1 ≡ local_spec.next_local (environment_of env.entry) kind name.now (pure_type t)) }
{
    let v = new_variable(env, kind, name, &t);
    discard_type(t);
    v
}

/// The declaration of a variable with a value.
pub fn declared(
    env: Environment<'_>,
    at: u64,
    kind: VariableKind,
    name: &Name,
    x: Argument,
) -> Result<StatementTyping, AllocError>
    ensures { IfOk result (λ s. statement_typing_of s ≡ spec.declared (environment_of env.entry) at kind name.now (argument_of x)) }
{
    declared_with(env, at, kind, name, x.value, x.target)
}
