// Transactions: their elaborated body, and where each part is ill-typed.
ghost use Rattle.std.specs.Prelude.{◌≡◌, ◌+◌, [], IfOk, length, map, option_map};
ghost use Rattle.std.specs.Result.{result_unwrap_or};
ghost use Rattle.cad_grammar.specs.Views.{conditions_of, parameter_of as written_parameter, prepare_of, stmt_of, transaction_field_of, transaction_of as tree_of};
ghost use Rattle.cad_declarations.specs.Entries as entries;
ghost use Rattle.cad_declarations.specs.Views.{before_of, block_of, condition_of, tables_of, transaction_of, variable_of};
ghost use Rattle.cad_environment.specs.Views.{environment_of, local_of, part_of, scopes_of};
ghost use Rattle.cad_scopes.specs.Views.{scope_of};
ghost use Rattle.cad_routines.specs.Passed.{conditions_in, judged};
ghost use Rattle.cad_typing.specs.Conditions as conditions;
ghost use Rattle.cad_typing.specs.Functions as functions;
ghost use Rattle.cad_typing.specs.Locals as locals;
ghost use Rattle.cad_typing.specs.Transactions as spec;
ghost use Rattle.cad_transactions.specs.Code.Parts as parts;
ghost use Rattle.cad_transactions.specs.Views.{locals_of, typing_of};

use cad_declarations::{
    TypedBefore, TypedBlock, TypedCondition, TypedTransaction, Variable, discard_block,
};
use cad_environment::{Environment, Known, Local, Part, Scopes, more};
use cad_grammar::{Conditions, Prepare, Stmt, Transaction, TransactionField};
use cad_heads::{
    annotated_type, are_signers, counted, option_parameters, own_count, scope_in,
    signer_parameters, written,
};
use cad_paths::FieldRule;
use cad_routines::{
    Surroundings, count_all, entries_of, is_var_word, parameter_locals, type_body, type_conditions,
    values_at_entry,
};
use cad_scopes::Scope;
use cad_syntax::{Basic, CadType};
use cad_typed_rows::{discard_conditions, discard_variables};
use cad_types::is_resource;
use std::alloc::{AllocError, Global};

/// The variables of a transaction.
#[derive(Drop)]
pub struct TransactionLocals {
    pub fields: Vec<Local>,
    pub parameters: Vec<Local>,
    pub signers: Vec<Local>,
}

/// What typing makes of the parts of a transaction. It isn't let go but by `discard_transaction_typing`.
pub struct TransactionTyping {
    pub prepare: Option<Result<TypedBlock, u64>>,
    pub pre: Result<Vec<TypedCondition>, u64>,
    pub execute: Option<Result<TypedBlock, u64>>,
    pub post: Result<Vec<TypedCondition>, u64>,
}

/// Lets a part go, as typing judges it.
fn discard_part(part: Option<Result<TypedBlock, u64>>) {
    match part {
        Some(Ok(block)) => discard_block(block),
        Some(Err(_)) => {}
        None => {}
    }
}

/// Lets conditions go, as typing judges them.
fn discard_judged(conditions: Result<Vec<TypedCondition>, u64>) {
    match conditions {
        Ok(all) => discard_conditions(all),
        Err(_) => {}
    }
}

/// Lets go what typing makes of a transaction.
pub fn discard_transaction_typing(typing: TransactionTyping) {
    let TransactionTyping {
        prepare,
        pre,
        execute,
        post,
    } = typing;
    discard_part(prepare);
    discard_judged(pre);
    discard_part(execute);
    discard_judged(post);
}

/// The variable of a field, with its number.
fn field_local(
    alloc: Global,
    scope: Scope<'_>,
    number: u32,
    field: &TransactionField,
) -> Result<Local, AllocError>
    ensures { IfOk result (λ v. local_of v ≡ record { number = number; name = (transaction_field_of field.now).name; type = entries.type_entry (scope_of scope.entry) (transaction_field_of field.now).annotation.written; is_var = locals.is_var_word (transaction_field_of field.now).kind }) }
{
    let name = field.name.clone()?;
    let declared = annotated_type(alloc, scope, &field.annotation)?;
    Ok(Local {
        number,
        name,
        declared,
        is_var: is_var_word(field.kind),
    })
}

/// The variables of fields, with numbers from this one.
fn field_locals(
    alloc: Global,
    scope: Scope<'_>,
    first: u32,
    fields: &[TransactionField],
) -> Result<Vec<Local>, AllocError>
    ensures { IfOk result (λ all. map local_of all.items ≡ spec.field_locals (scope_of scope.entry) first (map transaction_field_of fields.now)) }
{
    let mut all = Vec::new(alloc);
    let mut next = first;
    for field in fields {
        all.push(field_local(alloc, scope, next, field)?)?;
        next = more(next, 1)?;
    }
    Ok(all)
}

/// The variables of a transaction.
pub fn transaction_locals(
    alloc: Global,
    known: Known<'_>,
    transaction: &Transaction,
) -> Result<TransactionLocals, AllocError>
    ensures { IfOk result (λ l. locals_of l ≡ parts.locals_in (tables_of known.entry.tables.now) (tree_of transaction.now)) }
{
    let scope = scope_in(known);
    let fields = field_locals(alloc, scope, 0, transaction.fields.as_slice())?;
    let behind = counted(transaction.fields.len())?;
    let written = option_parameters(&transaction.parameters);
    let parameters = parameter_locals(alloc, scope, behind, written)?;
    let written = signer_parameters(&transaction.prepare);
    let signers = parameter_locals(alloc, scope, own_count(transaction)?, written)?;
    Ok(TransactionLocals {
        fields,
        parameters,
        signers,
    })
}

/// Whether a field is set once: it is declared by `let`, or is of resource type.
fn field_rule(
    alloc: Global,
    known: Known<'_>,
    field: &TransactionField,
) -> Result<FieldRule, AllocError>
    ensures { IfOk result (λ r. r ≡ spec.field_rule (tables_of known.entry.tables.now) (transaction_field_of field.now)) }
{
    let declared = annotated_type(alloc, scope_in(known), &field.annotation)?;
    let is_once = !is_var_word(field.kind) || is_resource(known.declared(), &declared);
    Ok(FieldRule {
        name: field.name.clone()?,
        is_once,
    })
}

/// The rules of fields, in the order in which they are declared.
fn field_rules(
    alloc: Global,
    known: Known<'_>,
    fields: &[TransactionField],
) -> Result<Vec<FieldRule>, AllocError>
    ensures { IfOk result (λ all. all.items ≡ map (spec.field_rule (tables_of known.entry.tables.now)) (map transaction_field_of fields.now)) }
{
    let mut all = Vec::new(alloc);
    for field in fields {
        all.push(field_rule(alloc, known, field)?)?;
    }
    Ok(all)
}

/// The rules of the fields of a transaction.
pub fn transaction_rules(
    alloc: Global,
    known: Known<'_>,
    transaction: &Transaction,
) -> Result<Vec<FieldRule>, AllocError>
    ensures { IfOk result (λ all. all.items ≡ spec.transaction_rules (tables_of known.entry.tables.now) (tree_of transaction.now)) }
{
    field_rules(alloc, known, transaction.fields.as_slice())
}

/// Where a part of a transaction stands.
fn part_with<'a>(
    known: Known<'a>,
    fields: &'a [Local],
    part: Part<'a>,
    standing: Standing<'a>,
) -> Environment<'a>
    ensures { environment_of result ≡ parts.part_with (tables_of known.entry.tables.now) (map local_of fields.now) (part_of part.entry) (scopes_of standing.entry.scopes) standing.entry.in_use }
{
    Environment {
        known,
        within: None,
        transaction_fields: Some(fields),
        part,
        scopes: standing.scopes,
        in_use: standing.in_use,
        befores: 0,
    }
}

/// Statements that give nothing back.
fn type_execute(
    alloc: Global,
    env: Environment<'_>,
    body: &[Stmt],
) -> Result<Result<TypedBlock, u64>, AllocError>
    ensures { IfOk result (λ o. judged block_of o ≡ parts.execute_with (environment_of env.entry) (map stmt_of body.now)) }
{
    let result = CadType::Basic(Basic::Void);
    let surroundings = Surroundings {
        env,
        result: &result,
        may_break: false,
        may_continue: false,
    };
    type_body(alloc, surroundings, 0, body)
}

/// `prepare`, whose parameters stop at 0.
fn type_prepare(
    alloc: Global,
    known: Known<'_>,
    env: Environment<'_>,
    prepare: &Prepare,
) -> Result<Result<TypedBlock, u64>, AllocError>
    ensures { IfOk result (λ o. judged block_of o ≡ parts.prepare_with (tables_of known.entry.tables.now) (environment_of env.entry) (prepare_of prepare.now)) }
{
    if !are_signers(alloc, known, prepare.parameters.as_slice())? {
        return Ok(Err(0));
    }
    type_execute(alloc, env, prepare.body.as_slice())
}

/// `prepare`, where there is one.
fn type_optional_prepare(
    alloc: Global,
    known: Known<'_>,
    env: Environment<'_>,
    prepare: &Option<Prepare>,
) -> Result<Option<Result<TypedBlock, u64>>, AllocError>
    ensures { IfOk result (λ o. option_map (judged block_of) o ≡ option_map (parts.prepare_with (tables_of known.entry.tables.now) (environment_of env.entry)) (option_map prepare_of prepare.now)) }
{
    match prepare {
        Some(prepare) => Ok(Some(type_prepare(alloc, known, env, prepare)?)),
        None => Ok(None),
    }
}

/// `execute`, where there is one.
fn type_optional_execute(
    alloc: Global,
    env: Environment<'_>,
    body: &Option<Vec<Stmt>>,
) -> Result<Option<Result<TypedBlock, u64>>, AllocError>
    ensures { IfOk result (λ o. option_map (judged block_of) o ≡ option_map (parts.execute_with (environment_of env.entry)) (option_map (λ v. map stmt_of v.items) body.now)) }
{
    match body {
        Some(body) => Ok(Some(type_execute(alloc, env, body.as_slice())?)),
        None => Ok(None),
    }
}

/// How many statements there are, those in statements among them; 0 without a block.
fn count_optional(body: &Option<Vec<Stmt>>) -> Result<u64, AllocError>
    ensures { IfOk result (λ n. n ≡ functions.count_body (option_map (λ v. map stmt_of v.items) body.now)) }
{
    match body {
        Some(body) => count_all(body.as_slice()),
        None => Ok(0),
    }
}

/// How many statements `prepare` has, those in statements among them; 0 without it.
fn prepare_statements(prepare: &Option<Prepare>) -> Result<u64, AllocError>
    ensures { IfOk result (λ n. n ≡ spec.prepare_statements (option_map prepare_of prepare.now)) }
{
    match prepare {
        Some(prepare) => count_all(prepare.body.as_slice()),
        None => Ok(0),
    }
}

/// A part that is well-typed.
fn well_typed(part: Option<Result<TypedBlock, u64>>) -> Option<TypedBlock>
    ensures { option_map block_of result ≡ parts.well_typed (option_map (judged block_of) part) }
{
    match part {
        Some(Ok(block)) => Some(block),
        Some(Err(_)) => None,
        None => None,
    }
}

/// Conditions that are well-typed, else none.
fn conditions_or_none(alloc: Global, typed: Result<Vec<TypedCondition>, u64>) -> Vec<TypedCondition>
    ensures { map condition_of result.items ≡ result_unwrap_or (judged conditions_in typed) [] }
{
    match typed {
        Ok(all) => all,
        Err(_) => Vec::new(alloc),
    }
}

/// How many conditions are written.
fn count_written(all: &Option<Conditions>) -> u64
    ensures { result ≡ length (conditions.written_conditions (conditions_of all.now)) }
{
    written(all).len() as u64
}

/// What an elaborated transaction has beside its parts.
struct Frame {
    fields: Vec<Variable>,
    parameters: Vec<Variable>,
    signers: Vec<Variable>,
    before: Vec<TypedBefore>,
    in_prepare: u64,
    in_execute: u64,
}

/// The variables of a transaction, as runs name them.
fn variables(
    alloc: Global,
    env: Environment<'_>,
    own: &TransactionLocals,
) -> Result<(Vec<Variable>, Vec<Variable>, Vec<Variable>), AllocError>
    ensures fields { IfOk result (λ x. map variable_of x.0.items ≡ locals.entries_of (environment_of env.entry) (locals_of own.now).fields) }
    ensures parameters { IfOk result (λ x. map variable_of x.1.items ≡ locals.entries_of (environment_of env.entry) (locals_of own.now).parameters) }
    ensures signers { IfOk result (λ x. map variable_of x.2.items ≡ locals.entries_of (environment_of env.entry) (locals_of own.now).signers) }
{
    let fields = entries_of(alloc, env, own.fields.as_slice())?;
    let parameters = match entries_of(alloc, env, own.parameters.as_slice()) {
        Ok(parameters) => parameters,
        Err(error) => {
            discard_variables(fields);
            return Err(error);
        }
    };
    match entries_of(alloc, env, own.signers.as_slice()) {
        Ok(signers) => Ok((fields, parameters, signers)),
        Err(error) => {
            discard_variables(fields);
            discard_variables(parameters);
            Err(error)
        }
    }
}

/// What a transaction has beside its parts; what was made before memory ran out is let go.
fn make_frame(
    alloc: Global,
    before: Environment<'_>,
    after: Environment<'_>,
    transaction: &Transaction,
    own: &TransactionLocals,
) -> Result<Frame, AllocError>
    ensures fields { IfOk result (λ x. map variable_of x.fields.items ≡ locals.entries_of (environment_of before.entry) (locals_of own.now).fields) }
    ensures parameters { IfOk result (λ x. map variable_of x.parameters.items ≡ locals.entries_of (environment_of before.entry) (locals_of own.now).parameters) }
    ensures signers { IfOk result (λ x. map variable_of x.signers.items ≡ locals.entries_of (environment_of before.entry) (locals_of own.now).signers) }
    ensures before { IfOk result (λ x. map before_of x.before.items ≡ conditions.values_at_entry (environment_of after.entry) 0 (conditions.written_conditions (tree_of transaction.now).post)) }
    ensures in_prepare { IfOk result (λ x. x.in_prepare ≡ spec.prepare_statements (tree_of transaction.now).prepare) }
    ensures in_execute { IfOk result (λ x. x.in_execute ≡ functions.count_body (tree_of transaction.now).execute) }
{
    let in_prepare = prepare_statements(&transaction.prepare)?;
    let in_execute = count_optional(&transaction.execute)?;
    let (fields, parameters, signers) = variables(alloc, before, own)?;
    match values_at_entry(alloc, after, 0, written(&transaction.post)) {
        Ok(before) => Ok(Frame {
            fields,
            parameters,
            signers,
            before,
            in_prepare,
            in_execute,
        }),
        Err(error) => {
            discard_variables(fields);
            discard_variables(parameters);
            discard_variables(signers);
            Err(error)
        }
    }
}

/// The elaborated body of its parts.
fn filled(
    alloc: Global,
    frame: Frame,
    transaction: &Transaction,
    typing: TransactionTyping,
) -> TypedTransaction
    ensures { transaction_of result ≡ record { fields = map variable_of frame.fields.items; parameters = map variable_of frame.parameters.items; signers = map variable_of frame.signers.items; prepare = parts.well_typed (typing_of typing).prepare; pre = result_unwrap_or (typing_of typing).pre []; before = map before_of frame.before.items; execute = parts.well_typed (typing_of typing).execute; post = result_unwrap_or (typing_of typing).post []; prepare_statements = frame.in_prepare; pre_statements = length (conditions.written_conditions (tree_of transaction.now).pre); execute_statements = frame.in_execute; post_statements = length (conditions.written_conditions (tree_of transaction.now).post) } }
{
    let Frame {
        fields,
        parameters,
        signers,
        before,
        in_prepare,
        in_execute,
    } = frame;
    let TransactionTyping {
        prepare,
        pre,
        execute,
        post,
    } = typing;
    TypedTransaction {
        fields,
        parameters,
        signers,
        prepare: well_typed(prepare),
        pre: conditions_or_none(alloc, pre),
        before,
        execute: well_typed(execute),
        post: conditions_or_none(alloc, post),
        prepare_statements: in_prepare,
        pre_statements: count_written(&transaction.pre),
        execute_statements: in_execute,
        post_statements: count_written(&transaction.post),
    }
}

/// The elaborated body of parts that were typed; those that are ill-typed are left out.
fn transaction_with(
    alloc: Global,
    before: Environment<'_>,
    after: Environment<'_>,
    transaction: &Transaction,
    own: &TransactionLocals,
    typing: TransactionTyping,
) -> Result<TypedTransaction, AllocError>
    ensures { IfOk result (λ t. transaction_of t ≡ parts.transaction_with (environment_of before.entry) (environment_of after.entry) (tree_of transaction.now) (locals_of own.now) (typing_of typing)) }
{
    match make_frame(alloc, before, after, transaction, own) {
        Ok(frame) => Ok(filled(alloc, frame, transaction, typing)),
        Err(error) => {
            discard_transaction_typing(typing);
            Err(error)
        }
    }
}

/// The scopes of a part, and how many variables are in use there.
#[derive(Clone, Copy)]
pub struct Standing<'a> {
    pub scopes: Scopes<'a>,
    pub in_use: u32,
}

/// What typing makes of `prepare` and the preconditions.
fn type_first(
    alloc: Global,
    known: Known<'_>,
    transaction: &Transaction,
    at_prepare: Environment<'_>,
    at_pre: Environment<'_>,
) -> Result<
    (
        Option<Result<TypedBlock, u64>>,
        Result<Vec<TypedCondition>, u64>,
    ),
    AllocError,
>
    ensures prepare { IfOk result (λ x. option_map (judged block_of) x.0 ≡ option_map (parts.prepare_with (tables_of known.entry.tables.now) (environment_of at_prepare.entry)) (tree_of transaction.now).prepare) }
    ensures pre { IfOk result (λ x. judged conditions_in x.1 ≡ conditions.type_conditions (environment_of at_pre.entry) 0 (conditions.written_conditions (tree_of transaction.now).pre)) }
{
    let prepare = type_optional_prepare(alloc, known, at_prepare, &transaction.prepare)?;
    match type_conditions(alloc, at_pre, 0, written(&transaction.pre)) {
        Ok(pre) => Ok((prepare, pre)),
        Err(error) => {
            discard_part(prepare);
            Err(error)
        }
    }
}

/// What typing makes of `execute` and the postconditions.
fn type_last(
    alloc: Global,
    transaction: &Transaction,
    at_execute: Environment<'_>,
    at_post: Environment<'_>,
) -> Result<
    (
        Option<Result<TypedBlock, u64>>,
        Result<Vec<TypedCondition>, u64>,
    ),
    AllocError,
>
    ensures execute { IfOk result (λ x. option_map (judged block_of) x.0 ≡ option_map (parts.execute_with (environment_of at_execute.entry)) (tree_of transaction.now).execute) }
    ensures post { IfOk result (λ x. judged conditions_in x.1 ≡ conditions.type_conditions (environment_of at_post.entry) 0 (conditions.written_conditions (tree_of transaction.now).post)) }
{
    let execute = type_optional_execute(alloc, at_execute, &transaction.execute)?;
    match type_conditions(alloc, at_post, 0, written(&transaction.post)) {
        Ok(post) => Ok((execute, post)),
        Err(error) => {
            discard_part(execute);
            Err(error)
        }
    }
}

/// What typing makes of the parts of a transaction with these fields; `prepare` stands further inside.
pub fn type_parts<'x>(
    alloc: Global,
    known: Known<'x>,
    transaction: &'x Transaction,
    fields: &'x [Local],
    outer: Standing<'x>,
    inner: Standing<'x>,
) -> Result<TransactionTyping, AllocError>
    ensures { IfOk result (λ t. typing_of t ≡ parts.typing_with (tables_of known.entry.tables.now) (tree_of transaction.now) (map local_of fields.now) (scopes_of outer.entry.scopes) (scopes_of inner.entry.scopes) outer.entry.in_use inner.entry.in_use) }
{
    let at_prepare = part_with(known, fields, Part::PrepareBody, inner);
    let at_pre = part_with(known, fields, Part::Precondition, outer);
    let at_execute = part_with(known, fields, Part::ExecuteBody, outer);
    let at_post = part_with(known, fields, Part::Postcondition(None), outer);
    let (prepare, pre) = type_first(alloc, known, transaction, at_prepare, at_pre)?;
    match type_last(alloc, transaction, at_execute, at_post) {
        Ok((execute, post)) => Ok(TransactionTyping {
            prepare,
            pre,
            execute,
            post,
        }),
        Err(error) => {
            discard_part(prepare);
            discard_judged(pre);
            Err(error)
        }
    }
}

/// The elaborated body of parts that were typed.
pub fn transaction_body<'x>(
    alloc: Global,
    known: Known<'x>,
    transaction: &'x Transaction,
    own: &'x TransactionLocals,
    outer: Standing<'x>,
    typing: TransactionTyping,
) -> Result<TypedTransaction, AllocError>
    ensures { IfOk result (λ t. transaction_of t ≡ parts.body_with (tables_of known.entry.tables.now) (tree_of transaction.now) (locals_of own.now) (scopes_of outer.entry.scopes) (typing_of typing) outer.entry.in_use) }
{
    let fields = own.fields.as_slice();
    let before = part_with(known, fields, Part::Precondition, outer);
    let after = part_with(known, fields, Part::Postcondition(None), outer);
    transaction_with(alloc, before, after, transaction, own, typing)
}
