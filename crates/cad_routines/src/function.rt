// Functions and initializers: their elaborated bodies, or the number of the first statement that is ill-typed.
ghost use Rattle.std.specs.Prelude.{◌≡◌, ◌+◌, IfOk, None, length, map, option_copied, option_map};
ghost use Rattle.cad_syntax.specs.Types.{pure_type};
ghost use Rattle.cad_grammar.specs.Views.{function_of as tree_of, init_of, parameter_of as written_parameter, stmt_of};
ghost use Rattle.cad_declarations.specs.Kinds.{kinds_of};
ghost use Rattle.cad_declarations.specs.Views.{before_of, block_of, condition_of as typed_condition, function_of, tables_of, variable_of};
ghost use Rattle.cad_environment.specs.Views.{environment_of, local_of, part_of, scopes_of};
ghost use Rattle.cad_scopes.specs.Views.{scope_of};
ghost use Rattle.cad_statements.specs.Views.{conditions_in, judged, surroundings_of};
ghost use Rattle.cad_typing.specs.Conditions as conditions;
ghost use Rattle.cad_typing.specs.Functions as spec;
ghost use Rattle.cad_typing.specs.Locals as locals;
ghost use Rattle.cad_heads.specs.Views.{part_by, routine_of};
ghost use Rattle.cad_routines.specs.Code.Parts as parts;
ghost use Rattle.cad_routines.specs.Views.{setting_of};

use cad_declarations::{
    TypedBefore, TypedBlock, TypedCondition, TypedFunction, Variable, discard_type,
};
use cad_environment::{Environment, Known, Local, Part, Scopes};
use cad_grammar::{Function, Init, Parameter, Stmt};
use cad_heads::{
    Routine, counted, function_routine, head_is_right, initializer_routine, is_entry, is_main,
    number_behind, one_name, parameter_types, result_entry, result_local, scope_in,
};
use cad_scopes::Scope;
use cad_statements::{
    Surroundings, count_all, entries_of, entry_of, locals_from, type_block, type_conditions,
    values_at_entry,
};
use cad_syntax::{CadType, Names, TypeId};
use cad_typed_rows::{
    discard_conditions, discard_maybe_block, discard_maybe_variable, discard_variables,
};
use std::alloc::{AllocError, Global};

/// The variables of parameters, with numbers from this one.
pub fn parameter_locals(
    alloc: Global,
    scope: Scope<'_>,
    first: u32,
    parameters: &[Parameter],
) -> Result<Vec<Local>, AllocError>
    ensures { IfOk result (λ all. map local_of all.items ≡ locals.locals_from first (spec.parameter_types (scope_of scope.entry) (map written_parameter parameters.now))) }
{
    let types = parameter_types(alloc, scope, parameters)?;
    locals_from(alloc, first, types.as_slice())
}

/// Where a part of a function stands: its parameters are the outer scope.
fn environment_with<'a>(
    known: Known<'a>,
    within: Option<&'a TypeId>,
    scopes: Scopes<'a>,
    part: Part<'a>,
    in_use: u32,
) -> Environment<'a>
    ensures { environment_of result ≡ record { tables = tables_of known.entry.tables.now; within = option_copied within.entry; transaction_fields = None; part = part_of part.entry; scopes = scopes_of scopes.entry; in_use = in_use; befores = 0 } }
{
    Environment {
        known,
        within,
        transaction_fields: None,
        part,
        scopes,
        in_use,
        befores: 0,
    }
}

/// The part of a function or an initializer.
fn body_part<'a>(is_initializer: bool) -> Part<'a>
    ensures { part_of result ≡ part_by is_initializer }
{
    if is_initializer {
        Part::InitializerBody
    } else {
        Part::FunctionBody
    }
}

/// The statements of a block, the first of which has this number.
pub fn type_body(
    alloc: Global,
    w: Surroundings<'_>,
    at: u64,
    all: &[Stmt],
) -> Result<Result<TypedBlock, u64>, AllocError>
    ensures { IfOk result (λ o. judged block_of o ≡ spec.type_body (surroundings_of w.entry) at (map stmt_of all.now)) }
{
    match type_block(all, alloc, w, &[], at)? {
        Ok(typed) => Ok(Ok(typed.0)),
        Err(n) => Ok(Err(n)),
    }
}

/// The same where there is a block.
fn type_optional_body(
    alloc: Global,
    w: Surroundings<'_>,
    at: u64,
    body: Option<&[Stmt]>,
) -> Result<Result<Option<TypedBlock>, u64>, AllocError>
    ensures { IfOk result (λ o. judged (option_map block_of) o ≡ spec.type_optional_body (surroundings_of w.entry) at (option_map (λ b. map stmt_of b.now) body.entry)) }
{
    let Some(all) = body else {
        return Ok(Ok(None));
    };
    match type_body(alloc, w, at, all)? {
        Ok(block) => Ok(Ok(Some(block))),
        Err(n) => Ok(Err(n)),
    }
}

/// How many statements a body has, those in statements among them; 0 without a body.
fn count_body(body: Option<&[Stmt]>) -> Result<u64, AllocError>
    ensures { IfOk result (λ n. n ≡ spec.count_body (option_map (λ b. map stmt_of b.now) body.entry)) }
{
    match body {
        Some(all) => count_all(all),
        None => Ok(0),
    }
}

/// A sum of numbers of statements; want of memory where it is too great.
fn sum(a: u64, b: u64) -> Result<u64, AllocError>
    ensures { IfOk result (λ n. n ≡ a + b) }
{
    a.checked_add(b).ok_or(AllocError)
}

/// How many conditions there are.
fn count_conditions(routine: &Routine<'_>) -> Result<u64, AllocError>
    ensures { IfOk result (λ n. n ≡ spec.count_conditions (routine_of routine.now)) }
{
    sum(routine.pre.len() as u64, routine.post.len() as u64)
}

/// How many conditions and statements there are.
fn count_statements(routine: &Routine<'_>) -> Result<u64, AllocError>
    ensures { IfOk result (λ n. n ≡ spec.count_conditions (routine_of routine.now) + spec.count_body (routine_of routine.now).body) }
{
    sum(count_conditions(routine)?, count_body(routine.body)?)
}

/// The variable of the result, where there is one.
fn result_variable(env: Environment<'_>, v: &Option<Local>) -> Result<Option<Variable>, AllocError>
    ensures { IfOk result (λ x. option_map variable_of x ≡ option_map (locals.entry_of (environment_of env.entry)) (option_map local_of v.now)) }
{
    match v {
        Some(v) => Ok(Some(entry_of(env, v)?)),
        None => Ok(None),
    }
}

/// What is in scope in a function, and where its parts stand.
#[derive(Clone, Copy)]
pub struct Setting<'a> {
    pub routine: &'a Routine<'a>,
    pub locals: &'a [Local],
    pub result: &'a CadType,
    pub result_local: &'a Option<Local>,
    /// Where preconditions stand.
    pub before: Environment<'a>,
    /// Where postconditions stand.
    pub after: Environment<'a>,
    /// Where statements stand.
    pub surroundings: Surroundings<'a>,
}

/// The variables of parameters and of the result.
fn routine_variables(
    alloc: Global,
    setting: Setting<'_>,
) -> Result<(Vec<Variable>, Option<Variable>), AllocError>
    ensures parameters { IfOk result (λ all. map variable_of all.0.items ≡ locals.entries_of (setting_of setting.entry).before (setting_of setting.entry).locals) }
    ensures outcome { IfOk result (λ all. option_map variable_of all.1 ≡ option_map (locals.entry_of (setting_of setting.entry).before) (setting_of setting.entry).result_local) }
{
    let parameters = entries_of(alloc, setting.before, setting.locals)?;
    match result_variable(setting.before, setting.result_local) {
        Ok(outcome) => Ok((parameters, outcome)),
        Err(error) => {
            discard_variables(parameters);
            Err(error)
        }
    }
}

/// What stands under `before` in the postconditions of a function.
fn values_before(alloc: Global, setting: Setting<'_>) -> Result<Vec<TypedBefore>, AllocError>
    ensures { IfOk result (λ all. map before_of all.items ≡ conditions.values_at_entry (setting_of setting.entry).after (length (setting_of setting.entry).routine.pre) (setting_of setting.entry).routine.post) }
{
    let first = setting.routine.pre.len() as u64;
    values_at_entry(alloc, setting.after, first, setting.routine.post)
}

/// What a function has beside its conditions and statements.
struct Frame {
    inside: Names,
    parameters: Vec<Variable>,
    result: CadType,
    result_variable: Option<Variable>,
    before: Vec<TypedBefore>,
    statements: u64,
}

/// The elaborated function of its parts.
fn filled(
    is_view: bool,
    frame: Frame,
    pre: Vec<TypedCondition>,
    post: Vec<TypedCondition>,
    body: Option<TypedBlock>,
) -> TypedFunction
    ensures { function_of result ≡ record { inside = frame.inside; is_view = is_view; parameters = map variable_of frame.parameters.items; result = pure_type frame.result; result_variable = option_map variable_of frame.result_variable; pre = map typed_condition pre.items; before = map before_of frame.before.items; post = map typed_condition post.items; body = option_map block_of body; statements = frame.statements } }
{
    let Frame {
        inside,
        parameters,
        result,
        result_variable,
        before,
        statements,
    } = frame;
    TypedFunction {
        inside,
        is_view,
        parameters,
        result,
        result_variable,
        pre,
        before,
        post,
        body,
        statements,
    }
}

/// What a function has beside its conditions and statements; what was made before memory ran out is let go.
fn make_frame(alloc: Global, setting: Setting<'_>) -> Result<Frame, AllocError>
    ensures inside { IfOk result (λ f. f.inside ≡ (setting_of setting.entry).routine.inside) }
    ensures parameters { IfOk result (λ f. map variable_of f.parameters.items ≡ locals.entries_of (setting_of setting.entry).before (setting_of setting.entry).locals) }
    ensures declared { IfOk result (λ f. pure_type f.result ≡ (setting_of setting.entry).result) }
    ensures outcome { IfOk result (λ f. option_map variable_of f.result_variable ≡ option_map (locals.entry_of (setting_of setting.entry).before) (setting_of setting.entry).result_local) }
    ensures before { IfOk result (λ f. map before_of f.before.items ≡ conditions.values_at_entry (setting_of setting.entry).after (length (setting_of setting.entry).routine.pre) (setting_of setting.entry).routine.post) }
    ensures statements { IfOk result (λ f. f.statements ≡ spec.count_conditions (setting_of setting.entry).routine + spec.count_body (setting_of setting.entry).routine.body) }
{
    let statements = count_statements(setting.routine)?;
    let inside = setting.routine.inside.clone()?;
    let result = setting.result.clone()?;
    let (parameters, result_variable) = match routine_variables(alloc, setting) {
        Ok(variables) => variables,
        Err(error) => {
            discard_type(result);
            return Err(error);
        }
    };
    match values_before(alloc, setting) {
        Ok(before) => Ok(Frame {
            inside,
            parameters,
            result,
            result_variable,
            before,
            statements,
        }),
        Err(error) => {
            discard_type(result);
            discard_variables(parameters);
            discard_maybe_variable(result_variable);
            Err(error)
        }
    }
}

/// The elaborated function of its conditions and statements.
fn function_with(
    alloc: Global,
    setting: Setting<'_>,
    pre: Vec<TypedCondition>,
    post: Vec<TypedCondition>,
    body: Option<TypedBlock>,
) -> Result<TypedFunction, AllocError>
    ensures { IfOk result (λ f. function_of f ≡ parts.function_with (setting_of setting.entry) (map typed_condition pre.items) (map typed_condition post.items) (option_map block_of body)) }
{
    match make_frame(alloc, setting) {
        Ok(frame) => Ok(filled(setting.routine.is_view, frame, pre, post, body)),
        Err(error) => {
            discard_conditions(pre);
            discard_conditions(post);
            discard_maybe_block(body);
            Err(error)
        }
    }
}

/// The statements of a function, behind its conditions.
fn statements_in(
    alloc: Global,
    setting: Setting<'_>,
) -> Result<Result<Option<TypedBlock>, u64>, AllocError>
    ensures { IfOk result (λ o. judged (option_map block_of) o ≡ spec.type_optional_body (setting_of setting.entry).surroundings (spec.count_conditions (setting_of setting.entry).routine) (setting_of setting.entry).routine.body) }
{
    let behind = count_conditions(setting.routine)?;
    type_optional_body(alloc, setting.surroundings, behind, setting.routine.body)
}

/// Statements, behind these conditions.
fn behind_post(
    alloc: Global,
    setting: Setting<'_>,
    pre: Vec<TypedCondition>,
    post: Vec<TypedCondition>,
) -> Result<Result<TypedFunction, u64>, AllocError>
    ensures { IfOk result (λ o. judged function_of o ≡ parts.behind_post (setting_of setting.entry) (map typed_condition pre.items) (map typed_condition post.items)) }
{
    match statements_in(alloc, setting) {
        Ok(Ok(body)) => Ok(Ok(function_with(alloc, setting, pre, post, body)?)),
        Ok(Err(n)) => {
            discard_conditions(pre);
            discard_conditions(post);
            Ok(Err(n))
        }
        Err(error) => {
            discard_conditions(pre);
            discard_conditions(post);
            Err(error)
        }
    }
}

/// The postconditions of a function.
fn postconditions(
    alloc: Global,
    setting: Setting<'_>,
) -> Result<Result<Vec<TypedCondition>, u64>, AllocError>
    ensures { IfOk result (λ o. judged conditions_in o ≡ conditions.type_conditions (setting_of setting.entry).after (length (setting_of setting.entry).routine.pre) (setting_of setting.entry).routine.post) }
{
    let first = setting.routine.pre.len() as u64;
    type_conditions(alloc, setting.after, first, setting.routine.post)
}

/// Postconditions and statements, behind these preconditions.
fn behind_pre(
    alloc: Global,
    setting: Setting<'_>,
    pre: Vec<TypedCondition>,
) -> Result<Result<TypedFunction, u64>, AllocError>
    ensures { IfOk result (λ o. judged function_of o ≡ parts.behind_pre (setting_of setting.entry) (map typed_condition pre.items)) }
{
    match postconditions(alloc, setting) {
        Ok(Ok(post)) => behind_post(alloc, setting, pre, post),
        Ok(Err(n)) => {
            discard_conditions(pre);
            Ok(Err(n))
        }
        Err(error) => {
            discard_conditions(pre);
            Err(error)
        }
    }
}

/// Preconditions, postconditions and statements, in the order of their numbers.
fn parts_with(alloc: Global, setting: Setting<'_>) -> Result<Result<TypedFunction, u64>, AllocError>
    ensures { IfOk result (λ o. judged function_of o ≡ parts.parts_with (setting_of setting.entry)) }
{
    match type_conditions(alloc, setting.before, 0, setting.routine.pre)? {
        Ok(pre) => behind_pre(alloc, setting, pre),
        Err(n) => Ok(Err(n)),
    }
}

/// What is in scope in a function, made once.
#[derive(Clone, Copy)]
struct Variables<'a> {
    /// Those of its parameters.
    locals: &'a [Local],
    result: &'a CadType,
    result_local: &'a Option<Local>,
    /// How many are in use before the result, and behind it.
    count: u32,
    behind: u32,
}

/// Parts in these scopes.
fn parts_at<'x>(
    alloc: Global,
    known: Known<'x>,
    routine: &'x Routine<'x>,
    scopes: Scopes<'x>,
    variables: Variables<'x>,
) -> Result<Result<TypedFunction, u64>, AllocError>
    ensures { IfOk result (λ o. judged function_of o ≡ parts.parts_at (tables_of known.entry.tables.now) (routine_of routine.now) (scopes_of scopes.entry) (map local_of variables.entry.locals.now) (pure_type variables.entry.result.now) (option_map local_of variables.entry.result_local.now) variables.entry.count variables.entry.behind) }
{
    let within = routine.within;
    let before = environment_with(known, within, scopes, Part::Precondition, variables.count);
    let last = Part::Postcondition(variables.result_local.as_ref());
    let after = environment_with(known, within, scopes, last, variables.behind);
    let part = body_part(routine.is_initializer);
    let surroundings = Surroundings {
        env: environment_with(known, within, scopes, part, variables.count),
        result: variables.result,
        may_break: false,
        may_continue: false,
    };
    let setting = Setting {
        routine,
        locals: variables.locals,
        result: variables.result,
        result_local: variables.result_local,
        before,
        after,
        surroundings,
    };
    parts_with(alloc, setting)
}

/// How many parameters there are.
fn count_parameters(routine: &Routine<'_>) -> Result<u32, AllocError>
    ensures { IfOk result (λ n. n ≡ length (routine_of routine.now).parameters) }
{
    counted(routine.parameters.len())
}

/// The variable of the result of a routine, whose type this is.
fn own_result(
    alloc: Global,
    known: Known<'_>,
    routine: &Routine<'_>,
    outcome: &CadType,
) -> Result<Option<Local>, AllocError>
    ensures { IfOk result (λ v. option_map local_of v ≡ spec.result_local (kinds_of (tables_of known.entry.tables.now)) (length (routine_of routine.now).parameters) (pure_type outcome.now)) }
{
    let count = count_parameters(routine)?;
    result_local(alloc, known.declared(), count, outcome)
}

/// The elaborated function, or where it is ill-typed, behind its head.
fn type_parts(
    alloc: Global,
    known: Known<'_>,
    routine: &Routine<'_>,
) -> Result<Result<TypedFunction, u64>, AllocError>
    ensures { IfOk result (λ o. judged function_of o ≡ spec.type_parts (tables_of known.entry.tables.now) (routine_of routine.now)) }
{
    let scope = scope_in(known);
    let count = count_parameters(routine)?;
    let locals = parameter_locals(alloc, scope, 0, routine.parameters)?;
    let outcome = result_entry(alloc, scope, routine.result)?;
    let result_local = own_result(alloc, known, routine, &outcome)?;
    let behind = number_behind(count, &result_local)?;
    let outer = Scopes::Empty;
    let variables = Variables {
        locals: locals.as_slice(),
        result: &outcome,
        result_local: &result_local,
        count,
        behind,
    };
    let scopes = Scopes::Inside(locals.as_slice(), &outer);
    parts_at(alloc, known, routine, scopes, variables)
}

/// The elaborated body of a function or an initializer, or the number of its first statement that is ill-typed.
fn type_routine(
    alloc: Global,
    known: Known<'_>,
    routine: &Routine<'_>,
) -> Result<Result<TypedFunction, u64>, AllocError>
    ensures { IfOk result (λ o. judged function_of o ≡ spec.type_routine (tables_of known.entry.tables.now) (routine_of routine.now)) }
{
    if !head_is_right(alloc, scope_in(known), routine)? {
        return Ok(Err(0));
    }
    type_parts(alloc, known, routine)
}

/// A function, by its names, the type in which it stands, and whether that is an interface.
pub fn type_function<'x>(
    alloc: Global,
    known: Known<'x>,
    inside: &'x Names,
    within: Option<&'x TypeId>,
    in_interface: bool,
    function: &'x Function,
) -> Result<Result<TypedFunction, u64>, AllocError>
    ensures { IfOk result (λ o. judged function_of o ≡ spec.type_routine (tables_of known.entry.tables.now) (spec.function_routine inside.now (option_copied within.entry) in_interface (tree_of function.now))) }
{
    let routine = function_routine(inside, within, in_interface, function);
    type_routine(alloc, known, &routine)
}

/// The initializer of a type, by its names.
pub fn type_initializer<'x>(
    alloc: Global,
    known: Known<'x>,
    inside: &'x Names,
    id: &'x TypeId,
    init: &'x Init,
) -> Result<Result<TypedFunction, u64>, AllocError>
    ensures { IfOk result (λ o. judged function_of o ≡ spec.type_routine (tables_of known.entry.tables.now) (record (spec.initializer_routine id.now (init_of init.now)) { inside = inside.now })) }
{
    let routine = initializer_routine(inside, id, init);
    type_routine(alloc, known, &routine)
}

/// A function outside a contract: one that is named `main` takes what can be imported and gives what can be exported.
pub fn type_top_function(
    alloc: Global,
    known: Known<'_>,
    function: &Function,
) -> Result<Result<TypedFunction, u64>, AllocError>
    ensures { IfOk result (λ o. judged function_of o ≡ spec.type_top_function (tables_of known.entry.tables.now) (tree_of function.now)) }
{
    if is_main(&function.name) && !is_entry(alloc, known, function)? {
        return Ok(Err(0));
    }
    let inside = one_name(alloc, &function.name)?;
    type_function(alloc, known, &inside, None, false, function)
}
