// Parameters, conditions, blocks, functions and initializers.
ghost use Rattle.std.specs.Prelude.{◌≡◌, [], length, IfOk, option_map};
ghost use Rattle.cad_grammar.specs.declared.token.Sign.TheVariants as s;
ghost use Rattle.cad_grammar.specs.Spots as spots;
ghost use Rattle.cad_grammar.specs.ProgramGrammar as grammar;
ghost use Rattle.cad_grammar.specs.Views.{parameter_of, condition_of, block_of, function_of, init_of};
ghost use Rattle.cad_parse.specs.Code.Parts as parts;
ghost use Rattle.cad_parse.specs.Code.Reading as spec;
ghost use Rattle.cad_parse.specs.Code.Views.{same, parameters_in, conditions_in, maybe_conditions_in, maybe_block_of, maybe_expr_of, function_body_in};
ghost use Rattle.cad_parse_expr.specs.Code.Reading as expressions;
ghost use Rattle.cad_parse_statement.specs.Code.Views.{stmts_in};
ghost use Rattle.cad_parse_type.specs.Code.Reading as types;
ghost use Rattle.cad_parse_type.specs.Code.Views.{seen, seen_with, seen_name};

use cad_grammar::{
    Access, Condition, Conditions, Expr, Function, FunctionBlock, Init, Parameter, Sign, Stmt,
    TypeAnnotation,
};
use cad_parse_expr::expression;
use cad_parse_statement::{begins_plainly, maybe_annotated, parted, statements};
use cad_parse_type::{Spot, annotation};
use cad_syntax::{Keyword, Name};
use std::alloc::{AllocError, Global};

// A name, parameters, a result's type and a block.
type FunctionBody = (
    (Name, Vec<Parameter>),
    (Option<TypeAnnotation>, Option<FunctionBlock>),
);

/// The name before a `:` that come next, and the spot behind the `:`.
#[tactic(auto, unfolding(crate::specs::Code::Parts::labelled))]
pub fn labelled(spot: Spot<'_>) -> Option<(&Name, Spot<'_>)>
    ensures { option_map (seen_with seen_name) result ≡ parts.labelled (seen spot.entry) }
{
    let (name, spot) = spot.name()?;
    let spot = spot.after(Sign::Colon)?;
    Some((name, spot))
}

#[tactic(auto, unfolding(crate::specs::Code::Parts::parameter_behind))]
fn parameter_behind<'a>(
    alloc: Global,
    label: &Name,
    spot: Spot<'a>,
) -> Result<Option<(Parameter, Spot<'a>)>, AllocError>
    ensures { IfOk result (λ o. option_map (seen_with parameter_of) o ≡ parts.parameter_behind label.now (seen spot.entry)) }
{
    let Some((name, spot)) = labelled(spot) else {
        return Ok(None);
    };
    let Some((annotation, spot)) = annotation(alloc, spot)? else {
        return Ok(None);
    };
    let label = match label.clone() {
        Ok(label) => Some(label),
        Err(error) => {
            drop(annotation);
            return Err(error);
        }
    };
    match name.clone() {
        Ok(name) => {
            let parameter = Parameter {
                label,
                name,
                annotation,
            };
            Ok(Some((parameter, spot)))
        }
        Err(error) => {
            drop(annotation);
            Err(error)
        }
    }
}

/// The parameter that begins at a spot, and the spot behind its type; None where none begins.
#[tactic(auto, unfolding(crate::specs::Code::Parts::parameter))]
pub fn parameter(alloc: Global, spot: Spot<'_>) -> Result<Option<(Parameter, Spot<'_>)>, AllocError>
    ensures { IfOk result (λ o. option_map (seen_with parameter_of) o ≡ parts.parameter (seen spot.entry)) }
{
    let Some((name, spot)) = spot.name() else {
        return Ok(None);
    };
    let Some(behind) = spot.after(Sign::Colon) else {
        return parameter_behind(alloc, name, spot);
    };
    let Some((annotation, end)) = annotation(alloc, behind)? else {
        return Ok(None);
    };
    match name.clone() {
        Ok(name) => {
            let parameter = Parameter {
                label: None,
                name,
                annotation,
            };
            Ok(Some((parameter, end)))
        }
        Err(error) => {
            drop(annotation);
            Err(error)
        }
    }
}

#[tactic(auto, unfolding(cad_parse_type::specs::Code::Reading::listed))]
fn parameter_list(
    alloc: Global,
    spot: Spot<'_>,
) -> Result<Option<(Vec<Parameter>, Spot<'_>)>, AllocError>
    ensures { IfOk result (λ o. option_map (seen_with parameters_in) o ≡ types.listed parts.parameter s.CloseParenthesis (length spot.entry.tokens.now) [] (seen spot.entry)) }
{
    let mut found = Vec::new(alloc);
    let mut here = spot;
    for _turn in 0..spot.tokens.len() {
        if let Some(end) = here.after(Sign::CloseParenthesis) {
            return Ok(Some((found, end)));
        }
        let Some((item, behind)) = parameter(alloc, here)? else {
            return Ok(None);
        };
        found.push(item)?;
        let Some(next) = here.resumed(Sign::Comma, behind) else {
            let Some(end) = here.resumed(Sign::CloseParenthesis, behind) else {
                return Ok(None);
            };
            return Ok(Some((found, end)));
        };
        here = next;
    }
    Ok(None)
}

/// The parameters that begin at a spot with their `(`, and the spot behind their `)`; None where none begin.
#[tactic(auto, unfolding(crate::specs::Code::Parts::parameters, cad_parse_type::specs::Code::Views::seen))]
pub fn parameters(
    alloc: Global,
    spot: Spot<'_>,
) -> Result<Option<(Vec<Parameter>, Spot<'_>)>, AllocError>
    ensures { IfOk result (λ o. option_map (seen_with parameters_in) o ≡ parts.parameters (seen spot.entry)) }
{
    let Some(inner) = spot.opening(Sign::OpenParenthesis) else {
        return Ok(None);
    };
    let Some((all, end)) = parameter_list(alloc, inner)? else {
        return Ok(None);
    };
    Ok(Some((all, spot.back(end))))
}

// A `:` and a message, or nothing.
#[tactic(auto, unfolding(cad_parse_type::specs::Code::Reading::maybe))]
fn message(alloc: Global, spot: Spot<'_>) -> Result<Option<(Option<Expr>, Spot<'_>)>, AllocError>
    ensures { IfOk result (λ o. option_map (seen_with maybe_expr_of) o ≡ types.maybe (spots.after s.Colon) expressions.expression (seen spot.entry)) }
{
    let Some(behind) = spot.after(Sign::Colon) else {
        return Ok(Some((None, spot)));
    };
    let Some((message, end)) = expression(alloc, behind)? else {
        return Ok(None);
    };
    Ok(Some((Some(message), end)))
}

#[tactic(auto, unfolding(crate::specs::Code::Parts::emitted))]
fn emitted(alloc: Global, spot: Spot<'_>) -> Result<Option<(Condition, Spot<'_>)>, AllocError>
    ensures { IfOk result (λ o. option_map (seen_with condition_of) o ≡ parts.emitted (seen spot.entry)) }
{
    let Some((event, end)) = expression(alloc, spot)? else {
        return Ok(None);
    };
    Ok(Some((Condition::Emit(event), end)))
}

#[tactic(auto, unfolding(crate::specs::Code::Parts::plain))]
fn plain(alloc: Global, spot: Spot<'_>) -> Result<Option<(Condition, Spot<'_>)>, AllocError>
    ensures { IfOk result (λ o. option_map (seen_with condition_of) o ≡ parts.plain (seen spot.entry)) }
{
    if !begins_plainly(spot) {
        return Ok(None);
    }
    let Some((test, spot)) = expression(alloc, spot)? else {
        return Ok(None);
    };
    match message(alloc, spot) {
        Ok(Some((message, spot))) => Ok(Some((Condition::Test { test, message }, spot))),
        Ok(None) => {
            drop(test);
            Ok(None)
        }
        Err(error) => {
            drop(test);
            Err(error)
        }
    }
}

#[tactic(auto, unfolding(crate::specs::Code::Parts::condition))]
fn condition(alloc: Global, spot: Spot<'_>) -> Result<Option<(Condition, Spot<'_>)>, AllocError>
    ensures { IfOk result (λ o. option_map (seen_with condition_of) o ≡ parts.condition (seen spot.entry)) }
{
    match spot.keyword(Keyword::Emit) {
        Some(behind) => emitted(alloc, behind),
        None => plain(alloc, spot),
    }
}

#[tactic(auto, unfolding(crate::specs::Code::Parts::parted_condition))]
fn parted_condition(
    alloc: Global,
    spot: Spot<'_>,
) -> Result<Option<(Condition, Spot<'_>)>, AllocError>
    ensures { IfOk result (λ o. option_map (seen_with condition_of) o ≡ parts.parted_condition (seen spot.entry)) }
{
    let Some((condition, spot)) = condition(alloc, spot)? else {
        return Ok(None);
    };
    let Some(spot) = parted(spot) else {
        drop(condition);
        return Ok(None);
    };
    Ok(Some((condition, spot)))
}

#[tactic(auto, unfolding(crate::specs::Code::Parts::repeated))]
fn condition_list(
    alloc: Global,
    spot: Spot<'_>,
) -> Result<Option<(Conditions, Spot<'_>)>, AllocError>
    ensures { IfOk result (λ o. option_map (seen_with conditions_in) o ≡ parts.repeated parts.parted_condition s.CloseBrace (length spot.entry.tokens.now) [] (seen spot.entry)) }
{
    let mut found = Vec::new(alloc);
    let mut here = spot;
    for _turn in 0..spot.tokens.len() {
        if let Some(end) = here.after(Sign::CloseBrace) {
            return Ok(Some((found, end)));
        }
        let Some((item, next)) = parted_condition(alloc, here)? else {
            return Ok(None);
        };
        found.push(item)?;
        here = next;
    }
    Ok(None)
}

#[tactic(auto, unfolding(crate::specs::Code::Parts::conditions, cad_parse_type::specs::Code::Views::seen))]
fn conditions(alloc: Global, spot: Spot<'_>) -> Result<Option<(Conditions, Spot<'_>)>, AllocError>
    ensures { IfOk result (λ o. option_map (seen_with conditions_in) o ≡ parts.conditions (seen spot.entry)) }
{
    let Some(inner) = spot.opening(Sign::OpenBrace) else {
        return Ok(None);
    };
    let Some((all, end)) = condition_list(alloc, inner)? else {
        return Ok(None);
    };
    Ok(Some((all, spot.back(end))))
}

/// The conditions behind this word, and the spot behind their `}`; nothing where another token comes next; None where no
/// conditions stand behind it.
#[tactic(auto, unfolding(cad_parse_type::specs::Code::Reading::maybe))]
pub fn conditions_behind(
    alloc: Global,
    word: Keyword,
    spot: Spot<'_>,
) -> Result<Option<(Option<Conditions>, Spot<'_>)>, AllocError>
    ensures { IfOk result (λ o. option_map (seen_with maybe_conditions_in) o ≡ parts.conditions_behind word (seen spot.entry)) }
{
    let Some(behind) = spot.keyword(word) else {
        return Ok(Some((None, spot)));
    };
    let Some((all, end)) = conditions(alloc, behind)? else {
        return Ok(None);
    };
    Ok(Some((Some(all), end)))
}

// Statements up to a `}`, and the spot behind that.
#[tactic(auto, unfolding(crate::specs::Code::Parts::closed_statements))]
fn closed_statements(
    alloc: Global,
    spot: Spot<'_>,
) -> Result<Option<(Vec<Stmt>, Spot<'_>)>, AllocError>
    ensures { IfOk result (λ o. option_map (seen_with stmts_in) o ≡ parts.closed_statements (seen spot.entry)) }
{
    let Some((body, spot)) = statements(alloc, spot)? else {
        return Ok(None);
    };
    let Some(end) = spot.after(Sign::CloseBrace) else {
        return Ok(None);
    };
    Ok(Some((body, end)))
}

/// The block of a function that begins at a spot, with its conditions, and the spot behind its `}`; None where none begins.
#[tactic(auto, unfolding(crate::specs::Code::Parts::function_block, crate::specs::Code::Parts::closed_statements))]
pub fn function_block(
    alloc: Global,
    spot: Spot<'_>,
) -> Result<Option<(FunctionBlock, Spot<'_>)>, AllocError>
    ensures { IfOk result (λ o. option_map (seen_with block_of) o ≡ parts.function_block (seen spot.entry)) }
{
    let Some(inner) = spot.opening(Sign::OpenBrace) else {
        return Ok(None);
    };
    let Some((pre, inner)) = conditions_behind(alloc, Keyword::Pre, inner)? else {
        return Ok(None);
    };
    let (post, inner) = match conditions_behind(alloc, Keyword::Post, inner) {
        Ok(Some(found)) => found,
        Ok(None) => {
            drop(pre);
            return Ok(None);
        }
        Err(error) => {
            drop(pre);
            return Err(error);
        }
    };
    match closed_statements(alloc, inner) {
        Ok(Some((body, end))) => Ok(Some((FunctionBlock { pre, post, body }, spot.back(end)))),
        Ok(None) => {
            drop(pre);
            drop(post);
            Ok(None)
        }
        Err(error) => {
            drop(pre);
            drop(post);
            Err(error)
        }
    }
}

#[tactic(auto, unfolding(crate::specs::Code::Reading::blocked))]
fn blocked(
    alloc: Global,
    spot: Spot<'_>,
) -> Result<Option<(Option<FunctionBlock>, Spot<'_>)>, AllocError>
    ensures { IfOk result (λ o. option_map (seen_with maybe_block_of) o ≡ spec.blocked (seen spot.entry)) }
{
    let Some((block, end)) = function_block(alloc, spot)? else {
        return Ok(None);
    };
    Ok(Some((Some(block), end)))
}

#[tactic(auto, unfolding(crate::specs::Code::Reading::maybe_blocked))]
fn maybe_blocked(
    alloc: Global,
    spot: Spot<'_>,
) -> Result<Option<(Option<FunctionBlock>, Spot<'_>)>, AllocError>
    ensures { IfOk result (λ o. option_map (seen_with maybe_block_of) o ≡ spec.maybe_blocked (seen spot.entry)) }
{
    match spot.after(Sign::OpenBrace) {
        Some(_) => blocked(alloc, spot),
        None => Ok(Some((None, spot))),
    }
}

#[tactic(auto, unfolding(crate::specs::Code::Reading::block_of))]
fn block_of(
    alloc: Global,
    in_interface: bool,
    spot: Spot<'_>,
) -> Result<Option<(Option<FunctionBlock>, Spot<'_>)>, AllocError>
    ensures { IfOk result (λ o. option_map (seen_with maybe_block_of) o ≡ spec.block_of in_interface (seen spot.entry)) }
{
    if in_interface {
        maybe_blocked(alloc, spot)
    } else {
        blocked(alloc, spot)
    }
}

/// Whether `view` comes next before this keyword, and the spot behind the keyword; None where neither stands there.
#[tactic(auto, unfolding(cad_grammar::specs::ProgramGrammar::viewed))]
pub fn viewed(keyword: Keyword, spot: Spot<'_>) -> Option<(bool, Spot<'_>)>
    ensures { option_map (seen_with same) result ≡ grammar.viewed keyword (seen spot.entry) }
{
    match spot.word("view") {
        Some(behind) => Some((true, behind.keyword(keyword)?)),
        None => Some((false, spot.keyword(keyword)?)),
    }
}

// What stands behind the `fun` of a function.
#[tactic(auto, unfolding(crate::specs::Code::Reading::function_body))]
fn function_body(
    alloc: Global,
    in_interface: bool,
    spot: Spot<'_>,
) -> Result<Option<(FunctionBody, Spot<'_>)>, AllocError>
    ensures { IfOk result (λ o. option_map (seen_with function_body_in) o ≡ spec.function_body in_interface (seen spot.entry)) }
{
    let Some((name, spot)) = spot.name() else {
        return Ok(None);
    };
    let Some((parameters, spot)) = parameters(alloc, spot)? else {
        return Ok(None);
    };
    let Some((result, spot)) = maybe_annotated(alloc, spot)? else {
        return Ok(None);
    };
    let (block, spot) = match block_of(alloc, in_interface, spot) {
        Ok(Some(found)) => found,
        Ok(None) => {
            drop(result);
            return Ok(None);
        }
        Err(error) => {
            drop(result);
            return Err(error);
        }
    };
    match name.clone() {
        Ok(name) => Ok(Some((((name, parameters), (result, block)), spot))),
        Err(error) => {
            drop(result);
            drop(block);
            Err(error)
        }
    }
}

/// The function that begins behind its access, in an interface or elsewhere, and the spot behind it; None where none begins.
/// In an interface it may have no block.
#[tactic(auto, unfolding(crate::specs::Code::Reading::function_with, crate::specs::Code::Reading::function_body))]
pub fn function<'a>(
    alloc: Global,
    in_interface: bool,
    access: Access,
    spot: Spot<'a>,
) -> Result<Option<(Function, Spot<'a>)>, AllocError>
    ensures { IfOk result (λ o. option_map (seen_with function_of) o ≡ spec.function_with in_interface access (seen spot.entry)) }
{
    let Some((is_view, spot)) = viewed(Keyword::Fun, spot) else {
        drop(access);
        return Ok(None);
    };
    match function_body(alloc, in_interface, spot) {
        Ok(Some((body, spot))) => {
            let ((name, parameters), (result, block)) = body;
            let function = Function {
                access,
                is_view,
                name,
                parameters,
                result,
                block,
            };
            Ok(Some((function, spot)))
        }
        Ok(None) => {
            drop(access);
            Ok(None)
        }
        Err(error) => {
            drop(access);
            Err(error)
        }
    }
}

/// The initializer that begins behind its `init`, and the spot behind its block; None where none begins.
#[tactic(auto, unfolding(crate::specs::Code::Reading::initializer))]
pub fn initializer(
    alloc: Global,
    is_view: bool,
    spot: Spot<'_>,
) -> Result<Option<(Init, Spot<'_>)>, AllocError>
    ensures { IfOk result (λ o. option_map (seen_with init_of) o ≡ spec.initializer is_view (seen spot.entry)) }
{
    let Some((parameters, spot)) = parameters(alloc, spot)? else {
        return Ok(None);
    };
    let Some((block, spot)) = function_block(alloc, spot)? else {
        return Ok(None);
    };
    let init = Init {
        is_view,
        parameters,
        block,
    };
    Ok(Some((init, spot)))
}
