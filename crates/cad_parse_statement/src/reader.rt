// The readers of statements and blocks. `depth` bounds how deep they call each other.
ghost use Rattle.std.specs.Prelude.{◌≡◌, suc, IfOk, option_map};
ghost use Rattle.cad_grammar.specs.Views.{stmt_of, otherwise_of, case_of};
ghost use Rattle.cad_parse_statement.specs.Code.Reading as spec;
ghost use Rattle.cad_parse_statement.specs.Code.Views.{stmts_in, cases_in, default_in, branches_in, sections_in};
ghost use Rattle.cad_parse_type.specs.Code.Views.{seen, seen_with};

use crate::parts::{boxed, loops, tested};
use crate::simple::{unnested, variable};
use crate::words::{ends, parted, variable_word};
use cad_grammar::{Case, Otherwise, Sign, Stmt};
use cad_parse_expr::expression;
use cad_parse_type::Spot;
use cad_syntax::Keyword;
use std::alloc::{AllocError, Global};

#[cycle(read)]
#[tactic(auto)]
fn body(
    alloc: Global,
    depth: u64,
    spot: Spot<'_>,
) -> Result<Option<(Vec<Stmt>, Spot<'_>)>, AllocError>
    ensures { IfOk result (λ o. option_map (seen_with stmts_in) o ≡ spec.body (spec.read depth) (seen spot.entry)) }
{
    let mut found = Vec::new(alloc);
    let mut at = spot;
    for _turn in 0..spot.tokens.len() {
        if ends(at) {
            return Ok(Some((found, at)));
        }
        let Some((item, rest)) = read_statement(alloc, depth, at)? else {
            return Ok(None);
        };
        let Some(rest) = parted(rest) else {
            drop(item);
            return Ok(None);
        };
        if let Err(refused) = found.push(item) {
            drop(refused.value);
            return Err(AllocError);
        }
        at = rest;
    }
    Ok(None)
}

#[cycle(read)]
#[tactic(auto, unfolding(crate::specs::Code::Reading::block))]
fn block_at(
    alloc: Global,
    depth: u64,
    spot: Spot<'_>,
) -> Result<Option<(Vec<Stmt>, Spot<'_>)>, AllocError>
    ensures { IfOk result (λ o. option_map (seen_with stmts_in) o ≡ spec.block (spec.read depth) (seen spot.entry)) }
{
    let Some(inner) = spot.opening(Sign::OpenBrace) else {
        return Ok(None);
    };
    let Some((found, rest)) = body(alloc, depth, inner)? else {
        return Ok(None);
    };
    let Some(end) = rest.after(Sign::CloseBrace) else {
        return Ok(None);
    };
    Ok(Some((found, spot.back(end))))
}

// behind `else`
#[cycle(read)]
#[tactic(auto, unfolding(crate::specs::Code::Reading::alternative))]
fn alternative(
    alloc: Global,
    depth: u64,
    spot: Spot<'_>,
) -> Result<Option<(Otherwise, Spot<'_>)>, AllocError>
    ensures { IfOk result (λ o. option_map (seen_with otherwise_of) o ≡ spec.alternative (spec.read depth) (seen spot.entry)) }
{
    if spot.keyword(Keyword::If).is_some() {
        let Some(inner) = spot.opened() else {
            return Ok(None);
        };
        let Some((found, end)) = read_if(alloc, depth, inner)? else {
            return Ok(None);
        };
        return Ok(Some((Otherwise::If(boxed(alloc, found)?), end)));
    }
    let Some((found, end)) = block_at(alloc, depth, spot)? else {
        return Ok(None);
    };
    Ok(Some((Otherwise::Block(found), end)))
}

#[cycle(read)]
#[tactic(auto, unfolding(crate::specs::Code::Reading::otherwise))]
fn otherwise(
    alloc: Global,
    depth: u64,
    spot: Spot<'_>,
) -> Result<Option<(Otherwise, Spot<'_>)>, AllocError>
    ensures { IfOk result (λ o. option_map (seen_with otherwise_of) o ≡ spec.otherwise (spec.read depth) (seen spot.entry)) }
{
    match spot.keyword(Keyword::Else) {
        Some(rest) => alternative(alloc, depth, rest),
        None => Ok(Some((Otherwise::Nothing, spot))),
    }
}

// the block behind a test, and what is done otherwise
#[cycle(read)]
#[tactic(auto, unfolding(crate::specs::Code::Reading::branches))]
fn branches(
    alloc: Global,
    depth: u64,
    spot: Spot<'_>,
) -> Result<Option<((Vec<Stmt>, Otherwise), Spot<'_>)>, AllocError>
    ensures { IfOk result (λ o. option_map (seen_with branches_in) o ≡ spec.branches (spec.read depth) (seen spot.entry)) }
{
    let Some((then, rest)) = block_at(alloc, depth, spot)? else {
        return Ok(None);
    };
    let Some((otherwise, end)) = otherwise(alloc, depth, rest)? else {
        return Ok(None);
    };
    Ok(Some(((then, otherwise), end)))
}

// behind `if`
#[cycle(read)]
#[tactic(auto, unfolding(crate::specs::Code::Reading::conditional))]
fn conditional(
    alloc: Global,
    depth: u64,
    spot: Spot<'_>,
) -> Result<Option<(Stmt, Spot<'_>)>, AllocError>
    ensures { IfOk result (λ o. option_map (seen_with stmt_of) o ≡ spec.conditional (spec.read depth) (seen spot.entry)) }
{
    let Some((test, rest)) = tested(alloc, spot)? else {
        return Ok(None);
    };
    match branches(alloc, depth, rest) {
        Ok(Some((found, end))) => {
            let (then, otherwise) = found;
            let found = Stmt::If {
                test,
                then,
                otherwise,
            };
            Ok(Some((found, end)))
        }
        Ok(None) => {
            drop(test);
            Ok(None)
        }
        Err(error) => {
            drop(test);
            Err(error)
        }
    }
}

// behind `while`
#[cycle(read)]
#[tactic(auto, unfolding(crate::specs::Code::Reading::while_loop))]
fn while_loop(
    alloc: Global,
    depth: u64,
    spot: Spot<'_>,
) -> Result<Option<(Stmt, Spot<'_>)>, AllocError>
    ensures { IfOk result (λ o. option_map (seen_with stmt_of) o ≡ spec.while_loop (spec.read depth) (seen spot.entry)) }
{
    let Some((test, rest)) = expression(alloc, spot)? else {
        return Ok(None);
    };
    match block_at(alloc, depth, rest) {
        Ok(Some((body, end))) => Ok(Some((Stmt::While(test, body), end))),
        Ok(None) => {
            drop(test);
            Ok(None)
        }
        Err(error) => {
            drop(test);
            Err(error)
        }
    }
}

// behind `for`
#[cycle(read)]
#[tactic(auto, unfolding(crate::specs::Code::Reading::for_loop))]
fn for_loop(
    alloc: Global,
    depth: u64,
    spot: Spot<'_>,
) -> Result<Option<(Stmt, Spot<'_>)>, AllocError>
    ensures { IfOk result (λ o. option_map (seen_with stmt_of) o ≡ spec.for_loop (spec.read depth) (seen spot.entry)) }
{
    let Some(((index, name), rest)) = loops(spot)? else {
        return Ok(None);
    };
    let Some((array, rest)) = expression(alloc, rest)? else {
        return Ok(None);
    };
    match block_at(alloc, depth, rest) {
        Ok(Some((body, end))) => {
            let found = Stmt::For {
                index,
                name,
                array,
                body,
            };
            Ok(Some((found, end)))
        }
        Ok(None) => {
            drop(array);
            Ok(None)
        }
        Err(error) => {
            drop(array);
            Err(error)
        }
    }
}

// behind `case`
#[cycle(read)]
#[tactic(auto, unfolding(crate::specs::Code::Reading::one_case))]
fn one_case(
    alloc: Global,
    depth: u64,
    spot: Spot<'_>,
) -> Result<Option<(Case, Spot<'_>)>, AllocError>
    ensures { IfOk result (λ o. option_map (seen_with case_of) o ≡ spec.one_case (spec.read depth) (seen spot.entry)) }
{
    let Some((value, rest)) = expression(alloc, spot)? else {
        return Ok(None);
    };
    let Some(rest) = rest.after(Sign::Colon) else {
        drop(value);
        return Ok(None);
    };
    match body(alloc, depth, rest) {
        Ok(Some((body, end))) => Ok(Some((Case { value, body }, end))),
        Ok(None) => {
            drop(value);
            Ok(None)
        }
        Err(error) => {
            drop(value);
            Err(error)
        }
    }
}

#[cycle(read)]
#[tactic(auto)]
fn all_cases(
    alloc: Global,
    depth: u64,
    spot: Spot<'_>,
) -> Result<Option<(Vec<Case>, Spot<'_>)>, AllocError>
    ensures { IfOk result (λ o. option_map (seen_with cases_in) o ≡ spec.all_cases (spec.read depth) (seen spot.entry)) }
{
    let mut found = Vec::new(alloc);
    let mut at = spot;
    for _turn in 0..spot.tokens.len() {
        let Some(rest) = at.keyword(Keyword::Case) else {
            return Ok(Some((found, at)));
        };
        let Some((item, rest)) = one_case(alloc, depth, rest)? else {
            return Ok(None);
        };
        if let Err(refused) = found.push(item) {
            drop(refused.value);
            return Err(AllocError);
        }
        at = rest;
    }
    Ok(None)
}

#[cycle(read)]
#[tactic(auto, unfolding(crate::specs::Code::Reading::default))]
fn default(
    alloc: Global,
    depth: u64,
    spot: Spot<'_>,
) -> Result<Option<(Option<Vec<Stmt>>, Spot<'_>)>, AllocError>
    ensures { IfOk result (λ o. option_map (seen_with default_in) o ≡ spec.default (spec.read depth) (seen spot.entry)) }
{
    let Some(rest) = spot.keyword(Keyword::Default) else {
        return Ok(Some((None, spot)));
    };
    let Some(rest) = rest.after(Sign::Colon) else {
        return Ok(None);
    };
    let Some((found, end)) = body(alloc, depth, rest)? else {
        return Ok(None);
    };
    Ok(Some((Some(found), end)))
}

// behind the `{` of a `switch`, up to its `}`
#[cycle(read)]
#[tactic(auto, unfolding(crate::specs::Code::Reading::sections))]
fn sections(
    alloc: Global,
    depth: u64,
    spot: Spot<'_>,
) -> Result<Option<((Vec<Case>, Option<Vec<Stmt>>), Spot<'_>)>, AllocError>
    ensures { IfOk result (λ o. option_map (seen_with sections_in) o ≡ spec.sections (spec.read depth) (seen spot.entry)) }
{
    let Some((cases, rest)) = all_cases(alloc, depth, spot)? else {
        return Ok(None);
    };
    let Some((default, rest)) = default(alloc, depth, rest)? else {
        return Ok(None);
    };
    let Some(end) = rest.after(Sign::CloseBrace) else {
        return Ok(None);
    };
    Ok(Some(((cases, default), end)))
}

// behind the `switch` at `start`
#[cycle(read)]
#[tactic(auto, unfolding(crate::specs::Code::Reading::switch))]
fn switch<'a>(
    alloc: Global,
    depth: u64,
    start: Spot<'a>,
    spot: Spot<'a>,
) -> Result<Option<(Stmt, Spot<'a>)>, AllocError>
    ensures { IfOk result (λ o. option_map (seen_with stmt_of) o ≡ spec.switch (spec.read depth) (seen start.entry) (seen spot.entry)) }
{
    let Some((value, rest)) = expression(alloc, spot)? else {
        return Ok(None);
    };
    let Some(inner) = rest.opening(Sign::OpenBrace) else {
        drop(value);
        return Ok(None);
    };
    match sections(alloc, depth, inner) {
        Ok(Some((found, end))) => {
            let (cases, default) = found;
            let found = Stmt::Switch {
                value,
                cases,
                default,
            };
            Ok(Some((found, start.back(end))))
        }
        Ok(None) => {
            drop(value);
            Ok(None)
        }
        Err(error) => {
            drop(value);
            Err(error)
        }
    }
}

#[cycle(read)]
#[tactic(auto, unfolding(crate::specs::Code::Reading::statement))]
fn statement(
    alloc: Global,
    depth: u64,
    spot: Spot<'_>,
) -> Result<Option<(Stmt, Spot<'_>)>, AllocError>
    ensures { IfOk result (λ o. option_map (seen_with stmt_of) o ≡ spec.statement (spec.read depth) (seen spot.entry)) }
{
    if let Some((kind, rest)) = variable_word(spot) {
        return variable(alloc, kind, rest);
    }
    if let Some(rest) = spot.keyword(Keyword::If) {
        let Some((found, end)) = conditional(alloc, depth, rest)? else {
            return Ok(None);
        };
        return Ok(Some((found, spot.back(end))));
    }
    if let Some(rest) = spot.keyword(Keyword::While) {
        return while_loop(alloc, depth, rest);
    }
    if let Some(rest) = spot.keyword(Keyword::For) {
        return for_loop(alloc, depth, rest);
    }
    if let Some(rest) = spot.keyword(Keyword::Switch) {
        return switch(alloc, depth, spot, rest);
    }
    unnested(alloc, spot)
}

#[cycle(read)]
#[tactic(auto, unfolding(crate::specs::Code::Reading::read))]
fn read_statement(
    alloc: Global,
    depth: u64,
    spot: Spot<'_>,
) -> Result<Option<(Stmt, Spot<'_>)>, AllocError>
    ensures { IfOk result (λ o. option_map (seen_with stmt_of) o ≡ spec.read depth spec.a_statement (seen spot.entry)) }
{
    if depth == 0 {
        return Ok(None);
    }
    statement(alloc, depth - 1, spot)
}

#[cycle(read)]
#[tactic(auto, unfolding(crate::specs::Code::Reading::whole_if))]
fn whole_if(
    alloc: Global,
    depth: u64,
    spot: Spot<'_>,
) -> Result<Option<(Stmt, Spot<'_>)>, AllocError>
    ensures { IfOk result (λ o. option_map (seen_with stmt_of) o ≡ spec.whole_if (spec.read depth) (seen spot.entry)) }
{
    let Some(rest) = spot.keyword(Keyword::If) else {
        return Ok(None);
    };
    conditional(alloc, depth, rest)
}

#[cycle(read)]
#[tactic(auto, unfolding(crate::specs::Code::Reading::read))]
fn read_if(
    alloc: Global,
    depth: u64,
    spot: Spot<'_>,
) -> Result<Option<(Stmt, Spot<'_>)>, AllocError>
    ensures { IfOk result (λ o. option_map (seen_with stmt_of) o ≡ spec.read depth spec.an_if (seen spot.entry)) }
{
    if depth == 0 {
        return Ok(None);
    }
    whole_if(alloc, depth - 1, spot)
}

// How deep the readers may call each other from a spot on: once more than nestings may be opened.
#[tactic(auto, unfolding(cad_parse_type::specs::Code::Views::seen))]
fn depth_at(spot: Spot<'_>) -> u64
    ensures { result ≡ suc (seen spot.entry).left }
{
    u64::from(spot.left) + 1
}

/// The statements from a spot on up to where they end, and the spot there; None where none stand there that end.
#[tactic(auto, unfolding(crate::specs::Code::Reading::statements_in))]
pub fn statements(
    alloc: Global,
    spot: Spot<'_>,
) -> Result<Option<(Vec<Stmt>, Spot<'_>)>, AllocError>
    ensures { IfOk result (λ o. option_map (seen_with stmts_in) o ≡ spec.statements_in (seen spot.entry)) }
{
    body(alloc, depth_at(spot), spot)
}

/// The block that begins at a spot, and the spot behind it; None where none begins.
#[tactic(auto, unfolding(crate::specs::Code::Reading::block_in))]
pub fn block(alloc: Global, spot: Spot<'_>) -> Result<Option<(Vec<Stmt>, Spot<'_>)>, AllocError>
    ensures { IfOk result (λ o. option_map (seen_with stmts_in) o ≡ spec.block_in (seen spot.entry)) }
{
    block_at(alloc, depth_at(spot), spot)
}
