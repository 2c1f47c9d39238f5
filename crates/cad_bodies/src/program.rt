// The pieces of a program.
ghost use Rattle.std.specs.Prelude.{◌≡◌, [], ◌∷◌, ◌++◌, IfOk, OnOk, map, option_copied, option_map, option_to_list};
ghost use Rattle.std.specs.List.{flat_map};
ghost use Rattle.cad_grammar.specs.Trees as tree;
ghost use Rattle.cad_grammar.specs.Views.{composite_member_of, composite_of, contract_member_of, contract_of, decl_of, event_of, function_of as tree_of, init_of, interface_member_of, interface_of, program_of, transaction_of as transaction_tree};
ghost use Rattle.cad_declarations.specs.Views.{block_of, destroyed_of, function_of, tables_of, transaction_of};
ghost use Rattle.cad_environment.specs.Views.{scopes_of};
ghost use Rattle.cad_transactions.specs.Passed.{conditions_in, judged};
ghost use Rattle.cad_typing.specs.Functions.{type_top_function as top_typing, initializer_routine as initializer_tree};
ghost use Rattle.cad_typing.specs.Pieces as spec;
ghost use Rattle.cad_pieces.specs.Views.{piece_of, piece_body_of, pieces_of, result_of};
ghost use Rattle.cad_bodies.specs.Code.Parts as parts;
ghost use Rattle.cad_transactions.specs.Code.Parts.{body_with};
ghost use Rattle.cad_transactions.specs.Views.{locals_of, typing_of};

use cad_declarations::{
    DestroyedEvent, TypedBlock, TypedBody, TypedCondition, TypedFunction, TypedTransaction,
};
use cad_environment::{Known, Scopes};
use cad_grammar::{
    Composite, CompositeMember, Contract, ContractMember, Decl, Event, Function, Init, Interface,
    InterfaceMember, Program, Transaction,
};
use cad_heads::{
    below, composite_is_right, contract_is_right, declaration_is_right, enum_is_right,
    event_is_right, interface_is_right, of_initializer, one_name, one_word, own_count,
    signed_count,
};
use cad_paths::FieldRule;
use cad_pieces::{Piece, PieceBody, discard_piece, discard_piece_body, discard_pieces};
use cad_scopes::inside;
use cad_syntax::{Names, TypeId};
use cad_transactions::{
    Standing, TransactionLocals, TransactionTyping, destroyed_event, discard_transaction_typing,
    transaction_body, transaction_locals, transaction_rules, type_function, type_initializer,
    type_parts, type_top_function,
};
use std::alloc::{AllocError, Global};

/// All declarations and functions of a program, in source order, with what typing makes of each.
pub fn pieces(alloc: Global, known: Known<'_>, program: &Program) -> Result<Vec<Piece>, AllocError>
    ensures { IfOk result (λ all. pieces_of all.items ≡ spec.program_pieces (tables_of known.entry.tables.now) (program_of program.now)) }
{
    let mut all = Vec::new(alloc);
    match push_declarations(&mut all, alloc, known, program.declarations.as_slice()) {
        Ok(()) => Ok(all),
        Err(error) => {
            discard_pieces(all);
            Err(error)
        }
    }
}

/// Adds a piece; where memory fails, it is let go.
fn push_piece(all: &mut Vec<Piece>, piece: Piece) -> Result<(), AllocError>
    ensures { OnOk result (pieces_of all.new.items ≡ pieces_of all.old.items ++ piece_of piece ∷ []) }
{
    match all.push(piece) {
        Ok(()) => Ok(()),
        Err(refused) => {
            discard_piece(refused.value);
            Err(AllocError)
        }
    }
}

/// A declaration, by its names and whether it is right.
fn declaration(inside: Names, is_right: bool, body: PieceBody) -> Piece
    ensures { piece_of result ≡ spec.declaration inside is_right (piece_body_of body) }
{
    if is_right {
        Piece {
            inside,
            typing: Ok(body),
        }
    } else {
        discard_piece_body(body);
        Piece {
            inside,
            typing: Err(0),
        }
    }
}

/// A type that is declared, by whether it is right.
fn own_piece(id: &TypeId, is_right: bool) -> Result<Piece, AllocError>
    ensures { IfOk result (λ p. piece_of p ≡ spec.declaration id.now.names is_right (spec.type_piece id.now)) }
{
    let names = id.names.clone()?;
    let own = id.clone()?;
    Ok(declaration(names, is_right, PieceBody::Type(own)))
}

/// A function, as typing judges it.
fn function_typing(alloc: Global, typing: Result<TypedFunction, u64>) -> Result<PieceBody, u64>
    ensures { result_of result ≡ spec.function (judged function_of typing) }
{
    match typing {
        Ok(function) => Ok(PieceBody::Body {
            owner: None,
            rules: Vec::new(alloc),
            body: TypedBody::Function(function),
        }),
        Err(n) => Err(n),
    }
}

/// The initializer of a type, as typing judges it.
fn initializer_typing(
    alloc: Global,
    id: TypeId,
    typing: Result<TypedFunction, u64>,
) -> Result<PieceBody, u64>
    ensures { result_of result ≡ spec.initializer id (judged function_of typing) }
{
    match typing {
        Ok(function) => Ok(PieceBody::Body {
            owner: Some(id),
            rules: Vec::new(alloc),
            body: TypedBody::Initializer(function),
        }),
        Err(n) => Err(n),
    }
}

/// A function that stands in a type.
fn method(
    alloc: Global,
    known: Known<'_>,
    id: &TypeId,
    in_interface: bool,
    function: &Function,
) -> Result<Piece, AllocError>
    ensures { IfOk result (λ p. piece_of p ≡ spec.routine_piece (tables_of known.entry.tables.now) (spec.method id.now in_interface (tree_of function.now))) }
{
    let inside = below(&id.names, &function.name)?;
    let typed = type_function(alloc, known, &inside, Some(id), in_interface, function)?;
    let typing = function_typing(alloc, typed);
    Ok(Piece { inside, typing })
}

/// The initializer of a type.
fn initializer(
    alloc: Global,
    known: Known<'_>,
    id: &TypeId,
    init: &Init,
) -> Result<Piece, AllocError>
    ensures { IfOk result (λ p. piece_of p ≡ spec.initializer_of (tables_of known.entry.tables.now) id.now (initializer_tree id.now (init_of init.now))) }
{
    let inside = of_initializer(alloc, &id.names)?;
    let owner = id.clone()?;
    let typed = type_initializer(alloc, known, &inside, id, init)?;
    let typing = initializer_typing(alloc, owner, typed);
    Ok(Piece { inside, typing })
}

/// A function outside a contract.
fn top_function(alloc: Global, known: Known<'_>, function: &Function) -> Result<Piece, AllocError>
    ensures { IfOk result (λ p. piece_of p ≡ spec.piece ((tree_of function.now).name ∷ []) (spec.function (top_typing (tables_of known.entry.tables.now) (tree_of function.now)))) }
{
    let inside = one_name(alloc, &function.name)?;
    let typed = type_top_function(alloc, known, function)?;
    let typing = function_typing(alloc, typed);
    Ok(Piece { inside, typing })
}

/// The event of a resource, as typing judges it.
fn destroyed_typing(event: Option<DestroyedEvent>) -> Result<PieceBody, u64>
    ensures { result_of result ≡ parts.destroyed_typing (option_map destroyed_of event) }
{
    match event {
        Some(event) => Ok(PieceBody::Destroyed(event)),
        None => Err(0),
    }
}

/// The event `ResourceDestroyed` of a resource.
fn destroyed(
    alloc: Global,
    known: Known<'_>,
    id: &TypeId,
    event: &Event,
) -> Result<Piece, AllocError>
    ensures { IfOk result (λ p. piece_of p ∷ [] ≡ spec.composite_member_pieces (tables_of known.entry.tables.now) id.now (tree.event (event_of event.now))) }
{
    let inside = below(&id.names, &event.name)?;
    let typing = destroyed_typing(destroyed_event(alloc, known, id, event)?);
    Ok(Piece { inside, typing })
}

/// Adds the pieces of a member of a composite.
fn push_composite_member(
    all: &mut Vec<Piece>,
    alloc: Global,
    known: Known<'_>,
    id: &TypeId,
    member: &CompositeMember,
) -> Result<(), AllocError>
    ensures { OnOk result (pieces_of all.new.items ≡ pieces_of all.old.items ++ spec.composite_member_pieces (tables_of known.entry.tables.now) id.now (composite_member_of member.now)) }
{
    match member {
        CompositeMember::Field(_) => Ok(()),
        CompositeMember::Function(x) => push_piece(all, method(alloc, known, id, false, x)?),
        CompositeMember::Init(x) => push_piece(all, initializer(alloc, known, id, x)?),
        CompositeMember::Event(x) => push_piece(all, destroyed(alloc, known, id, x)?),
    }
}

/// Adds the pieces of members of a composite, in their order.
fn push_composite_members(
    all: &mut Vec<Piece>,
    alloc: Global,
    known: Known<'_>,
    id: &TypeId,
    members: &[CompositeMember],
) -> Result<(), AllocError>
    ensures { OnOk result (pieces_of all.new.items ≡ pieces_of all.old.items ++ flat_map (spec.composite_member_pieces (tables_of known.entry.tables.now) id.now) (map composite_member_of members.now)) }
{
    for member in members {
        push_composite_member(all, alloc, known, id, member)?;
    }
    Ok(())
}

/// Adds the pieces of a composite: its own, and then those of its functions.
fn push_composite(
    all: &mut Vec<Piece>,
    alloc: Global,
    known: Known<'_>,
    id: &TypeId,
    declared: &Composite,
) -> Result<(), AllocError>
    ensures { OnOk result (pieces_of all.new.items ≡ pieces_of all.old.items ++ spec.composite_pieces (tables_of known.entry.tables.now) id.now (composite_of declared.now)) }
{
    let is_right = composite_is_right(alloc, known, declared)?;
    push_piece(all, own_piece(id, is_right)?)?;
    push_composite_members(all, alloc, known, id, declared.members.as_slice())
}

/// Adds the pieces of a member of an interface.
fn push_interface_member(
    all: &mut Vec<Piece>,
    alloc: Global,
    known: Known<'_>,
    id: &TypeId,
    member: &InterfaceMember,
) -> Result<(), AllocError>
    ensures { OnOk result (pieces_of all.new.items ≡ pieces_of all.old.items ++ spec.interface_member_pieces (tables_of known.entry.tables.now) id.now (interface_member_of member.now)) }
{
    match member {
        InterfaceMember::Field(_) => Ok(()),
        InterfaceMember::Function(x) => push_piece(all, method(alloc, known, id, true, x)?),
    }
}

/// Adds the pieces of members of an interface, in their order.
fn push_interface_members(
    all: &mut Vec<Piece>,
    alloc: Global,
    known: Known<'_>,
    id: &TypeId,
    members: &[InterfaceMember],
) -> Result<(), AllocError>
    ensures { OnOk result (pieces_of all.new.items ≡ pieces_of all.old.items ++ flat_map (spec.interface_member_pieces (tables_of known.entry.tables.now) id.now) (map interface_member_of members.now)) }
{
    for member in members {
        push_interface_member(all, alloc, known, id, member)?;
    }
    Ok(())
}

/// Adds the pieces of an interface.
fn push_interface(
    all: &mut Vec<Piece>,
    alloc: Global,
    known: Known<'_>,
    id: &TypeId,
    declared: &Interface,
) -> Result<(), AllocError>
    ensures { OnOk result (pieces_of all.new.items ≡ pieces_of all.old.items ++ spec.interface_pieces (tables_of known.entry.tables.now) id.now (interface_of declared.now)) }
{
    let is_right = interface_is_right(alloc, known, declared)?;
    push_piece(all, own_piece(id, is_right)?)?;
    push_interface_members(all, alloc, known, id, declared.members.as_slice())
}

/// Adds the pieces of a member of a contract.
fn push_contract_member(
    all: &mut Vec<Piece>,
    alloc: Global,
    known: Known<'_>,
    id: &TypeId,
    member: &ContractMember,
) -> Result<(), AllocError>
    ensures { OnOk result (pieces_of all.new.items ≡ pieces_of all.old.items ++ spec.contract_member_pieces (tables_of known.entry.tables.now) id.now (contract_member_of member.now)) }
{
    match member {
        ContractMember::Field(_) => Ok(()),
        ContractMember::Function(x) => push_piece(all, method(alloc, known, id, false, x)?),
        ContractMember::Init(x) => push_piece(all, initializer(alloc, known, id, x)?),
        ContractMember::Composite(x) => {
            let own = inside(id, &x.name)?;
            push_composite(all, alloc, known, &own, x)
        }
        ContractMember::Interface(x) => {
            let own = inside(id, &x.name)?;
            push_interface(all, alloc, known, &own, x)
        }
        ContractMember::Event(x) => {
            let is_right = event_is_right(alloc, known, x)?;
            let names = below(&id.names, &x.name)?;
            push_piece(all, declaration(names, is_right, PieceBody::Plain))
        }
        ContractMember::Enum(x) => {
            let is_right = enum_is_right(alloc, known, x)?;
            let names = below(&id.names, &x.name)?;
            push_piece(all, declaration(names, is_right, PieceBody::Plain))
        }
        ContractMember::Entitlement(_) => Ok(()),
        ContractMember::Mapping(_) => Ok(()),
    }
}

/// Adds the pieces of members of a contract, in their order.
fn push_contract_members(
    all: &mut Vec<Piece>,
    alloc: Global,
    known: Known<'_>,
    id: &TypeId,
    members: &[ContractMember],
) -> Result<(), AllocError>
    ensures { OnOk result (pieces_of all.new.items ≡ pieces_of all.old.items ++ flat_map (spec.contract_member_pieces (tables_of known.entry.tables.now) id.now) (map contract_member_of members.now)) }
{
    for member in members {
        push_contract_member(all, alloc, known, id, member)?;
    }
    Ok(())
}

/// Adds the pieces of a contract.
fn push_contract(
    all: &mut Vec<Piece>,
    alloc: Global,
    known: Known<'_>,
    id: &TypeId,
    declared: &Contract,
) -> Result<(), AllocError>
    ensures { OnOk result (pieces_of all.new.items ≡ pieces_of all.old.items ++ spec.contract_pieces (tables_of known.entry.tables.now) (contract_of declared.now) id.now) }
{
    let is_right = contract_is_right(alloc, known, declared.members.as_slice())?;
    push_piece(all, own_piece(id, is_right)?)?;
    push_contract_members(all, alloc, known, id, declared.members.as_slice())
}

/// Adds the pieces of a contract, where the program has an identifier for it.
fn push_own_contract(
    all: &mut Vec<Piece>,
    alloc: Global,
    known: Known<'_>,
    id: Option<&TypeId>,
    declared: &Contract,
) -> Result<(), AllocError>
    ensures { OnOk result (pieces_of all.new.items ≡ pieces_of all.old.items ++ flat_map (spec.contract_pieces (tables_of known.entry.tables.now) (contract_of declared.now)) (option_to_list (option_copied id.entry))) }
{
    match id {
        Some(id) => push_contract(all, alloc, known, id, declared),
        None => Ok(()),
    }
}

/// A part of a transaction with its block.
fn block_part(
    alloc: Global,
    text: &str,
    typing: &Result<TypedBlock, u64>,
) -> Result<Piece, AllocError>
    ensures { IfOk result (λ p. piece_of p ≡ spec.part text.now (judged block_of typing.now)) }
{
    let inside = one_word(alloc, text)?;
    let typing = match typing {
        Ok(_) => Ok(PieceBody::Plain),
        Err(n) => Err(*n),
    };
    Ok(Piece { inside, typing })
}

/// A part of a transaction with its conditions.
fn conditions_part(
    alloc: Global,
    text: &str,
    typing: &Result<Vec<TypedCondition>, u64>,
) -> Result<Piece, AllocError>
    ensures { IfOk result (λ p. piece_of p ≡ spec.part text.now (judged conditions_in typing.now)) }
{
    let inside = one_word(alloc, text)?;
    let typing = match typing {
        Ok(_) => Ok(PieceBody::Plain),
        Err(n) => Err(*n),
    };
    Ok(Piece { inside, typing })
}

/// Adds a part of a transaction, where it is written.
fn push_optional_part(
    all: &mut Vec<Piece>,
    alloc: Global,
    text: &str,
    typing: &Option<Result<TypedBlock, u64>>,
) -> Result<(), AllocError>
    ensures { OnOk result (pieces_of all.new.items ≡ pieces_of all.old.items ++ map (spec.part text.now) (option_to_list (option_map (judged block_of) typing.now))) }
{
    match typing {
        Some(typing) => push_piece(all, block_part(alloc, text, typing)?),
        None => Ok(()),
    }
}

/// Adds the pieces of the parts of a transaction.
fn push_parts(
    all: &mut Vec<Piece>,
    alloc: Global,
    typing: &TransactionTyping,
) -> Result<(), AllocError>
    ensures { OnOk result (pieces_of all.new.items ≡ pieces_of all.old.items ++ parts.part_pieces (typing_of typing.now)) }
{
    push_optional_part(all, alloc, "prepare", &typing.prepare)?;
    push_piece(all, conditions_part(alloc, "pre", &typing.pre)?)?;
    push_optional_part(all, alloc, "execute", &typing.execute)?;
    push_piece(all, conditions_part(alloc, "post", &typing.post)?)
}

/// The pieces of the parts of a transaction.
fn part_pieces(alloc: Global, typing: &TransactionTyping) -> Result<Vec<Piece>, AllocError>
    ensures { IfOk result (λ all. pieces_of all.items ≡ parts.part_pieces (typing_of typing.now)) }
{
    let mut all = Vec::new(alloc);
    match push_parts(&mut all, alloc, typing) {
        Ok(()) => Ok(all),
        Err(error) => {
            discard_pieces(all);
            Err(error)
        }
    }
}

/// The pieces of the parts of a transaction, and its elaborated body.
fn judged_parts(
    alloc: Global,
    known: Known<'_>,
    transaction: &Transaction,
    own: &TransactionLocals,
    outer: Standing<'_>,
    typing: TransactionTyping,
) -> Result<(Vec<Piece>, TypedTransaction), AllocError>
    ensures pieces { IfOk result (λ x. pieces_of x.0.items ≡ parts.part_pieces (typing_of typing)) }
    ensures body { IfOk result (λ x. transaction_of x.1 ≡ body_with (tables_of known.entry.tables.now) (transaction_tree transaction.now) (locals_of own.now) (scopes_of outer.entry.scopes) (typing_of typing) outer.entry.in_use) }
{
    let parts = match part_pieces(alloc, &typing) {
        Ok(parts) => parts,
        Err(error) => {
            discard_transaction_typing(typing);
            return Err(error);
        }
    };
    match transaction_body(alloc, known, transaction, own, outer, typing) {
        Ok(body) => Ok((parts, body)),
        Err(error) => {
            discard_pieces(parts);
            Err(error)
        }
    }
}

/// The piece of a transaction, from what is told of its declaration.
fn judged_transaction(
    names: Names,
    is_right: bool,
    rules: Vec<FieldRule>,
    body: TypedTransaction,
) -> Piece
    ensures { piece_of result ≡ spec.declaration names is_right (spec.transaction_piece rules.items (transaction_of body)) }
{
    let judged = PieceBody::Body {
        owner: None,
        rules,
        body: TypedBody::Transaction(body),
    };
    declaration(names, is_right, judged)
}

/// The piece of a transaction with these variables, and those of its parts.
fn pieces_with(
    alloc: Global,
    known: Known<'_>,
    transaction: &Transaction,
    own: &TransactionLocals,
) -> Result<(Piece, Vec<Piece>), AllocError>
    ensures { IfOk result (λ x. piece_of x.0 ∷ pieces_of x.1.items ≡ parts.whole_in (tables_of known.entry.tables.now) (transaction_tree transaction.now) (locals_of own.now)) }
{
    let count = own_count(transaction)?;
    let signed = signed_count(transaction)?;
    let is_right = declaration_is_right(alloc, known, transaction)?;
    let rules = transaction_rules(alloc, known, transaction)?;
    let names = one_word(alloc, "transaction")?;
    let empty = Scopes::Empty;
    let around = Scopes::Inside(own.parameters.as_slice(), &empty);
    let outer = Standing {
        scopes: around,
        in_use: count,
    };
    let inner = Standing {
        scopes: Scopes::Inside(own.signers.as_slice(), &around),
        in_use: signed,
    };
    let typing = type_parts(
        alloc,
        known,
        transaction,
        own.fields.as_slice(),
        outer,
        inner,
    )?;
    let (parts, body) = judged_parts(alloc, known, transaction, own, outer, typing)?;
    Ok((judged_transaction(names, is_right, rules, body), parts))
}

/// The piece of a transaction, and those of its parts.
fn transaction_pieces(
    alloc: Global,
    known: Known<'_>,
    transaction: &Transaction,
) -> Result<(Piece, Vec<Piece>), AllocError>
    ensures { IfOk result (λ x. piece_of x.0 ∷ pieces_of x.1.items ≡ spec.transaction_pieces (tables_of known.entry.tables.now) (transaction_tree transaction.now)) }
{
    let own = transaction_locals(alloc, known, transaction)?;
    pieces_with(alloc, known, transaction, &own)
}

/// Adds pieces behind these.
fn push_all(all: &mut Vec<Piece>, more: Vec<Piece>) -> Result<(), AllocError>
    ensures { OnOk result (pieces_of all.new.items ≡ pieces_of all.old.items ++ pieces_of more.items) }
{
    let mut parts = more;
    let joined = all.append(&mut parts);
    discard_pieces(parts);
    joined
}

/// Adds the pieces of a transaction.
fn push_transaction(
    all: &mut Vec<Piece>,
    alloc: Global,
    known: Known<'_>,
    transaction: &Transaction,
) -> Result<(), AllocError>
    ensures { OnOk result (pieces_of all.new.items ≡ pieces_of all.old.items ++ spec.transaction_pieces (tables_of known.entry.tables.now) (transaction_tree transaction.now)) }
{
    let (first, parts) = transaction_pieces(alloc, known, transaction)?;
    match push_piece(all, first) {
        Ok(()) => push_all(all, parts),
        Err(error) => {
            discard_pieces(parts);
            Err(error)
        }
    }
}

/// Adds the pieces of a declaration.
fn push_declaration(
    all: &mut Vec<Piece>,
    alloc: Global,
    known: Known<'_>,
    declared: &Decl,
) -> Result<(), AllocError>
    ensures { OnOk result (pieces_of all.new.items ≡ pieces_of all.old.items ++ spec.declaration_pieces (tables_of known.entry.tables.now) (decl_of declared.now)) }
{
    match declared {
        Decl::Contract(x) => {
            let id = known.tables.contract.as_ref();
            push_own_contract(all, alloc, known, id, x)
        }
        Decl::Function(x) => push_piece(all, top_function(alloc, known, x)?),
        Decl::Transaction(x) => push_transaction(all, alloc, known, x),
    }
}

/// Adds the pieces of declarations, in their order.
fn push_declarations(
    all: &mut Vec<Piece>,
    alloc: Global,
    known: Known<'_>,
    declared: &[Decl],
) -> Result<(), AllocError>
    ensures { OnOk result (pieces_of all.new.items ≡ pieces_of all.old.items ++ flat_map (spec.declaration_pieces (tables_of known.entry.tables.now)) (map decl_of declared.now)) }
{
    for one in declared {
        push_declaration(all, alloc, known, one)?;
    }
    Ok(())
}
