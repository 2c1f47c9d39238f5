// The bodies of a program, gathered from its pieces.
ghost use Rattle.std.specs.Prelude.{◌≡◌, [], ◌∷◌, ◌++◌, IfOk, OnOk, map, option_copied, option_map, option_to_list};
ghost use Rattle.std.specs.Option.{option_or};
ghost use Rattle.cad_grammar.specs.Views.{composite_member_of, composite_of, interface_member_of, interface_of, contract_member_of, contract_of, transaction_of as tree_of, decl_of, program_of};
ghost use Rattle.cad_declarations.specs.Meets.{Each};
ghost use Rattle.cad_declarations.specs.Scopes.{inside as type_in};
ghost use Rattle.cad_declarations.specs.Typed.{TypeBody};
ghost use Rattle.cad_declarations.specs.Views.{function_of, transaction_of, destroyed_of, member_body_of, type_body_of, bodies_of, tables_of};
ghost use Rattle.cad_typing.specs.Pieces.{program_pieces};
ghost use Rattle.cad_typing.specs.Programs.{IsRight, IllTyped, member_body, program_bodies};
ghost use Rattle.cad_pieces.specs.Code.Walk as spec;
ghost use Rattle.cad_pieces.specs.Views.{piece_of, piece_body_of, pieces_of};

use crate::piece::{Piece, PieceBody, discard_piece, discard_pieces};
use cad_declarations::{
    Bodies, DestroyedEvent, Tables, TypedBody, TypedFunction, TypedMember, TypedTransaction,
    TypedType,
};
use cad_grammar::{
    Composite, CompositeMember, Contract, ContractMember, Decl, Interface, InterfaceMember,
    Program, Transaction,
};
use cad_scopes::inside;
use cad_syntax::{Name, TypeId};
use cad_typed_rows::{
    discard_bodies, discard_body, discard_destroyed, discard_function, discard_maybe_destroyed,
    discard_maybe_function, discard_maybe_transaction, discard_members, discard_transaction,
    discard_type_bodies, discard_type_body, push_member, push_type_body,
};
use std::alloc::{AllocError, Global};
use std::collections::VecDeque;

/// The bodies of a program: of its contract, the composites and interfaces in it, the functions outside a contract, and the
/// transaction, out of its pieces, of which none is ill-typed.
pub fn bodies(
    alloc: Global,
    tables: &Tables,
    program: &Program,
    pieces: Vec<Piece>,
) -> Result<Bodies, AllocError>
    ensures { IfOk result (λ b. pieces_of pieces.items ≡ program_pieces (tables_of tables.now) (program_of program.now) → Each (IsRight IllTyped) (pieces_of pieces.items) → bodies_of b ≡ program_bodies (tables_of tables.now) (program_of program.now)) }
{
    gathered(alloc, tables.contract.as_ref(), program, pieces)
}

/// The bodies of a program, whose contract has this identifier, out of pieces.
fn gathered(
    alloc: Global,
    contract: Option<&TypeId>,
    program: &Program,
    pieces: Vec<Piece>,
) -> Result<Bodies, AllocError>
    ensures { IfOk result (λ b. bodies_of b ≡ spec.gathered (option_copied contract.entry) (program_of program.now) (pieces_of pieces.items)) }
{
    let mut left = VecDeque::from(pieces);
    let bodies = Bodies {
        types: Vec::new(alloc),
        functions: Vec::new(alloc),
        transaction: None,
    };
    let all = declarations(alloc, contract, &program.declarations, bodies, &mut left);
    discard_pieces(left.into_vec());
    all
}

/// The function or initializer of a piece.
fn function_in(piece: Piece) -> Option<TypedFunction>
    ensures { option_map function_of result ≡ spec.function_in (piece_of piece).typing }
{
    let Piece { typing, inside: _ } = piece;
    match typing {
        Ok(body) => function_in_body(body),
        Err(_) => None,
    }
}

/// The function or initializer of a piece that is well-typed.
fn function_in_body(body: PieceBody) -> Option<TypedFunction>
    ensures { option_map function_of result ≡ spec.function_in (Ok (piece_body_of body)) }
{
    match body {
        PieceBody::Body { body, .. } => match body {
            TypedBody::Function(function) => Some(function),
            TypedBody::Initializer(function) => Some(function),
            TypedBody::Transaction(transaction) => {
                discard_transaction(transaction);
                None
            }
        },
        PieceBody::Type(_) => None,
        PieceBody::Destroyed(event) => {
            discard_destroyed(event);
            None
        }
        PieceBody::Plain => None,
    }
}

/// The transaction of a piece.
fn transaction_in(piece: Piece) -> Option<TypedTransaction>
    ensures { option_map transaction_of result ≡ spec.transaction_in (piece_of piece).typing }
{
    let Piece { typing, inside: _ } = piece;
    match typing {
        Ok(body) => transaction_in_body(body),
        Err(_) => None,
    }
}

/// The transaction of a piece that is well-typed.
fn transaction_in_body(body: PieceBody) -> Option<TypedTransaction>
    ensures { option_map transaction_of result ≡ spec.transaction_in (Ok (piece_body_of body)) }
{
    match body {
        PieceBody::Body { body, .. } => match body {
            TypedBody::Function(function) => {
                discard_function(function);
                None
            }
            TypedBody::Initializer(function) => {
                discard_function(function);
                None
            }
            TypedBody::Transaction(transaction) => Some(transaction),
        },
        PieceBody::Type(_) => None,
        PieceBody::Destroyed(event) => {
            discard_destroyed(event);
            None
        }
        PieceBody::Plain => None,
    }
}

/// The event `ResourceDestroyed` of a piece.
fn destroyed_in(piece: Piece) -> Option<DestroyedEvent>
    ensures { option_map destroyed_of result ≡ spec.destroyed_in (piece_of piece).typing }
{
    let Piece { typing, inside: _ } = piece;
    match typing {
        Ok(body) => destroyed_in_body(body),
        Err(_) => None,
    }
}

/// The event `ResourceDestroyed` of a piece that is well-typed.
fn destroyed_in_body(body: PieceBody) -> Option<DestroyedEvent>
    ensures { option_map destroyed_of result ≡ spec.destroyed_in (Ok (piece_body_of body)) }
{
    match body {
        PieceBody::Body { body, .. } => {
            discard_body(body);
            None
        }
        PieceBody::Type(_) => None,
        PieceBody::Destroyed(event) => Some(event),
        PieceBody::Plain => None,
    }
}

/// Takes the next piece, for its function.
fn next_function(left: &mut VecDeque<Piece>) -> Option<TypedFunction>
    ensures value { option_map function_of result ≡ spec.first_function (pieces_of left.old.items) }
    ensures rest { pieces_of left.new.items ≡ spec.others (pieces_of left.old.items) }
{
    match left.pop_front() {
        Some(piece) => function_in(piece),
        None => None,
    }
}

/// Takes the next piece, for its event `ResourceDestroyed`.
fn next_destroyed(left: &mut VecDeque<Piece>) -> Option<DestroyedEvent>
    ensures value { option_map destroyed_of result ≡ spec.first_destroyed (pieces_of left.old.items) }
    ensures rest { pieces_of left.new.items ≡ spec.others (pieces_of left.old.items) }
{
    match left.pop_front() {
        Some(piece) => destroyed_in(piece),
        None => None,
    }
}

/// Takes the next piece, for its transaction.
fn next_transaction(left: &mut VecDeque<Piece>) -> Option<TypedTransaction>
    ensures value { option_map transaction_of result ≡ spec.first_transaction (pieces_of left.old.items) }
    ensures rest { pieces_of left.new.items ≡ spec.others (pieces_of left.old.items) }
{
    match left.pop_front() {
        Some(piece) => transaction_in(piece),
        None => None,
    }
}

/// Takes the next piece, which gives no body.
fn pass(left: &mut VecDeque<Piece>)
    ensures { pieces_of left.new.items ≡ spec.others (pieces_of left.old.items) }
{
    match left.pop_front() {
        Some(piece) => discard_piece(piece),
        None => {}
    }
}

/// A type of which nothing has been gathered.
fn empty_body(alloc: Global, id: TypeId) -> TypedType
    ensures { type_body_of result ≡ spec.empty_body id }
{
    TypedType {
        id,
        initializer: None,
        functions: Vec::new(alloc),
        destroyed: None,
    }
}

/// Adds a function, where there is one, under its name.
fn push_function(
    functions: &mut Vec<TypedMember>,
    name: &Name,
    function: Option<TypedFunction>,
) -> Result<(), AllocError>
    ensures { IfOk result (λ _. map member_body_of functions.new.items ≡ map member_body_of functions.old.items ++ option_to_list (option_map (member_body name.now) (option_map function_of function))) }
{
    match function {
        Some(function) => push_named(functions, name, function),
        None => Ok(()),
    }
}

/// Adds a function under its name.
fn push_named(
    functions: &mut Vec<TypedMember>,
    name: &Name,
    function: TypedFunction,
) -> Result<(), AllocError>
    ensures { IfOk result (λ _. map member_body_of functions.new.items ≡ map member_body_of functions.old.items ++ member_body name.now (function_of function) ∷ []) }
{
    match name.clone() {
        Ok(name) => push_member(functions, TypedMember { name, function }),
        Err(error) => {
            discard_function(function);
            Err(error)
        }
    }
}

/// The first function, where there is one, else the second.
fn first_function(
    first: Option<TypedFunction>,
    second: Option<TypedFunction>,
) -> Option<TypedFunction>
    ensures { option_map function_of result ≡ option_or (option_map function_of first) (option_map function_of second) }
{
    match first {
        Some(function) => {
            discard_maybe_function(second);
            Some(function)
        }
        None => second,
    }
}

/// The first event, where there is one, else the second.
fn first_destroyed(
    first: Option<DestroyedEvent>,
    second: Option<DestroyedEvent>,
) -> Option<DestroyedEvent>
    ensures { option_map destroyed_of result ≡ option_or (option_map destroyed_of first) (option_map destroyed_of second) }
{
    match first {
        Some(event) => {
            discard_maybe_destroyed(second);
            Some(event)
        }
        None => second,
    }
}

/// The first transaction, where there is one, else the second.
fn first_transaction(
    first: Option<TypedTransaction>,
    second: Option<TypedTransaction>,
) -> Option<TypedTransaction>
    ensures { option_map transaction_of result ≡ option_or (option_map transaction_of first) (option_map transaction_of second) }
{
    match first {
        Some(transaction) => {
            discard_maybe_transaction(second);
            Some(transaction)
        }
        None => second,
    }
}

/// A type with one more function under its name, where there is one.
fn add_function(
    body: TypedType,
    name: &Name,
    function: Option<TypedFunction>,
) -> Result<TypedType, AllocError>
    ensures { IfOk result (λ b. type_body_of b ≡ spec.add_function name.now (option_map function_of function) (type_body_of body)) }
{
    let mut functions = body.functions;
    match push_function(&mut functions, name, function) {
        Ok(()) => Ok(TypedType {
            id: body.id,
            initializer: body.initializer,
            functions,
            destroyed: body.destroyed,
        }),
        Err(error) => {
            discard_maybe_function(body.initializer);
            discard_members(functions);
            discard_maybe_destroyed(body.destroyed);
            Err(error)
        }
    }
}

/// A type with this initializer, where there is one and it has none.
fn add_initializer(body: TypedType, function: Option<TypedFunction>) -> TypedType
    ensures { type_body_of result ≡ spec.add_initializer (option_map function_of function) (type_body_of body) }
{
    TypedType {
        id: body.id,
        initializer: first_function(body.initializer, function),
        functions: body.functions,
        destroyed: body.destroyed,
    }
}

/// A type with this event, where there is one and it has none.
fn add_destroyed(body: TypedType, event: Option<DestroyedEvent>) -> TypedType
    ensures { type_body_of result ≡ spec.add_destroyed (option_map destroyed_of event) (type_body_of body) }
{
    TypedType {
        id: body.id,
        initializer: body.initializer,
        functions: body.functions,
        destroyed: first_destroyed(body.destroyed, event),
    }
}

/// Takes a function of a type.
fn take_function(
    name: &Name,
    body: TypedType,
    left: &mut VecDeque<Piece>,
) -> Result<TypedType, AllocError>
    ensures { IfOk result (λ b. spec.walk (type_body_of b) (pieces_of left.new.items) ≡ spec.take_function name.now (spec.walk (type_body_of body) (pieces_of left.old.items))) }
{
    let function = next_function(left);
    add_function(body, name, function)
}

/// Takes the initializer of a type.
fn take_initializer(body: TypedType, left: &mut VecDeque<Piece>) -> TypedType
    ensures { spec.walk (type_body_of result) (pieces_of left.new.items) ≡ spec.take_initializer (spec.walk (type_body_of body) (pieces_of left.old.items)) }
{
    let function = next_function(left);
    add_initializer(body, function)
}

/// Takes the event `ResourceDestroyed` of a type.
fn take_destroyed(body: TypedType, left: &mut VecDeque<Piece>) -> TypedType
    ensures { spec.walk (type_body_of result) (pieces_of left.new.items) ≡ spec.take_destroyed (spec.walk (type_body_of body) (pieces_of left.old.items)) }
{
    let event = next_destroyed(left);
    add_destroyed(body, event)
}

/// A member of a composite: a field has no piece, any other has one.
fn composite_member(
    member: &CompositeMember,
    body: TypedType,
    left: &mut VecDeque<Piece>,
) -> Result<TypedType, AllocError>
    ensures { IfOk result (λ b. spec.walk (type_body_of b) (pieces_of left.new.items) ≡ spec.composite_member (composite_member_of member.now) (spec.walk (type_body_of body) (pieces_of left.old.items))) }
{
    match member {
        CompositeMember::Field(_) => Ok(body),
        CompositeMember::Function(function) => take_function(&function.name, body, left),
        CompositeMember::Init(_) => Ok(take_initializer(body, left)),
        CompositeMember::Event(_) => Ok(take_destroyed(body, left)),
    }
}

/// Members of a composite, in their order.
fn composite_members(
    members: &[CompositeMember],
    body: TypedType,
    left: &mut VecDeque<Piece>,
) -> Result<TypedType, AllocError>
    ensures { IfOk result (λ b. spec.walk (type_body_of b) (pieces_of left.new.items) ≡ spec.composite_members (map composite_member_of members.now) (spec.walk (type_body_of body) (pieces_of left.old.items))) }
{
    let mut all = body;
    for member in members {
        all = composite_member(member, all, left)?;
    }
    Ok(all)
}

/// A member of an interface: a field has no piece, a function has one.
fn interface_member(
    member: &InterfaceMember,
    body: TypedType,
    left: &mut VecDeque<Piece>,
) -> Result<TypedType, AllocError>
    ensures { IfOk result (λ b. spec.walk (type_body_of b) (pieces_of left.new.items) ≡ spec.interface_member (interface_member_of member.now) (spec.walk (type_body_of body) (pieces_of left.old.items))) }
{
    match member {
        InterfaceMember::Field(_) => Ok(body),
        InterfaceMember::Function(function) => take_function(&function.name, body, left),
    }
}

/// Members of an interface, in their order.
fn interface_members(
    members: &[InterfaceMember],
    body: TypedType,
    left: &mut VecDeque<Piece>,
) -> Result<TypedType, AllocError>
    ensures { IfOk result (λ b. spec.walk (type_body_of b) (pieces_of left.new.items) ≡ spec.interface_members (map interface_member_of members.now) (spec.walk (type_body_of body) (pieces_of left.old.items))) }
{
    let mut all = body;
    for member in members {
        all = interface_member(member, all, left)?;
    }
    Ok(all)
}

/// A composite: its own piece, and then those of its members.
fn composite(
    alloc: Global,
    id: TypeId,
    declared: &Composite,
    left: &mut VecDeque<Piece>,
) -> Result<TypedType, AllocError>
    ensures { IfOk result (λ b. spec.walk (type_body_of b) (pieces_of left.new.items) ≡ spec.composite id (composite_of declared.now) (pieces_of left.old.items)) }
{
    pass(left);
    composite_members(&declared.members, empty_body(alloc, id), left)
}

/// An interface: its own piece, and then those of its functions.
fn interface(
    alloc: Global,
    id: TypeId,
    declared: &Interface,
    left: &mut VecDeque<Piece>,
) -> Result<TypedType, AllocError>
    ensures { IfOk result (λ b. spec.walk (type_body_of b) (pieces_of left.new.items) ≡ spec.interface id (interface_of declared.now) (pieces_of left.old.items)) }
{
    pass(left);
    interface_members(&declared.members, empty_body(alloc, id), left)
}

/// Adds the bodies of a type that is declared in the contract.
fn push_type(all: &mut Vec<TypedType>, body: TypedType) -> Result<(), AllocError>
    ensures { IfOk result (λ _. map type_body_of all.new.items ≡ map type_body_of all.old.items ++ type_body_of body ∷ []) }
{
    push_type_body(all, body)
}

/// Adds the bodies of a composite that is declared in the contract.
fn push_composite(
    alloc: Global,
    id: &TypeId,
    declared: &Composite,
    nested: &mut Vec<TypedType>,
    left: &mut VecDeque<Piece>,
) -> Result<(), AllocError>
    ensures { OnOk result ((o : TypeBody) → spec.contract_walk (spec.walk o (pieces_of left.new.items)) (map type_body_of nested.new.items) ≡ spec.add_nested (spec.contract_walk (spec.walk o (pieces_of left.old.items)) (map type_body_of nested.old.items)) (spec.composite (type_in id.now (composite_of declared.now).name) (composite_of declared.now) (pieces_of left.old.items))) }
{
    let inner = composite(alloc, inside(id, &declared.name)?, declared, left)?;
    push_type(nested, inner)
}

/// The contract behind a composite that is declared in it.
fn take_composite(
    alloc: Global,
    id: &TypeId,
    declared: &Composite,
    own: TypedType,
    nested: &mut Vec<TypedType>,
    left: &mut VecDeque<Piece>,
) -> Result<TypedType, AllocError>
    ensures { IfOk result (λ b. spec.contract_walk (spec.walk (type_body_of b) (pieces_of left.new.items)) (map type_body_of nested.new.items) ≡ spec.add_nested (spec.contract_walk (spec.walk (type_body_of own) (pieces_of left.old.items)) (map type_body_of nested.old.items)) (spec.composite (type_in id.now (composite_of declared.now).name) (composite_of declared.now) (pieces_of left.old.items))) }
{
    match push_composite(alloc, id, declared, nested, left) {
        Ok(()) => Ok(own),
        Err(error) => {
            discard_type_body(own);
            Err(error)
        }
    }
}

/// Adds the bodies of an interface that is declared in the contract.
fn push_interface(
    alloc: Global,
    id: &TypeId,
    declared: &Interface,
    nested: &mut Vec<TypedType>,
    left: &mut VecDeque<Piece>,
) -> Result<(), AllocError>
    ensures { OnOk result ((o : TypeBody) → spec.contract_walk (spec.walk o (pieces_of left.new.items)) (map type_body_of nested.new.items) ≡ spec.add_nested (spec.contract_walk (spec.walk o (pieces_of left.old.items)) (map type_body_of nested.old.items)) (spec.interface (type_in id.now (interface_of declared.now).name) (interface_of declared.now) (pieces_of left.old.items))) }
{
    let inner = interface(alloc, inside(id, &declared.name)?, declared, left)?;
    push_type(nested, inner)
}

/// The contract behind an interface that is declared in it.
fn take_interface(
    alloc: Global,
    id: &TypeId,
    declared: &Interface,
    own: TypedType,
    nested: &mut Vec<TypedType>,
    left: &mut VecDeque<Piece>,
) -> Result<TypedType, AllocError>
    ensures { IfOk result (λ b. spec.contract_walk (spec.walk (type_body_of b) (pieces_of left.new.items)) (map type_body_of nested.new.items) ≡ spec.add_nested (spec.contract_walk (spec.walk (type_body_of own) (pieces_of left.old.items)) (map type_body_of nested.old.items)) (spec.interface (type_in id.now (interface_of declared.now).name) (interface_of declared.now) (pieces_of left.old.items))) }
{
    match push_interface(alloc, id, declared, nested, left) {
        Ok(()) => Ok(own),
        Err(error) => {
            discard_type_body(own);
            Err(error)
        }
    }
}

/// A member of the contract: of the contract itself, or a type that is declared in it.
fn contract_member(
    alloc: Global,
    id: &TypeId,
    member: &ContractMember,
    own: TypedType,
    nested: &mut Vec<TypedType>,
    left: &mut VecDeque<Piece>,
) -> Result<TypedType, AllocError>
    ensures { IfOk result (λ b. spec.contract_walk (spec.walk (type_body_of b) (pieces_of left.new.items)) (map type_body_of nested.new.items) ≡ spec.contract_member id.now (contract_member_of member.now) (spec.contract_walk (spec.walk (type_body_of own) (pieces_of left.old.items)) (map type_body_of nested.old.items))) }
{
    match member {
        ContractMember::Function(function) => take_function(&function.name, own, left),
        ContractMember::Init(_) => Ok(take_initializer(own, left)),
        ContractMember::Composite(declared) => {
            take_composite(alloc, id, declared, own, nested, left)
        }
        ContractMember::Interface(declared) => {
            take_interface(alloc, id, declared, own, nested, left)
        }
        ContractMember::Event(_) => {
            pass(left);
            Ok(own)
        }
        ContractMember::Enum(_) => {
            pass(left);
            Ok(own)
        }
        ContractMember::Field(_) => Ok(own),
        ContractMember::Entitlement(_) => Ok(own),
        ContractMember::Mapping(_) => Ok(own),
    }
}

/// Members of the contract, in their order.
fn contract_members(
    alloc: Global,
    id: &TypeId,
    members: &[ContractMember],
    own: TypedType,
    nested: &mut Vec<TypedType>,
    left: &mut VecDeque<Piece>,
) -> Result<TypedType, AllocError>
    ensures { IfOk result (λ b. spec.contract_walk (spec.walk (type_body_of b) (pieces_of left.new.items)) (map type_body_of nested.new.items) ≡ spec.contract_members id.now (map contract_member_of members.now) (spec.contract_walk (spec.walk (type_body_of own) (pieces_of left.old.items)) (map type_body_of nested.old.items))) }
{
    let mut all = own;
    for member in members {
        all = contract_member(alloc, id, member, all, nested, left)?;
    }
    Ok(all)
}

/// The contract; the types that are declared in it are added to these.
fn contract(
    alloc: Global,
    id: &TypeId,
    declared: &Contract,
    nested: &mut Vec<TypedType>,
    left: &mut VecDeque<Piece>,
) -> Result<TypedType, AllocError>
    requires { nested.old.items ≡ [] }
    ensures { IfOk result (λ b. spec.contract_walk (spec.walk (type_body_of b) (pieces_of left.new.items)) (map type_body_of nested.new.items) ≡ spec.contract id.now (contract_of declared.now) (pieces_of left.old.items)) }
{
    pass(left);
    let own = empty_body(alloc, id.clone()?);
    contract_members(alloc, id, &declared.members, own, nested, left)
}

/// Adds types behind these.
fn push_types(
    all: &mut Vec<TypedType>,
    own: TypedType,
    nested: Vec<TypedType>,
) -> Result<(), AllocError>
    ensures { IfOk result (λ _. map type_body_of all.new.items ≡ map type_body_of all.old.items ++ type_body_of own ∷ map type_body_of nested.items) }
{
    match push_type(all, own) {
        Ok(()) => append_types(all, nested),
        Err(error) => {
            discard_type_bodies(nested);
            Err(error)
        }
    }
}

/// Adds all of these behind the others.
fn append_types(all: &mut Vec<TypedType>, nested: Vec<TypedType>) -> Result<(), AllocError>
    ensures { IfOk result (λ _. map type_body_of all.new.items ≡ map type_body_of all.old.items ++ map type_body_of nested.items) }
{
    let mut more = nested;
    let done = all.append(&mut more);
    discard_type_bodies(more);
    done
}

/// A program's bodies, with those of a contract and of the types that are declared in it behind them.
fn add_types(bodies: Bodies, own: TypedType, nested: Vec<TypedType>) -> Result<Bodies, AllocError>
    ensures { IfOk result (λ b. bodies_of b ≡ spec.add_types (type_body_of own ∷ map type_body_of nested.items) (bodies_of bodies)) }
{
    let mut types = bodies.types;
    match push_types(&mut types, own, nested) {
        Ok(()) => Ok(Bodies {
            types,
            functions: bodies.functions,
            transaction: bodies.transaction,
        }),
        Err(error) => {
            discard_type_bodies(types);
            discard_members(bodies.functions);
            discard_maybe_transaction(bodies.transaction);
            Err(error)
        }
    }
}

/// A program's bodies, with a function outside a contract behind them, where there is one.
fn add_top_function(
    bodies: Bodies,
    name: &Name,
    function: Option<TypedFunction>,
) -> Result<Bodies, AllocError>
    ensures { IfOk result (λ b. bodies_of b ≡ spec.add_top_function name.now (option_map function_of function) (bodies_of bodies)) }
{
    let mut functions = bodies.functions;
    match push_function(&mut functions, name, function) {
        Ok(()) => Ok(Bodies {
            types: bodies.types,
            functions,
            transaction: bodies.transaction,
        }),
        Err(error) => {
            discard_type_bodies(bodies.types);
            discard_members(functions);
            discard_maybe_transaction(bodies.transaction);
            Err(error)
        }
    }
}

/// A program's bodies, with this transaction, where there is one and they have none.
fn add_transaction(bodies: Bodies, transaction: Option<TypedTransaction>) -> Bodies
    ensures { bodies_of result ≡ spec.add_transaction (option_map transaction_of transaction) (bodies_of bodies) }
{
    Bodies {
        types: bodies.types,
        functions: bodies.functions,
        transaction: first_transaction(bodies.transaction, transaction),
    }
}

/// A contract of a program; nothing is gathered of it where it has no identifier.
fn top_contract(
    alloc: Global,
    id: Option<&TypeId>,
    declared: &Contract,
    bodies: Bodies,
    left: &mut VecDeque<Piece>,
) -> Result<Bodies, AllocError>
    ensures { IfOk result (λ b. spec.program_walk (bodies_of b) (pieces_of left.new.items) ≡ spec.top_contract (option_copied id.entry) (contract_of declared.now) (spec.program_walk (bodies_of bodies) (pieces_of left.old.items))) }
{
    let Some(id) = id else {
        return Ok(bodies);
    };
    let mut nested = Vec::new(alloc);
    match contract(alloc, id, declared, &mut nested, left) {
        Ok(own) => add_types(bodies, own, nested),
        Err(error) => {
            discard_type_bodies(nested);
            discard_bodies(bodies);
            Err(error)
        }
    }
}

/// Takes the pieces of a transaction's parts.
fn pass_parts(transaction: &Transaction, left: &mut VecDeque<Piece>)
    ensures { pieces_of left.new.items ≡ spec.parts_left (tree_of transaction.now) (pieces_of left.old.items) }
{
    if transaction.prepare.is_some() {
        pass(left);
    }
    pass(left);
    if transaction.execute.is_some() {
        pass(left);
    }
    pass(left);
}

/// A declaration of a program: a contract, a function outside one, or the transaction.
fn declaration(
    alloc: Global,
    contract: Option<&TypeId>,
    declared: &Decl,
    bodies: Bodies,
    left: &mut VecDeque<Piece>,
) -> Result<Bodies, AllocError>
    ensures { IfOk result (λ b. spec.program_walk (bodies_of b) (pieces_of left.new.items) ≡ spec.declaration (option_copied contract.entry) (decl_of declared.now) (spec.program_walk (bodies_of bodies) (pieces_of left.old.items))) }
{
    match declared {
        Decl::Contract(declared) => top_contract(alloc, contract, declared, bodies, left),
        Decl::Function(function) => {
            let found = next_function(left);
            add_top_function(bodies, &function.name, found)
        }
        Decl::Transaction(transaction) => {
            let found = next_transaction(left);
            pass_parts(transaction, left);
            Ok(add_transaction(bodies, found))
        }
    }
}

/// Declarations of a program, in their order.
fn declarations(
    alloc: Global,
    contract: Option<&TypeId>,
    declared: &[Decl],
    bodies: Bodies,
    left: &mut VecDeque<Piece>,
) -> Result<Bodies, AllocError>
    ensures { IfOk result (λ b. spec.program_walk (bodies_of b) (pieces_of left.new.items) ≡ spec.declarations (option_copied contract.entry) (map decl_of declared.now) (spec.program_walk (bodies_of bodies) (pieces_of left.old.items))) }
{
    let mut all = bodies;
    for one in declared {
        all = declaration(alloc, contract, one, all, left)?;
    }
    Ok(all)
}
