// The highest expressions of declarations, and the first that is too high.
ghost use Rattle.std.specs.Prelude.{◌≡◌, ◌^◌, ◌-◌, map, min, nat_lt, option_map, Option};
ghost use Rattle.std.specs.List.{list_any};
ghost use Rattle.cad_grammar.specs.Views.{block_of, composite_member_of, condition_of, conditions_of, contract_member_of, decl_of, event_parameter_of, interface_member_of, prepare_of, program_of, stmt_of, transaction_of};
ghost use Rattle.cad_heights.specs.Programs as spec;

use crate::bodies::{highest_of, optional_height};
use crate::expressions::height;
use cad_grammar::{
    CompositeMember, Condition, Conditions, ContractMember, Decl, EventParameter, FunctionBlock,
    InterfaceMember, Prepare, Program, Stmt, Transaction,
};

/// The height of a condition, with its message.
fn condition_height(condition: &Condition) -> u64
    ensures { result ≡ min (spec.condition_height (condition_of condition.now)) (2 ^ 64 - 1) }
{
    match condition {
        Condition::Test { test, message } => height(test).max(optional_height(message)),
        Condition::Emit(event) => height(event),
    }
}

/// The height of the highest of conditions, 0 of none.
fn all_conditions_height(all: &[Condition]) -> u64
    ensures { result ≡ min (spec.greatest spec.condition_height (map condition_of all.now)) (2 ^ 64 - 1) }
{
    let mut found = 0u64;
    for condition in all {
        found = found.max(condition_height(condition));
    }
    found
}

/// The height of the highest of conditions that may not be there.
fn conditions_height(all: &Option<Conditions>) -> u64
    ensures { result ≡ min (spec.conditions_height (conditions_of all.now)) (2 ^ 64 - 1) }
{
    match all {
        Some(all) => all_conditions_height(all),
        None => 0,
    }
}

/// The height of the highest expression of a function's block, its conditions among them.
fn block_height(block: &FunctionBlock) -> u64
    ensures { result ≡ min (spec.block_height (block_of block.now)) (2 ^ 64 - 1) }
{
    let conditions = conditions_height(&block.pre);
    conditions.max(conditions_height(&block.post).max(highest_of(&block.body)))
}

/// The same of a block that may not be there.
fn blocks_height(block: &Option<FunctionBlock>) -> u64
    ensures { result ≡ min (spec.blocks_height (option_map block_of block.now)) (2 ^ 64 - 1) }
{
    match block {
        Some(block) => block_height(block),
        None => 0,
    }
}

/// The height of the highest default of an event's parameters, 0 of none.
fn parameters_height(all: &[EventParameter]) -> u64
    ensures { result ≡ min (spec.greatest spec.parameter_height (map event_parameter_of all.now)) (2 ^ 64 - 1) }
{
    let mut found = 0u64;
    for parameter in all {
        found = found.max(optional_height(&parameter.default));
    }
    found
}

/// The height of the highest expression of a composite's member.
fn composite_member_height(member: &CompositeMember) -> u64
    ensures { result ≡ min (spec.composite_member_height (composite_member_of member.now)) (2 ^ 64 - 1) }
{
    match member {
        CompositeMember::Field(_) => 0,
        CompositeMember::Function(function) => blocks_height(&function.block),
        CompositeMember::Init(init) => block_height(&init.block),
        CompositeMember::Event(event) => parameters_height(&event.parameters),
    }
}

/// The height of the highest expression of a composite's members, 0 of none.
fn composite_height(all: &[CompositeMember]) -> u64
    ensures { result ≡ min (spec.greatest spec.composite_member_height (map composite_member_of all.now)) (2 ^ 64 - 1) }
{
    let mut found = 0u64;
    for member in all {
        found = found.max(composite_member_height(member));
    }
    found
}

/// The height of the highest expression of an interface's member.
fn interface_member_height(member: &InterfaceMember) -> u64
    ensures { result ≡ min (spec.interface_member_height (interface_member_of member.now)) (2 ^ 64 - 1) }
{
    match member {
        InterfaceMember::Field(_) => 0,
        InterfaceMember::Function(function) => blocks_height(&function.block),
    }
}

/// The height of the highest expression of an interface's members, 0 of none.
fn interface_height(all: &[InterfaceMember]) -> u64
    ensures { result ≡ min (spec.greatest spec.interface_member_height (map interface_member_of all.now)) (2 ^ 64 - 1) }
{
    let mut found = 0u64;
    for member in all {
        found = found.max(interface_member_height(member));
    }
    found
}

/// The height of the highest expression of a contract's member.
fn contract_member_height(member: &ContractMember) -> u64
    ensures { result ≡ min (spec.contract_member_height (contract_member_of member.now)) (2 ^ 64 - 1) }
{
    match member {
        ContractMember::Function(function) => blocks_height(&function.block),
        ContractMember::Init(init) => block_height(&init.block),
        ContractMember::Composite(composite) => composite_height(&composite.members),
        ContractMember::Interface(interface) => interface_height(&interface.members),
        ContractMember::Event(event) => parameters_height(&event.parameters),
        ContractMember::Field(_) => 0,
        ContractMember::Enum(_) => 0,
        ContractMember::Entitlement(_) => 0,
        ContractMember::Mapping(_) => 0,
    }
}

/// The height of the highest expression of a contract's members, 0 of none.
fn contract_height(all: &[ContractMember]) -> u64
    ensures { result ≡ min (spec.greatest spec.contract_member_height (map contract_member_of all.now)) (2 ^ 64 - 1) }
{
    let mut found = 0u64;
    for member in all {
        found = found.max(contract_member_height(member));
    }
    found
}

/// The height of the highest expression of statements that may not be there.
fn statements_height(all: &Option<Vec<Stmt>>) -> u64
    ensures { result ≡ min (spec.within_some spec.body_height (option_map (λ v. map stmt_of v.items) all.now)) (2 ^ 64 - 1) }
{
    match all {
        Some(all) => highest_of(all),
        None => 0,
    }
}

/// The height of the highest expression of `prepare`, 0 where there is none.
fn prepare_height(prepare: &Option<Prepare>) -> u64
    ensures { result ≡ min (spec.within_some spec.prepare_height (option_map prepare_of prepare.now)) (2 ^ 64 - 1) }
{
    match prepare {
        Some(prepare) => highest_of(&prepare.body),
        None => 0,
    }
}

/// The height of the highest expression of a transaction.
fn transaction_height(transaction: &Transaction) -> u64
    ensures { result ≡ min (spec.transaction_height (transaction_of transaction.now)) (2 ^ 64 - 1) }
{
    let first = prepare_height(&transaction.prepare);
    let second = conditions_height(&transaction.pre);
    let last = conditions_height(&transaction.post);
    first.max(second.max(statements_height(&transaction.execute).max(last)))
}

/// The height of the highest expression of a declaration.
fn declaration_height(declaration: &Decl) -> u64
    ensures { result ≡ min (spec.declaration_height (decl_of declaration.now)) (2 ^ 64 - 1) }
{
    match declaration {
        Decl::Contract(contract) => contract_height(&contract.members),
        Decl::Function(function) => blocks_height(&function.block),
        Decl::Transaction(transaction) => transaction_height(transaction),
    }
}

/// Whether an expression of a declaration has more than 256 levels.
fn is_high(declaration: &Decl) -> bool
    ensures { result ≡ nat_lt spec.most_levels (spec.declaration_height (decl_of declaration.now)) }
{
    256 < declaration_height(declaration)
}

/// Whether an expression of declarations has more than 256 levels.
fn are_high(all: &[Decl]) -> bool
    ensures { result ≡ list_any (λ d. nat_lt spec.most_levels (spec.declaration_height d)) (map decl_of all.now) }
{
    for declaration in all {
        if is_high(declaration) {
            return true;
        }
    }
    false
}

/// Whether an expression of a program has more than 256 levels.
pub fn is_too_high(program: &Program) -> bool
    ensures { result ≡ spec.is_too_high (program_of program.now) }
{
    are_high(program.declarations.as_slice())
}
