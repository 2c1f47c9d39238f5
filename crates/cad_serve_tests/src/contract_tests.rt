// Contracts over a host in memory.
use crate::account_tests::TAPE;
use crate::running::{assert_bytes, assert_next, bytes_of, done, joined};
use cad_host::Tape;
use std::alloc::Global;
use std::process::Abort;

const ACCOUNT: &str = "{\"kind\":\"account\"}\n";

const MADE: &str = "{\"address\":\"0x0000000000000001\",\"reply\":\"ok\"}\n";

const MADE_SECOND: &str = "{\"address\":\"0x0000000000000002\",\"reply\":\"ok\"}\n";

const MADE_THIRD: &str = "{\"address\":\"0x0000000000000003\",\"reply\":\"ok\"}\n";

const DONE: &str = "{\"destroyed\":[],\"events\":[],\"made\":[],\"reply\":\"ok\"}\n";

// ---- a contract that keeps a number

const COUNTER: &str =
    "access(all) contract C { access(all) var n: Int init(n: Int) { self.n = n } access(all) fun add(_ m: Int): Int { self.n = self.n + m; return self.n } }";

// What begins with its number, 40.
const FORTY: &str = "[{\"type\":\"Int\",\"value\":\"40\"}]";

const READ: &str =
    "{\"kind\":\"script\",\"code\":\"import C from 0x1 access(all) fun main(): Int { return C.n }\"}\n";

const ADD: &str =
    "{\"kind\":\"transaction\",\"code\":\"import C from 0x1 transaction { execute { C.add(2) } }\"}\n";

const IS_40: &str = "{\"reply\":\"ok\",\"result\":{\"type\":\"Int\",\"value\":\"40\"}}\n";

const IS_42: &str = "{\"reply\":\"ok\",\"result\":{\"type\":\"Int\",\"value\":\"42\"}}\n";

const IS_84: &str = "{\"reply\":\"ok\",\"result\":{\"type\":\"Int\",\"value\":\"84\"}}\n";

// The record of its deploy up to its code, behind the gate: 248 bytes, format 1, two registers; key 02 of 0x1 and C, 151 bytes.
const BEFORE_CODE: [u8; 32] = [
    0, 0, 0, 0, 0, 0, 0, 248, 1, 0, 0, 0, 2, 0, 0, 0, 10, 2, 0, 0, 0, 0, 0, 0, 0, 1, 67, 1, 0, 0,
    0, 151,
];

// Behind its code: key 03 of 0x1 and C, 54 bytes of a composite: of the type C at 0x1, without identity, one field n, Int 40.
const BEHIND_CODE: [u8; 73] = [
    0, 0, 0, 10, 3, 0, 0, 0, 0, 0, 0, 0, 1, 67, 1, 0, 0, 0, 54, 13, 0, 0, 0, 0, 0, 0, 0, 1, 0, 0,
    0, 1, 0, 0, 0, 1, 67, 0, 0, 0, 0, 0, 0, 0, 0, 0, 0, 0, 1, 0, 0, 0, 1, 110, 4, 0, 0, 0, 0, 0, 0,
    0, 0, 0, 0, 0, 0, 0, 0, 0, 0, 0, 40,
];

// The record of the transaction, behind the gate: 78 bytes, the composite with 42 alone.
const ADDED: [u8; 86] = [
    0, 0, 0, 0, 0, 0, 0, 78, 1, 0, 0, 0, 1, 0, 0, 0, 10, 3, 0, 0, 0, 0, 0, 0, 0, 1, 67, 1, 0, 0, 0,
    54, 13, 0, 0, 0, 0, 0, 0, 0, 1, 0, 0, 0, 1, 0, 0, 0, 1, 67, 0, 0, 0, 0, 0, 0, 0, 0, 0, 0, 0, 1,
    0, 0, 0, 1, 110, 4, 0, 0, 0, 0, 0, 0, 0, 0, 0, 0, 0, 0, 0, 0, 0, 0, 0, 42,
];

fn deploy(rt: &impl Abort, alloc: Global, name: &str, code: &str, arguments: &str) -> String {
    format!(in alloc;
        "{{\"kind\":\"deploy\",\"address\":\"0x1\",\"name\":\"{name}\",\"code\":\"{code}\",\"arguments\":{arguments}}}\n"
    ).expect(rt, "memory")
}

// The tape with the contract and the transaction behind an account.
fn tape_of_counter(rt: &impl Abort, alloc: Global) -> Vec<u8> {
    bytes_of(
        rt,
        alloc,
        &[
            &TAPE[..66],
            &[1],
            &BEFORE_CODE,
            COUNTER.as_bytes(),
            &BEHIND_CODE,
            &[1],
            &ADDED,
            &[0],
        ],
    )
}

#[test]
fn keeps_contracts(rt: HostRuntime) {
    let alloc = rt.alloc();
    let deploys = deploy(&rt, alloc, "C", COUNTER, FORTY);
    let input = joined(&rt, alloc, &[ACCOUNT, &deploys, READ, ADD, READ]);
    let want = joined(&rt, alloc, &[MADE, DONE, IS_40, DONE, IS_42]);
    let host = done(&rt, alloc, &input, &want);
    let tape = tape_of_counter(&rt, alloc);
    assert_bytes(&rt, host.tape(Tape::A), &tape, 0, 1);
    assert_next(&rt, alloc, &host, READ, IS_42, 1);
    drop(host);
}

// ---- what is refused, in order

// Contracts at 0x1 beside C, each by its name, its code, its arguments, and the reply.
const DEPLOYS: [(&str, &str, &str, &str); 10] = [
    (
        "C",
        "fun",
        "[]",
        "{\"error\":\"118\",\"reply\":\"failed\"}\n",
    ),
    (
        "D",
        "fun",
        "[]",
        "{\"at\":\"0\",\"in\":\"\",\"phase\":\"parse\",\"reply\":\"rejected\"}\n",
    ),
    (
        "D",
        "import F from 0x1 access(all) contract E {}",
        "[]",
        "{\"at\":\"0\",\"in\":\"F\",\"phase\":\"resolve\",\"reply\":\"rejected\"}\n",
    ),
    (
        "D",
        "access(all) contract D { init() { self.account.contracts.add(name: \\\"C\\\", code: []) } }",
        "[]",
        "{\"error\":\"118\",\"reply\":\"failed\"}\n",
    ),
    (
        "D",
        "access(all) contract E {}",
        "[1]",
        "{\"error\":\"120\",\"reply\":\"failed\"}\n",
    ),
    (
        "D",
        "access(all) contract D {}",
        "[{\"type\":\"Int\",\"value\":\"1\"}]",
        "{\"error\":\"125\",\"reply\":\"failed\"}\n",
    ),
    (
        "D",
        "access(all) contract D { init(n: Int) {} }",
        "[{\"type\":\"String\",\"value\":\"1\"}]",
        "{\"error\":\"125\",\"reply\":\"failed\"}\n",
    ),
    (
        "D",
        "access(all) contract D { access(all) let n: Int access(all) struct S { access(all) let m: Int init() { self.m = D.n } } init() { let s = S(); self.n = 1 } }",
        "[]",
        "{\"error\":\"132\",\"reply\":\"failed\"}\n",
    ),
    (
        "D",
        "access(all) contract D { access(all) let n: Int access(all) struct S { access(all) let m: Int init() { self.m = D.n } } init() { self.n = 1; let s = S() } }",
        "[]",
        DONE,
    ),
    (
        "A",
        "import C from 0x1 access(all) contract A { access(all) fun twice(): Int { return C.n * 2 } }",
        "[]",
        DONE,
    ),
];

const AWAY: &str = "{\"kind\":\"deploy\",\"address\":\"0x9\",\"name\":\"C\",\"code\":\"fun\"}\n";

const AWAY_REFUSED: &str = "{\"error\":\"26\",\"reply\":\"bad\"}\n";

const TWICE: &str =
    "{\"kind\":\"script\",\"code\":\"import A from 0x1 access(all) fun main(): Int { return A.twice() }\"}\n";

// Adds a text behind another.
fn add(rt: &impl Abort, all: &mut String, text: &str) {
    all.push_str(text).expect(rt, "memory");
}

fn add_deploy(
    rt: &impl Abort,
    alloc: Global,
    all: &mut String,
    name: &str,
    code: &str,
    arguments: &str,
) {
    let line = deploy(rt, alloc, name, code, arguments);
    add(rt, all, &line);
}

// A contract that is refused leaves nothing, so its name is free. A imports C, and stands before it.
#[test]
fn refuses_deploys(rt: HostRuntime) {
    let alloc = rt.alloc();
    let mut input = joined(&rt, alloc, &[ACCOUNT, AWAY]);
    let mut want = joined(&rt, alloc, &[MADE, AWAY_REFUSED, DONE]);
    add_deploy(&rt, alloc, &mut input, "C", COUNTER, FORTY);
    for (name, code, arguments, reply) in DEPLOYS {
        add_deploy(&rt, alloc, &mut input, name, code, arguments);
        add(&rt, &mut want, reply);
    }
    let host = done(&rt, alloc, &input, &want);
    let more = joined(&rt, alloc, &[ADD, TWICE]);
    let after = joined(&rt, alloc, &[DONE, IS_84]);
    assert_next(&rt, alloc, &host, &more, &after, 1);
    drop(host);
}

// ---- a contract of resources

const TOKEN: &str =
    "access(all) contract Token { access(all) entitlement Withdraw access(all) event Moved(id: UInt64, amount: UFix64) access(all) var supply: UFix64 access(all) resource interface Receiver { access(all) fun deposit(from: @Vault) } access(all) resource Vault: Receiver { access(all) var balance: UFix64 init(balance: UFix64) { self.balance = balance } access(Withdraw) fun withdraw(amount: UFix64): @Vault { pre { self.balance >= amount: \\\"too little\\\" } self.balance = self.balance - amount; return <-create Vault(balance: amount) } access(all) fun deposit(from: @Vault) { self.balance = self.balance + from.balance; emit Moved(id: self.uuid, amount: from.balance); destroy from } } access(all) fun empty(): @Vault { return <-create Vault(balance: 0.0) } init() { self.supply = 1000.0; self.account.storage.save(<-create Vault(balance: 1000.0), to: /storage/token) } }";

const PUBLISH: &str =
    "{\"kind\":\"transaction\",\"signers\":[\"0x2\"],\"code\":\"import Token from 0x1 transaction { prepare(a: auth(IssueStorageCapabilityController, PublishCapability) &Account) { let c = a.capabilities.storage.issue<&Token.Vault>(/storage/token); a.capabilities.publish(c, at: /public/token) } }\"}\n";

const TRANSFER: &str =
    "{\"kind\":\"transaction\",\"signers\":[\"0x1\"],\"code\":\"import Token from 0x1 transaction(amount: UFix64, to: Address) { let vault: @Token.Vault prepare(a: auth(BorrowValue) &Account) { let own = a.storage.borrow<auth(Token.Withdraw) &Token.Vault>(from: /storage/token) ?? panic(\\\"none\\\"); self.vault <- own.withdraw(amount: amount) } execute { let into = getAccount(to).capabilities.borrow<&Token.Vault>(/public/token) ?? panic(\\\"none\\\"); into.deposit(from: <-self.vault) } }\",\"arguments\":[{\"type\":\"UFix64\",\"value\":\"10.5\"},{\"type\":\"Address\",\"value\":\"0x2\"}]}\n";

const TRANSFERRED: &str =
    "{\"destroyed\":[\"3\"],\"events\":[{\"type\":\"Event\",\"value\":{\"fields\":[{\"name\":\"id\",\"value\":{\"type\":\"UInt64\",\"value\":\"2\"}},{\"name\":\"amount\",\"value\":{\"type\":\"UFix64\",\"value\":\"10.50000000\"}}],\"id\":\"A.0000000000000001.Token.Moved\"}}],\"made\":[\"3\"],\"reply\":\"ok\"}\n";

const BALANCE: &str =
    "{\"kind\":\"script\",\"code\":\"import Token from 0x1 access(all) fun main(): UFix64 { return getAccount(0x2).capabilities.borrow<&Token.Vault>(/public/token)!.balance }\"}\n";

const BALANCE_IS: &str =
    "{\"reply\":\"ok\",\"result\":{\"type\":\"UFix64\",\"value\":\"10.50000000\"}}\n";

// Makes two vaults, saves one and stops.
const STOPPED: &str =
    "{\"kind\":\"transaction\",\"signers\":[\"0x2\"],\"code\":\"import Token from 0x1 transaction { prepare(a: auth(SaveValue) &Account) { a.storage.save(<-Token.empty(), to: /storage/x); let v <- Token.empty(); panic(\\\"stop\\\") } }\"}\n";

const STOPPED_BY: &str = "{\"error\":\"109\",\"reply\":\"failed\"}\n";

const OCCUPIED: &str = "{\"error\":\"111\",\"reply\":\"failed\"}\n";

const LOST: &str =
    "{\"kind\":\"script\",\"code\":\"import Token from 0x1 access(all) fun main(c: Bool) { let v <- Token.empty(); if c { destroy v } }\"}\n";

const LOST_AT: &str = "{\"at\":\"0\",\"in\":\"main\",\"phase\":\"moves\",\"reply\":\"rejected\"}\n";

// Saves an empty vault in an account.
fn set_up(rt: &impl Abort, alloc: Global, address: &str) -> String {
    format!(in alloc;
        "{{\"kind\":\"transaction\",\"signers\":[\"{address}\"],\"code\":\"import Token from 0x1 transaction {{ prepare(a: auth(SaveValue) &Account) {{ a.storage.save(<-Token.empty(), to: /storage/token) }} }}\"}}\n"
    ).expect(rt, "memory")
}

fn made(rt: &impl Abort, alloc: Global, identity: &str) -> String {
    format!(in alloc;
        "{{\"destroyed\":[],\"events\":[],\"made\":[\"{identity}\"],\"reply\":\"ok\"}}\n"
    ).expect(rt, "memory")
}

// Lines of the first run, where `second` saves a vault in the account 2.
fn first_lines(rt: &impl Abort, alloc: Global, second: &str) -> String {
    let token = deploy(rt, alloc, "Token", TOKEN, "[]");
    joined(
        rt,
        alloc,
        &[
            ACCOUNT, ACCOUNT, &token, second, PUBLISH, TRANSFER, BALANCE, LOST,
        ],
    )
}

// The replies to them.
fn first_replies(rt: &impl Abort, alloc: Global) -> String {
    let first_made = made(rt, alloc, "1");
    let second_made = made(rt, alloc, "2");
    joined(
        rt,
        alloc,
        &[
            MADE,
            MADE_SECOND,
            &first_made,
            &second_made,
            DONE,
            TRANSFERRED,
            BALANCE_IS,
            LOST_AT,
        ],
    )
}

// What fails takes no identities, before the tapes are opened again and behind.
#[test]
fn keeps_resources(rt: HostRuntime) {
    let alloc = rt.alloc();
    let second = set_up(&rt, alloc, "0x2");
    let host = done(
        &rt,
        alloc,
        &first_lines(&rt, alloc, &second),
        &first_replies(&rt, alloc),
    );
    let third = set_up(&rt, alloc, "0x3");
    let fourth_made = made(&rt, alloc, "4");
    let more = joined(&rt, alloc, &[ACCOUNT, STOPPED, &third, &second, BALANCE]);
    let after = joined(
        &rt,
        alloc,
        &[MADE_THIRD, STOPPED_BY, &fourth_made, OCCUPIED, BALANCE_IS],
    );
    assert_next(&rt, alloc, &host, &more, &after, 1);
    drop(host);
}

// ---- contracts that programs add

// Contracts at 0x1, each by its name, its code, the arguments behind them, and the reply.
const ADDITIONS: [(&str, &str, &str, &str); 6] = [
    ("C", COUNTER, ", 40", DONE),
    ("C", "fun", "", "{\"error\":\"118\",\"reply\":\"failed\"}\n"),
    ("D", "fun", "", "{\"error\":\"119\",\"reply\":\"failed\"}\n"),
    (
        "D",
        "access(all) contract E {}",
        "",
        "{\"error\":\"120\",\"reply\":\"failed\"}\n",
    ),
    (
        "D",
        "access(all) contract D { init(n: Int) {} }",
        "",
        "{\"error\":\"125\",\"reply\":\"failed\"}\n",
    ),
    (
        "A",
        "import C from 0x1 access(all) contract A { access(all) fun twice(): Int { return C.n * 2 } }",
        "",
        DONE,
    ),
];

// Adds a contract and stops.
const ADDS_AND_STOPS: &str =
    "{\"kind\":\"transaction\",\"signers\":[\"0x1\"],\"code\":\"transaction { prepare(a: auth(AddContract) &Account) { a.contracts.add(name: \\\"D\\\", code: \\\"access(all) contract D {}\\\".utf8); panic(\\\"stop\\\") } }\"}\n";

// Adds two, the second of which imports the first.
const ADDS_TWO: &str =
    "{\"kind\":\"transaction\",\"signers\":[\"0x1\"],\"code\":\"transaction { prepare(a: auth(AddContract) &Account) { a.contracts.add(name: \\\"D\\\", code: \\\"access(all) contract D { access(all) let n: Int init() { self.n = 42 } }\\\".utf8); a.contracts.add(name: \\\"B\\\", code: \\\"import D from 0x1 access(all) contract B { access(all) fun n(): Int { return D.n } }\\\".utf8) } }\"}\n";

const READ_SECOND: &str =
    "{\"kind\":\"script\",\"code\":\"import B from 0x1 access(all) fun main(): Int { return B.n() }\"}\n";

// A contract whose initializer adds another.
const ADDS_ANOTHER: &str =
    "access(all) contract E { init() { self.account.contracts.add(name: \\\"F\\\", code: \\\"access(all) contract F { access(all) fun n(): Int { return 42 } }\\\".utf8) } }";

const READ_OTHER: &str =
    "{\"kind\":\"script\",\"code\":\"import F from 0x1 access(all) fun main(): Int { return F.n() }\"}\n";

fn adds(rt: &impl Abort, alloc: Global, name: &str, code: &str, behind: &str) -> String {
    format!(in alloc;
        "{{\"kind\":\"transaction\",\"signers\":[\"0x1\"],\"code\":\"transaction {{ prepare(a: auth(AddContract) &Account) {{ a.contracts.add(name: \\\"{name}\\\", code: \\\"{code}\\\".utf8{behind}) }} }}\"}}\n"
    ).expect(rt, "memory")
}

// The lines behind the additions.
fn lines_behind(rt: &impl Abort, alloc: Global) -> String {
    let other = deploy(rt, alloc, "E", ADDS_ANOTHER, "[]");
    joined(
        rt,
        alloc,
        &[
            READ,
            ADDS_AND_STOPS,
            ADDS_TWO,
            READ_SECOND,
            &other,
            READ_OTHER,
        ],
    )
}

// The replies to them.
const BEHIND: [&str; 6] = [IS_40, STOPPED_BY, DONE, IS_42, DONE, IS_42];

// What fails adds nothing, so its name is free. What is added is imported by the next line, and when the tapes are opened again.
#[test]
fn adds_contracts(rt: HostRuntime) {
    let alloc = rt.alloc();
    let mut input = joined(&rt, alloc, &[ACCOUNT]);
    let mut want = joined(&rt, alloc, &[MADE]);
    for (name, code, behind, reply) in ADDITIONS {
        let line = adds(&rt, alloc, name, code, behind);
        add(&rt, &mut input, &line);
        add(&rt, &mut want, reply);
    }
    add(&rt, &mut input, &lines_behind(&rt, alloc));
    add(&rt, &mut want, &joined(&rt, alloc, &BEHIND));
    let host = done(&rt, alloc, &input, &want);
    let again = joined(&rt, alloc, &[ADD, TWICE, READ_SECOND, READ_OTHER]);
    let replies = joined(&rt, alloc, &[DONE, IS_84, IS_42, IS_42]);
    assert_next(&rt, alloc, &host, &again, &replies, 1);
    drop(host);
}
