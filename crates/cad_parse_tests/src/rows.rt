// Programs and what parsing them comes to: `ok`, or the phase and the place where it stops. `↵` stands for a line feed.
// Imports, declarations and what stands between them.
pub const PROGRAMS: &str = r#"ok ⇒ 
ok ⇒ access(all) fun f() {}
ok ⇒ access(all) fun f() {}access(all) fun f() {}
ok ⇒ transaction {} transaction {}
ok ⇒ import A from 0x1 import B from 0x2 access(all) fun f() {}
ok ⇒ import A from 0x1
parse 23 ⇒ access(all) fun f() {} import A from 0x1
parse 15 ⇒ transaction {} import A from 0x1 access(all) fun f() {}
parse 22 ⇒ access(all) fun f() {}; access(all) fun f() {}
parse 0 ⇒ fun
parse 0 ⇒ fun f() {}
parse 0 ⇒ access(all) event E()
parse 0 ⇒ access(all) entitlement E
parse 0 ⇒ let a = 1
parse 0 ⇒ access(all) transaction {}
parse 0 ⇒ access(all) contract interface I {}
parse 44 ⇒ access(all) fun f() {}access(all) fun f() {}access(all) fun h() { + }
parse 0 ⇒ access(all) fun g( {} access(all) fun f() {}
parse 18 ⇒ import A from 0x1↵access(all) fun g() { a b }↵access(all) fun f() {}
parse 18 ⇒ import A from 0x1 import B access(all) fun f() {}
parse 0 ⇒ access
parse 22 ⇒ access(all) fun f() {}}
parse 23 ⇒ access(all) fun f() {} x
lex 4 ⇒ fun #
ok ⇒ import A, B from 0x1
ok ⇒ import A, B, from 0x1
ok ⇒ import A, from 0x1
ok ⇒ import from, from from 0x1
ok ⇒ import from, from 0x1
ok ⇒ import A from 0x123456789abcdef01
parse 0 ⇒ import A from 1
parse 0 ⇒ import A from 0o1
parse 0 ⇒ import from 0x1
parse 0 ⇒ import A from
parse 0 ⇒ import A from B
parse 0 ⇒ import A.B from 0x1
ok ⇒ access(all) view fun f() {}
parse 0 ⇒ access(all) fun view f() {}
ok ⇒ access(all) view fun view() {}
parse 0 ⇒ access(all) fun f {}
parse 0 ⇒ access(all) fun f() access(all) fun g() {}
ok ⇒ access(all) fun f(): @[R]? {}
ok ⇒ access(all) fun f(a: Int, b: Int,) {}
ok ⇒ access(all) fun f(to a: Int) {}
ok ⇒ access(all) fun f(_ a: Int) {}
ok ⇒ access(all) fun f(_: Int) {}
parse 0 ⇒ access(all) fun f(,) {}
parse 0 ⇒ access(all) fun f(a) {}
parse 0 ⇒ access(all) fun f(a: Int b: Int) {}
parse 0 ⇒ access(all) fun f(for a: Int) {}
ok ⇒ transaction {}
ok ⇒ transaction(a: Int, to b: Address,) {}
parse 0 ⇒ transaction
parse 0 ⇒ transaction {↵access(all) let a: Int↵}↵
ok ⇒ transaction {↵prepare(a: &Account) {}↵}↵
ok ⇒ transaction {↵let a: Int prepare(x: auth(Storage) &Account) { self.a = 1 } pre { true } execute { log(1) } post { true }↵}↵
parse 0 ⇒ transaction {↵execute {} pre {}↵}↵
parse 0 ⇒ transaction {↵execute() {}↵}↵
parse 0 ⇒ transaction {↵prepare() {} let a: Int↵}↵
parse 0 ⇒ transaction {↵access(all) fun f() {}↵}↵"#;

// Access, and members of contracts, composites and interfaces.
pub const MEMBERS: &str = r#"ok ⇒ access(all) contract C {↵access(E, F, G) fun f() {}↵}↵
ok ⇒ access(all) contract C {↵access(E | F | G) fun f() {}↵}↵
ok ⇒ access(all) contract C {↵access(mapping A.M) fun f() {}↵}↵
ok ⇒ access(all) contract C {↵access(E, F,) fun f() {}↵}↵
ok ⇒ access(all) contract C {↵access(E, all) fun f() {}↵}↵
ok ⇒ access(all) contract C {↵access(all | E) fun f() {}↵}↵
ok ⇒ access(all) contract C {↵access(mapping, E) fun f() {}↵}↵
ok ⇒ access(all) contract C {↵access(mapping all) fun f() {}↵}↵
parse 0 ⇒ access(all) contract C {↵access() fun f() {}↵}↵
parse 0 ⇒ access(all) contract C {↵access(E, F | G) fun f() {}↵}↵
parse 0 ⇒ access(all) contract C {↵access(E | F |) fun f() {}↵}↵
parse 0 ⇒ access(all) contract C {↵access(self, E) fun f() {}↵}↵
parse 0 ⇒ access(all) contract C {↵access(mapping M,) fun f() {}↵}↵
parse 0 ⇒ access(all) contract C {↵access(E,,) fun f() {}↵}↵
parse 0 ⇒ access(all) contract C {↵access(all all) fun f() {}↵}↵
parse 0 ⇒ access(all) contract C {↵access(account,) fun f() {}↵}↵
parse 0 ⇒ access(all) contract C {↵access(all fun f() {}↵}↵
ok ⇒ access↵(↵all↵)↵fun f() {}
ok ⇒ access(all) contract C {↵access(all) let a: Int access(all) var b: R↵}↵
parse 0 ⇒ access(all) contract C {↵access(all) let a: Int; access(all) let b: Int↵}↵
parse 0 ⇒ access(all) contract C {↵access(all) a: Int↵}↵
parse 0 ⇒ access(all) contract C {↵access(all) fun f()↵}↵
parse 0 ⇒ access(all) contract C {↵access(all) init() {}↵}↵
ok ⇒ access(all) contract C {↵init(a: Int) { pre { a > 0 } post { true } self.a = a }↵}↵
ok ⇒ access(all) contract C {↵↵  access(all) let a: Int↵  access(all) var b: @R↵  access(all) view fun f(_ x: Int, to y: Int): Int { return x }↵  init() { self.a = 1 }↵  access(all) struct S { access(all) let a: Int init() {} }↵  access(all) resource R: I, J {}↵  access(all) struct interface SI {}↵  access(all) resource interface I: J {}↵  access(all) event E(a: Int)↵  access(all) enum K: UInt8 { access(all) case x access(all) case y }↵  access(all) entitlement X↵  access(all) entitlement mapping M { X -> Y include Identity }↵↵}↵
ok ⇒ access(all) contract C { access(all) resource R {↵view init(a: Int) {}↵} }↵
parse 0 ⇒ access(all) contract C { access(all) resource R {↵access(all) struct S {}↵} }↵
ok ⇒ access(all) contract C {↵access(all) struct S: I, J, {}↵}↵
parse 0 ⇒ access(all) contract C {↵access(all) struct S: {}↵}↵
parse 0 ⇒ access(all) contract C {↵struct S {}↵}↵
ok ⇒ access(all) contract C {↵access(all) struct interface I: J, K {}↵}↵
parse 0 ⇒ access(all) contract C {↵access(all) interface struct I {}↵}↵
ok ⇒ access(all) contract C { access(all) resource interface I {↵access(all) fun f() access(all) fun g(): Int↵} }↵
ok ⇒ access(all) contract C { access(all) resource interface I {↵access(all) view: Int↵} }↵
parse 0 ⇒ access(all) contract C { access(all) resource interface I {↵access(all) fun: Int↵} }↵
parse 0 ⇒ access(all) contract C { access(all) resource interface I {↵init()↵} }↵
parse 0 ⇒ access(all) contract C { access(all) resource interface I {↵access(all) fun f();↵} }↵
ok ⇒ access(all) contract C {↵access(all) event E(a: Int,)↵}↵
parse 0 ⇒ access(all) contract C {↵access(all) event E↵}↵
ok ⇒ access(all) contract C { access(all) resource R {↵event ResourceDestroyed()↵} }↵
ok ⇒ access(all) contract C { access(all) resource R {↵access(all) event ResourceDestroyed()↵} }↵
parse 0 ⇒ access(all) contract C { access(all) resource R {↵event ResourceDestroyed(id: UInt64)↵} }↵
parse 0 ⇒ access(all) contract C { access(all) resource R {↵event resourceDestroyed()↵} }↵
parse 0 ⇒ access(all) contract C {↵access(all) enum E: A, {}↵}↵
parse 0 ⇒ access(all) contract C {↵access(all) enum E: UInt8 { case a }↵}↵
parse 0 ⇒ access(all) contract C {↵access(all) enum E: UInt8 { access(all) case a; }↵}↵
ok ⇒ access(all) contract C {↵access(all) entitlement mapping↵}↵
ok ⇒ access(all) contract C {↵access(all) entitlement mapping view init() {}↵}↵
ok ⇒ access(all) contract C {↵access(all) entitlement mapping M { A -> B include Identity C -> D }↵}↵
ok ⇒ access(all) contract C {↵access(all) entitlement mapping M { A -> include Identity -> B }↵}↵
ok ⇒ access(all) contract C {↵access(all) entitlement mapping M { Identity -> B }↵}↵
parse 0 ⇒ access(all) contract C {↵access(all) entitlement mapping M { include Identity.X }↵}↵
parse 0 ⇒ access(all) contract C {↵access(all) entitlement mapping M { A -> B, C -> D }↵}↵
parse 0 ⇒ access(all) contract C {↵access(all) entitlement mapping M { A -> }↵}↵
parse 0 ⇒ access(all) contract C {↵access(all) entitlement E {}↵}↵"#;

// Conditions, statements, expressions and types.
pub const BLOCKS: &str = r#"ok ⇒ access(all) fun f() { pre {} post {} }
parse 0 ⇒ access(all) fun f() { post { a } pre { b } }
ok ⇒ access(all) fun main() {↵pre { a↵ b: "m"↵ c }↵}↵
ok ⇒ access(all) fun main() {↵pre { a ? b : c : "m" }↵}↵
ok ⇒ access(all) fun main() {↵pre { a↵: b }↵}↵
parse 0 ⇒ access(all) fun main() {↵pre { -a > b }↵}↵
parse 0 ⇒ access(all) fun main() {↵pre { true; {}.a }↵}↵
ok ⇒ access(all) fun main() {↵pre { ({}.a) }↵}↵
parse 0 ⇒ access(all) fun main() {↵pre { a: "m" b }↵}↵
parse 0 ⇒ access(all) fun main() {↵pre { emit E(): "m" }↵}↵
parse 0 ⇒ access(all) fun main() {↵pre { ; a }↵}↵
ok ⇒ access(all) fun main() {↵a;↵b↵; c↵}↵
parse 0 ⇒ access(all) fun main() {↵a b↵}↵
parse 0 ⇒ access(all) fun main() {↵if a {} b↵}↵
parse 0 ⇒ access(all) fun main() {↵{a: b}↵}↵
ok ⇒ access(all) fun main() {↵({a: b})↵}↵
ok ⇒ access(all) fun main() {↵a↵[b]↵}↵
ok ⇒ access(all) fun main() {↵a↵/public/b↵}↵
parse 0 ⇒ access(all) fun main() {↵x = (a↵[b])↵}↵
parse 0 ⇒ access(all) fun main() {↵return↵-a↵}↵
ok ⇒ access(all) fun f() { return }
ok ⇒ access(all) fun main() {↵let a: @R? <- b.c[d] <- e↵}↵
parse 0 ⇒ access(all) fun main() {↵let a <- b <- c <- d↵}↵
ok ⇒ access(all) fun main() {↵if a {} else if b {} else {}↵}↵
ok ⇒ access(all) fun main() {↵if let a <- b as? @R {}↵}↵
parse 0 ⇒ access(all) fun main() {↵if let a <- b <- c {}↵}↵
ok ⇒ access(all) fun main() {↵if a as? T? {}↵}↵
parse 0 ⇒ access(all) fun main() {↵for i, a, b in c {}↵}↵
ok ⇒ access(all) fun main() {↵switch a { case b: c case d: e default: f }↵}↵
parse 0 ⇒ access(all) fun main() {↵switch a { default: b case c: d }↵}↵
parse 0 ⇒ access(all) fun main(): T { return /private/a }
ok ⇒ access(all) fun main(): T { return a(b: c, d, e: f,) }
parse 0 ⇒ access(all) fun main(): T { return a(b,,) }
ok ⇒ access(all) fun main(): T { return a * b + c & d ^ e | f ?? g < h && i || j ? k : l }
ok ⇒ access(all) fun main(): T { return a ?? b ? c ?? d : e ?? f }
ok ⇒ access(all) fun main(): T { return &a as T as U }
parse 0 ⇒ access(all) fun main(): T { return &&a as T }
ok ⇒ access(all) fun main(): T { return a as T? ?? b }
parse 0 ⇒ access(all) fun main(): T { return a as T? / b }
parse 0 ⇒ access(all) fun main(): T { return a as T ? {} : c }
ok ⇒ access(all) fun main() {↵x = a as T??↵b↵}↵
ok ⇒ access(all) fun main(): T { return a<A<B>>(c) }
ok ⇒ access(all) fun main(): T { return a(b<c, d>(e)) }
ok ⇒ access(all) fun main(): T { return a[b]<c>(d) }
parse 0 ⇒ access(all) fun main(): T { return a<T>.b }
ok ⇒ access(all) contract C { access(all) let a: Int ? ? }
ok ⇒ access(all) contract C { access(all) let a: {{A}: B} }
parse 0 ⇒ access(all) contract C { access(all) let a: {K: V,} }
parse 0 ⇒ access(all) contract C { access(all) let a: A<B>.C }
ok ⇒ access(all) contract C { access(all) let a: auth(E) &[T] }
ok ⇒ access(all) fun main() {↵let a: T??=b↵}↵"#;

// What is told apart in lists, access, events, blocks and expressions.
pub const EXAMPLES: &str =
    r#"lex 38 ⇒ access(all) fun main(): UInt { return 340282366920938463463374607431768211456 }
ok ⇒ access(all) fun main(): UInt { return 340282366920938463463374607431768211455 }
ok ⇒ access(all) fun main(): Int { return 1 + 2 * 3 }
ok ⇒ access(all) fun main(): Int8 { let a: Int8 = 127; return a + 1 }
ok ⇒ access(all) fun main() { while true {} }
ok ⇒ access(all) fun main(): Bool { return "\u{65}\u{301}" == "\u{E9}" }
ok ⇒ access(all) fun main(): Int { var a = [1, 2]; a[0] <-> a[0]; return a[0] }
ok ⇒ access(all) fun main(): Int8 { let a: Int8 = -128; return a }
ok ⇒ access(all) fun main(): AnyStruct { return Type<Int>() }
ok ⇒ import Token from 0x1↵access(all) fun main(): UFix64 { return getAccount(0x2).capabilities.borrow<&Token.Vault>(/public/token)!.balance }
ok ⇒ access(all) contract C { init() { self.account.contracts.add(name: "C", code: "access(all) contract C {}".utf8) } }
parse 0 ⇒ access(all) contract C { access(all,) let a: T }
ok ⇒ access(all) contract C { access(all, E) let a: T }
ok ⇒ access(all) contract C { access(all.E) let a: T }
ok ⇒ access(all) contract C { access(mapping) let a: T }
ok ⇒ access(all) contract C { access(mapping.E) let a: T }
ok ⇒ access(all) contract C { access(all) let a: C<T,> access(all) let b: &{I, J,} access(all) let c: auth(E,) &T }
parse 0 ⇒ access(all) contract C { access(all) event E(a: Int = 1) }
ok ⇒ access(all) contract C { access(all) resource R { event ResourceDestroyed(id: UInt64 = self.uuid) } }
ok ⇒ access(all) contract C { event ResourceDestroyed(id: UInt64 = 1,) }
parse 0 ⇒ access(all) fun f() { pre { a;; b } }
ok ⇒ access(all) fun f() { pre { a; b; } post { a↵; } a↵; }
parse 0 ⇒ access(all) fun f() { pre { a }; b }
parse 0 ⇒ access(all) fun f() { return f(,) }
ok ⇒ access(all) fun f() { return / storage /↵x }
parse 0 ⇒ access(all) fun f() { return f<T>↵(a) }
ok ⇒ access(all) fun f() { return f↵<T>(a) }
parse 0 ⇒ access(all) fun f() { return a as T < b }
ok ⇒ access(all) fun f() { return (&a as T) < b }
parse 0 ⇒ access(all) fun f() { return &a as T < b }
ok ⇒ access(all) fun f() { return &a as T ? b : c }
parse 0 ⇒ access(all) fun f() { return &a as T? / b }
ok ⇒ access(all) fun f() { return a?.n<T?,>(b) }
ok ⇒ access(all) fun f() { return /public/a<b>(c) }
ok ⇒ access(all) fun f() { if {} == a {}↵while -a < b {} }
ok ⇒ access(all) fun f() { return create R↵(a) }
ok ⇒ access(all) fun f() { emit↵-a; destroy↵a; switch a { case -1: b case↵c: d } }
ok ⇒ access(all) fun f() { return a ? b ? c : d : e }
ok ⇒ access(all) fun f() { return a ? (b as T) : (c < d) ? e : f }"#;

// Two programs, and whether they are one tree.
pub const TREES: &str = r#"other ⇒ access(all) fun f() { pre {} } ⇔ access(all) fun f() {}
other ⇒ access(all) fun f() { post {} } ⇔ access(all) fun f() {}
other ⇒ transaction() {} ⇔ transaction {}
other ⇒ access(all) fun f(): Void {} ⇔ access(all) fun f() {}
other ⇒ access(all) fun f(a a: T) {} ⇔ access(all) fun f(a: T) {}
other ⇒ access(all) fun f() { g(a: b) } ⇔ access(all) fun f() { g(b) }
other ⇒ access(all) fun f() { return (a + b) * c } ⇔ access(all) fun f() { return a + b * c }
other ⇒ access(all) fun f() { return 0x10 } ⇔ access(all) fun f() { return 16 }
same ⇒ access(all) fun f() { return (a + b) } ⇔ access(all) fun f() { return a + b }
same ⇒ access(all) fun f() { return a + b + c } ⇔ access(all) fun f() { return (a + b) + c }
same ⇒ access(all) fun f() { return a ?? b ?? c } ⇔ access(all) fun f() { return a ?? (b ?? c) }
same ⇒ access(all) fun f() { a; b; } ⇔ access(all) fun f() { a↵b }
same ⇒ access(all) fun f() { return [a, b,] } ⇔ access(all) fun f() { return [a, b] }
same ⇒ access(all) fun f() { return 0b11 + 0o17 + 1_000 } ⇔ access(all) fun f() { return 3 + 15 + 1000 }
same ⇒ access(all) fun f() { /* a */ return 1.50 // b↵} ⇔ access(all) fun f() { return 1.5 }"#;

// A contract of a token.
pub const TOKEN: &str = r#"access(all) contract Token {
  access(all) entitlement Withdraw
  access(all) event Moved(id: UInt64, amount: UFix64)
  access(all) var supply: UFix64
  access(all) resource interface Receiver {
    access(all) fun deposit(from: @Vault)
  }
  access(all) resource Vault: Receiver {
    access(all) var balance: UFix64
    init(balance: UFix64) { self.balance = balance }
    access(Withdraw) fun withdraw(amount: UFix64): @Vault {
      pre { self.balance >= amount: "too little" }
      self.balance = self.balance - amount
      return <-create Vault(balance: amount)
    }
    access(all) fun deposit(from: @Vault) {
      self.balance = self.balance + from.balance
      emit Moved(id: self.uuid, amount: from.balance)
      destroy from
    }
  }
  access(all) fun empty(): @Vault { return <-create Vault(balance: 0.0) }
  init() {
    self.supply = 1000.0
    self.account.storage.save(<-create Vault(balance: 1000.0), to: /storage/token)
  }
}"#;

// A transaction that sets an account up for it.
pub const SETUP: &str = r#"import Token from 0x1
transaction { prepare(a: auth(SaveValue) &Account) {
  a.storage.save(<-Token.empty(), to: /storage/token) } }"#;

// One that publishes a capability to receive.
pub const PUBLISH: &str = r#"import Token from 0x1
transaction { prepare(a: auth(IssueStorageCapabilityController, PublishCapability) &Account) {
  let c = a.capabilities.storage.issue<&Token.Vault>(/storage/token)
  a.capabilities.publish(c, at: /public/token) } }"#;

// One that transfers an amount.
pub const TRANSFER: &str = r#"import Token from 0x1
transaction(amount: UFix64, to: Address) {
  let vault: @Token.Vault
  prepare(a: auth(BorrowValue) &Account) {
    let own = a.storage.borrow<auth(Token.Withdraw) &Token.Vault>(from: /storage/token) ?? panic("none")
    self.vault <- own.withdraw(amount: amount)
  }
  execute {
    let into = getAccount(to).capabilities.borrow<&Token.Vault>(/public/token) ?? panic("none")
    into.deposit(from: <-self.vault)
  }
}"#;
