// How many types contracts declare.
use crate::telling::type_count;
use std::test::Fail;

// A contract with each kind of declaration.
const ALL: &str =
    "access(all) contract A {\naccess(all) entitlement E\naccess(all) entitlement mapping M { E -> E }\naccess(all) struct interface I {}\naccess(all) resource R { access(mapping M) let s: S\nevent ResourceDestroyed()\ninit() { self.s = S() } }\naccess(all) struct S: I { access(E) fun f() {} }\naccess(all) enum C: UInt8 { access(all) case red }\naccess(all) event Ev(a: Int)\n}";

// A token with its vault.
const TOKEN: &str =
    "access(all) contract A {\n  access(all) entitlement Withdraw\n  access(all) event Moved(id: UInt64, amount: UFix64)\n  access(all) var supply: UFix64\n  access(all) resource interface Receiver {\n    access(all) fun deposit(from: @Vault)\n  }\n  access(all) resource Vault: Receiver {\n    access(all) var balance: UFix64\n    init(balance: UFix64) { self.balance = balance }\n    access(Withdraw) fun withdraw(amount: UFix64): @Vault {\n      pre { self.balance >= amount: \"too little\" }\n      self.balance = self.balance - amount\n      return <-create Vault(balance: amount)\n    }\n    access(all) fun deposit(from: @Vault) {\n      self.balance = self.balance + from.balance\n      emit Moved(id: self.uuid, amount: from.balance)\n      destroy from\n    }\n  }\n  access(all) fun empty(): @Vault { return <-create Vault(balance: 0.0) }\n  init() {\n    self.supply = 1000.0\n    self.account.storage.save(<-create Vault(balance: 1000.0), to: /storage/token)\n  }\n}";

#[test]
fn types_are_counted(rt: HostRuntime) -> Result<(), Fail> {
    let alloc = rt.alloc();
    assert_eq!(rt; type_count(alloc, ALL)?, 7);
    assert_eq!(rt; type_count(alloc, TOKEN)?, 4);
    Ok(())
}
