// The programs of a generated session.
ghost use Rattle.std.specs.Prelude.{◌≡◌};
ghost use Rattle.cad_generation.specs.Programs as spec;

const TOKEN: &str = r#"access(all) contract Token {
  access(all) entitlement Withdraw
  access(all) event Moved(id: UInt64, amount: UFix64)
  access(all) var supply: UFix64
  access(all) resource interface Receiver {
    access(all) fun deposit(from: @Vault)
  }
  access(all) resource Vault: Receiver {
    access(all) var balance: UFix64
    init(balance: UFix64) { self.balance = balance }
    access(Withdraw) fun withdraw(amount: UFix64): @Vault {
      pre { self.balance >= amount: "too little" }
      self.balance = self.balance - amount
      return <-create Vault(balance: amount)
    }
    access(all) fun deposit(from: @Vault) {
      self.balance = self.balance + from.balance
      emit Moved(id: self.uuid, amount: from.balance)
      destroy from
    }
  }
  access(all) fun empty(): @Vault { return <-create Vault(balance: 0.0) }
  init() {
    self.supply = 1000.0
    self.account.storage.save(<-create Vault(balance: 1000.0), to: /storage/token)
  }
}
"#;

const SETUP: &str = r#"import Token from 0x1
transaction { prepare(a: auth(SaveValue) &Account) {
  a.storage.save(<-Token.empty(), to: /storage/token) } }
"#;

const PUBLISH: &str = r#"import Token from 0x1
transaction { prepare(a: auth(IssueStorageCapabilityController, PublishCapability) &Account) {
  let c = a.capabilities.storage.issue<&Token.Vault>(/storage/token)
  a.capabilities.publish(c, at: /public/token) } }
"#;

const TRANSFER: &str = r#"import Token from 0x1
transaction(amount: UFix64, to: Address) {
  let vault: @Token.Vault
  prepare(a: auth(BorrowValue) &Account) {
    let own = a.storage.borrow<auth(Token.Withdraw) &Token.Vault>(from: /storage/token) ?? panic("none")
    self.vault <- own.withdraw(amount: amount)
  }
  execute {
    let into = getAccount(to).capabilities.borrow<&Token.Vault>(/public/token) ?? panic("none")
    into.deposit(from: <-self.vault)
  }
}
"#;

/// A contract: a token.
#[tactic(auto, unfolding(crate::specs::Programs::token))]
pub(crate) fn token() -> &'static str
    ensures { result.now ≡ spec.token }
{
    TOKEN
}

/// A transaction: an empty vault in the account of the signer.
#[tactic(auto, unfolding(crate::specs::Programs::setup))]
pub(crate) fn setup() -> &'static str
    ensures { result.now ≡ spec.setup }
{
    SETUP
}

/// A transaction: a capability of the signer's vault for everybody.
#[tactic(auto, unfolding(crate::specs::Programs::publish))]
pub(crate) fn publish() -> &'static str
    ensures { result.now ≡ spec.publish }
{
    PUBLISH
}

/// A transaction: an amount from the vault of the signer into that of another account.
#[tactic(auto, unfolding(crate::specs::Programs::transfer))]
pub(crate) fn transfer() -> &'static str
    ensures { result.now ≡ spec.transfer }
{
    TRANSFER
}
