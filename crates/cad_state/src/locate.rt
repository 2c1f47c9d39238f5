// Nodes of the state, found by their labels: the hint is tried first, then all rows.
ghost use Rattle.std.specs.Prelude.{◌≡◌, ◌<◌, List, Some, None, IfOk, IfSome, MatchOption, length, map, reverse, option_map, vec_len};
ghost use Rattle.cad_world.specs.Labels as spec;
ghost use Rattle.cad_world.specs.State as states;
ghost use Rattle.cad_rows.specs.Ways.{pure_node};
ghost use Rattle.cad_state.specs.Views.{state_over, frame_of, contract_of, IsReady};
ghost use Rattle.cad_state.specs.Ways as ways;
ghost use Rattle.cad_state.specs.declared.hints.Root.TheVariants as root;

use crate::hints::{Root, Way, hint_index};
use crate::known::known_account;
use crate::state::{Account, Accounts, RunState};
use cad_rows::laws::a_node_with_the_label_is_the_node;
use cad_rows::{Node, Place, holds_label, node_at, way_to};
use std::alloc::AllocError;

impl RunState {
    /// How many accounts the run has.
    pub fn account_count(&self) -> usize
        ensures { result ≡ ways.count_in self.now.accounts }
    {
        match &self.accounts {
            Accounts::All(all) => all.len(),
            Accounts::Part { count: _, known } => known.len(),
        }
    }

    /// The index of one of the accounts that the run has.
    pub fn account_index(&self, n: usize) -> usize
        ensures { result ≡ ways.index_in self.now.accounts n }
    {
        match &self.accounts {
            Accounts::All(_) => n,
            Accounts::Part { count: _, known } => match known.get(n) {
                Some(one) => one.index as usize,
                None => n,
            },
        }
    }

    /// The account of an index, if the run has it.
    pub fn account_of_index(&self, i: usize) -> Option<&Account>
        ensures { option_map (λ a. a.now) result ≡ ways.account_in self.now.accounts i }
    {
        match &self.accounts {
            Accounts::All(all) => all.get(i),
            Accounts::Part { count, known } => {
                let index = i as u64;
                if *count <= index {
                    return None;
                }
                known_account(known.as_slice(), index)
            }
        }
    }

    /// What the account of an index stores, if the run has it.
    fn stored_row(&self, i: usize) -> Option<&[Place]>
        ensures { option_map (λ r. r.now) result ≡ ways.row_at (root.Stored i) self.now }
    {
        match self.account_of_index(i) {
            Some(account) => Some(account.stored.as_slice()),
            None => None,
        }
    }

    /// The places of a row.
    fn row(&self, root: Root) -> Option<&[Place]>
        ensures { option_map (λ r. r.now) result ≡ ways.row_at root self.now }
    {
        match root {
            Root::Variables(i) => match self.calls.get(i) {
                Some(call) => Some(call.variables.as_slice()),
                None => None,
            },
            Root::Before(i) => match self.calls.get(i) {
                Some(call) => Some(call.before.as_slice()),
                None => None,
            },
            Root::Result(i) => match self.calls.get(i) {
                Some(call) => Some(call.result.as_slice()),
                None => None,
            },
            Root::Making => Some(self.making.as_slice()),
            Root::Stored(i) => self.stored_row(i),
            Root::Contract(i) => match self.contracts.get(i) {
                Some(contract) => Some(contract.value.as_slice()),
                None => None,
            },
        }
    }

    /// The node at the end of a way.
    pub fn reach(&self, way: &Way) -> Option<Node<'_>>
        ensures { option_map pure_node result ≡ ways.reached way.now.down.items (ways.row_at way.now.root self.now) }
    {
        match self.row(way.root) {
            Some(row) => node_at(row, way.down.as_slice()),
            None => None,
        }
    }

    /// The node at the end of a way, if it has a label.
    fn reach_labelled(&self, way: &Way, label: u64) -> Option<Node<'_>>
        ensures { option_map pure_node result ≡ ways.if_labelled label (ways.reached way.now.down.items (ways.row_at way.now.root self.now)) }
    {
        match self.reach(way) {
            Some(node) => {
                if holds_label(node.labels, label) {
                    return Some(node);
                }
                None
            }
            None => None,
        }
    }

    /// The node with a label, if its hint leads there; so it does behind `locate`. It takes no memory.
    fn hinted(&self, label: u64) -> Option<Node<'_>>
        ensures { IfSome result (λ n. (accounts : List states.Account) → IsReady accounts self.now → spec.at label (state_over accounts self.now) ≡ Some (pure_node n)) }
    {
        a_node_with_the_label_is_the_node();
        match self.hints.ways.get(hint_index(label)) {
            Some(way) => self.reach_labelled(way, label),
            None => None,
        }
    }

    /// The way to the node with a label in a row.
    fn way_in_row(&self, root: Root, label: u64) -> Result<Option<Way>, AllocError>
        ensures { IfOk result (λ o. MatchOption o (ways.found_in label (ways.row_at root self.now) ≡ None) (ways.Stands label self.now)) }
    {
        match self.row(root) {
            Some(row) => match way_to(*self.making.allocator(), row, label)? {
                Some(down) => Ok(Some(Way { root, down })),
                None => Ok(None),
            },
            None => Ok(None),
        }
    }

    /// The way to the node with a label in the rows of a call.
    fn way_in_call(&self, i: usize, label: u64) -> Result<Option<Way>, AllocError>
        ensures { IfOk result (λ o. MatchOption o (ways.NotIn label self.now i) (ways.Stands label self.now)) }
    {
        if let Some(way) = self.way_in_row(Root::Variables(i), label)? {
            return Ok(Some(way));
        }
        if let Some(way) = self.way_in_row(Root::Before(i), label)? {
            return Ok(Some(way));
        }
        match self.way_in_row(Root::Result(i), label)? {
            Some(way) => Ok(Some(way)),
            None => Ok(None),
        }
    }

    /// The way to the node with a label in the rows of all calls, those of the newest first.
    #[tactic(auto, using(crate::proofs::Standing::calls_turn, crate::proofs::Standing::calls_begin))]
    fn way_in_calls(&self, label: u64) -> Result<Option<Way>, AllocError>
        ensures { IfOk result (λ o. MatchOption o (spec.found_in_frames label (reverse (map frame_of self.now.calls.items)) ≡ None) (ways.Stands label self.now)) }
    {
        let mut i = self.calls.len();
        while 0 < i {
            i -= 1;
            if let Some(way) = self.way_in_call(i, label)? {
                return Ok(Some(way));
            }
        }
        Ok(None)
    }

    /// The way to the node with a label in what the accounts store that the run has.
    #[tactic(auto, using(crate::proofs::Standing::accounts_turn, crate::proofs::Standing::accounts_end))]
    fn way_in_accounts(&self, label: u64) -> Result<Option<Way>, AllocError>
        ensures { IfOk result (λ o. MatchOption o (ways.NotStored label self.now) (ways.Stands label self.now)) }
    {
        for n in 0..self.account_count() {
            let root = Root::Stored(self.account_index(n));
            if let Some(way) = self.way_in_row(root, label)? {
                return Ok(Some(way));
            }
        }
        Ok(None)
    }

    /// The way to the node with a label in the values of all contracts.
    #[tactic(auto, using(crate::proofs::Standing::contracts_turn, crate::proofs::Standing::contracts_end))]
    fn way_in_contracts(&self, label: u64) -> Result<Option<Way>, AllocError>
        ensures { IfOk result (λ o. MatchOption o (spec.found_in_contracts label (map contract_of self.now.contracts.items) ≡ None) (ways.Stands label self.now)) }
    {
        for i in 0..self.contracts.len() {
            if let Some(way) = self.way_in_row(Root::Contract(i), label)? {
                return Ok(Some(way));
            }
        }
        Ok(None)
    }

    /// The way to the node with a label.
    #[tactic(auto, using(crate::proofs::Standing::nowhere))]
    fn way(&self, label: u64) -> Result<Option<Way>, AllocError>
        ensures { IfOk result (λ o. MatchOption o ((accounts : List states.Account) → spec.found_in_accounts label accounts ≡ None → spec.at label (state_over accounts self.now) ≡ None) (ways.Stands label self.now)) }
    {
        if let Some(way) = self.way_in_calls(label)? {
            return Ok(Some(way));
        }
        if let Some(way) = self.way_in_row(Root::Making, label)? {
            return Ok(Some(way));
        }
        if let Some(way) = self.way_in_accounts(label)? {
            return Ok(Some(way));
        }
        match self.way_in_contracts(label)? {
            Some(way) => Ok(Some(way)),
            None => Ok(None),
        }
    }

    /// The node with a label, by a search in all rows. None too where memory ran out.
    fn searched(&self, label: u64) -> Option<Node<'_>>
        ensures { IfSome result (λ n. (accounts : List states.Account) → IsReady accounts self.now → spec.at label (state_over accounts self.now) ≡ Some (pure_node n)) }
    {
        a_node_with_the_label_is_the_node();
        match self.way(label) {
            Ok(Some(way)) => self.reach_labelled(&way, label),
            _ => None,
        }
    }

    /// The node with a label, by its hint or else by a search. None where no node has it, and where memory ran out. Behind
    /// `locate` it takes no memory and no search, unless another label's hint has taken the place of this one's since.
    pub fn node(&self, label: u64) -> Option<Node<'_>>
        ensures { IfSome result (λ n. (accounts : List states.Account) → IsReady accounts self.now → spec.at label (state_over accounts self.now) ≡ Some (pure_node n)) }
    {
        match self.hinted(label) {
            Some(node) => Some(node),
            None => self.searched(label),
        }
    }

    /// Keeps the way to a label's node as its hint.
    fn keep(&mut self, label: u64, way: Way) -> Result<(), AllocError>
        ensures { (accounts : List states.Account) → state_over accounts self.new ≡ state_over accounts self.old }
    {
        self.hints.keep(label, way)
    }

    /// Whether there is a node with a label. Where there is, its hint leads there from then on.
    #[tactic(auto, using(crate::proofs::Standing::standing_there))]
    pub fn locate(&mut self, label: u64) -> Result<bool, AllocError>
        ensures same { (accounts : List states.Account) → state_over accounts self.new ≡ state_over accounts self.old }
        ensures found { IfOk result (λ b. (accounts : List states.Account) → IsReady accounts self.old → ways.is_there (spec.at label (state_over accounts self.old)) ≡ b) }
    {
        if let Some(_) = self.hinted(label) {
            return Ok(true);
        }
        match self.way(label)? {
            Some(way) => {
                self.keep(label, way)?;
                Ok(true)
            }
            None => Ok(false),
        }
    }
}
