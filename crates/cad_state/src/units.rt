// Units: what a run may still do.
ghost use Rattle.cad_outcomes.specs.Outcomes.{no_value};
ghost use Rattle.cad_rows.specs.Views.{pure_tree};
ghost use Rattle.cad_state.specs.Views.{CarriesOut};
ghost use Rattle.cad_syntax.specs.Types.{pure_type};
ghost use Rattle.cad_world.specs.State as spec;
ghost use Rattle.cad_world.specs.Transfers as transfers;

use crate::state::RunState;
use cad_outcomes::{RunError, Stop};
use cad_rows::{Tree, come_to, discard_tree, tree_height, tree_weight};
use cad_syntax::CadType;

impl RunState {
    /// Takes `n` units; the limit where fewer are left.
    pub fn spend(&mut self, n: u64) -> Result<(), Stop>
        ensures { CarriesOut no_value (spec.spend n) self.old self.new result }
    {
        if n <= self.units {
            self.units -= n;
            return Ok(());
        }
        Err(Stop::Limit)
    }

    /// Takes one unit: of a statement, a turn or a call.
    pub fn tick(&mut self) -> Result<(), Stop>
        ensures { CarriesOut no_value spec.tick self.old self.new result }
    {
        self.spend(1)
    }

    /// A value is handed over, compared or ended: 123 where it is too high, and a unit for each part but the first.
    #[tactic(auto, using(crate::proofs::Spending::too_high, crate::proofs::Spending::charges))]
    pub fn charge(&mut self, tree: &Tree) -> Result<(), Stop>
        ensures { CarriesOut no_value (transfers.charged (pure_tree tree.now)) self.old self.new result }
    {
        let height = tree_height(tree);
        if 256 < height {
            return Err(Stop::Failed(RunError::TooLarge));
        }
        let weight = tree_weight(tree);
        if weight == u64::MAX {
            return Err(Stop::Memory);
        }
        self.spend(weight.saturating_sub(1))
    }

    /// A value that is charged becomes what comes to a place of a type.
    #[tactic(auto, using(crate::proofs::Spending::hands_over, crate::proofs::Spending::hands_nothing))]
    pub fn hand_over(&mut self, tree: &mut Tree, declared: &CadType) -> Result<(), Stop>
        ensures { CarriesOut (λ _. pure_tree tree.new) (transfers.transferred (pure_type declared.now) (pure_tree tree.old)) self.old self.new result }
    {
        match self.charge(tree) {
            Ok(()) => match come_to(tree, declared) {
                Ok(()) => Ok(()),
                Err(_) => Err(Stop::Memory),
            },
            Err(stop) => Err(stop),
        }
    }

    /// A value is handed over to a place of a type. Where that fails, it is let go.
    pub fn transfer(&mut self, tree: Tree, declared: &CadType) -> Result<Tree, Stop>
        ensures { CarriesOut pure_tree (transfers.transferred (pure_type declared.now) (pure_tree tree)) self.old self.new result }
    {
        let mut own = tree;
        match self.hand_over(&mut own, declared) {
            Ok(()) => Ok(own),
            Err(stop) => {
                discard_tree(own);
                Err(stop)
            }
        }
    }
}
