// Laws of the definitions, which hold of every value.
ghost use Rattle.std.specs.Prelude.{◌≡◌};
ghost use Rattle.cad_grammar.specs.declared.expression.BinaryOperator.{BinaryOperator};
ghost use Rattle.cad_world.specs.Rows.{Tree};
ghost use Rattle.cad_world.specs.State as state;
ghost use Rattle.cad_world.specs.State.{State};
ghost use Rattle.cad_evaluation.specs.Operators.{binary};
ghost use Rattle.cad_operators.specs.Answers.{answer, charge, with_charge};

/// An operator is its answer, and then the units of a comparison.
pub fn answers_are_charged()
    ensures { (op : BinaryOperator) (a b : Tree) (s : State) → binary op a b s ≡ with_charge op a b s }
{}
