// What is declared.
ghost use Rattle.std.specs.Prelude.{◌≡◌};
ghost use Rattle.cad_types.specs.Views.{declarations};
ghost use Rattle.cad_declarations.specs.Kinds.{kinds_of};
ghost use Rattle.cad_declarations.specs.Views.{tables_of};
ghost use Rattle.cad_environment.specs.Same.{SameDeclarations, SameDeclarations-prop};

use cad_declarations::Tables;
use cad_types::DeclaredTypes;

/// What is declared in a program and in all that it imports: its tables, and the declared types of these.
#[derive(Clone, Copy)]
pub struct Known<'a> {
    pub tables: &'a Tables,
    pub kinds: &'a DeclaredTypes,
    pub ghost same: { SameDeclarations (declarations kinds.now) (kinds_of (tables_of tables.now)) } by { SameDeclarations-prop (declarations kinds.now) (kinds_of (tables_of tables.now)) },
}

impl<'a> Known<'a> {
    /// Tables, and the declared types that `Tables::kinds` makes of them.
    #[tactic(auto, using(crate::proofs::Told::same))]
    pub fn new(tables: &'a Tables, kinds: &'a DeclaredTypes) -> Known<'a>
        requires { declarations kinds.now ≡ kinds_of (tables_of tables.now) }
        ensures tables { tables_of result.tables.now ≡ tables_of tables.now }
    {
        Known { tables, kinds }
    }

    /// The declared types of its tables.
    #[tactic(auto, using(crate::proofs::Told::tells))]
    pub fn declared(self) -> &'a DeclaredTypes
        ensures { declarations result.now ≡ kinds_of (tables_of self.entry.tables.now) }
    {
        self.kinds
    }
}
