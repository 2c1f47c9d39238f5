// The names of the declarations before, the last at the end, where the definitions have it in front.
ghost use Rattle.std.specs.Prelude.{◌≡◌, ◌++◌, ◌∷◌, [], IfOk, OnOk};
ghost use Rattle.cad_declarations.specs.Names.{has_name};

use cad_syntax::Name;
use std::alloc::{AllocError, Global};
use std::collections::HashSet;
use std::marker::Model;

/// The names of the declarations before, each found by its hash; contracts see the list of them.
#[derive(Drop)]
pub struct NamesBefore {
    all: Vec<Name>,
    known: HashSet<Name>,
}

impl Model for NamesBefore {
    ghost use Rattle.std.specs.Prelude.{List};
    ghost use Rattle.cad_syntax.specs.declared.text.Name.{Name as Each};
    ghost use Rattle.cad_stop_points.specs.Code.Before.{AreKnown};

    ghost Value = { List Each };

    ghost view = { λ before. before.all.items };

    ghost invariant = { λ before. AreKnown before.known before.all.items };
}

impl NamesBefore {
    /// No names.
    pub fn new(alloc: Global) -> NamesBefore
        ensures { result ≡ [] }
    {
        NamesBefore {
            all: Vec::new(alloc),
            known: HashSet::new(alloc),
        }
    }

    /// Whether a name is one of them.
    pub fn has(&self, name: &Name) -> bool
        ensures { result ≡ has_name self.now name.now }
    {
        self.known.contains(name)
    }

    /// Appends a name. After want of memory they are as they were.
    pub fn push(&mut self, name: Name) -> Result<(), AllocError>
        ensures { OnOk result (self.new ≡ self.old ++ name ∷ []) }
    {
        self.known.reserve(1)?;
        let copy = name.clone()?;
        self.all.push(name)?;
        self.known.insert(copy)?;
        Ok(())
    }

    /// A copy.
    pub fn copy(&self, alloc: Global) -> Result<NamesBefore, AllocError>
        ensures { IfOk result (λ copy. copy ≡ self.now) }
    {
        copied(alloc, self.all.as_slice())
    }
}

/// These names.
fn copied(alloc: Global, names: &[Name]) -> Result<NamesBefore, AllocError>
    ensures { IfOk result (λ copy. copy ≡ names.now) }
{
    let mut copy = NamesBefore::new(alloc);
    for name in names {
        copy.push(name.clone()?)?;
    }
    Ok(copy)
}
