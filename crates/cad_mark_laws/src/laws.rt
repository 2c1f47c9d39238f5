// Laws of marks.
ghost use Rattle.cad_paths.specs.Marks.{LinearHasMarks};
ghost use Rattle.cad_mark_laws.specs.Laws.{
  FunctionsHaveMarks,
  LoopsAreStable,
  SetFieldsHaveMarks,
  TransactionsHaveMarks,
};

/// A body whose lives are linear has marks.
pub fn linear_has_marks()
    ensures { LinearHasMarks }
{}

/// An elaborated function whose lives are linear has marks.
pub fn functions_have_marks()
    ensures { FunctionsHaveMarks }
{}

/// An elaborated transaction whose lives are linear has marks.
pub fn transactions_have_marks()
    ensures { TransactionsHaveMarks }
{}

/// What sets its fields on every path, and before they are used, has marks.
pub fn set_fields_have_marks()
    ensures { SetFieldsHaveMarks }
{}

/// A loop's marks hold before each of its turns.
pub fn loops_are_stable()
    ensures { LoopsAreStable }
{}
