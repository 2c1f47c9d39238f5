// What a program's tables rest on.
ghost use Rattle.cad_table_laws.specs.Laws.{AddingChangesNothing, ImportsAreEnough, MembersAreMet, OthersDontCount, ReachedAreClosed};

/// A program has the same tables, or is refused at the same name, beside the contracts that it imports alone.
pub fn imports_are_enough()
    ensures { ImportsAreEnough }
{}

/// So it has where one more contract is deployed that it doesn't import, at any depth.
pub fn others_do_not_count()
    ensures { OthersDontCount }
{}

/// What is reached leads to nothing else.
pub fn reached_are_closed()
    ensures { ReachedAreClosed }
{}

/// A type that meets an interface has its members.
pub fn members_are_met()
    ensures { MembersAreMet }
{}

/// A contract that is added changes no type that was there.
pub fn adding_changes_nothing()
    ensures { AddingChangesNothing }
{}
