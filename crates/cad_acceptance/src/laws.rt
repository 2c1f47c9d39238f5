// Laws of acceptance.
ghost use Rattle.cad_acceptance.specs.Laws.{AcceptedHaveNoStop};

/// No phase refuses a program that is accepted.
pub fn accepted_programs_have_no_stop()
    ensures { AcceptedHaveNoStop }
{}
