// Laws of first stops.
ghost use Rattle.cad_check.specs.Laws.{AcceptedTextsHaveNoStop, OneAcceptance, OneFirstStop, OneProgramStop};

/// A program, and a text, is refused by one phase and at one place.
pub fn one_stop()
    ensures program { OneProgramStop }
    ensures text { OneFirstStop }
{
    cad_lex::one_lexing();
    cad_lex::one_stop();
    cad_parse::one_program();
    cad_parse::one_refusal();
}

/// A text is checked to one program at most.
pub fn one_acceptance()
    ensures { OneAcceptance }
{
    cad_parse::one_program();
}

/// A text that is accepted is refused nowhere.
pub fn no_stop_of_accepted()
    ensures { AcceptedTextsHaveNoStop }
{
    cad_acceptance::laws::accepted_programs_have_no_stop();
    cad_lex::one_lexing();
    cad_lex::one_stop();
    cad_parse::one_program();
}
