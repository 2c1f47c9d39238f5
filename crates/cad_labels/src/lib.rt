//! Labels: one that was given is never given again, and stands on one node. Laws of the actions on places alone.
#![tactic(auto)]

ghost use Rattle.cad_labels.specs.Laws.{ArraysGiveCopies, ArraysKeep, AssigningKeeps, BeginsWithout, CallsKeep, DestroyingKeeps, DictionariesKeep, EndingKeeps, ExchangingKeeps, FillingKeeps, FoundWasGiven, GoneStaysGone, InstallingKeeps, KeysHaveNone, LoadingKeeps, LooksKeep, MakingKeeps, NamingKeeps, ReferencesEndOnce, ResultsKeep, StoringKeeps, SwappingKeeps, TakingKeeps};

/// A run begins without labels.
pub fn runs_begin_without_labels()
    ensures { BeginsWithout }
{}

/// What is named gets a label that stands nowhere.
pub fn names_are_new()
    ensures { NamingKeeps }
{}

/// What is used is looked at, and named where it is stored.
pub fn looks_keep_labels()
    ensures { LooksKeep }
{}

/// A value that leaves its place loses its labels.
pub fn taking_keeps_labels()
    ensures { TakingKeeps }
{}

/// A value that comes to a place brings none.
pub fn filling_keeps_labels()
    ensures { FillingKeeps }
{}

/// Assignments.
pub fn assigning_keeps_labels()
    ensures { AssigningKeeps }
{}

/// Second values.
pub fn exchanging_keeps_labels()
    ensures { ExchangingKeeps }
{}

/// Swaps.
pub fn swapping_keeps_labels()
    ensures { SwappingKeeps }
{}

/// Variables that end.
pub fn ending_keeps_labels()
    ensures { EndingKeeps }
{}

/// What initializers make.
pub fn making_keeps_labels()
    ensures { MakingKeeps }
{}

/// Calls that begin and end.
pub fn calls_keep_labels()
    ensures { CallsKeep }
{}

/// Results, which are put aside while postconditions run.
pub fn results_keep_labels()
    ensures { ResultsKeep }
{}

/// What comes to an account.
pub fn storing_keeps_labels()
    ensures { StoringKeeps }
{}

/// What arrays give of themselves are copies.
pub fn arrays_give_copies()
    ensures { ArraysGiveCopies }
{}

/// Members that change an array.
pub fn arrays_keep_labels()
    ensures { ArraysKeep }
{}

/// The keys of a dictionary are values without labels.
pub fn keys_have_no_labels()
    ensures { KeysHaveNone }
{}

/// Members that change a dictionary.
pub fn dictionaries_keep_labels()
    ensures { DictionariesKeep }
{}

/// Resources that end.
pub fn destroying_keeps_labels()
    ensures { DestroyingKeeps }
{}

/// Values that are saved, loaded and copied.
pub fn loading_keeps_labels()
    ensures { LoadingKeeps }
{}

/// Contracts that are installed.
pub fn installing_keeps_labels()
    ensures { InstallingKeeps }
{}

/// What was gone isn't found again.
pub fn what_is_gone_stays_gone()
    ensures { GoneStaysGone }
{}

/// What is found has a label that had been given.
pub fn what_is_found_was_given()
    ensures { FoundWasGiven }
{}

/// A reference that leads nowhere any more never leads anywhere again.
pub fn references_end_once()
    ensures { ReferencesEndOnce }
{}
