//! Laws of the definitions that say how several of them fit together, each named by the contract of a function that does nothing.
//!
//! A kept scan that covers a request has its rows (`specs/Covered.antt`); a book that answers by leaving out items keeps what subset keys
//! promise (`FilteringBooks`); on a whole book nothing waits (`WholeBook`); a lawful scan makes lawful calls (`LawfulScans`); units are scans
//! of their connections, and without a cache true notes are fresh (`UnitsAndNotes`). For proofs alone.
#![tactic(auto)]

ghost use Rattle.model_laws.specs.Covered.{CoveredScanGivesTheRows};
ghost use Rattle.model_laws.specs.FilteringBooks.{FilteringBookKeepsSubsetKeys};
ghost use Rattle.model_laws.specs.LawfulScans.{LawfulScanMakesLawfulCalls};
ghost use Rattle.model_laws.specs.UnitsAndNotes.{UnitsAreScansOfTheirConnections, NotesAreFreshWithoutCache};
ghost use Rattle.model_laws.specs.WholeBook.{WholeBookHydrates, WholeBookHasValues};

/// Where subset keys only filter, a kept scan that covers a request has the rows of the request's own scan at the same version.
pub fn covered_scan_gives_the_rows()
    ensures { CoveredScanGivesTheRows }
{}

/// A book that answers list calls by leaving out the items for which a condition isn't true keeps what subset keys promise.
pub fn filtering_book_keeps_subset_keys()
    ensures { FilteringBookKeepsSubsetKeys }
{}

/// On a whole book each function whose dependencies are declared and never come back to it gives an outcome.
pub fn whole_book_hydrates()
    ensures { WholeBookHydrates }
{}

/// On a whole book each scan whose functions are so has a value: nothing waits.
pub fn whole_book_has_values()
    ensures { WholeBookHasValues }
{}

/// Whatever the answers are, a lawful scan uses and reaches lawful calls alone.
pub fn lawful_scan_makes_lawful_calls()
    ensures { LawfulScanMakesLawfulCalls }
{}

/// Each unit of a source is a scan of one of its connections, with conditions in canonical order that are sent on the keys.
pub fn units_are_scans_of_their_connections()
    ensures { UnitsAreScansOfTheirConnections }
{}

/// Without a cache each true note is of a fresh scan, at the version of the tick at which its rows were taken.
pub fn notes_are_fresh_without_cache()
    ensures { NotesAreFreshWithoutCache }
{}
