ghost use Rattle.statement_words.specs.Laws.{CourseBegins, SourceBegins, ScanGoesOn, SourceGoesOn, AnswersAgree};

/// Before any scan a statement is at its first source, with one empty row.
#[tactic(auto, using(crate::proofs::Going::begins))]
pub fn course_begins()
    ensures { CourseBegins }
{}

/// A statement that is at a source is at the scans that its left rows ask for.
#[tactic(auto, using(crate::proofs::Going::source_starts))]
pub fn source_begins()
    ensures { SourceBegins }
{}

/// A statement that is at a scan goes on with the scan's rows, or stops as the scan does.
#[tactic(auto, using(crate::proofs::Going::goes_on))]
pub fn scan_goes_on()
    ensures { ScanGoesOn }
{}

/// A source goes on with the next scan of what is still missing; one of which nothing is missing isn't made.
#[tactic(auto, using(crate::proofs::Going::source_on))]
pub fn source_goes_on()
    ensures { SourceGoesOn }
{}

/// Two answers of one statement at the same versions are the same, and so are the scans that their notes name.
#[tactic(auto, using(crate::proofs::Going::agree))]
pub fn answers_agree()
    ensures { AnswersAgree }
{}
