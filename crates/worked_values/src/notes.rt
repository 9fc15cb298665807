ghost use Rattle.worked_values.specs.Notes.{FreshNoteIsTrue, CachedNoteIsTrue, OldNoteIsFalse, CachedNoteNeedsACache, NoteOfOtherVersionIsFalse, NoteBeforeItsStatementIsFalse, FreshNoteOfOldRowsIsFalse};

/// True notes, and notes that are not.
pub fn true_notes()
    ensures fresh_note_is_true { FreshNoteIsTrue }
    ensures cached_note_is_true { CachedNoteIsTrue }
    ensures old_note_is_false { OldNoteIsFalse }
    ensures cached_note_needs_a_cache { CachedNoteNeedsACache }
    ensures note_of_other_version_is_false { NoteOfOtherVersionIsFalse }
    ensures note_before_its_statement_is_false { NoteBeforeItsStatementIsFalse }
    ensures fresh_note_of_old_rows_is_false { FreshNoteOfOldRowsIsFalse }
{}
