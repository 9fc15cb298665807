ghost use Rattle.decl_words.specs.Sound.{BookTablesAreSound};

/// The tables that a book's connections declare are sound.
pub fn book_tables_are_sound()
    ensures { BookTablesAreSound }
{}
