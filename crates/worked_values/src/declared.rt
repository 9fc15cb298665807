ghost use Rattle.worked_values.specs.Declared.{BookDeclaresItsTable, RefusedDeclarationHasNoTable, RequestsAreOfTheTable, OddRequestsAreNot};

/// The tables that a book's connections declare.
pub fn tables_of_a_book()
    ensures book_declares_its_table { BookDeclaresItsTable }
    ensures refused_declaration_has_no_table { RefusedDeclarationHasNoTable }
{}

/// Requests of a table, and requests that are not.
pub fn requests_of_a_table()
    ensures requests_are_of_the_table { RequestsAreOfTheTable }
    ensures odd_requests_are_not { OddRequestsAreNot }
{}
