ghost use Rattle.worked_values.specs.Lawful.{AttemptsAreOfTheRule, ListHasItsKeys, ParentIsDeclared, GetHasItsKeys, FunctionHasItsResults, TableIsDeclared, RequestNamesTheDeclaredFunction};

/// Lawful calls, and calls that are not.
pub fn lawful_calls()
    ensures attempts_are_of_the_rule { AttemptsAreOfTheRule }
    ensures list_has_its_keys { ListHasItsKeys }
    ensures parent_is_declared { ParentIsDeclared }
    ensures get_has_its_keys { GetHasItsKeys }
    ensures function_has_its_results { FunctionHasItsResults }
    ensures table_is_declared { TableIsDeclared }
    ensures request_names_the_declared_function { RequestNamesTheDeclaredFunction }
{}
