// A law of the definitions, named by the contract of a function that does nothing.

ghost use Rattle.sql_bind.specs.Answer.{BindsByItsConnections};

/// What is bound depends on the declarations of the connections that the statement's sources name, and on no other.
pub fn binds_by_its_connections()
    ensures { BindsByItsConnections }
{}
