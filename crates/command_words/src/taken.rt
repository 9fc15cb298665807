ghost use Rattle.command_words.specs.Taken.{Plain, InForms, OtherCommands, Refused, RefusedNumbers};

/// Words that are taken, and words that are not: values of the definition, which the checker computes.
pub fn taken_words()
    ensures plain { Plain }
    ensures in_forms { InForms }
    ensures other_commands { OtherCommands }
    ensures refused { Refused }
    ensures refused_numbers { RefusedNumbers }
{}
