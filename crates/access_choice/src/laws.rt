// A law of the definitions, named by the contract of a function that does nothing.
ghost use Rattle.access_choice.specs.Choices.{ChoiceHasNoValues};

/// What is chosen, and which keys are missing, doesn't depend on the values of conditions.
pub fn choice_has_no_values()
    ensures { ChoiceHasNoValues }
{}
