//! What the limits promise.
ghost use Rattle.units.specs.Limits.{LimitsOfTheRules};

/// The limits, which definitions cite by their names, are the numbers of docs/RULES.md.
pub fn limits_are_those_of_the_rules()
    ensures { LimitsOfTheRules }
{}
