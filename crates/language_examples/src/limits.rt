//! The limits of the language.
ghost use Rattle.language_examples.specs.Limits.{IsTheLongest, LimitOfRanks, LimitsOfCalls, LimitsOfGroups};
ghost use Rattle.language_examples.specs.Limits.{LimitsOfMemory};
ghost use Rattle.language_examples.specs.Limits.{LimitsOfNumbers, LimitsOfValues, TooLongIsRefused};

/// Numbers, groups and values at their limits and past them.
pub fn limits_of_a_line()
    ensures ranks { LimitOfRanks }
    ensures numbers { LimitsOfNumbers }
    ensures groups { LimitsOfGroups }
    ensures values { LimitsOfValues }
{}

/// The totals of a script: 65,536 bytes of memory, and 65,536 calls after repeats.
pub fn limits_of_a_script()
    ensures memory { LimitsOfMemory }
    ensures longest { IsTheLongest }
    ensures calls { LimitsOfCalls }
{}

/// A text has at most 1,048,576 bytes.
pub fn limit_of_a_text()
    ensures { TooLongIsRefused }
{}
