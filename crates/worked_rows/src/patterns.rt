// Small patterns whose rows are known, as a check of what the definitions say.
ghost use Rattle.worked_rows.specs.Patterns.{WorkedPatterns};

// The rows of the worked patterns.
pub fn worked_patterns()
    ensures { WorkedPatterns }
{}
