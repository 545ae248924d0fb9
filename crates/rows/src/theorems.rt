// The theorems on rows, each on the contract of a call. They hold for every lawful subject, field and order.
ghost use Rattle.rows.specs.Theorems.{RowIsOne, BasisIsOne, LineIsOne, KeptAreFirst, FinishedAreAll, NextIsNext, FinishedIsDecided};
ghost use Rattle.rows.specs.Theorems.{CodesContinue, PositionsContinue, CellsContinue, RemainderIsOne};

// A set-up has one row, and its ideal one reduced Groebner basis.
pub fn one_row()
    ensures row { RowIsOne }
    ensures basis { BasisIsOne }
{}

// After lines that stand, one line stands for each monomial.
pub fn one_line()
    ensures { LineIsOne }
{}

// Lines kept to a set-up are the first of its row, and all of it once they are finished.
pub fn kept_lines()
    ensures first { KeptAreFirst }
    ensures all { FinishedAreAll }
    ensures next { NextIsNext }
    ensures decided { FinishedIsDecided }
{}

// Codes on the staircase continue to one infinite array.
pub fn one_continuation()
    ensures codes { CodesContinue }
    ensures positions { PositionsContinue }
    ensures cells { CellsContinue }
{}

// A polynomial leaves one remainder on the staircase.
pub fn one_remainder()
    ensures { RemainderIsOne }
{}
