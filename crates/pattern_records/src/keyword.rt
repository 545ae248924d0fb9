// The keywords that a line may begin with. A word means one alone and another after order, so neither reading is the one of TryFrom.
ghost use Rattle.std.specs.Prelude.{◌≡◌, Some, MatchOption, ◌≢◌};
ghost use Rattle.pattern_records.specs.Words.{alone, after_order};
ghost use Rattle.pattern_records.specs.declared.keyword.Keyword.{Keyword};

#[derive(Clone, Copy, PartialEq, Eq, Debug)]
pub enum Keyword {
    Modulus,
    Degree,
    Lexicographic,
    Graded,
    Weighted,
    Period,
    Cells,
}

impl Keyword {
    // The keyword of one word.
    pub fn of_word(word: &str) -> Option<Keyword>
        ensures { MatchOption result ((k : Keyword) → alone k ≢ Some word.now) (λ k. alone k ≡ Some word.now) }
    {
        match word {
            "modulus" => Some(Keyword::Modulus),
            "degree" => Some(Keyword::Degree),
            "period" => Some(Keyword::Period),
            "cells" => Some(Keyword::Cells),
            _ => None,
        }
    }

    // The keyword that begins with the word order and goes on with this word.
    pub fn of_order(word: &str) -> Option<Keyword>
        ensures { MatchOption result ((k : Keyword) → after_order k ≢ Some word.now) (λ k. after_order k ≡ Some word.now) }
    {
        match word {
            "lexicographic" => Some(Keyword::Lexicographic),
            "graded" => Some(Keyword::Graded),
            "weighted" => Some(Keyword::Weighted),
            _ => None,
        }
    }
}
