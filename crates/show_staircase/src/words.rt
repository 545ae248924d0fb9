// The words of a listing.
ghost use Rattle.std.specs.Prelude.{Decides};
ghost use Rattle.show_staircase.specs.Readings.{Lacks, Number, ReadsExponent, Codes, Counting, GroundAt, RefusalLine};

// The largest exponent that is drawn.
const LARGEST: u16 = 98;

// Whether a word writes a number.
fn is_number(word: &str) -> bool
    ensures { Decides result (Number word.now) }
{
    word.parse::<u64>().is_ok()
}

// The exponent that a word writes, if it is one that is drawn.
pub fn exponent(word: &str) -> Option<u16>
    ensures { ReadsExponent word.now result }
{
    word.parse().ok().filter(|exponent| *exponent <= LARGEST)
}

// Whether a text has digits and spaces only.
pub fn are_codes(text: &str) -> bool
    ensures { Decides result (Codes text.now) }
{
    text.bytes()
        .all(|byte| byte == b' ' || byte.is_ascii_digit())
}

// Whether a line is the word, which has no space, and a number.
pub fn is_counting(line: &str, word: &str) -> bool
    ensures { Lacks 32 word.now → Decides result (Counting word.now line.now) }
{
    line.split_once(' ')
        .is_some_and(|(first, number)| first == word && is_number(number))
}

// Whether a text is the ground and the place of a refusal.
fn is_ground_at(text: &str) -> bool
    ensures { Decides result (GroundAt text.now) }
{
    text.split_once(' ').is_some_and(|(ground, tail)| is_number(ground) && is_counting(tail, "at"))
}

// Whether a line is that of a refusal.
pub fn is_refusal(line: &str) -> bool
    ensures { Decides result (RefusalLine line.now) }
{
    line.split_once(' ')
        .is_some_and(|(word, rest)| word == "refused" && is_ground_at(rest))
}
