// A line of the text, as a keyword with its numbers.
ghost use Rattle.std.specs.Prelude.{MatchResult};
ghost use Rattle.std.specs.Str.Iter.{split_whitespace_rest};
ghost use Rattle.pattern_records.specs.Lines.{States, StatesNothing, TakesWords, RefusesWords, TakesLine, RefusesLine};
ghost use Rattle.pattern_records.specs.Reading.{Number, NoNumber, Reads, NotRead, Opened, NotOpened};

use crate::fault::Fault;
use crate::keyword::Keyword;
use crate::pattern::Pattern;
use std::alloc::Global;
use std::str::SplitWhitespace;

// A number of 16 bits, in decimal digits.
fn number(heap: Global, word: &str) -> Result<u16, Fault>
    ensures { MatchResult result (Number word.now) (NoNumber word.now) }
{
    word.parse::<u16>().try_map_err(|_| {
        let word = String::from_str(heap, word)?;
        Ok(Fault::NotNumber(word))
    })
}

// The numbers that the words are.
fn numbers(heap: Global, words: SplitWhitespace) -> Result<Vec<u16>, Fault>
    ensures { MatchResult result (λ read. Reads (split_whitespace_rest words.entry) read.items) (NotRead (split_whitespace_rest words.entry)) }
{
    let mut numbers = Vec::new(heap);
    for word in words {
        numbers.push(number(heap, word)?)?;
    }
    Ok(numbers)
}

// The keyword that begins with a word, and goes on with the next where it is order.
fn opening(heap: Global, first: &str, words: &mut SplitWhitespace) -> Result<Keyword, Fault>
    ensures { MatchResult result (λ keyword. Opened first.now (split_whitespace_rest words.old) keyword (split_whitespace_rest words.new)) (NotOpened first.now (split_whitespace_rest words.old)) }
{
    match first {
        "order" => {
            let second = words.next().ok_or(Fault::Wants(Keyword::Lexicographic))?;
            Keyword::of_order(second).ok_or(Fault::Wants(Keyword::Lexicographic))
        }
        _ => Keyword::of_word(first).try_ok_or_else(|| {
            let word = String::from_str(heap, first)?;
            Ok(Fault::Unknown(word))
        }),
    }
}

// The keyword and the numbers of a line, from its first word and the others.
fn statement(
    heap: Global,
    first: &str,
    mut words: SplitWhitespace,
) -> Result<(Keyword, Vec<u16>), Fault>
    ensures { MatchResult result (λ said. States first.now (split_whitespace_rest words.entry) said.0 said.1.items) (StatesNothing first.now (split_whitespace_rest words.entry)) }
{
    let keyword = opening(heap, first, &mut words)?;
    let numbers = numbers(heap, words)?;
    Ok((keyword, numbers))
}

// Takes up what the words of a line say.
fn take_words(
    heap: Global,
    pattern: &mut Pattern,
    first: &str,
    words: SplitWhitespace,
) -> Result<(), Fault>
    ensures { MatchResult result (λ _. TakesWords first.now (split_whitespace_rest words.entry) pattern.old pattern.new) (RefusesWords first.now (split_whitespace_rest words.entry) pattern.old) }
{
    let (keyword, numbers) = statement(heap, first, words)?;
    pattern.take(keyword, numbers.as_slice())
}

// Takes up what the line says; a blank line and a comment say nothing.
pub fn take_line(heap: Global, pattern: &mut Pattern, line: &str) -> Result<(), Fault>
    ensures { MatchResult result (λ _. TakesLine line.now pattern.old pattern.new) (RefusesLine line.now pattern.old) }
{
    let mut words = line.split_whitespace();
    let Some(first) = words.next() else {
        return Ok(());
    };
    if first.as_bytes()[0] == b'#' {
        return Ok(());
    }
    take_words(heap, pattern, first, words)
}
