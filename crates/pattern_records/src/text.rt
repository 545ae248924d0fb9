// A text line by line, as a pattern.
ghost use Rattle.std.specs.Prelude.{◌≡◌, ◌+◌, ◌⊎◌, ◌++◌, Some, codes, decimal, MatchResult};
ghost use Rattle.pattern_records.specs.Messages.{message};
ghost use Rattle.pattern_records.specs.Texts.{newlines, SaysText, RefusesText, NoText};

use crate::fault::Fault;
use crate::line::take_line;
use crate::pattern::Pattern;
use std::alloc::Global;
use std::fmt;
use std::str::from_utf8;

// A line at fault, counted from 1.
#[derive(Debug, Drop)]
pub struct LineFault {
    line: usize,
    fault: Fault,
}

impl fmt::Display for LineFault {
    ghost output = { λ e. Some (codes "line " ++ (decimal e.line ++ (codes ": " ++ message e.fault))) };

    fn fmt<W: fmt::Write>(&self, f: &mut fmt::Formatter<W>) -> fmt::Result {
        let line = self.line;
        let fault = &self.fault;
        write!(f, "line {line}: {fault}")
    }
}

// The line, counted from 1, in which bytes end.
fn line_after(bytes: &[u8]) -> usize
    ensures { result ≡ 1 + newlines bytes.now }
{
    1 + bytes.iter().filter(|byte| **byte == b'\n').count()
}

// What the lines of a text say.
fn said(heap: Global, text: &str) -> Result<Pattern, LineFault>
    ensures { MatchResult result (SaysText text.now) (RefusesText text.now) }
{
    let mut pattern = Pattern::new(heap);
    for (read, line) in text.lines().enumerate() {
        if let Err(fault) = take_line(heap, &mut pattern, line) {
            return Err(LineFault {
                line: read + 1,
                fault,
            });
        }
    }
    Ok(pattern)
}

// What bytes say, which are to be UTF-8 text.
pub fn pattern_of(heap: Global, bytes: &[u8]) -> Result<Pattern, LineFault>
    ensures { MatchResult result (SaysText bytes.now) (λ e. RefusesText bytes.now e ⊎ NoText bytes.now e) }
{
    match from_utf8(bytes) {
        Ok(text) => said(heap, text),
        Err(fault) => Err(LineFault {
            line: line_after(&bytes[0..fault.valid_up_to()]),
            fault: Fault::NotText,
        }),
    }
}
