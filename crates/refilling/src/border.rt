// The border of the stairs among some lines: their products by the first variables, over a field.
ghost use Rattle.std.specs.Prelude.{◌≡◌, ◌<◌, ◌≤◌, ◌⊎◌, MatchOption, slice_index};
ghost use Rattle.fields.specs.Arithmetic.{total};
ghost use Rattle.refilling.specs.Borders.{stairs as number_of_stairs, exponents_of_stairs};

use arrayvec::ArrayVec;
use fields::Field;
use rows::{Line, Verdict};

#[derive(Drop)]
pub struct Border<'a, F> {
    pub field: &'a F,
    pub variables: usize,
    pub lines: &'a [Line],
    // the exponents of each stair; a monomial has no default, which an element of the vector needs
    pub stairs: ArrayVec<[u16; 4], 64>,
    ghost four: { variables ≤ 4 },
    ghost few: { number_of_stairs lines.now ≤ 64 },
    ghost listed: { stairs.items ≡ exponents_of_stairs lines.now },
}

// The exponents of the stairs among some lines; absent where there are more than 64.
fn list_stairs(lines: &[Line]) -> Option<ArrayVec<[u16; 4], 64>>
    ensures { MatchOption result (64 < number_of_stairs lines.now) (λ s. (number_of_stairs lines.now ≤ 64) × (s.items ≡ exponents_of_stairs lines.now)) }
{
    let mut stairs = ArrayVec::new();
    for line in lines {
        if let Verdict::Stair = line.verdict {
            stairs.try_push(line.monomial.exponents).ok()?;
        }
    }
    Some(stairs)
}

impl<'a, F: Field> Border<'a, F> {
    // The border of the stairs among the lines; absent where there are more than 64, or more than four variables.
    pub fn new(field: &'a F, variables: usize, lines: &'a [Line]) -> Option<Border<'a, F>>
        ensures { MatchOption result ((4 < variables) ⊎ (64 < number_of_stairs lines.now)) (λ b. (b.field.now ≡ field.now) × (b.variables ≡ variables) × (b.lines.now ≡ lines.now)) }
    {
        if variables > 4 {
            return None;
        }
        let stairs = list_stairs(lines)?;
        Some(Border {
            field,
            variables,
            lines,
            stairs,
        })
    }

    // How many stairs there are.
    pub fn count(&self) -> usize
        ensures all { result ≡ number_of_stairs self.now.lines.now }
        ensures few { result ≤ 64 }
    {
        self.stairs.len()
    }

    // The sum of codes at the stairs, each times a value there.
    pub fn combination(&self, codes: &[u16; 64], values: &[u16; 64]) -> u16
        ensures { result ≡ total (F.Field.arithmetic self.now.field.now) (number_of_stairs self.now.lines.now) (λ i. (F.Field.arithmetic self.now.field.now).product (slice_index codes.now i) (slice_index values.now i)) }
    {
        let count = self.count();
        codes[..count].iter().zip(&values[..count]).fold(
            0,
            |sum, (code, value)| self.field.multiply_add(sum, *code, *value),
        )
    }
}
