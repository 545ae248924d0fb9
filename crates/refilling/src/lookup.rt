// Where a product by a variable stands among the stairs and among the lines.
ghost use Rattle.std.specs.Prelude.{◌≡◌, ℕ, ◌<◌, false, length, MatchOption};
ghost use Rattle.monomials.specs.Monomials.{mono};
ghost use Rattle.rows.specs.Lines.{monomial_of, line as line_at, is_stair};
ghost use Rattle.refilling.specs.Borders.{IsProduct, stairs as number_of_stairs, stair_at};

use crate::border::Border;
use crate::product::is_product;
use fields::Field;
use rows::{Line, Verdict};

impl<'a, F: Field> Border<'a, F> {
    // The number of the first stair that is the product.
    pub(crate) fn find_stair(&self, factor: &[u16; 4], variable: usize) -> Option<usize>
        ensures { MatchOption result ((i : ℕ) → i < number_of_stairs self.now.lines.now → IsProduct (mono factor.now) variable (stair_at self.now.lines.now i) → ⊥) (λ i. (i < number_of_stairs self.now.lines.now) × IsProduct (mono factor.now) variable (stair_at self.now.lines.now i)) }
    {
        self.stairs
            .iter()
            .position(|stair| is_product(factor, variable, stair))
    }

    // The first relation that the product leads.
    pub(crate) fn find_relation(&self, factor: &[u16; 4], variable: usize) -> Option<&Line>
        ensures { MatchOption result ((i : ℕ) → i < length self.now.lines.now → is_stair (line_at self.now.lines.now i) ≡ false → IsProduct (mono factor.now) variable (monomial_of (line_at self.now.lines.now i)) → ⊥) (λ line. (i : ℕ) × (i < length self.now.lines.now) × (line.now ≡ line_at self.now.lines.now i) × (is_stair (line_at self.now.lines.now i) ≡ false) × IsProduct (mono factor.now) variable (monomial_of (line_at self.now.lines.now i))) }
    {
        self.lines.iter().find(|line| {
            matches!(line.verdict, Verdict::Relation)
                && is_product(factor, variable, &line.monomial.exponents)
        })
    }
}
