// A field of codes 0 to q − 1, where 0 and 1 are its zero and one.
// A code at or above q counts as its remainder by q.
ghost use Rattle.std.specs.Prelude.{◌≡◌, ℕ, ◌≤◌, MatchResult};
ghost use Rattle.faults.specs.declared.arithmetic.ArithmeticFault.TheVariants.{Unlisted};
ghost use Rattle.fields.specs.Arithmetic.{Arithmetic, FieldLaws, InverseOf};

use faults::ArithmeticFault;

pub trait Field {
    // The largest order that this kind of field admits.
    const LARGEST: u32;

    ghost LARGEST: { ℕ };

    // What the field means: its order, sum, negative and product.
    ghost arithmetic: { Self → Arithmetic };

    fn order(&self) -> u32
        ensures { result ≡ (arithmetic self.now).order };

    fn sum(&self, a: u16, b: u16) -> u16
        ensures { result ≡ (arithmetic self.now).sum a b };

    fn negative(&self, a: u16) -> u16
        ensures { result ≡ (arithmetic self.now).negative a };

    fn product(&self, a: u16, b: u16) -> u16
        ensures { result ≡ (arithmetic self.now).product a b };

    // A code and a product, summed.
    fn multiply_add(&self, a: u16, factor: u16, b: u16) -> u16
        ensures { result ≡ (arithmetic self.now).sum a ((arithmetic self.now).product factor b) };

    // Absent exactly for zero.
    fn inverse(&self, a: u16) -> Option<u16>
        ensures { InverseOf (arithmetic self.now) a result };

    ghost laws: { (f : Self) → FieldLaws (arithmetic f) };

    ghost admitted: { (f : Self) → (arithmetic f).order ≤ LARGEST };

    ghost bounded: { LARGEST ≤ 65521 };
}

// A kind of field that has a field for each number of a list: residues for moduli, binary fields for degrees.
pub trait ListedField: Field {
    // The numbers of the list.
    ghost listed: { ℕ → Type 0 };

    // The field that a number names.
    ghost named: { ℕ → Arithmetic };

    // The field of a listed number.
    fn new(number: u16) -> Result<Self, ArithmeticFault>
        ensures made { MatchResult result (λ f. (Self.arithmetic f ≡ named number) × listed number) (λ e. (e ≡ Unlisted) × (listed number → ⊥)) };
}
