// What a refusal answers, whichever layer it comes from.
ghost use Rattle.std.specs.Prelude.{Some};
ghost use Rattle.faults.specs.Texts.{refusal_text};
ghost use Rattle.faults.specs.declared.refusal.Refusal.{Refusal};

use std::fmt;

// The layer that refuses.
#[derive(Clone, Copy, PartialEq, Eq, Debug)]
pub enum Layer {
    File,
    Arithmetic,
    Subject,
    Worksheet,
}

// The number of the ground, the first place at fault (0 where the ground has no places), and the layer.
// The ground is a number, as it is printed; the faults themselves are enums.
#[derive(Clone, Copy, PartialEq, Eq, Debug)]
pub struct Refusal {
    pub ground: u8,
    pub place: usize,
    pub layer: Layer,
}

// Printed as `refused G at P`.
impl fmt::Display for Refusal {
    ghost output = { λ r. Some (refusal_text r) };

    fn fmt<W: fmt::Write>(&self, f: &mut fmt::Formatter<W>) -> fmt::Result {
        let ground = self.ground;
        let place = self.place;
        write!(f, "refused {ground} at {place}")
    }
}
