// What stands at each monomial u^i v^j of a listing.
ghost use Rattle.std.specs.Prelude.{◌≡◌};
ghost use Rattle.show_staircase.specs.Marks.{is_at, listed_as, mark_at};

use rows::Verdict;

// The exponents of a monomial u^i v^j.
#[derive(Clone, Copy)]
pub struct Exponents {
    pub u: u16,
    pub v: u16,
}

// A listed monomial with its verdict.
#[derive(Clone, Copy)]
pub struct Listed {
    pub exponents: Exponents,
    pub verdict: Verdict,
}

#[derive(Clone, Copy)]
pub enum Mark {
    Stair,
    Lead,
    Rest,
}

impl Listed {
    // Whether this is the monomial with the exponents, and has the verdict.
    fn is_at(&self, verdict: Verdict, u: usize, v: usize) -> bool
        ensures { result ≡ is_at verdict u v self.now }
    {
        self.verdict == verdict && self.exponents.u as usize == u && self.exponents.v as usize == v
    }
}

// Whether the monomial with the exponents is listed with the verdict.
fn is_listed(listed: &[Listed], verdict: Verdict, u: usize, v: usize) -> bool
    ensures { result ≡ listed_as verdict listed.now u v }
{
    listed.iter().any(|monomial| monomial.is_at(verdict, u, v))
}

// The mark at the monomial with the exponents.
pub fn mark_at(listed: &[Listed], u: usize, v: usize) -> Mark
    ensures { result ≡ mark_at listed.now u v }
{
    if is_listed(listed, Verdict::Stair, u, v) {
        Mark::Stair
    } else if is_listed(listed, Verdict::Relation, u, v) {
        Mark::Lead
    } else {
        Mark::Rest
    }
}
