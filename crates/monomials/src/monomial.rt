// A monomial of code: four exponents of 16 bits, those beyond the number of variables zero.
#[derive(Clone, Copy, Debug)]
pub struct Monomial {
    pub exponents: [u16; 4],
}
