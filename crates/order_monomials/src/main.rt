// Prints the monomials of degree up to 3 in two variables, ascending under each of four orders.
#![tactic(auto)]

mod ascending;
mod listed;
mod text;

use anyhow::anyhow;
use ascending::sort;
use listed::up_to_degree_three;
use monomials::{Graded, Lexicographic, MonomialOrder, Weighted, Weights};
use text::Written;

fn weights(weights: [u16; 4]) -> anyhow::Result<Weights> {
    Weights::new(weights).map_err(|_| anyhow!("a weight is above 255"))
}

fn print_ascending<O: MonomialOrder>(rt: &impl Print, name: &str, order: &O) -> anyhow::Result<()> {
    let mut monomials = up_to_degree_three();
    sort(order, &mut monomials);
    println!(rt; "{name}:")?;
    for monomial in monomials {
        rt.println(Written(monomial))?;
    }
    Ok(())
}

fn print_all(rt: &impl Print) -> anyhow::Result<()> {
    print_ascending(rt, "lexicographic", &Lexicographic)?;
    print_ascending(rt, "graded", &Graded)?;
    let over_lexicographic = Weighted {
        weights: weights([3, 1, 0, 0])?,
        below: Lexicographic,
    };
    print_ascending(
        rt,
        "weighted 3 1 0 0 over lexicographic",
        &over_lexicographic,
    )?;
    let over_graded = Weighted {
        weights: weights([1, 2, 0, 0])?,
        below: Graded,
    };
    print_ascending(rt, "weighted 1 2 0 0 over graded", &over_graded)
}

fn main(rt: HostRuntime) -> anyhow::Result<()> {
    print_all(&rt)
}
