// Checks claimed relations against patterns and points, and prints what is found.
#![tactic(auto)]

ghost use Rattle.std.specs.Prelude.{◌≡◌, [], ◌∷◌};

mod examination;

use examination::{examine_pattern, examine_points};
use faults::{Refusal, WorksheetFault};
use fields::{Binary, Residue};
use polynomials::Term;
use std::io;
use subjects::Finding;

// The term of powers of the first two variables.
fn term(u: u16, v: u16, code: u16) -> Term
    ensures { (result.monomial.exponents ≡ u ∷ v ∷ 0 ∷ 0 ∷ []) × (result.code ≡ code) }
{
    Term::new([u, v, 0, 0], code)
}

// One line for a claim: what is found, or the refusal.
fn report(
    rt: &HostRuntime,
    claim: &str,
    outcome: Result<Finding, WorksheetFault>,
) -> io::Result<()> {
    match outcome {
        Ok(finding) => println!(rt; "  {claim}: {finding}"),
        Err(fault) => {
            let refusal = Refusal::from(fault);
            println!(rt; "  {claim}: {refusal}")
        }
    }
}

// u² + 8u + 2 holds on a sequence of period 10, and u + 1 does not.
fn show_sequence(rt: &HostRuntime) -> io::Result<()> {
    let period = [10];
    let cells = [3, 5, 9, 6, 0, 10, 8, 4, 7, 2];
    let relation = [term(2, 0, 1), term(1, 0, 8), term(0, 0, 2)];
    let other = [term(1, 0, 1), term(0, 0, 1)];
    println!(rt; "modulus 11, period 10, cells 3 5 9 6 0 10 8 4 7 2")?;
    report(
        rt,
        "u^2 + 8u + 2",
        examine_pattern::<Residue>(11, &period, &cells, &relation),
    )?;
    report(
        rt,
        "u + 1",
        examine_pattern::<Residue>(11, &period, &cells, &other),
    )
}

// u + v and v² + 10 hold on a pattern of 2 by 2.
fn show_square(rt: &HostRuntime) -> io::Result<()> {
    let periods = [2, 2];
    let cells = [3, 1, 10, 8];
    let sum = [term(1, 0, 1), term(0, 1, 1)];
    let square = [term(0, 2, 1), term(0, 0, 10)];
    println!(rt; "modulus 11, period 2 by 2, cells 3 1 10 8")?;
    report(
        rt,
        "u + v",
        examine_pattern::<Residue>(11, &periods, &cells, &sum),
    )?;
    report(
        rt,
        "v^2 + 10",
        examine_pattern::<Residue>(11, &periods, &cells, &square),
    )
}

// u + 2 holds on three binary codes, and a pattern of 8 by 8 is taken.
fn show_binary_pattern(rt: &HostRuntime) -> io::Result<()> {
    let period = [3];
    let cells = [1, 2, 3];
    let relation = [term(1, 0, 1), term(0, 0, 2)];
    println!(rt; "degree 2, period 3, cells 1 2 3")?;
    report(
        rt,
        "u + 2",
        examine_pattern::<Binary>(2, &period, &cells, &relation),
    )?;
    let square = [8, 8];
    let ones = [255; 64];
    let difference = [term(1, 0, 1), term(0, 1, 1)];
    println!(rt; "degree 8, period 8 by 8, every cell 255")?;
    report(
        rt,
        "u + v",
        examine_pattern::<Binary>(8, &square, &ones, &difference),
    )
}

// v² + 4v, uv and u² + 4u hold on three points, and u + v does not.
fn show_points(rt: &HostRuntime) -> io::Result<()> {
    let points = [0, 0, 1, 0, 0, 1];
    let v_squared = [term(0, 2, 1), term(0, 1, 4)];
    let product = [term(1, 1, 1)];
    let u_squared = [term(2, 0, 1), term(1, 0, 4)];
    let sum = [term(1, 0, 1), term(0, 1, 1)];
    println!(rt; "modulus 5, points (0,0) (1,0) (0,1)")?;
    report(
        rt,
        "v^2 + 4v",
        examine_points::<Residue>(5, 2, 3, &points, &v_squared),
    )?;
    report(
        rt,
        "uv",
        examine_points::<Residue>(5, 2, 3, &points, &product),
    )?;
    report(
        rt,
        "u^2 + 4u",
        examine_points::<Residue>(5, 2, 3, &points, &u_squared),
    )?;
    report(
        rt,
        "u + v",
        examine_points::<Residue>(5, 2, 3, &points, &sum),
    )
}

// What patterns and points are refused for.
fn show_pattern_refusals(rt: &HostRuntime) -> io::Result<()> {
    let cell = [1];
    let claim = [term(1, 0, 1)];
    println!(rt; "refused patterns")?;
    report(
        rt,
        "modulus 256",
        examine_pattern::<Residue>(256, &[1], &cell, &claim),
    )?;
    report(
        rt,
        "degree 5",
        examine_pattern::<Binary>(5, &[1], &cell, &claim),
    )?;
    report(
        rt,
        "5 periods",
        examine_pattern::<Residue>(11, &[1, 1, 1, 1, 1], &cell, &claim),
    )?;
    report(
        rt,
        "period 13 by 5",
        examine_pattern::<Residue>(11, &[13, 5], &cell, &claim),
    )?;
    report(
        rt,
        "65 points",
        examine_points::<Residue>(11, 1, 65, &cell, &claim),
    )?;
    report(
        rt,
        "period 2 by 2, 1 cell",
        examine_pattern::<Residue>(11, &[2, 2], &cell, &claim),
    )?;
    report(
        rt,
        "cells 3 10 11",
        examine_pattern::<Residue>(11, &[3], &[3, 10, 11], &claim),
    )
}

// What a polynomial is refused for.
fn show_term_refusals(rt: &HostRuntime) -> io::Result<()> {
    let period = [2];
    let cells = [1, 10];
    let high_code = [term(1, 0, 1), term(0, 0, 11)];
    let high_exponent = [term(4096, 0, 1)];
    let beyond = [term(1, 0, 1), term(0, 1, 1)];
    println!(rt; "refused terms")?;
    report(
        rt,
        "u + 11",
        examine_pattern::<Residue>(11, &period, &cells, &high_code),
    )?;
    report(
        rt,
        "u^4096",
        examine_pattern::<Residue>(11, &period, &cells, &high_exponent),
    )?;
    report(
        rt,
        "u + v",
        examine_pattern::<Residue>(11, &period, &cells, &beyond),
    )
}

fn main(rt: HostRuntime) -> io::Result<()> {
    show_sequence(&rt)?;
    show_square(&rt)?;
    show_binary_pattern(&rt)?;
    show_points(&rt)?;
    show_pattern_refusals(&rt)?;
    show_term_refusals(&rt)
}
