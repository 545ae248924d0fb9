// Works out the relations of a pattern on a worksheet, and prints what the worksheet answers.
#![tactic(auto)]

ghost use Rattle.std.specs.Prelude.{◌≡◌, [], ◌∷◌};

use faults::{Refusal, WorksheetFault};
use fields::{ListedField, Residue};
use monomials::{Graded, Monomial};
use polynomials::Term;
use rows::{Line, Verdict};
use std::io;
use subjects::PeriodicArray;
use worksheet::{Ending, Ran, Summary, Worksheet};

const CELLS: [u16; 10] = [3, 5, 9, 6, 0, 10, 8, 4, 7, 2];

// A power of the variable.
fn u(exponent: u16) -> Monomial
    ensures { result.exponents ≡ exponent ∷ 0 ∷ 0 ∷ 0 ∷ [] }
{
    Monomial {
        exponents: [exponent, 0, 0, 0],
    }
}

// A term of a power of the variable.
fn term(exponent: u16, code: u16) -> Term
    ensures { (result.monomial.exponents ≡ exponent ∷ 0 ∷ 0 ∷ 0 ∷ []) × (result.code ≡ code) }
{
    Term {
        monomial: u(exponent),
        code,
    }
}

fn show_refusal(rt: &HostRuntime, call: &str, fault: WorksheetFault) -> io::Result<()> {
    let refusal = Refusal::from(fault);
    println!(rt; "{call}: {refusal}")
}

// What a code was answered as.
fn show_code(rt: &HostRuntime, call: &str, answer: Result<u16, WorksheetFault>) -> io::Result<()> {
    match answer {
        Ok(code) => println!(rt; "{call}: {code}"),
        Err(fault) => show_refusal(rt, call, fault),
    }
}

// A judged line of a sheet with one variable and two stairs.
fn show_line(rt: &HostRuntime, line: &Line) -> io::Result<()> {
    let exponent = line.monomial.exponents[0];
    match line.verdict {
        Verdict::Stair => println!(rt; "stair {exponent}"),
        Verdict::Relation => {
            let [first, second, ..] = line.combination;
            println!(rt; "rel {exponent} : {first} {second}")
        }
    }
}

// The judged lines, and a reading past them.
fn show_lines(rt: &HostRuntime, sheet: &Worksheet) -> io::Result<()> {
    let mut line = Line::unused();
    for number in 0..4 {
        match sheet.read(number, &mut line) {
            Ok(_) => show_line(rt, &line)?,
            Err(fault) => show_refusal(rt, "reading past the lines", fault)?,
        }
    }
    Ok(())
}

// How far the sheet has come.
fn show_summary(rt: &HostRuntime, sheet: &Worksheet) -> io::Result<()> {
    let Summary {
        judged,
        stairs,
        relations,
        finished,
    } = sheet.summary();
    let state = if finished { "finished" } else { "unfinished" };
    println!(rt; "judged {judged}: stairs {stairs}, relations {relations}, {state}")
}

// The cells of two periods, from the two on the staircase.
fn show_refilled(rt: &HostRuntime, sheet: &Worksheet, field: &Residue) -> io::Result<()> {
    print!(rt; "refilled:")?;
    for place in 0..20 {
        match sheet.refill(field, &[3, 5], &u(place)) {
            Ok(code) => print!(rt; " {code}")?,
            Err(fault) => return show_refusal(rt, "refill", fault),
        }
    }
    println!(rt; "")
}

// The remainder of u², and what remainders are refused for.
fn show_remainders(
    rt: &HostRuntime,
    sheet: &Worksheet,
    array: &PeriodicArray,
    field: &Residue,
) -> io::Result<()> {
    let mut codes = [0; 2];
    match sheet.remainder(array, field, &[term(2, 1)], &mut codes) {
        Ok(()) => {
            let [first, second] = codes;
            println!(rt; "remainder of u^2: {first} {second}")?;
        }
        Err(fault) => show_refusal(rt, "remainder", fault)?,
    }
    if let Err(fault) = sheet.remainder(array, field, &[term(2, 1), term(0, 11)], &mut codes) {
        show_refusal(rt, "remainder of u^2 + 11", fault)?;
    }
    if let Err(fault) = sheet.remainder(array, field, &[term(4096, 1)], &mut codes) {
        show_refusal(rt, "remainder of u^4096", fault)?;
    }
    let mut three = [0; 3];
    if let Err(fault) = sheet.remainder(array, field, &[term(2, 1)], &mut three) {
        show_refusal(rt, "remainder into three codes", fault)?;
    }
    Ok(())
}

// What refills are refused for.
fn show_refill_refusals(
    rt: &HostRuntime,
    sheet: &Worksheet,
    field: &Residue,
    other: &Residue,
) -> io::Result<()> {
    show_code(rt, "refill from 3 11", sheet.refill(field, &[3, 11], &u(2)))?;
    show_code(rt, "refill modulo 7", sheet.refill(other, &[3, 5], &u(2)))?;
    show_code(
        rt,
        "refill at u^4095",
        sheet.refill(field, &[3, 5], &u(4095)),
    )?;
    show_code(
        rt,
        "refill at u^4096",
        sheet.refill(field, &[3, 5], &u(4096)),
    )?;
    show_code(rt, "refill from one code", sheet.refill(field, &[3], &u(2)))
}

// The sheet is worked out, a step and then a run.
fn work_out(
    rt: &HostRuntime,
    sheet: &mut Worksheet,
    array: &PeriodicArray,
    field: &Residue,
    other: &Residue,
) -> io::Result<()> {
    show_code(
        rt,
        "refill of an unfinished sheet",
        sheet.refill(field, &[], &u(0)),
    )?;
    if let Err(fault) = sheet.step(array, other, &Graded) {
        show_refusal(rt, "step modulo 7", fault)?;
    }
    if sheet.step(array, field, &Graded).is_ok() {
        show_summary(rt, sheet)?;
    }
    match sheet.run(array, field, &Graded) {
        Ok(Ran { judged, ending }) => {
            let ending = match ending {
                Ending::Finished => "finished",
                Ending::Full => "full",
            };
            println!(rt; "run: {judged} more, {ending}")
        }
        Err(fault) => show_refusal(rt, "run", fault),
    }
}

// A sheet over two lines is full before it is finished.
fn show_full(rt: &HostRuntime, array: &PeriodicArray, field: &Residue) -> io::Result<()> {
    let mut two = [Line::unused(); 2];
    let mut sheet = Worksheet::open(array, field, &mut two);
    let _ = sheet.run(array, field, &Graded);
    show_summary(rt, &sheet)?;
    if let Err(fault) = sheet.step(array, field, &Graded) {
        show_refusal(rt, "step on a full sheet", fault)?;
    }
    Ok(())
}

fn show_pattern(rt: &HostRuntime, field: &Residue, other: &Residue) -> io::Result<()> {
    let Ok(array) = PeriodicArray::new(field, &[10], &CELLS) else {
        return println!(rt; "the pattern is refused");
    };
    println!(rt; "modulus 11, period 10, cells 3 5 9 6 0 10 8 4 7 2, graded")?;
    let mut lines = [Line::unused(); 4];
    let mut sheet = Worksheet::open(&array, field, &mut lines);
    work_out(rt, &mut sheet, &array, field, other)?;
    show_summary(rt, &sheet)?;
    show_lines(rt, &sheet)?;
    match sheet.score(&array) {
        Ok(score) => println!(rt; "score {score}")?,
        Err(fault) => show_refusal(rt, "score", fault)?,
    }
    show_refilled(rt, &sheet, field)?;
    show_remainders(rt, &sheet, &array, field)?;
    show_refill_refusals(rt, &sheet, field, other)?;
    show_full(rt, &array, field)
}

fn main(rt: HostRuntime) -> io::Result<()> {
    let Ok(field) = Residue::new(11) else {
        return println!(rt; "modulus 11 is refused");
    };
    let Ok(other) = Residue::new(7) else {
        return println!(rt; "modulus 7 is refused");
    };
    show_pattern(&rt, &field, &other)
}
