//! Solves the problem of a text in the DIMACS form, or checks a log of clauses against it. It is for measuring the solver, as
//! `bench/solve.sh` does.
//!
//! The problem comes from the input: a line `p cnf VARIABLES CLAUSES`, and numbers: a variable's, from 1 on, for the literal that
//! is true where the variable is, the same number less than zero for the other literal, and 0 behind each clause. Lines that begin
//! with `c` are left out. The first 128 variables are the features.
//!
//! Without a word it prints what the solver answers, for which all variables have to be features. With a word it prints whether the
//! file of that name, which has numbers as a problem has them, is a log that refutes the problem.
#![tactic(auto)]

ghost use Rattle.cfj_logic.specs.Logs.{AreWellFormed};

mod log;
mod problem;
mod text;

use cfj_logic::Clauses;
use log::read_log;
use problem::{answer_to, read_problem};
use refutation_check::check_refutation;
use sat_core::Answer;
use std::io::Read;
use std::{env, fs, io};

/// Prints an answer, with the number of clauses that were learned.
fn print_answer(rt: &HostRuntime, answer: &Answer) -> io::Result<()> {
    match answer {
        Answer::Refuted(log) => println!(rt; "refuted, {} learned", log.clauses().len()),
        Answer::Spent(log) => println!(rt; "gave up, {} learned", log.clauses().len()),
        Answer::Least(selection, log) => {
            print!(rt; "least, {} learned:", log.clauses().len())?;
            'features: for feature in 0..selection.features() {
                if selection.has(feature) {
                    print!(rt; " {}", feature as u32 + 1)?;
                }
            }
            println!(rt; "")
        }
    }
}

/// Solves a problem, and prints the answer.
fn solve_problem(rt: &HostRuntime, clauses: &Clauses) -> io::Result<()>
    requires { AreWellFormed clauses.now }
{
    match answer_to(rt.alloc(), clauses)? {
        None => println!(rt; "not each variable is a feature"),
        Some(answer) => print_answer(rt, &answer),
    }
}

/// Prints whether a file is a log that refutes a problem.
fn check_file(rt: &HostRuntime, clauses: &Clauses, name: &str) -> io::Result<()>
    requires { AreWellFormed clauses.now }
{
    let text = fs::read_to_string(rt, name)?;
    match read_log(rt.alloc(), text.as_str())? {
        None => println!(rt; "that is no log"),
        Some(log) => {
            if check_refutation(rt.alloc(), clauses, &log)? {
                println!(rt; "refutes it, {} clauses", log.clauses().len())
            } else {
                println!(rt; "doesn't refute it")
            }
        }
    }
}

fn main(rt: HostRuntime) -> io::Result<()> {
    let mut text = String::new(rt.alloc());
    rt.stdin().read_to_string(&mut text)?;
    match read_problem(rt.alloc(), text.as_str())? {
        None => println!(rt; "that is no problem"),
        Some(clauses) => match env::args(&rt)?.nth(1) {
            None => solve_problem(&rt, &clauses),
            Some(name) => check_file(&rt, &clauses, name.as_str()),
        },
    }
}
