// The program: reads a table from standard input and prints its verdict and, where it is admitted, its cuts, interval, hyperperiod, load,
// overlap sets and slots, a line each (document 01, "The program and one whole output").
//
// With a word as its first argument it is asked for something else: of a table file `plain` (#114), `relay E` (#113), `limits OURS THEIRS`
// (#108), `meet I J` and `set K` (#102), `raise` and `raised` (#111), `element E` (#101) or `text`; `list` prints a list file, and `table`
// makes a table file of a text. It writes nothing for any other word. The crates of reports say which bytes all these are. An argument
// that is no number counts as 0.
#![tactic(auto)]

use limited::Limits;
use std::env::{Env, FillError};

// No input that passes is longer than the longest text, and nothing that is written longer than the longest list in lines.
const INPUT: usize = file_report::texts::INPUT;

const SIZE: usize = file_report::listing::SIZE;

// ---- arguments

// The longest word has seven letters, and the longest number twenty digits.
const LONGEST: usize = 20;

fn number(rt: &impl Env, i: usize) -> usize {
    let mut text = [0u8; LONGEST];
    let size = rt.arg(i, &mut text).unwrap_or(0);
    let mut numbers = [0u64; 1];
    cases::numbers(&text[..size], &mut numbers);
    numbers[0] as usize
}

// A limit of more than 32 bits is refused as the largest of 32 bits is.
fn limit(rt: &impl Env, i: usize) -> u32 {
    u32::try_from(number(rt, i)).unwrap_or(u32::MAX)
}

// ---- what is written, at the front of `out`; how many bytes it is

fn verdict_within(rt: &impl Env, file: &[u8], out: &mut [u8]) -> usize {
    let limits = Limits {
        ours: limit(rt, 2),
        theirs: limit(rt, 3),
    };
    let verdict = limited::judge(file, limits);
    report::put_verdict(table::number(&verdict), table::place(&verdict), out)
}

// The raised file is as long as the file; nothing where it is refused.
fn raised(file: &[u8], out: &mut [u8]) -> usize {
    match raising::raise(file, out) {
        Ok(()) => file.len(),
        Err(_) => 0,
    }
}

// What is written for a word.
fn answer(rt: &impl Env, word: &[u8], input: &[u8], out: &mut [u8]) -> usize {
    match word {
        b"plain" => report::render_plain(input, out),
        b"relay" => report::render_relayed(input, number(rt, 2), out),
        b"limits" => verdict_within(rt, input, out),
        b"meet" => report::meetings::rows(input, number(rt, 2), number(rt, 3), out),
        b"set" => report::meetings::set(input, number(rt, 2), out),
        b"raise" => report::raised::render(input, out),
        b"raised" => raised(input, out),
        b"element" => file_report::listing::make(input, number(rt, 2) as u64, out),
        b"list" => file_report::listing::show(input, out),
        b"text" => file_report::texts::show(input, out),
        b"table" => file_report::texts::make(input, out),
        _ => 0,
    }
}

fn render(rt: &impl Env, input: &[u8], out: &mut [u8]) -> usize {
    let mut word = [0u8; LONGEST];
    match rt.arg(1, &mut word) {
        Ok(size) => answer(rt, &word[..size], input, out),
        Err(FillError::TooLong) => 0,
        Err(FillError::NotPresent) => report::render(input, out),
    }
}

// Nothing is written that there is no room for, and what can't be written is lost.
fn print_answer(rt: &(impl Env + Print), input: &[u8], out: &mut [u8]) {
    let size = render(rt, input, out);
    if size <= out.len() {
        let _ = rt.write_all(&out[..size]);
    }
}

fn main(rt: HostRuntime) {
    let mut input = [0u8; INPUT];
    let read = streams::read(&rt, &mut input);
    let mut out = [0u8; SIZE];
    print_answer(&rt, &input[..read], &mut out);
}
