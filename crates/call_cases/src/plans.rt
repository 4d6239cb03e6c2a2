// The cases of the planner, and with a relay (#113) those of its list of sets:
//
//     CALL NAME: room / interval / four totals / elements (cost,period,first,second) ..
//
// A call is plan, step or standings, or step_finished or standings_finished of a planner that has finished; or list. It is lent `room`
// words. For each is printed: number and place, then what the call left: the stage, the first four totals, and all of the lent words; or
// the first four standings; of a list how many sets there are, and the words.
use crate::{KEPT, MOST, byte_at, print_answer, print_number, print_numbers, print_word};
use cases::{find, number_at};
use planner::{Planner, Stage};
use table::{Refusal, Table};

// room, interval and four totals
pub(crate) const BEFORE_TABLE: usize = 6;

// ---- what is printed

fn print_stage(rt: &impl Print, stage: Stage) {
    match stage {
        Stage::Due(k) => {
            print_word(rt, b" due");
            print_number(rt, k);
        }
        Stage::Finished => print_word(rt, b" finished"),
    }
}

fn print_totals(rt: &impl Print, totals: [u64; Table::ROWS]) {
    print_word(rt, b" totals");
    print_numbers(rt, &totals[..4]);
}

// A refused step leaves the planner as it was.
fn print_moved(rt: &impl Print, planner: Planner, r: Result<Planner, Refusal>) {
    print_answer(rt, &r);
    let after = r.unwrap_or(planner);
    print_stage(rt, after.stage);
    print_totals(rt, after.totals);
}

// How far a standing is from 0, where h is at most 64.
fn distance(x: i64) -> u64 {
    x.unsigned_abs().min(64)
}

// So many ahead, or behind.
fn print_standing(rt: &impl Print, x: i64) {
    if x < 0 {
        let behind = distance(x);
        let _ = print!(rt; " -{behind}");
    } else {
        print_number(rt, distance(x));
    }
}

fn print_standings(rt: &impl Print, r: Result<[i64; Table::ROWS], Refusal>) {
    print_answer(rt, &r);
    let values = r.unwrap_or([0; Table::ROWS]);
    for value in &values[..4] {
        print_standing(rt, *value);
    }
}

// ---- the calls, with the relay where there is one

fn plan(relay: &[u64], file: &[u8], words: &mut [u64]) -> Result<(), Refusal> {
    if relay.len() == 0 {
        return planner::whole_plan(file, words);
    }
    relayed::whole_plan(file, number_at(relay, 0) as usize, words)
}

fn step(
    planner: Planner,
    relay: &[u64],
    file: &[u8],
    words: &mut [u64],
) -> Result<Planner, Refusal> {
    if relay.len() == 0 {
        return planner.step(file, words);
    }
    relayed::step(planner, file, number_at(relay, 0) as usize, words)
}

fn standings(planner: Planner, relay: &[u64], file: &[u8]) -> Result<[i64; Table::ROWS], Refusal> {
    if relay.len() == 0 {
        return planner.standings(file);
    }
    relayed::standings(planner, file, number_at(relay, 0) as usize)
}

fn list(rt: &impl Print, relay: &[u64], file: &[u8], words: &mut [u64]) {
    let r = relayed::list_of_sets(file, number_at(relay, 0) as usize, words);
    print_answer(rt, &r);
    print_word(rt, b" sets");
    print_number(rt, u64::from(r.unwrap_or(0)));
}

// ---- a case

// The calls that are lent words are told apart by their first letter.
fn call(
    rt: &impl Print,
    letter: u8,
    planner: Planner,
    relay: &[u64],
    file: &[u8],
    words: &mut [u64],
) {
    match letter {
        b'p' => print_answer(rt, &plan(relay, file, words)),
        b'l' => list(rt, relay, file, words),
        _ => print_moved(rt, planner, step(planner, relay, file, words)),
    }
}

fn call_and_print(
    rt: &impl Print,
    letter: u8,
    planner: Planner,
    relay: &[u64],
    file: &[u8],
    words: &mut [u64],
) {
    call(rt, letter, planner, relay, file, words);
    print_word(rt, b" words");
    print_numbers(rt, words);
}

fn stage_of(heading: &[u8], k: u64) -> Stage {
    if find(heading, 0, b'_') < find(heading, 0, b' ') {
        return Stage::Finished;
    }
    Stage::Due(k)
}

fn planner_of(heading: &[u8], given: &[u64]) -> Planner {
    let mut totals = [0u64; Table::ROWS];
    for i in 0..4 {
        totals[i] = number_at(given, 2 + i);
    }
    Planner {
        stage: stage_of(heading, number_at(given, 1)),
        totals: totals,
    }
}

fn lend(rt: &impl Print, letter: u8, planner: Planner, relay: &[u64], file: &[u8], room: usize) {
    let mut words = [KEPT as u64; MOST];
    if room <= MOST {
        call_and_print(rt, letter, planner, relay, file, &mut words[..room]);
    }
}

pub(crate) fn run(rt: &impl Print, heading: &[u8], relay: &[u64], file: &[u8], given: &[u64]) {
    let planner = planner_of(heading, given);
    if find(heading, 0, b'g') < find(heading, 0, b' ') {
        print_standings(rt, standings(planner, relay, file));
    } else {
        lend(
            rt,
            byte_at(heading, 0),
            planner,
            relay,
            file,
            number_at(given, 0) as usize,
        );
    }
}
