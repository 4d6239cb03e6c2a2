// The cases of where rows meet:
//
//     meet NAME: i / j / elements (cost,period,first,second) ..
//     crowd NAME: k / elements (cost,period,first,second) ..
//
// For each is printed: number, place, and the word of the segments; for a set the word of its rows stands before that.
use crate::{print_answer, print_number};
use cases::number_at;
use meeting::Crowd;

// no rows, and no segments
const NONE: Crowd = Crowd {
    rows: 0,
    segments: 0,
};

pub(crate) fn meet_case(rt: &impl Print, file: &[u8], given: &[u64]) {
    let r = meeting::meet(
        file,
        number_at(given, 0) as usize,
        number_at(given, 1) as usize,
    );
    print_answer(rt, &r);
    print_number(rt, u64::from(r.unwrap_or(0)));
}

pub(crate) fn crowd_case(rt: &impl Print, file: &[u8], given: &[u64]) {
    let r = meeting::of_set(file, number_at(given, 0) as usize);
    print_answer(rt, &r);
    let set = r.unwrap_or(NONE);
    print_number(rt, set.rows);
    print_number(rt, u64::from(set.segments));
}
