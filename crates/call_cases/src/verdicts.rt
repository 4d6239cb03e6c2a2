// The cases of the verdict:
//
//     NAME: elements (cost,period,first,second) ..
//
// For each is printed: number, place, the cuts of both rings, L, h, reported load and number of sets, the last six 0 on a refusal. Before
// them stands the verdict on a file of no bytes.
use crate::{print_answer, print_number, print_word};
use cases::number_at;
use table::Refusal;
use verdict::Admitted;

pub(crate) fn judge(relay: &[u64], file: &[u8]) -> Result<Admitted, Refusal> {
    if relay.len() == 0 {
        return verdict::judge(file);
    }
    relayed::judge(file, number_at(relay, 0) as usize)
}

pub(crate) fn answer(rt: &impl Print, r: Result<Admitted, Refusal>) {
    print_answer(rt, &r);
    let Ok(table) = r else {
        print_word(rt, b" 0 0 0 0 0 0");
        return;
    };
    print_number(rt, u64::from(table.cut));
    print_number(rt, u64::from(table.other));
    print_number(rt, u64::from(table.interval));
    print_number(rt, u64::from(table.hyper));
    print_number(rt, u64::from(table.load));
    print_number(rt, u64::from(table.sets));
}
