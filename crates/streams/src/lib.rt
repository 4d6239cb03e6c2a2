// Standard input, read into an array.
#![tactic(auto)]

ghost use Rattle.std.specs.Prelude.{◌≤◌, length};

use std::io::Read;

// Reads until `out` is full, the input ends or a read fails, which counts as its end; how many bytes were put at the front of `out`.
pub fn read(rt: &impl Input, out: &mut [u8]) -> usize
    ensures { result ≤ length out.new }
{
    let mut input = rt.reader();
    let mut done: usize = 0;
    while done < out.len() {
        match input.read(&mut out[done..]) {
            Ok(0) => break,
            Ok(n) => done += n,
            Err(_) => break,
        }
    }
    done
}
