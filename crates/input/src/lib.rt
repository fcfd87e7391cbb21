// Standard input, piece by piece (01, "walkprint reads a scene on standard input"), for `print` and the programs of the gate. What comes in no contract can say; how much, `take` says.
#![tactic(auto)]

ghost use Rattle.std.specs.Prelude.{◌≤◌};
ghost use Rattle.input.specs.Counts.{IsPrefixLen};

use std::io::Read;

// The next bytes of the input, at most n and as many as the buffer has.
pub fn take(rt: &impl Input, n: usize, buffer: &mut [u8]) -> usize
    ensures { (result ≤ n) × IsPrefixLen result buffer.new }
{
    let most = n.min(buffer.len());
    read_full(rt, &mut buffer[..most])
}

// Reads until the buffer is full or the input ends, where an error ends it too; how many bytes came.
fn read_full(rt: &impl Input, buffer: &mut [u8]) -> usize
    ensures { IsPrefixLen result buffer.new }
{
    // `read_exact` would not say how many bytes came before the end.
    let mut reader = rt.reader();
    let mut done = 0;
    while done < buffer.len() {
        let n = reader.read(&mut buffer[done..]).unwrap_or(0);
        if n == 0 {
            break;
        }
        done += n;
    }
    done
}

// The next number, of so many bytes, at most 4, the lowest first.
pub fn number(rt: &impl Input, bytes: usize) -> u32 {
    let mut b = [0u8; 4];
    take(rt, bytes, &mut b);
    fields::u32_at(&b, 0)
}
