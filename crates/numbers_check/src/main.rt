// Roots, distances, floors, ceilings, policies and jumps (01, Numbers, Policy) against stored answers: a line a record of standard input, with a digest of all that the record asks
// for. Rust's own arithmetic and the original say what it must print (oracle/README.md, `store`).
#![tactic(auto)]

mod jumps;
mod numbers;
mod policies;

use digest::Digest;

// The digest of the next record, of 72 bytes: some numbers made by its rule, the policy of its place, and its jump.
fn next(rt: &impl Input, place: u32, flags: &[u8; 256]) -> Digest {
    let mut record = [0u8; 72];
    input::take(rt, 72, &mut record);
    let d = policies::with_policy(numbers::made(&record), u64::from(place % 256), flags);
    jumps::with_jump(d, &record)
}

// The count of records, the flag bytes that every policy is asked about, and the records.
fn main(rt: HostRuntime) {
    let mut flags = [0u8; 256];
    let count = input::number(&rt, 2);
    input::take(&rt, 256, &mut flags);
    for place in 0..count {
        let d = next(&rt, place, &flags).value;
        let _ = println!(&rt; "{d:016x}");
    }
}
