//! Texts with one small change.
use std::process::Abort;
use test_samples::random;

const BYTES: &[u8; 16] = b"0123459afgGmo \n\0";

/// How many texts are tried.
pub(crate) const ROUNDS: u32 = 10_000;

/// The text with a byte replaced, put in or taken away, or cut: the same in each run.
pub(crate) fn mutated(rt: &(impl AllocGlobal + Abort), text: &[u8], state: &mut u64) -> Vec<u8> {
    let (front, rest) = text.split_at(random(state) as usize % (text.len() + 1));
    let byte = BYTES[random(state) as usize % BYTES.len()];
    let kind = random(state) % 4;
    let skipped = match kind {
        0 | 1 => 1,
        2 => 0,
        _ => rest.len(),
    };
    let mut made = Vec::from_slice(rt.alloc(), front).expect(rt, "memory");
    if kind == 0 || kind == 2 {
        made.extend_from_slice(&[byte]).expect(rt, "memory");
    }
    let behind = &rest[rest.len().min(skipped)..];
    made.extend_from_slice(behind).expect(rt, "memory");
    made
}
