/// A random word, the same in each run: a linear congruential generator with a multiplier of Steele and Vigna, its
/// upper half.
pub fn random(state: &mut u64) -> u32 {
    *state = state.wrapping_mul(0xd134_2543_de82_ef95).wrapping_add(1);
    (*state >> 32) as u32
}
