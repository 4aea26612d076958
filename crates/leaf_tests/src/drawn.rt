// Numbers that look drawn by chance.

/// The number after this one, by a linear congruential generator.
pub fn after(x: u64) -> u64 {
    x.wrapping_mul(6364136223846793005)
        .wrapping_add(1442695040888963407)
}
