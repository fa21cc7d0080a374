//! Numbers in 32 bits.
ghost use Rattle.std.specs.Prelude.{◌≡◌};
ghost use Rattle.mars_clauses.specs.Short.{in_32_bits};

/// A number in 32 bits, of which the last one takes the place of all that are greater.
pub fn short_number(number: usize) -> u32
    ensures { result ≡ in_32_bits number }
{
    match u32::try_from(number) {
        Ok(same) => same,
        Err(_) => u32::MAX,
    }
}
