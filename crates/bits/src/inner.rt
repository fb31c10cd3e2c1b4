// The bits of a place: the caller knows that there is one, or what it sets where there is none.
ghost use Rattle.std.specs.Prelude.{◌≡◌, ◌||◌, ℕ, ◌/◌, ◌%◌, ◌^◌, ◌<◌, eqb, length, get_or};
ghost use Rattle.bits.specs.Bits.{marked};

// Sets the bit of a place, where there is one.
pub fn mark(bits: &mut [u32], at: usize)
    ensures { (o : ℕ) → o / 32 < length bits.old → marked bits.new o
        ≡ marked bits.old o || eqb at o }
{
    let j = at / 32;
    if j < bits.len() {
        bits[j] |= 1 << (at % 32);
    }
}

// Whether the bit of a place is set.
pub fn is_marked(bits: &[u32], at: usize) -> bool
    requires { at / 32 < length bits.now }
    ensures { result ≡ marked bits.now at }
{
    (bits[at / 32] >> (at % 32)) % 2 == 1
}
