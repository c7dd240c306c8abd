// The flag byte of an image's record. Counterpart: `Flags` of the Rust, with VALUE_ALLOCATED 1, VALUE_INITIALIZED 2,
// CHILD_ALLOCATED 4, CHILD_INITIALIZED 8, SIBLING_ALLOCATED 16 and SIBLING_INITIALIZED 32.
#![tactic(auto)]

ghost use Rattle.std.specs.Prelude.{◌≡◌, ◌<◌};
ghost use Rattle.tree.specs.Told.{refusal};
ghost use Rattle.tree.specs.Reader.{judge, flag_rules, has_number, has_child, has_sibling};
ghost use Rattle.flags.specs.Flags.{pair, flag_byte, passes, Bit};

use tree::Level;

// Both bits of a pair, or neither.
fn both_bits(on: bool, bits: u8) -> u8
    ensures { result ≡ pair on bits }
{
    if on {
        return bits;
    }
    0
}

// The flag byte of a record that is written.
pub fn flag_byte(number: bool, child: bool, sibling: bool) -> u8
    ensures { result ≡ flag_byte number child sibling }
{
    both_bits(number, 3) + both_bits(child, 12) + both_bits(sibling, 48)
}

// 1 where a flag byte says that there is a number, else 0: a number, as it is taken from the numbers left. Counterpart: `Flags::VALUE_INITIALIZED`.
pub fn has_number(f: u8) -> usize
    ensures { (result ≡ has_number f) × (result < 2) }
{
    usize::from(f / 2 % 2)
}

// Whether it says that there are children. Counterpart: `Flags::CHILD_INITIALIZED`.
pub fn has_child(f: u8) -> bool
    ensures { Bit result (has_child f) }
{
    f / 8 % 2 == 1
}

// Whether it says that there is a younger sibling. Counterpart: `Flags::SIBLING_INITIALIZED`.
pub fn has_sibling(f: u8) -> bool
    ensures { Bit result (has_sibling f) }
{
    f / 32 % 2 == 1
}

// Whether a flag byte that was read can stand at a level. A pair that is 2 says initialised without allocated.
pub fn flags_sound(f: u8, level: Level) -> bool
    ensures { result ≡ passes (judge (flag_rules f level.0 (refusal 7))) }
{
    if f > 63 {
        return false;
    }
    if f % 4 == 2 {
        return false;
    }
    if f / 4 % 4 == 2 {
        return false;
    }
    if f / 16 == 2 {
        return false;
    }
    if level.0 != 0 {
        return true;
    }
    if has_sibling(f) {
        return false;
    }
    true
}
