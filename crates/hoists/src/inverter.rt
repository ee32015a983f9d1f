// The inverter of a hoist: sixteen bits, of which the lowest that is set names the trouble.
ghost use Rattle.std.specs.Prelude.{◌≡◌, ℕ, ◌<◌, slice_index};
ghost use Rattle.hoists.specs.Inverters.{inverter_codes, inverter_trouble, BitSet, BitClear};

// The trouble that each inverter bit names, as a CiA error code, from bit 0 on.
const INVERTER_CODES: [u16; 16] = [
    0x2310, 0x3210, 0x3220, 0x4310, 0x7121, 0x7305, 0xff00, 0xff00, 0xff00, 0xff00, 0xff00, 0xff00,
    0xff00, 0xff00, 0xff00, 0xff00,
];

// The trouble code of the inverter bits, 0 where no bit is set.
pub fn inverter_trouble(bits: u16) -> u16
    ensures value { result ≡ inverter_trouble bits }
    ensures lowest_set_bit_names { (k : ℕ) → BitSet bits k → ((j : ℕ) → j < k → BitClear bits j) → result ≡ slice_index inverter_codes k }
{
    INVERTER_CODES
        .get(bits.trailing_zeros() as usize)
        .copied()
        .unwrap_or(0)
}
