ghost use Rattle.std.specs.Prelude.{◌≡◌};
ghost use Rattle.x_gen.specs.Parity.{is_weak_key, odd_parity_of};

/// The weak keys and the semi-weak keys of DES, with odd parity.
const WEAK: [u64; 16] = [
    0x0101_0101_0101_0101,
    0xFEFE_FEFE_FEFE_FEFE,
    0xE0E0_E0E0_F1F1_F1F1,
    0x1F1F_1F1F_0E0E_0E0E,
    0x01FE_01FE_01FE_01FE,
    0xFE01_FE01_FE01_FE01,
    0x1FE0_1FE0_0EF1_0EF1,
    0xE01F_E01F_F10E_F10E,
    0x01E0_01E0_01F1_01F1,
    0xE001_E001_F101_F101,
    0x1FFE_1FFE_0EFE_0EFE,
    0xFE1F_FE1F_FE0E_FE0E,
    0x011F_011F_010E_010E,
    0x1F01_1F01_0E01_0E01,
    0xE0FE_E0FE_F1FE_F1FE,
    0xFEE0_FEE0_FEF1_FEF1,
];

/// The key of 64 bits with the lowest bit of each byte set so that the byte has an odd number of
/// ones.
pub fn with_odd_parity(key: u64) -> u64
    ensures { result ≡ odd_parity_of key }
{
    let mut bytes = key.to_be_bytes();
    for byte in bytes.iter_mut() {
        let high = *byte / 2;
        *byte = high * 2 + (1 - (high.count_ones() % 2) as u8);
    }
    u64::from_be_bytes(bytes)
}

/// Whether the key, given odd parity, is a weak or a semi-weak key.
pub fn is_weak(key: u64) -> bool
    ensures { result ≡ is_weak_key key }
{
    WEAK.contains(&with_odd_parity(key))
}
