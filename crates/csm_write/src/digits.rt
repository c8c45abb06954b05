// Upper-case hexadecimal digits.
ghost use Rattle.std.specs.Prelude.{◌≡◌, ◌*◌, length};
ghost use Rattle.hex.specs.Hex.{encode_upper};
ghost use Rattle.csm_write.specs.Canon.{key_digits, code_digits};

/// Writes the digits of the bytes, two for each.
#[tactic(auto, using(crate::proofs::Hexadecimal::upper_from_lower))]
fn write_digits(bytes: &[u8], digits: &mut [u8])
    requires { length digits.old ≡ 2 * length bytes.now }
    ensures { digits.new ≡ encode_upper bytes.now }
{
    hex::encode_to_slice(bytes, digits).unwrap();
    digits.make_ascii_uppercase();
}

/// The 16 digits of a key.
pub fn key_digits(key: u64) -> [u8; 16]
    ensures { result ≡ key_digits key }
{
    let mut digits = [0; 16];
    write_digits(&key.to_be_bytes(), &mut digits);
    digits
}

/// The 8 upper-case digits of a code.
pub fn code_digits(code: u32) -> [u8; 8]
    ensures { result ≡ code_digits code }
{
    let mut digits = [0; 8];
    write_digits(&code.to_be_bytes(), &mut digits);
    digits
}
