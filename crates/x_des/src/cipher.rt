ghost use Rattle.std.specs.Prelude.{◌≡◌, ℕ};
ghost use Rattle.x_des.specs.Des.{SameButParity, deciphered, enciphered};

use crate::schedule::Schedule;

/// The encryption of a block of 64 bits under a key of 64 bits, of which the parity bits don't
/// matter.
pub fn encrypt(key: u64, block: u64) -> u64
    ensures enciphered { result ≡ enciphered key block }
    ensures undone { deciphered key result ≡ block }
    ensures parity { (k : ℕ) → SameButParity key k → result ≡ enciphered k block }
{
    Schedule::new(key).encrypt(block)
}

/// The decryption of a block of 64 bits under a key of 64 bits, of which the parity bits don't
/// matter.
pub fn decrypt(key: u64, block: u64) -> u64
    ensures deciphered { result ≡ deciphered key block }
    ensures undone { enciphered key result ≡ block }
    ensures parity { (k : ℕ) → SameButParity key k → result ≡ deciphered k block }
{
    Schedule::new(key).decrypt(block)
}
