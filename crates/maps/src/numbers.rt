// Numbers in bytes, the highest byte first.
ghost use Rattle.std.specs.Prelude.{◌≡◌, ◌≤◌, length, take};
ghost use Rattle.std.specs.Int.Digits.{number_from_digits};

// The number that at most eight bytes write.
// A `for`: that the product fits is not proved in the closure of a `fold`, and `u64::from_be_bytes` takes no fewer than eight bytes.
#[tactic(auto, using(crate::proofs::Bytes::number_steps))]
fn number_of(bytes: &[u8]) -> u64
    requires { length bytes.now ≤ 8 }
    ensures { result ≡ number_from_digits 256 bytes.now }
{
    let mut value = 0;
    for b in bytes {
        value = value * 256 + u64::from(*b);
    }
    value
}

// The number that the bytes write, or the first eight of them where there are more.
pub fn big_endian(bytes: &[u8]) -> u64
    ensures { result ≡ number_from_digits 256 (take 8 bytes.now) }
{
    number_of(bytes.get(..8).unwrap_or(bytes))
}
