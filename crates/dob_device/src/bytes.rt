// Bytes that are compared.
ghost use Rattle.std.specs.Prelude.{◌≡◌, ◌↔◌, IsTrue, bytes_eq};

/// Whether the bytes are the same.
pub fn are_same(left: &[u8], right: &[u8]) -> bool
    ensures same { IsTrue result ↔ (left.now ≡ right.now) }
    ensures test { result ≡ bytes_eq left.now right.now }
{
    left == right
}
