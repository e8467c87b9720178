//! Tags.

ghost use Rattle.std.specs.Prelude.{◌≡◌, IsTrue, ◌↔◌};

/// Whether two tags are equal. All octets are looked at, wherever the first difference is.
pub fn is_same_tag(a: &[u8; 32], b: &[u8; 32]) -> bool
    ensures { IsTrue result ↔ (a.now ≡ b.now) }
{
    let mut same = true;
    for i in 0..32 {
        same &= a[i] == b[i];
    }
    same
}
