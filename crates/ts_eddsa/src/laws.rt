//! Laws of the constants and of decoding. Each is the contract of a function that does nothing.

ghost use Rattle.std.specs.Prelude.{◌≡◌, ℕ, List, Some};
ghost use Rattle.std.specs.Int.Digits.{AllBelowBase};
ghost use Rattle.ts_eddsa.specs.Decode.{decode};
ghost use Rattle.ts_eddsa.specs.Encode.{encode, IsOnCurve};
ghost use Rattle.ts_eddsa.specs.Field.{plus, times, negative, d, root_of_minus_one, base_x, base_y};
ghost use Rattle.ts_eddsa.specs.Points.{Point, affine};

/// The constants are what they are called, and the base point is on the curve (RFC 8032 5.1).
pub fn constants()
    ensures d { times d 121666 ≡ negative 121665 }
    ensures root { times root_of_minus_one root_of_minus_one ≡ negative 1 }
    ensures base_y { times base_y 5 ≡ 4 }
    ensures base { plus (negative (times base_x base_x)) (times base_y base_y)
        ≡ plus 1 (times d (times (times base_x base_x) (times base_y base_y))) }
{}

/// Decoding (RFC 8032 5.1.3) is the inverse of the encoding of the points of the curve (5.1.2):
/// octets that decode are the encoding of a point of the curve, which they decode to, and the
/// encoding of each point of the curve decodes to it.
pub fn decodes_points()
    ensures found { (octets : List ℕ) (q : Point) → AllBelowBase 256 octets
        → decode octets ≡ Some q
        → (x y : ℕ) × IsOnCurve x y × (octets ≡ encode x y) × (q ≡ affine x y) }
    ensures only { (x y : ℕ) → IsOnCurve x y → decode (encode x y) ≡ Some (affine x y) }
{}
