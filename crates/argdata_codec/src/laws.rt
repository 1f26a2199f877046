//! Laws of argument data, proved of all values and all bytes.
ghost use Rattle.std.specs.Prelude.{◌≡◌, ℕ, List};
ghost use Rattle.argdata_codec.specs.Shape.{Shape};
ghost use Rattle.argdata_codec.specs.Encoding.{Encodes, IsEncodable};

/// A value has an encoding exactly where its parts are in their ranges, and then it has one.
pub fn each_value_has_one_encoding()
    ensures some { (x : Shape) → IsEncodable x → (bytes : List ℕ) × Encodes x bytes }
    ensures encodable { (x : Shape) (bytes : List ℕ) → Encodes x bytes → IsEncodable x }
    ensures one { (x : Shape) (a b : List ℕ) → Encodes x a → Encodes x b → a ≡ b }
{}

/// No bytes encode two values.
pub fn bytes_encode_one_value()
    ensures { (x y : Shape) (bytes : List ℕ) → Encodes x bytes → Encodes y bytes → x ≡ y }
{}
