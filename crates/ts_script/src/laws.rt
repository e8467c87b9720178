//! Laws about the words of lines. Each is the contract of a function that does nothing.

ghost use Rattle.std.specs.Prelude.{◌≡◌, ℕ, List};
ghost use Rattle.ts_script.specs.Parts.{Part};
ghost use Rattle.ts_script.specs.ExtensionWords.{AreParts};

/// Words after the signer say one list of parts.
pub fn one_reading()
    ensures { (words : List (List ℕ)) (parts others : List Part) → AreParts words parts
        → AreParts words others → parts ≡ others }
{}
