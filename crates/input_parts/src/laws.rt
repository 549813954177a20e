//! Laws of parted inputs: no input has two texts or two rests.
ghost use Rattle.std.specs.Prelude.{◌≡◌, ℕ, List};
ghost use Rattle.input_parts.specs.InputMark.{IsParted};

/// An input is parted in one way.
pub fn one_parting()
    ensures { (input text rest other last : List ℕ) → IsParted input text rest → IsParted input other last → (text ≡ other) × (rest ≡ last) }
{}
