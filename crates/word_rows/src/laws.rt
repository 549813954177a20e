//! Laws of words and a machine's numbers.
ghost use Rattle.word_rows.specs.Numbers.{ConstantsAre, LowAreKept, LowAreWidened, NarrowConstantsAre, OneIsSo, TwoAreSo};
ghost use Rattle.word_rows.specs.Bits.{AndIsSo, ComplementIsSo, LeftShiftsAreSo, OrIsSo, RightShiftsAreSo, SignedRightShiftsAreSo, XorIsSo};
ghost use Rattle.word_rows.specs.Pointers.{DifferencesAre, LabelsAreAt, LocalsAreAt, NamesAreAt, NamesMove, ParametersAreAt, PointersMoveBack, PointersMoveOn};
ghost use Rattle.word_rows.specs.Comparisons.{EqualityIs, SignedAreSo, UnsignedAreSo};
ghost use Rattle.word_rows.specs.Data.{DataAreBytes, ItemsAreBytes, UnitsStand};
ghost use Rattle.word_rows.specs.Rows.{BinaryRowsGive, CallsGo, ConstantRowsGive, JumpsGo, TestRowsMove, UnaryRowsGive};

/// Arithmetic of words is that of their numbers, and so are conversions and constants. Of a char or a short any bits may stand above.
pub fn numbers_are_so()
    ensures one { OneIsSo }
    ensures two { TwoAreSo }
    ensures widened { LowAreWidened }
    ensures kept { LowAreKept }
    ensures constants { ConstantsAre }
    ensures narrow { NarrowConstantsAre }
{}

/// What is known of a result's bits is so of the bits that a machine computes; shifts are by 0 to 31.
pub fn bits_are_so()
    ensures conjunction { AndIsSo }
    ensures disjunction { OrIsSo }
    ensures difference { XorIsSo }
    ensures complement { ComplementIsSo }
    ensures left { LeftShiftsAreSo }
    ensures right { RightShiftsAreSo }
    ensures signed { SignedRightShiftsAreSo }
{}

/// The addresses of names, labels, slots and parameter words, and pointers that are moved or subtracted, modulo 2^32.
pub fn pointers_are_so()
    ensures names { NamesAreAt }
    ensures moved { NamesMove }
    ensures labels { LabelsAreAt }
    ensures locals { LocalsAreAt }
    ensures parameters { ParametersAreAt }
    ensures on { PointersMoveOn }
    ensures back { PointersMoveBack }
    ensures differences { DifferencesAre }
{}

/// Comparisons of numbers, pointers and functions are those of the machine's numbers.
pub fn comparisons_are_so()
    ensures equality { EqualityIs }
    ensures signed { SignedAreSo }
    ensures unsigned { UnsignedAreSo }
{}

/// Each operator that gives a value is an operation on the machine's numbers; one that compares goes to its label where the machine's comparison holds; and a jump
/// or call goes to the address.
pub fn rows_are_so()
    ensures two { BinaryRowsGive }
    ensures one { UnaryRowsGive }
    ensures constants { ConstantRowsGive }
    ensures tests { TestRowsMove }
    ensures jumps { JumpsGo }
    ensures calls { CallsGo }
{}

/// The bytes of a unit's items among a program's data are those of its objects at the start.
pub fn data_are_bytes()
    ensures items { ItemsAreBytes }
    ensures objects { DataAreBytes }
    ensures units { UnitsStand }
{}
