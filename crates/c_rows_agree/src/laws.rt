//! Laws of scalars: operators compute, convert, test, read and write them as C does.
ghost use Rattle.c_rows_agree.specs.FitLaws.{BinaryFit, ComparisonsFit, ConversionsFit, FieldReadsFit, FieldStoresFit, FieldValuesFit, NumbersFit, PointersFit, ReadsFit, StoresFit, SuffixesFit, TestsFit, UnaryFit};
ghost use Rattle.c_rows_agree.specs.Laws.{BinaryAgree, ChangesAgree, ComparisonsAgree, ConversionsAgree, FieldStoresAgree, FieldValuesAgree, FieldsAreLoaded, NumbersAgree, PointersAgree, PointersAreRead, ScalarsAreRead, ScalarsAreStored, TestsAgree, UnaryAgree};
ghost use Rattle.c_rows_agree.specs.Stays.{OperatorsStay, ReadsStay};

/// Constants of C, and what is converted to an integer or a pointer type.
pub fn numbers_agree()
    ensures constants { NumbersAgree }
    ensures integers { ConversionsAgree }
    ensures pointers { PointersAgree }
{}

/// Operations on one and two numbers, where C defines them; and what a place has that is changed by one.
pub fn operators_agree()
    ensures unary { UnaryAgree }
    ensures binary { BinaryAgree }
    ensures changes { ChangesAgree }
{}

/// A comparison or a test of numbers is a jump that is taken where it holds, or where it doesn't.
pub fn tests_agree()
    ensures comparisons { ComparisonsAgree }
    ensures tests { TestsAgree }
{}

/// Scalars that C reads and writes.
pub fn scalars_agree()
    ensures read { ScalarsAreRead }
    ensures pointers { PointersAreRead }
    ensures stored { ScalarsAreStored }
{}

/// Bit-fields that C reads and writes, and the values that they have then.
pub fn fields_agree()
    ensures read { FieldsAreLoaded }
    ensures values { FieldValuesAgree }
    ensures stored { FieldStoresAgree }
{}

/// Each operator that stands for one of C's on numbers has the operands and the constant that it needs.
pub fn templates_fit()
    ensures suffixes { SuffixesFit }
    ensures constants { NumbersFit }
    ensures integers { ConversionsFit }
    ensures pointers { PointersFit }
    ensures unary { UnaryFit }
    ensures binary { BinaryFit }
    ensures comparisons { ComparisonsFit }
    ensures tests { TestsFit }
    ensures read { ReadsFit }
    ensures stored { StoresFit }
    ensures field_read { FieldReadsFit }
    ensures field_values { FieldValuesFit }
    ensures field_stored { FieldStoresFit }
{}

/// What an operator gives it does wherever the same objects live; a read, where the object that it reads is the same.
pub fn operators_stay()
    ensures operators { OperatorsStay }
    ensures reads { ReadsStay }
{}
