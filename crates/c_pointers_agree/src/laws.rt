//! Laws of pointers: operators move, compare and call them as C does.
ghost use Rattle.c_pointers_agree.specs.FitLaws.{ArgumentsFit, DifferencesFit, ElementsFit, MembersFit, NamesFit, SlotsLie};
ghost use Rattle.c_pointers_agree.specs.Laws.{ArgumentsStand, CalleesAgree, ComparisonsAgree, DifferencesAgree, EitherSideMoves, ElementsMove, FunctionsStand, LiveStays, MembersAgree, NamesMove, NamesStand, SlotsMove, SlotsStand, TestsAgree};
ghost use Rattle.c_pointers_agree.specs.OwnObjects.{OwnObjectsLive, OwnTextsLive};
ghost use Rattle.c_pointers_agree.specs.ShortLaws.{OperandsAreSound, ShortGrows, ShortIsKept, ShortIsTaken};

/// A pointer that C moves by elements, to a member, or from what a name stands for is moved alike by the operators that stand
/// for it. The bytes of a slot of the frame are at the offsets from its own on, and parameter words at multiples of 4.
pub fn moves_agree()
    ensures elements { ElementsMove }
    ensures sides { EitherSideMoves }
    ensures members { MembersAgree }
    ensures names { NamesStand }
    ensures live { LiveStays }
    ensures behind { NamesMove }
    ensures slots { SlotsStand }
    ensures further { SlotsMove }
    ensures arguments { ArgumentsStand }
{}

/// Where C subtracts two pointers the operators that stand for it give the same number of elements; and where it compares two, or
/// tests one, a jump goes where it should.
pub fn comparisons_agree()
    ensures differences { DifferencesAgree }
    ensures compared { ComparisonsAgree }
    ensures tested { TestsAgree }
{}

/// What C calls is a function, which is what CALL takes; and a function's name stands for it.
pub fn calls_agree()
    ensures callees { CalleesAgree }
    ensures functions { FunctionsStand }
{}

/// Each operator that stands for one of C's on pointers has the operands and the constant that it needs.
pub fn pointers_fit()
    ensures elements { ElementsFit }
    ensures members { MembersFit }
    ensures names { NamesFit }
    ensures arguments { ArgumentsFit }
    ensures differences { DifferencesFit }
    ensures slots { SlotsLie }
{}

/// Values of a run of C are as these laws want them, and short objects stay so where the same ones live, short ones begin, and the
/// last ones end.
pub fn objects_stay_short()
    ensures sound { OperandsAreSound }
    ensures kept { ShortIsKept }
    ensures grown { ShortGrows }
    ensures taken { ShortIsTaken }
{}

/// The unit's own objects and texts live.
pub fn own_objects_live()
    ensures objects { OwnObjectsLive }
    ensures texts { OwnTextsLive }
{}
