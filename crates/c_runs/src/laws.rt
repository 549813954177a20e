//! Laws of C's runs: turns fall, traces grow, longer runs agree, and values stay sound.
ghost use Rattle.c_runs.specs.Laws.{LoopIs, JumpIs, CallIs, EvalFalls, ExecFalls, EvalGrows, ExecGrows, RunsGoFurther, OutputsGrow, DepthsGrow, CallsStandAlone};
ghost use Rattle.c_runs.specs.Soundness.{EvalStaysSound, ExecStaysSound, CopiesStaySound, RunStaysSound, UnitsAreTame, CoreStaysSound};
ghost use Rattle.c_runs.specs.Locals.{BodiesStart, EntriesMakeLocals, EntriesStaySound, FittingIsPassed, CheckedCallsHaveLocals, BodiesKeepLocals, CallsPassCopies, LocalsAreKept, CopiesAreKept, LocalIsObject};

/// A loop is its own repetition, with the turns that it leaves; so is a block that catches gotos, and
/// a call runs the body of its function among the same calls.
pub fn turns_are_repetitions()
    ensures loops { LoopIs }
    ensures gotos { JumpIs }
    ensures calls { CallIs }
{}

/// No expression and no statement leaves more turns than it had.
pub fn turns_fall()
    ensures expressions { EvalFalls }
    ensures statements { ExecFalls }
{}

/// What was seen of a run stays seen.
pub fn traces_grow()
    ensures expressions { EvalGrows }
    ensures statements { ExecGrows }
{}

/// A run that has ended ends so with more turns, too; one whose turns were spent shows as much with
/// more turns.
pub fn runs_go_further()
    ensures runs { RunsGoFurther }
    ensures outputs { OutputsGrow }
    ensures depths { DepthsGrow }
{}

/// A call depends on the objects that live, the input and its arguments; what the caller's locals are,
/// and what was seen before, change nothing.
pub fn calls_stand_alone()
    ensures { CallsStandAlone }
{}

/// In every run of a checked unit numbers stay words, and bytes bytes; each pointer's object was made, and
/// the pointer stays in it; what lives keeps its size; and the running call keeps its objects. Of units,
/// expressions and statements this is so wherever numbers are words, bit-fields lie in their units, and
/// texts are of bytes, as they do in each checked unit; and of a structure that is copied always.
pub fn runs_stay_sound()
    ensures expressions { EvalStaysSound }
    ensures statements { ExecStaysSound }
    ensures copies { CopiesStaySound }
    ensures runs { RunStaysSound }
    ensures units { UnitsAreTame }
    ensures checked { CoreStaysSound }
{}

/// In a call's body each local of its function is an object that lives, with the size of its type, where
/// the parameters are scalars or whole structures, as a checked function's are, and each structure is passed
/// as a copy, as calls in such a body do. What expressions and statements keep is enough for it to stay so.
pub fn locals_are_objects()
    ensures starts { BodiesStart }
    ensures entries { EntriesMakeLocals }
    ensures sound { EntriesStaySound }
    ensures fitting { FittingIsPassed }
    ensures checked { CheckedCallsHaveLocals }
    ensures returns { BodiesKeepLocals }
    ensures calls { CallsPassCopies }
    ensures kept { LocalsAreKept }
    ensures copies { CopiesAreKept }
    ensures each { LocalIsObject }
{}
