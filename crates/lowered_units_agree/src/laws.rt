//! Laws of lowered units, for the agreement with C.
ghost use Rattle.lowered_units_agree.specs.Laws.{
  BlocksAreSplit,
  BuiltInsAreProvided,
  FunctionsAreFair,
  NamesAreNumbered,
  UnitsAreLowerings,
};

/// In the lowered body of a function whose jumps stay in it each block is split behind the slots that it had.
pub fn blocks_are_split()
    ensures { BlocksAreSplit }
{
    dag_forest::blocks_are_split();
}

/// The names of a lowered unit are numbered as C's unit numbers its functions, objects and texts, and the built-in functions and the
/// tables behind them.
pub fn names_are_numbered()
    ensures { NamesAreNumbered }
{}

/// So the number of a built-in function that the unit doesn't define stands for it.
pub fn built_ins_are_provided()
    ensures { BuiltInsAreProvided }
{}

/// The lowered unit of a checked unit that keeps the limits has what the agreement of its functions with C's asks: functions by their
/// numbers, whose blocks are split and whose tables are the unit's; and objects and texts by their names.
pub fn units_are_lowerings()
    ensures { UnitsAreLowerings }
{
    blocks_are_split();
}

/// The functions of a checked unit are fair: their objects aren't large, and their jumps stay in them.
pub fn functions_are_fair()
    ensures { FunctionsAreFair }
{}
