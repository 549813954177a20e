//! Laws of typed units: statements, bodies, functions and objects that typing accepts fit.
ghost use Rattle.c_unit_fits.specs.Laws.{ExternalsFit, TypedBodyHasShape, TypedFunctionFits, TypedStatementFits, TypedStatementIsNumbered, TypedStatementLeads, UnitFits, UnitIsStatic};

/// The expressions of a statement that typing accepts have the operands and types that their kinds promise, tests are
/// scalar values, switches promoted ones, what is returned is of the function's result, and what locals begin with lies in
/// them; and what is known behind it is sound.
pub fn typed_statements_fit()
    ensures statements { TypedStatementFits }
    ensures leads { TypedStatementLeads }
{}

/// The labels of a statement are numbered in the order of the text. Those of a function's body are apart, the locals of
/// its blocks follow in order, and each switch and goto names labels that stand in it.
pub fn typed_bodies_have_their_shape()
    ensures statements { TypedStatementIsNumbered }
    ensures bodies { TypedBodyHasShape }
{}

/// A function's definition that typing accepts has a function's type with parameters that have sizes, its body has its
/// shape, and its statements fit.
pub fn typed_functions_fit()
    ensures functions { TypedFunctionFits }
{}

/// The functions of a unit that typing accepts fit, its objects are whole and what they begin with lies in them, tentative
/// definitions too, and is constant; and what is known at its end is sound.
pub fn typed_units_fit()
    ensures externals { ExternalsFit }
    ensures units { UnitFits }
    ensures constants { UnitIsStatic }
{}
