//! Law of lowered nodes: an operator that gives an expression's value stands for it.
ghost use Rattle.c_expr_agreement.specs.Laws.{NodeIsLowered};

/// A node whose operator gives an expression's value, which changes nothing, stands for the expression.
pub fn nodes_are_lowered()
    ensures { NodeIsLowered }
{}
