//! Laws of the grammar's pieces: at most one tree of each production stands at a place.
ghost use Rattle.std.specs.Prelude.{◌≡◌, ◌≤◌, ℕ, Bool, true, false};
ghost use Rattle.c_ast.specs.ExprMarks.{expr, type_name, specifiers, declarator};
ghost use Rattle.c_ast.specs.UnitMarks.{initialiser, declaration, declarations, statement, external};
ghost use Rattle.c_ast.specs.Levels.{rank, Parts, FitsTypeName, FitsSpecifiers, FitsDeclarator, FitsInitialiser, FitsDeclaration, FitsDeclarations, FitsStatement, FitsExternal, is_named};
ghost use Rattle.c_ast.specs.Reach.{Stops, StopsWhole};
ghost use Rattle.c_readings.specs.Pieces.{Closes, OnePiece};

/// Where an expression stands, one of its level, without a comma at its top, does, and one comma
/// expression.
pub fn one_expression()
    ensures expression { (level : ℕ) → OnePiece expr (λ x r. (1 ≤ level) × (level ≤ rank x) × Parts x × Stops level x r) }
    ensures whole_expression { OnePiece expr (λ x r. Parts x × StopsWhole x r) }
{}

/// Where specifiers or a type's name stand, one list or one name does.
pub fn one_type()
    ensures specifier_list { OnePiece specifiers (λ x r. FitsSpecifiers x) }
    ensures type_name { OnePiece type_name (λ x r. FitsTypeName x) }
{}

/// Where a declarator with a name stands, or one whose name may be left out, one does.
pub fn one_declarator()
    ensures named_declarator { (outer : Bool) → OnePiece (declarator false outer) (λ x r. (is_named x ≡ true) × FitsDeclarator x) }
    ensures free_declarator { OnePiece (declarator true false) (λ x r. FitsDeclarator x) }
{}

/// Where an initialiser, a declaration, or declarations up to what is none stand, one of them does.
pub fn one_declaration()
    ensures initialiser { OnePiece initialiser (λ x r. FitsInitialiser x × Closes r) }
    ensures declaration { OnePiece declaration (λ x r. FitsDeclaration x) }
    ensures declarations { OnePiece declarations (λ x r. FitsDeclarations x) }
{}

/// Where a statement or an external declaration stands, one does.
pub fn one_statement()
    ensures statement { OnePiece statement (λ x r. FitsStatement x) }
    ensures external { OnePiece external (λ x r. FitsExternal x) }
{}
