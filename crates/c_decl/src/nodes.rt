//! Initialisers and declarations made of their parts.
ghost use Rattle.std.specs.Prelude.{◌≡◌, map};
ghost use Rattle.c_ast.specs.Trees.{ByExpr, Braced};
ghost use Rattle.c_ast.specs.UnitViews.{initialisers_of, option_of};
ghost use Rattle.c_ast.specs.Seen.{declarator_seen, expr_seen, specifiers_seen};
ghost use Rattle.c_ast.specs.SeenUnits.{boxed_initialiser_seen, declaration_seen, init_seen, initialiser_seen};

use c_ast::{
    Declaration, Declarator, Expr, InitDeclarator, Initialiser, InitialiserForm, Specifiers,
};
use lcc_base::Items;

/// An initialiser that is an expression.
#[tactic(auto, using(c_ast::proofs::lemmas::SeenNodes::initialiser_forms))]
pub(crate) fn by_expr(line: u32, expression: Expr) -> Initialiser
    ensures { initialiser_seen result ≡ ByExpr line (expr_seen expression) }
{
    Initialiser {
        line,
        form: InitialiserForm::Expr(expression),
    }
}

/// Initialisers in braces.
#[tactic(auto, using(c_ast::proofs::lemmas::SeenNodes::initialiser_forms))]
pub(crate) fn braced(line: u32, items: Items<Initialiser>, comma: bool) -> Initialiser
    ensures { initialiser_seen result ≡ Braced line (initialisers_of (map initialiser_seen items)) comma }
{
    Initialiser {
        line,
        form: InitialiserForm::List { items, comma },
    }
}

/// A declarator, perhaps with an initialiser.
#[tactic(auto, using(c_ast::proofs::lemmas::SeenNodes::node_parts))]
pub(crate) fn init(
    line: u32,
    declarator: Declarator,
    initialiser: Option<Box<Initialiser>>,
) -> InitDeclarator
    ensures { init_seen result ≡ record { line = line; declarator = declarator_seen declarator; initialiser = option_of boxed_initialiser_seen initialiser } }
{
    InitDeclarator {
        line,
        declarator,
        initialiser,
    }
}

/// A declaration of its parts.
#[tactic(auto, using(c_ast::proofs::lemmas::SeenNodes::node_parts))]
pub fn declared(
    line: u32,
    specifiers: Specifiers,
    declarators: Items<InitDeclarator>,
) -> Declaration
    ensures { declaration_seen result ≡ record { line = line; specifiers = specifiers_seen specifiers; declarators = map init_seen declarators } }
{
    Declaration {
        line,
        specifiers,
        declarators,
    }
}
