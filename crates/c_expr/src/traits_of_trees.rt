//! What trees say of themselves.
ghost use Rattle.std.specs.Prelude.{◌≡◌, ◌&&◌, Some, None, not, map, IfSome, IfNone};
ghost use Rattle.c_ast.specs.Operators.{level_of};
ghost use Rattle.c_ast.specs.Views.{specifier_list_of, suffixes_of};
ghost use Rattle.c_ast.specs.ExprMarks.{any_typedef, declared_name, has_typedef, is_own, just_name, makes_typedef, no_pointers, no_suffixes, says_type};
ghost use Rattle.c_ast.specs.Levels.{is_abstract, no_name_lists, rank};
ghost use Rattle.c_ast.specs.Seen.{core_seen, declarator_seen, expr_seen, specifier_seen, specifiers_seen, suffix_seen};
ghost use Rattle.c_expr.specs.NameLists.{is_name_list};

use c_ast::{
    BinaryOperator, Declarator, DeclaratorCore, Expr, ExprForm, Qualifier, Specifier,
    SpecifierForm, Specifiers, Storage, Suffix, SuffixForm,
};
use lcc_base::{Bytes, Items};

/// The level of a binary operator.
pub(crate) fn level_of(operator: BinaryOperator) -> u8
    ensures { result ≡ level_of operator }
{
    match operator {
        BinaryOperator::Or => 3,
        BinaryOperator::And => 4,
        BinaryOperator::BitOr => 5,
        BinaryOperator::BitXor => 6,
        BinaryOperator::BitAnd => 7,
        BinaryOperator::Equal => 8,
        BinaryOperator::NotEqual => 8,
        BinaryOperator::Less => 9,
        BinaryOperator::Greater => 9,
        BinaryOperator::LessEqual => 9,
        BinaryOperator::GreaterEqual => 9,
        BinaryOperator::ShiftLeft => 10,
        BinaryOperator::ShiftRight => 10,
        BinaryOperator::Add => 11,
        BinaryOperator::Subtract => 11,
        BinaryOperator::Multiply => 12,
        BinaryOperator::Divide => 12,
        BinaryOperator::Remainder => 12,
    }
}

/// The level of an expression: 0 for a comma's, 1 assignment, 2 conditional, 3 to 12 binary, 13
/// cast, 14 unary, 15 postfix and primary.
#[tactic(auto, using(c_ast::proofs::lemmas::SeenExprs::expr_forms))]
pub(crate) fn rank(e: &Expr) -> u8
    ensures { result ≡ rank (expr_seen e.now) }
{
    match &e.form {
        ExprForm::Prefix(_, _) => 14,
        ExprForm::SizeofExpr(_) => 14,
        ExprForm::SizeofType(_) => 14,
        ExprForm::Cast(_, _) => 13,
        ExprForm::Binary(operator, _, _) => level_of(*operator),
        ExprForm::Conditional(_, _, _) => 2,
        ExprForm::Assign(_, _, _) => 1,
        ExprForm::Comma(_) => 0,
        ExprForm::Name(_) => 15,
        ExprForm::Integer { .. } => 15,
        ExprForm::Character(_) => 15,
        ExprForm::Text(_) => 15,
        ExprForm::Enclosed(_) => 15,
        ExprForm::Index(_, _) => 15,
        ExprForm::Call(_, _) => 15,
        ExprForm::Member(_, _, _) => 15,
        ExprForm::Postfix(_, _) => 15,
    }
}

/// Whether it is a type specifier.
#[tactic(auto, using(c_ast::proofs::lemmas::SeenTypes::specifier_forms))]
pub(crate) fn says_type(specifier: &Specifier) -> bool
    ensures { result ≡ says_type (specifier_seen specifier.now) }
{
    match &specifier.form {
        SpecifierForm::Storage(_) => false,
        SpecifierForm::Qualifier(_) => false,
        SpecifierForm::Basic(_) => true,
        SpecifierForm::Record { .. } => true,
        SpecifierForm::RecordTag { .. } => true,
        SpecifierForm::Enum { .. } => true,
        SpecifierForm::EnumTag(_) => true,
        SpecifierForm::Named(_) => true,
    }
}

#[tactic(auto, using(c_ast::proofs::lemmas::SeenTypes::specifier_forms))]
fn makes_typedef(specifier: &Specifier) -> bool
    ensures { result ≡ makes_typedef (specifier_seen specifier.now) }
{
    match &specifier.form {
        SpecifierForm::Storage(storage) => *storage == Storage::Typedef,
        SpecifierForm::Qualifier(_) => false,
        SpecifierForm::Basic(_) => false,
        SpecifierForm::Record { .. } => false,
        SpecifierForm::RecordTag { .. } => false,
        SpecifierForm::Enum { .. } => false,
        SpecifierForm::EnumTag(_) => false,
        SpecifierForm::Named(_) => false,
    }
}

fn any_typedef(specifiers: &[Specifier]) -> bool
    ensures { result ≡ any_typedef (specifier_list_of (map specifier_seen specifiers.now)) }
{
    for specifier in specifiers {
        if makes_typedef(specifier) {
            return true;
        }
    }
    false
}

/// Whether `typedef` is among the specifiers, so that what is declared by them is a typedef name.
#[tactic(auto, using(c_ast::proofs::lemmas::SeenTypes::type_forms))]
pub fn has_typedef(specifiers: &Specifiers) -> bool
    ensures { result ≡ has_typedef (specifiers_seen specifiers.now) }
{
    any_typedef(specifiers.list.as_slice())
}

/// The name that the declarator declares, if it has one.
#[tactic(auto, using(c_ast::proofs::lemmas::SeenTypes::type_forms, c_ast::proofs::lemmas::SeenTypes::core_forms))]
pub fn declared_name(declarator: &Declarator) -> Option<&Bytes>
    ensures some { IfSome result (λ n. declared_name (declarator_seen declarator.now) ≡ Some n.now) }
    ensures none { IfNone result (declared_name (declarator_seen declarator.now) ≡ None) }
{
    match &declarator.core {
        DeclaratorCore::Declared(name) => Some(name),
        DeclaratorCore::Parentheses(inner) => declared_name(inner),
        DeclaratorCore::Omitted => None,
    }
}

/// Whether neither pointers nor suffixes stand around a declarator's core.
fn is_bare(pointers: &Items<Items<Qualifier>>, suffixes: &Items<Suffix>) -> bool
    ensures { result ≡ (no_pointers pointers.now && no_suffixes (suffixes_of (map suffix_seen suffixes.now))) }
{
    pointers.is_empty() && suffixes.is_empty()
}

/// Whether the declarator is a name, perhaps in parentheses.
#[tactic(auto, using(crate::proofs::Bare::just_name_by, c_ast::proofs::lemmas::SeenTypes::core_forms))]
fn just_name(declarator: &Declarator) -> bool
    ensures { result ≡ just_name (declarator_seen declarator.now) }
{
    if !is_bare(&declarator.pointers, &declarator.suffixes) {
        return false;
    }
    match &declarator.core {
        DeclaratorCore::Declared(_) => true,
        DeclaratorCore::Parentheses(inner) => just_name(inner),
        DeclaratorCore::Omitted => false,
    }
}

/// Whether a suffix behind it is that of the declared name itself.
#[tactic(auto, using(c_ast::proofs::lemmas::SeenTypes::type_forms, c_ast::proofs::lemmas::SeenTypes::core_forms))]
pub(crate) fn is_own(core: &DeclaratorCore) -> bool
    ensures { result ≡ is_own (core_seen core.now) }
{
    match core {
        DeclaratorCore::Declared(_) => true,
        DeclaratorCore::Parentheses(inner) => just_name(inner),
        DeclaratorCore::Omitted => false,
    }
}

#[tactic(auto, using(c_ast::proofs::lemmas::SeenTypes::suffix_forms))]
fn is_name_list(suffix: &Suffix) -> bool
    ensures { result ≡ is_name_list (suffix_seen suffix.now) }
{
    match &suffix.form {
        SuffixForm::Names(_) => true,
        SuffixForm::Array(_) => false,
        SuffixForm::Parameters { .. } => false,
        SuffixForm::Empty => false,
    }
}

fn has_name_list(suffixes: &[Suffix]) -> bool
    ensures { result ≡ not (no_name_lists (suffixes_of (map suffix_seen suffixes.now))) }
{
    for suffix in suffixes {
        if is_name_list(suffix) {
            return true;
        }
    }
    false
}

/// Whether the declarator has no name and no list of names, and isn't empty.
#[tactic(auto, using(crate::proofs::Bare::is_abstract_by, c_ast::proofs::lemmas::SeenTypes::core_forms))]
pub(crate) fn is_abstract(declarator: &Declarator) -> bool
    ensures { result ≡ is_abstract (declarator_seen declarator.now) }
{
    if has_name_list(declarator.suffixes.as_slice()) {
        return false;
    }
    match &declarator.core {
        DeclaratorCore::Declared(_) => false,
        DeclaratorCore::Parentheses(inner) => is_abstract(inner),
        DeclaratorCore::Omitted => !is_bare(&declarator.pointers, &declarator.suffixes),
    }
}
