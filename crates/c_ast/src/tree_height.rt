//! How high expressions, specifiers and declarators are. A height that does not fit into 32 bits counts
//! as the greatest number that does.
ghost use Rattle.std.specs.Prelude.{◌≡◌};
ghost use Rattle.c_ast.specs.ValueHeights.{capped, most, if_any, expr_high, type_name_high, specifiers_high, specifier_high, member_high, field_high, enumerator_high, declarator_high, suffix_high, parameter_high};

use crate::expr::{
    Declarator, DeclaratorCore, Enumerator, Expr, ExprForm, Member, MemberDeclarator, Parameter,
    Specifier, SpecifierForm, Specifiers, Suffix, SuffixForm, TypeName,
};

/// The nodes on the longest way down an expression, as `height` counts them. Source: C89 3.3.
#[cycle(height)]
#[tactic(auto, using(crate::proofs::ValueHeights::expr_forms))]
pub fn expr_height(e: &Expr) -> u32
    ensures { result ≡ capped (expr_high e.now) }
{
    match &e.form {
        ExprForm::Name(_) | ExprForm::Integer { .. } | ExprForm::Character(_) | ExprForm::Text(_) =>
            1,
        ExprForm::Enclosed(a)
        | ExprForm::Member(_, a, _)
        | ExprForm::Postfix(_, a)
        | ExprForm::Prefix(_, a)
        | ExprForm::SizeofExpr(a) => expr_height(a).saturating_add(1),
        ExprForm::Index(a, b) | ExprForm::Binary(_, a, b) | ExprForm::Assign(_, a, b) => {
            expr_height(a).max(expr_height(b)).saturating_add(1)
        }
        ExprForm::Call(a, arguments) => expr_height(a)
            .max(tallest(arguments.as_slice()))
            .saturating_add(1),
        ExprForm::SizeofType(name) => type_name_height(name).saturating_add(1),
        ExprForm::Cast(name, a) => type_name_height(name).max(expr_height(a)).saturating_add(1),
        ExprForm::Conditional(a, b, c) => {
            expr_height(a)
                .max(expr_height(b))
                .max(expr_height(c))
                .saturating_add(1)
        }
        ExprForm::Comma(parts) => tallest(parts.as_slice()).saturating_add(1),
    }
}

/// The greatest height of some expressions.
#[cycle(height)]
#[tactic(auto, using(crate::proofs::Tallest::most_at))]
fn tallest(expressions: &[Expr]) -> u32
    ensures { result ≡ capped (most expr_high expressions.now) }
{
    let mut most = 0;
    for e in expressions {
        most = most.max(expr_height(e));
    }
    most
}

/// The height of an expression, if there is one.
#[cycle(height)]
pub(crate) fn maybe_expr_height(e: &Option<Expr>) -> u32
    ensures { result ≡ capped (if_any expr_high e.now) }
{
    match e {
        Some(e) => expr_height(e),
        None => 0,
    }
}

/// The height of a type's name.
#[cycle(height)]
#[tactic(auto, using(crate::proofs::ValueHeights::type_name_parts))]
fn type_name_height(name: &TypeName) -> u32
    ensures { result ≡ capped (type_name_high name.now) }
{
    specifiers_height(&name.specifiers).max(maybe_declarator_height(&name.declarator))
}

/// The nodes on the longest way down specifiers, which count nothing themselves. Source: C89 3.5.
#[cycle(height)]
#[tactic(auto, using(crate::proofs::ValueHeights::specifiers_list))]
pub fn specifiers_height(specifiers: &Specifiers) -> u32
    ensures { result ≡ capped (specifiers_high specifiers.now) }
{
    specifier_list_height(specifiers.list.as_slice())
}

/// The greatest height of what stands in some specifiers.
#[cycle(height)]
#[tactic(auto, using(crate::proofs::Tallest::most_at))]
fn specifier_list_height(list: &[Specifier]) -> u32
    ensures { result ≡ capped (most specifier_high list.now) }
{
    let mut most = 0;
    for specifier in list {
        most = most.max(specifier_height(specifier));
    }
    most
}

/// The height of what stands in a specifier.
#[cycle(height)]
#[tactic(auto, using(crate::proofs::ValueHeights::specifier_forms))]
fn specifier_height(specifier: &Specifier) -> u32
    ensures { result ≡ capped (specifier_high specifier.now) }
{
    match &specifier.form {
        SpecifierForm::Record { members, .. } => members_height(members.as_slice()),
        SpecifierForm::Enum { enumerators, .. } => enumerators_height(enumerators.as_slice()),
        SpecifierForm::Storage(_)
        | SpecifierForm::Qualifier(_)
        | SpecifierForm::Basic(_)
        | SpecifierForm::RecordTag { .. }
        | SpecifierForm::EnumTag(_)
        | SpecifierForm::Named(_) => 0,
    }
}

/// The greatest height of some lines of members.
#[cycle(height)]
#[tactic(auto, using(crate::proofs::Tallest::most_at))]
fn members_height(members: &[Member]) -> u32
    ensures { result ≡ capped (most member_high members.now) }
{
    let mut most = 0;
    for member in members {
        most = most.max(member_height(member));
    }
    most
}

/// The height of a line of members.
#[cycle(height)]
#[tactic(auto, using(crate::proofs::ValueHeights::member_parts))]
fn member_height(member: &Member) -> u32
    ensures { result ≡ capped (member_high member.now) }
{
    specifiers_height(&member.specifiers)
        .max(fields_height(member.declarators.as_slice()))
        .saturating_add(1)
}

/// The greatest height of some members.
#[cycle(height)]
#[tactic(auto, using(crate::proofs::Tallest::most_at))]
fn fields_height(fields: &[MemberDeclarator]) -> u32
    ensures { result ≡ capped (most field_high fields.now) }
{
    let mut most = 0;
    for field in fields {
        most = most.max(field_height(field));
    }
    most
}

/// The height of a member.
#[cycle(height)]
#[tactic(auto, using(crate::proofs::ValueHeights::field_parts))]
fn field_height(field: &MemberDeclarator) -> u32
    ensures { result ≡ capped (field_high field.now) }
{
    maybe_declarator_height(&field.declarator).max(maybe_expr_height(&field.width))
}

/// The greatest height of some enumerators.
#[cycle(height)]
#[tactic(auto, using(crate::proofs::Tallest::most_at))]
fn enumerators_height(enumerators: &[Enumerator]) -> u32
    ensures { result ≡ capped (most enumerator_high enumerators.now) }
{
    let mut most = 0;
    for enumerator in enumerators {
        most = most.max(enumerator_height(enumerator));
    }
    most
}

/// The height of an enumerator's value, if it has one.
#[cycle(height)]
#[tactic(auto, using(crate::proofs::ValueHeights::enumerator_value))]
fn enumerator_height(enumerator: &Enumerator) -> u32
    ensures { result ≡ capped (enumerator_high enumerator.now) }
{
    maybe_expr_height(&enumerator.value)
}

/// The height of a declarator, if there is one.
#[cycle(height)]
fn maybe_declarator_height(declarator: &Option<Declarator>) -> u32
    ensures { result ≡ capped (if_any declarator_high declarator.now) }
{
    match declarator {
        Some(declarator) => declarator_height(declarator),
        None => 0,
    }
}

/// The nodes on the longest way down a declarator, as `height` counts them. Source: C89 3.5.4.
#[cycle(height)]
#[tactic(auto, using(crate::proofs::ValueHeights::declarators))]
pub fn declarator_height(declarator: &Declarator) -> u32
    ensures { result ≡ capped (declarator_high declarator.now) }
{
    let inside = match &declarator.core {
        DeclaratorCore::Parentheses(inner) => declarator_height(inner),
        DeclaratorCore::Declared(_) | DeclaratorCore::Omitted => 0,
    };
    inside
        .max(suffixes_height(declarator.suffixes.as_slice()))
        .saturating_add(1)
}

/// The greatest height of some suffixes.
#[cycle(height)]
#[tactic(auto, using(crate::proofs::Tallest::most_at))]
fn suffixes_height(suffixes: &[Suffix]) -> u32
    ensures { result ≡ capped (most suffix_high suffixes.now) }
{
    let mut most = 0;
    for suffix in suffixes {
        most = most.max(suffix_height(suffix));
    }
    most
}

/// The height of what stands in a suffix.
#[cycle(height)]
#[tactic(auto, using(crate::proofs::ValueHeights::suffix_forms))]
fn suffix_height(suffix: &Suffix) -> u32
    ensures { result ≡ capped (suffix_high suffix.now) }
{
    match &suffix.form {
        SuffixForm::Array(size) => maybe_expr_height(size),
        SuffixForm::Parameters { parameters, .. } => parameters_height(parameters.as_slice()),
        SuffixForm::Names(_) | SuffixForm::Empty => 0,
    }
}

/// The greatest height of some parameters.
#[cycle(height)]
#[tactic(auto, using(crate::proofs::Tallest::most_at))]
fn parameters_height(parameters: &[Parameter]) -> u32
    ensures { result ≡ capped (most parameter_high parameters.now) }
{
    let mut most = 0;
    for parameter in parameters {
        most = most.max(parameter_height(parameter));
    }
    most
}

/// The height of a parameter.
#[cycle(height)]
#[tactic(auto, using(crate::proofs::ValueHeights::parameter_parts))]
fn parameter_height(parameter: &Parameter) -> u32
    ensures { result ≡ capped (parameter_high parameter.now) }
{
    specifiers_height(&parameter.specifiers).max(maybe_declarator_height(&parameter.declarator))
}
