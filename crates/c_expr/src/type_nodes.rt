//! Specifiers, members, declarators and parameters made of their parts.
ghost use Rattle.std.specs.Prelude.{◌≡◌, map, IfOk};
ghost use Rattle.c_ast.specs.Trees.{TypeNamed, Specified, Stored, Qualified, Basic, Record, RecordTag, NamedType, Members, Field, Named, Inner, ArraySuffix, Prototype, NameList, NoParameters};
ghost use Rattle.c_ast.specs.Trees as tree;
ghost use Rattle.c_ast.specs.Trees.{Declarator as DeclaratorNode, Enumerator as EnumeratorNode, Omitted as NoName, Parameter as ParameterNode};
ghost use Rattle.c_ast.specs.Views.{enumerators_of, fields_of, members_of, parameters_of, specifier_list_of, suffixes_of};
ghost use Rattle.c_ast.specs.Seen.{core_seen, declarator_seen, enumerator_seen, field_seen, maybe_declarator_seen, maybe_expr_seen, member_seen, parameter_seen, specifier_seen, specifiers_seen, suffix_seen, type_name_seen};

use c_ast::{
    BasicType, Declarator, DeclaratorCore, Enumerator, Expr, Member, MemberDeclarator, Parameter,
    Qualifier, RecordKind, Specifier, SpecifierForm, Specifiers, Storage, Suffix, SuffixForm,
    TypeName,
};
use lcc_base::{Bytes, Items, Memory};
use std::alloc::Global;

/// A storage class.
#[tactic(auto, using(c_ast::proofs::lemmas::SeenTypes::specifier_forms))]
pub(crate) fn stored(line: u32, storage: Storage) -> Specifier
    ensures { specifier_seen result ≡ Stored line storage }
{
    Specifier {
        line,
        form: SpecifierForm::Storage(storage),
    }
}

/// A qualifier.
#[tactic(auto, using(c_ast::proofs::lemmas::SeenTypes::specifier_forms))]
pub(crate) fn qualified(line: u32, qualifier: Qualifier) -> Specifier
    ensures { specifier_seen result ≡ Qualified line qualifier }
{
    Specifier {
        line,
        form: SpecifierForm::Qualifier(qualifier),
    }
}

/// A keyword of a type.
#[tactic(auto, using(c_ast::proofs::lemmas::SeenTypes::specifier_forms))]
pub(crate) fn basic(line: u32, basic: BasicType) -> Specifier
    ensures { specifier_seen result ≡ Basic line basic }
{
    Specifier {
        line,
        form: SpecifierForm::Basic(basic),
    }
}

/// A typedef name.
#[tactic(auto, using(c_ast::proofs::lemmas::SeenTypes::specifier_forms))]
pub(crate) fn named_type(line: u32, name: Bytes) -> Specifier
    ensures { specifier_seen result ≡ NamedType line name }
{
    Specifier {
        line,
        form: SpecifierForm::Named(name),
    }
}

/// A structure or union with its members.
#[tactic(auto, using(c_ast::proofs::lemmas::SeenTypes::specifier_forms))]
pub(crate) fn record(
    line: u32,
    kind: RecordKind,
    tag: Option<Bytes>,
    members: Items<Member>,
) -> Specifier
    ensures { specifier_seen result ≡ Record line kind tag (members_of (map member_seen members)) }
{
    Specifier {
        line,
        form: SpecifierForm::Record { kind, tag, members },
    }
}

/// The tag of a structure or union.
#[tactic(auto, using(c_ast::proofs::lemmas::SeenTypes::specifier_forms))]
pub(crate) fn record_tag(line: u32, kind: RecordKind, tag: Bytes) -> Specifier
    ensures { specifier_seen result ≡ RecordTag line kind tag }
{
    Specifier {
        line,
        form: SpecifierForm::RecordTag { kind, tag },
    }
}

/// An enumeration with its enumerators, perhaps with a comma behind the last.
#[tactic(auto, using(c_ast::proofs::lemmas::SeenTypes::specifier_forms))]
pub(crate) fn enumeration(
    line: u32,
    tag: Option<Bytes>,
    enumerators: Items<Enumerator>,
    comma: bool,
) -> Specifier
    ensures { specifier_seen result ≡ tree.Enum line tag (enumerators_of (map enumerator_seen enumerators)) comma }
{
    Specifier {
        line,
        form: SpecifierForm::Enum {
            tag,
            enumerators,
            comma,
        },
    }
}

/// The tag of an enumeration.
#[tactic(auto, using(c_ast::proofs::lemmas::SeenTypes::specifier_forms))]
pub(crate) fn enumeration_tag(line: u32, tag: Bytes) -> Specifier
    ensures { specifier_seen result ≡ tree.EnumTag line tag }
{
    Specifier {
        line,
        form: SpecifierForm::EnumTag(tag),
    }
}

/// Specifiers.
#[tactic(auto, using(c_ast::proofs::lemmas::SeenTypes::type_forms))]
pub(crate) fn specified(line: u32, list: Items<Specifier>) -> Specifiers
    ensures { specifiers_seen result ≡ Specified line (specifier_list_of (map specifier_seen list)) }
{
    Specifiers { line, list }
}

/// A line of members.
#[tactic(auto, using(c_ast::proofs::lemmas::SeenTypes::type_forms))]
pub(crate) fn member(
    line: u32,
    specifiers: Specifiers,
    declarators: Items<MemberDeclarator>,
) -> Member
    ensures { member_seen result ≡ Members line (specifiers_seen specifiers) (fields_of (map field_seen declarators)) }
{
    Member {
        line,
        specifiers,
        declarators,
    }
}

/// A member: its declarator, its width, or both.
#[tactic(auto, using(c_ast::proofs::lemmas::SeenTypes::type_forms))]
pub(crate) fn field(
    line: u32,
    declarator: Option<Declarator>,
    width: Option<Expr>,
) -> MemberDeclarator
    ensures { field_seen result ≡ Field line (maybe_declarator_seen declarator) (maybe_expr_seen width) }
{
    MemberDeclarator {
        line,
        declarator,
        width,
    }
}

/// An enumerator.
#[tactic(auto, using(c_ast::proofs::lemmas::SeenTypes::type_forms))]
pub(crate) fn enumerator(line: u32, name: Bytes, value: Option<Expr>) -> Enumerator
    ensures { enumerator_seen result ≡ EnumeratorNode line name (maybe_expr_seen value) }
{
    Enumerator { line, name, value }
}

/// A type's name.
#[tactic(auto, using(c_ast::proofs::lemmas::SeenTypes::type_forms))]
pub(crate) fn type_name(
    line: u32,
    specifiers: Specifiers,
    declarator: Option<Declarator>,
) -> TypeName
    ensures { type_name_seen result ≡ TypeNamed line (specifiers_seen specifiers) (maybe_declarator_seen declarator) }
{
    TypeName {
        line,
        specifiers,
        declarator,
    }
}

/// A parameter.
#[tactic(auto, using(c_ast::proofs::lemmas::SeenTypes::type_forms))]
pub(crate) fn parameter(
    line: u32,
    specifiers: Specifiers,
    declarator: Option<Declarator>,
) -> Parameter
    ensures { parameter_seen result ≡ ParameterNode line (specifiers_seen specifiers) (maybe_declarator_seen declarator) }
{
    Parameter {
        line,
        specifiers,
        declarator,
    }
}

/// A declarator.
#[tactic(auto, using(c_ast::proofs::lemmas::SeenTypes::type_forms))]
pub(crate) fn declarator(
    line: u32,
    pointers: Items<Items<Qualifier>>,
    core: DeclaratorCore,
    suffixes: Items<Suffix>,
) -> Declarator
    ensures { declarator_seen result ≡ DeclaratorNode line pointers (core_seen core) (suffixes_of (map suffix_seen suffixes)) }
{
    Declarator {
        line,
        pointers,
        core,
        suffixes,
    }
}

/// A declared name.
#[tactic(auto, using(c_ast::proofs::lemmas::SeenTypes::core_forms))]
pub(crate) fn declared(name: Bytes) -> DeclaratorCore
    ensures { core_seen result ≡ Named name }
{
    DeclaratorCore::Declared(name)
}

/// No name.
#[tactic(auto, using(c_ast::proofs::lemmas::SeenTypes::core_forms))]
pub(crate) fn omitted() -> DeclaratorCore
    ensures { core_seen result ≡ NoName }
{
    DeclaratorCore::Omitted
}

/// A declarator in parentheses.
#[tactic(auto, using(c_ast::proofs::lemmas::SeenTypes::core_forms))]
pub(crate) fn inner(alloc: Global, declarator: Declarator) -> Result<DeclaratorCore, Memory>
    ensures { IfOk result (λ c. core_seen c ≡ Inner (declarator_seen declarator)) }
{
    Ok(DeclaratorCore::Parentheses(Box::new(alloc, declarator)?))
}

/// An array, perhaps of a size.
#[tactic(auto, using(c_ast::proofs::lemmas::SeenTypes::suffix_forms))]
pub(crate) fn array(line: u32, size: Option<Expr>) -> Suffix
    ensures { suffix_seen result ≡ ArraySuffix line (maybe_expr_seen size) }
{
    Suffix {
        line,
        form: SuffixForm::Array(size),
    }
}

/// Parameters, perhaps with `...` behind them.
#[tactic(auto, using(c_ast::proofs::lemmas::SeenTypes::suffix_forms))]
pub(crate) fn prototype(line: u32, parameters: Items<Parameter>, more: bool) -> Suffix
    ensures { suffix_seen result ≡ Prototype line (parameters_of (map parameter_seen parameters)) more }
{
    Suffix {
        line,
        form: SuffixForm::Parameters { parameters, more },
    }
}

/// Names of parameters.
#[tactic(auto, using(c_ast::proofs::lemmas::SeenTypes::suffix_forms))]
pub(crate) fn name_list(line: u32, names: Items<Bytes>) -> Suffix
    ensures { suffix_seen result ≡ NameList line names }
{
    Suffix {
        line,
        form: SuffixForm::Names(names),
    }
}

/// Empty parentheses.
#[tactic(auto, using(c_ast::proofs::lemmas::SeenTypes::suffix_forms))]
pub(crate) fn no_parameters(line: u32) -> Suffix
    ensures { suffix_seen result ≡ NoParameters line }
{
    Suffix {
        line,
        form: SuffixForm::Empty,
    }
}
