//! Expressions, specifiers and declarators as texts.
ghost use Rattle.std.specs.Prelude.{◌≡◌, ◌<◌, ◌++◌, flat_map, OnOk};
ghost use Rattle.c_ast.specs.TreeTexts.{listed, sign_text, name_text, literal_text, pointer_text, tag_text, end_text, dots_text};
ghost use Rattle.c_ast.specs.ValueTexts.{shown_if_any, shown_behind, core_shown, expr_shown, type_name_shown, specifiers_shown, specifier_shown, member_shown, field_shown, enumerator_shown, declarator_shown, suffix_shown, parameter_shown};
ghost use Rattle.c_ast.specs.Signs.{open_parenthesis, close_parenthesis};

use crate::expr::{
    Declarator, DeclaratorCore, Enumerator, Expr, ExprForm, Member, MemberDeclarator, Parameter,
    Specifier, SpecifierForm, Specifiers, Suffix, SuffixForm, TypeName,
};
use crate::specifier::Qualifier;
use crate::spelled_by::{
    assign_sign, basic_word, binary_sign, member_sign, postfix_sign, prefix_sign, qualifier_word,
    record_word, storage_word,
};
use crate::token_text::{
    push_character_constant, push_integer, push_keyword, push_name, push_sign, push_text,
};
use crate::{keyword, sign};
use lcc_base::{Bytes, Items, Memory};

/// Adds an expression.
#[cycle(print)]
#[tactic(auto, using(std::proofs::lemmas::Grind::common_steps, crate::proofs::ShownValues::expr_forms))]
pub(crate) fn push_expr(out: &mut Bytes, e: &Expr) -> Result<(), Memory>
    ensures { OnOk result (out.new ≡ out.old ++ expr_shown e.now) }
{
    match &e.form {
        ExprForm::Name(name) => push_name(out, name),
        ExprForm::Integer { value, kind } => push_integer(out, *value, *kind),
        ExprForm::Character(value) => push_character_constant(out, *value),
        ExprForm::Text(texts) => push_texts(out, texts.as_slice()),
        ExprForm::Enclosed(a) => {
            push_sign(out, sign::OPEN)?;
            push_expr(out, a)?;
            push_sign(out, sign::CLOSE)
        }
        ExprForm::Index(a, i) => {
            push_expr(out, a)?;
            push_sign(out, sign::OPEN_BRACKET)?;
            push_expr(out, i)?;
            push_sign(out, sign::CLOSE_BRACKET)
        }
        ExprForm::Call(f, arguments) => {
            push_expr(out, f)?;
            push_sign(out, sign::OPEN)?;
            push_sequence(out, arguments.as_slice())?;
            push_sign(out, sign::CLOSE)
        }
        ExprForm::Member(operator, a, name) => {
            push_expr(out, a)?;
            push_sign(out, member_sign(*operator))?;
            push_name(out, name)
        }
        ExprForm::Postfix(operator, a) => {
            push_expr(out, a)?;
            push_sign(out, postfix_sign(*operator))
        }
        ExprForm::Prefix(operator, a) => {
            push_sign(out, prefix_sign(*operator))?;
            push_expr(out, a)
        }
        ExprForm::SizeofExpr(a) => {
            push_keyword(out, keyword::SIZEOF)?;
            push_expr(out, a)
        }
        ExprForm::SizeofType(name) => {
            push_keyword(out, keyword::SIZEOF)?;
            push_enclosed_type(out, name)
        }
        ExprForm::Cast(name, a) => {
            push_enclosed_type(out, name)?;
            push_expr(out, a)
        }
        ExprForm::Binary(operator, a, b) => {
            push_expr(out, a)?;
            push_sign(out, binary_sign(*operator))?;
            push_expr(out, b)
        }
        ExprForm::Conditional(a, b, c) => {
            push_expr(out, a)?;
            push_sign(out, sign::QUESTION)?;
            push_expr(out, b)?;
            push_sign(out, sign::COLON)?;
            push_expr(out, c)
        }
        ExprForm::Assign(operator, a, b) => {
            push_expr(out, a)?;
            push_sign(out, assign_sign(*operator))?;
            push_expr(out, b)
        }
        ExprForm::Comma(parts) => push_sequence(out, parts.as_slice()),
    }
}

/// Adds expressions with commas between.
#[cycle(print)]
fn push_sequence(out: &mut Bytes, parts: &[Expr]) -> Result<(), Memory>
    ensures { OnOk result (out.new ≡ out.old ++ listed expr_shown parts.now) }
{
    let Some((first, rest)) = parts.split_first() else {
        return Ok(());
    };
    push_expr(out, first)?;
    for part in rest {
        push_sign(out, sign::COMMA)?;
        push_expr(out, part)?;
    }
    Ok(())
}

/// Adds an expression, if there is one.
#[cycle(print)]
pub(crate) fn push_maybe(out: &mut Bytes, e: &Option<Expr>) -> Result<(), Memory>
    ensures { OnOk result (out.new ≡ out.old ++ shown_if_any expr_shown e.now) }
{
    match e {
        Some(e) => push_expr(out, e),
        None => Ok(()),
    }
}

/// Adds an expression behind a sign, if there is one.
#[cycle(print)]
fn push_behind(out: &mut Bytes, number: u8, e: &Option<Expr>) -> Result<(), Memory>
    requires { number < 46 }
    ensures { OnOk result (out.new ≡ out.old ++ shown_behind number e.now) }
{
    match e {
        Some(e) => {
            push_sign(out, number)?;
            push_expr(out, e)
        }
        None => Ok(()),
    }
}

/// Adds adjacent string literals.
fn push_texts(out: &mut Bytes, texts: &[Bytes]) -> Result<(), Memory>
    ensures { OnOk result (out.new ≡ out.old ++ flat_map literal_text texts.now) }
{
    for text in texts {
        push_text(out, text)?;
    }
    Ok(())
}

/// Adds a type's name in parentheses.
#[cycle(print)]
#[tactic(auto, using(std::proofs::lemmas::Grind::common_steps, crate::proofs::ShownValues::type_name_parts))]
fn push_enclosed_type(out: &mut Bytes, name: &TypeName) -> Result<(), Memory>
    ensures { OnOk result (out.new ≡ out.old ++ (sign_text open_parenthesis ++ type_name_shown name.now ++ sign_text close_parenthesis)) }
{
    push_sign(out, sign::OPEN)?;
    push_specifiers(out, &name.specifiers)?;
    push_maybe_declarator(out, &name.declarator)?;
    push_sign(out, sign::CLOSE)
}

/// Adds specifiers.
#[cycle(print)]
#[tactic(auto, using(std::proofs::lemmas::Grind::common_steps, crate::proofs::ShownValues::specifiers_list))]
pub(crate) fn push_specifiers(out: &mut Bytes, specifiers: &Specifiers) -> Result<(), Memory>
    ensures { OnOk result (out.new ≡ out.old ++ specifiers_shown specifiers.now) }
{
    push_specifier_list(out, specifiers.list.as_slice())
}

/// Adds each specifier of some.
#[cycle(print)]
fn push_specifier_list(out: &mut Bytes, list: &[Specifier]) -> Result<(), Memory>
    ensures { OnOk result (out.new ≡ out.old ++ flat_map specifier_shown list.now) }
{
    for specifier in list {
        push_specifier(out, specifier)?;
    }
    Ok(())
}

/// Adds a specifier.
#[cycle(print)]
#[tactic(auto, using(std::proofs::lemmas::Grind::common_steps, crate::proofs::ShownValues::specifier_forms))]
fn push_specifier(out: &mut Bytes, specifier: &Specifier) -> Result<(), Memory>
    ensures { OnOk result (out.new ≡ out.old ++ specifier_shown specifier.now) }
{
    match &specifier.form {
        SpecifierForm::Storage(storage) => push_keyword(out, storage_word(*storage)),
        SpecifierForm::Qualifier(qualifier) => push_keyword(out, qualifier_word(*qualifier)),
        SpecifierForm::Basic(basic) => push_keyword(out, basic_word(*basic)),
        SpecifierForm::Record { kind, tag, members } => {
            push_keyword(out, record_word(*kind))?;
            push_tag(out, tag)?;
            push_sign(out, sign::OPEN_BRACE)?;
            push_members(out, members.as_slice())?;
            push_sign(out, sign::CLOSE_BRACE)
        }
        SpecifierForm::RecordTag { kind, tag } => {
            push_keyword(out, record_word(*kind))?;
            push_name(out, tag)
        }
        SpecifierForm::Enum {
            tag,
            enumerators,
            comma,
        } => {
            push_keyword(out, keyword::ENUM)?;
            push_tag(out, tag)?;
            push_sign(out, sign::OPEN_BRACE)?;
            push_enumerators(out, enumerators.as_slice())?;
            push_end(out, *comma)
        }
        SpecifierForm::EnumTag(tag) => {
            push_keyword(out, keyword::ENUM)?;
            push_name(out, tag)
        }
        SpecifierForm::Named(name) => push_name(out, name),
    }
}

/// Adds a tag, if there is one.
fn push_tag(out: &mut Bytes, tag: &Option<Bytes>) -> Result<(), Memory>
    ensures { OnOk result (out.new ≡ out.old ++ tag_text tag.now) }
{
    match tag {
        Some(tag) => push_name(out, tag),
        None => Ok(()),
    }
}

/// Adds the end of a list in braces, perhaps with a comma before the brace.
pub(crate) fn push_end(out: &mut Bytes, comma: bool) -> Result<(), Memory>
    ensures { OnOk result (out.new ≡ out.old ++ end_text comma) }
{
    if !comma {
        return push_sign(out, sign::CLOSE_BRACE);
    }
    push_sign(out, sign::COMMA)?;
    push_sign(out, sign::CLOSE_BRACE)
}

/// Adds lines of members.
#[cycle(print)]
fn push_members(out: &mut Bytes, members: &[Member]) -> Result<(), Memory>
    ensures { OnOk result (out.new ≡ out.old ++ flat_map member_shown members.now) }
{
    for member in members {
        push_member(out, member)?;
    }
    Ok(())
}

/// Adds a line of members.
#[cycle(print)]
#[tactic(auto, using(std::proofs::lemmas::Grind::common_steps, crate::proofs::ShownValues::member_parts))]
fn push_member(out: &mut Bytes, member: &Member) -> Result<(), Memory>
    ensures { OnOk result (out.new ≡ out.old ++ member_shown member.now) }
{
    push_specifiers(out, &member.specifiers)?;
    push_fields(out, member.declarators.as_slice())?;
    push_sign(out, sign::SEMICOLON)
}

/// Adds members with commas between.
#[cycle(print)]
fn push_fields(out: &mut Bytes, fields: &[MemberDeclarator]) -> Result<(), Memory>
    ensures { OnOk result (out.new ≡ out.old ++ listed field_shown fields.now) }
{
    let Some((first, rest)) = fields.split_first() else {
        return Ok(());
    };
    push_field(out, first)?;
    for field in rest {
        push_sign(out, sign::COMMA)?;
        push_field(out, field)?;
    }
    Ok(())
}

/// Adds a member.
#[cycle(print)]
#[tactic(auto, using(std::proofs::lemmas::Grind::common_steps, crate::proofs::ShownValues::field_parts))]
fn push_field(out: &mut Bytes, field: &MemberDeclarator) -> Result<(), Memory>
    ensures { OnOk result (out.new ≡ out.old ++ field_shown field.now) }
{
    push_maybe_declarator(out, &field.declarator)?;
    push_behind(out, sign::COLON, &field.width)
}

/// Adds enumerators with commas between.
#[cycle(print)]
fn push_enumerators(out: &mut Bytes, enumerators: &[Enumerator]) -> Result<(), Memory>
    ensures { OnOk result (out.new ≡ out.old ++ listed enumerator_shown enumerators.now) }
{
    let Some((first, rest)) = enumerators.split_first() else {
        return Ok(());
    };
    push_enumerator(out, first)?;
    for enumerator in rest {
        push_sign(out, sign::COMMA)?;
        push_enumerator(out, enumerator)?;
    }
    Ok(())
}

/// Adds an enumerator.
#[cycle(print)]
#[tactic(auto, using(std::proofs::lemmas::Grind::common_steps, crate::proofs::ShownValues::enumerator_parts))]
fn push_enumerator(out: &mut Bytes, enumerator: &Enumerator) -> Result<(), Memory>
    ensures { OnOk result (out.new ≡ out.old ++ enumerator_shown enumerator.now) }
{
    push_name(out, &enumerator.name)?;
    push_behind(out, sign::EQUALS, &enumerator.value)
}

/// Adds a declarator, if there is one.
#[cycle(print)]
fn push_maybe_declarator(out: &mut Bytes, declarator: &Option<Declarator>) -> Result<(), Memory>
    ensures { OnOk result (out.new ≡ out.old ++ shown_if_any declarator_shown declarator.now) }
{
    match declarator {
        Some(declarator) => push_declarator(out, declarator),
        None => Ok(()),
    }
}

/// Adds a declarator.
#[cycle(print)]
#[tactic(auto, using(std::proofs::lemmas::Grind::common_steps, crate::proofs::ShownValues::declarator_parts))]
pub(crate) fn push_declarator(out: &mut Bytes, declarator: &Declarator) -> Result<(), Memory>
    ensures { OnOk result (out.new ≡ out.old ++ declarator_shown declarator.now) }
{
    push_pointers(out, declarator.pointers.as_slice())?;
    push_core(out, &declarator.core)?;
    push_suffixes(out, declarator.suffixes.as_slice())
}

/// Adds pointers.
fn push_pointers(out: &mut Bytes, pointers: &[Items<Qualifier>]) -> Result<(), Memory>
    ensures { OnOk result (out.new ≡ out.old ++ flat_map pointer_text pointers.now) }
{
    for qualifiers in pointers {
        push_pointer(out, qualifiers.as_slice())?;
    }
    Ok(())
}

/// Adds a `*` and the qualifiers behind it.
fn push_pointer(out: &mut Bytes, qualifiers: &[Qualifier]) -> Result<(), Memory>
    ensures { OnOk result (out.new ≡ out.old ++ pointer_text qualifiers.now) }
{
    push_sign(out, sign::STAR)?;
    for qualifier in qualifiers {
        push_keyword(out, qualifier_word(*qualifier))?;
    }
    Ok(())
}

/// Adds what stands between a declarator's pointers and its suffixes.
#[cycle(print)]
#[tactic(auto, using(std::proofs::lemmas::Grind::common_steps, crate::proofs::ShownValues::cores))]
fn push_core(out: &mut Bytes, core: &DeclaratorCore) -> Result<(), Memory>
    ensures { OnOk result (out.new ≡ out.old ++ core_shown core.now) }
{
    match core {
        DeclaratorCore::Declared(name) => push_name(out, name),
        DeclaratorCore::Parentheses(inner) => {
            push_sign(out, sign::OPEN)?;
            push_declarator(out, inner)?;
            push_sign(out, sign::CLOSE)
        }
        DeclaratorCore::Omitted => Ok(()),
    }
}

/// Adds suffixes.
#[cycle(print)]
fn push_suffixes(out: &mut Bytes, suffixes: &[Suffix]) -> Result<(), Memory>
    ensures { OnOk result (out.new ≡ out.old ++ flat_map suffix_shown suffixes.now) }
{
    for suffix in suffixes {
        push_suffix(out, suffix)?;
    }
    Ok(())
}

/// Adds a suffix.
#[cycle(print)]
#[tactic(auto, using(std::proofs::lemmas::Grind::common_steps, crate::proofs::ShownValues::suffix_forms))]
fn push_suffix(out: &mut Bytes, suffix: &Suffix) -> Result<(), Memory>
    ensures { OnOk result (out.new ≡ out.old ++ suffix_shown suffix.now) }
{
    match &suffix.form {
        SuffixForm::Array(size) => {
            push_sign(out, sign::OPEN_BRACKET)?;
            push_maybe(out, size)?;
            push_sign(out, sign::CLOSE_BRACKET)
        }
        SuffixForm::Parameters { parameters, more } => {
            push_sign(out, sign::OPEN)?;
            push_parameters(out, parameters.as_slice())?;
            push_dots(out, *more)
        }
        SuffixForm::Names(names) => {
            push_sign(out, sign::OPEN)?;
            push_names(out, names.as_slice())?;
            push_sign(out, sign::CLOSE)
        }
        SuffixForm::Empty => {
            push_sign(out, sign::OPEN)?;
            push_sign(out, sign::CLOSE)
        }
    }
}

/// Adds names with commas between.
fn push_names(out: &mut Bytes, names: &[Bytes]) -> Result<(), Memory>
    ensures { OnOk result (out.new ≡ out.old ++ listed name_text names.now) }
{
    let Some((first, rest)) = names.split_first() else {
        return Ok(());
    };
    push_name(out, first)?;
    for name in rest {
        push_sign(out, sign::COMMA)?;
        push_name(out, name)?;
    }
    Ok(())
}

/// Adds the end of a parameter list, perhaps with `...` before it.
fn push_dots(out: &mut Bytes, more: bool) -> Result<(), Memory>
    ensures { OnOk result (out.new ≡ out.old ++ dots_text more) }
{
    if !more {
        return push_sign(out, sign::CLOSE);
    }
    push_sign(out, sign::COMMA)?;
    push_sign(out, sign::DOTS)?;
    push_sign(out, sign::CLOSE)
}

/// Adds parameters with commas between.
#[cycle(print)]
fn push_parameters(out: &mut Bytes, parameters: &[Parameter]) -> Result<(), Memory>
    ensures { OnOk result (out.new ≡ out.old ++ listed parameter_shown parameters.now) }
{
    let Some((first, rest)) = parameters.split_first() else {
        return Ok(());
    };
    push_parameter(out, first)?;
    for parameter in rest {
        push_sign(out, sign::COMMA)?;
        push_parameter(out, parameter)?;
    }
    Ok(())
}

/// Adds a parameter.
#[cycle(print)]
#[tactic(auto, using(std::proofs::lemmas::Grind::common_steps, crate::proofs::ShownValues::parameter_parts))]
fn push_parameter(out: &mut Bytes, parameter: &Parameter) -> Result<(), Memory>
    ensures { OnOk result (out.new ≡ out.old ++ parameter_shown parameter.now) }
{
    push_specifiers(out, &parameter.specifiers)?;
    push_maybe_declarator(out, &parameter.declarator)
}
