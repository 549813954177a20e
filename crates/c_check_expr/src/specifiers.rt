//! The node of specifiers: what a list of them says (C89 3.5.1 to 3.5.3).
ghost use Rattle.std.specs.Prelude.{◌≡◌, ◌<◌, count_by, length, option_map, IfOk, IfErr, IfSome};
ghost use Rattle.c_types.specs.Compatible.{basic_place};
ghost use Rattle.c_types.specs.Table.{Grows, Table, tags, type_at};
ghost use Rattle.c_meaning.specs.Nodes as node;
ghost use Rattle.c_meaning.specs.State.{State};
ghost use Rattle.c_meaning.specs.TypeRows.{specified as row, type_among, wholes_in, words_in};
ghost use Rattle.c_meaning.specs.Typing.{Fine, at};
ghost use Rattle.c_meaning.specs.Words.{meant};
ghost use Rattle.c_check_expr.specs.AtNode.{Tells};
ghost use Rattle.c_check_expr.specs.Counted.{classes_among, counted, first_whole, has_float, is_any_word, is_whole, is_word, meant_in, qualifier_in, qualifiers_among};
ghost use Rattle.c_check_expr.specs.PartsSeen.{ArePartsIn, parts_seen, specified_seen};

use crate::parts::{Part, Specified};
use c_ast::{BasicType, Qualifier, Storage};
use c_types::{Qualifiers, TypeId, TypeTable};
use c_values::CheckFault;
use c_values::basic_places::{
    CHAR, INT, LONG, SHORT, SIGNED_CHAR, UNSIGNED, UNSIGNED_CHAR, UNSIGNED_LONG, UNSIGNED_SHORT,
    VOID,
};
use lcc_base::{Items, Memory};
use std::alloc::Global;

/// How many words there are.
const WORDS: usize = 9;

/// The lists of words that form a type, by how often each word stands in them, and the place of the type.
const TABLE: [([usize; WORDS], TypeId); 22] = [
    // void, char, short, int, long, signed, unsigned, float, double
    ([1, 0, 0, 0, 0, 0, 0, 0, 0], VOID),
    ([0, 1, 0, 0, 0, 0, 0, 0, 0], CHAR),
    ([0, 1, 0, 0, 0, 1, 0, 0, 0], SIGNED_CHAR),
    ([0, 1, 0, 0, 0, 0, 1, 0, 0], UNSIGNED_CHAR),
    ([0, 0, 1, 0, 0, 0, 0, 0, 0], SHORT),
    ([0, 0, 1, 0, 0, 1, 0, 0, 0], SHORT),
    ([0, 0, 1, 1, 0, 0, 0, 0, 0], SHORT),
    ([0, 0, 1, 1, 0, 1, 0, 0, 0], SHORT),
    ([0, 0, 1, 0, 0, 0, 1, 0, 0], UNSIGNED_SHORT),
    ([0, 0, 1, 1, 0, 0, 1, 0, 0], UNSIGNED_SHORT),
    ([0, 0, 0, 0, 0, 0, 0, 0, 0], INT),
    ([0, 0, 0, 1, 0, 0, 0, 0, 0], INT),
    ([0, 0, 0, 0, 0, 1, 0, 0, 0], INT),
    ([0, 0, 0, 1, 0, 1, 0, 0, 0], INT),
    ([0, 0, 0, 0, 0, 0, 1, 0, 0], UNSIGNED),
    ([0, 0, 0, 1, 0, 0, 1, 0, 0], UNSIGNED),
    ([0, 0, 0, 0, 1, 0, 0, 0, 0], LONG),
    ([0, 0, 0, 0, 1, 1, 0, 0, 0], LONG),
    ([0, 0, 0, 1, 1, 0, 0, 0, 0], LONG),
    ([0, 0, 0, 1, 1, 1, 0, 0, 0], LONG),
    ([0, 0, 0, 0, 1, 0, 1, 0, 0], UNSIGNED_LONG),
    ([0, 0, 0, 1, 1, 0, 1, 0, 0], UNSIGNED_LONG),
];

/// Whether it is the word of this place.
fn is_word(part: &Part, place: usize) -> bool
    ensures { result ≡ is_word place part.now }
{
    match part {
        Part::Word(word) => *word as usize == place,
        _ => false,
    }
}

/// How often the word of this place stands among the specifiers.
fn count(parts: &[Part], place: usize) -> usize
    ensures { result ≡ count_by (is_word place) parts.now }
{
    parts.iter().filter(|part| is_word(part, place)).count()
}

/// How often each word stands among the specifiers.
fn counts(parts: &[Part]) -> [usize; WORDS]
    ensures { result ≡ counted parts.now }
{
    [
        count(parts, BasicType::Void as usize),
        count(parts, BasicType::Char as usize),
        count(parts, BasicType::Short as usize),
        count(parts, BasicType::Int as usize),
        count(parts, BasicType::Long as usize),
        count(parts, BasicType::Signed as usize),
        count(parts, BasicType::Unsigned as usize),
        count(parts, BasicType::Float as usize),
        count(parts, BasicType::Double as usize),
    ]
}

/// Whether `float` or `double` stands among the specifiers.
fn has_floating(parts: &[Part]) -> bool
    ensures { result ≡ has_float parts.now }
{
    for part in parts {
        if let Part::Word(BasicType::Float | BasicType::Double) = part {
            return true;
        }
    }
    false
}

/// What stands in the table beside these counts.
fn find(table: &[([usize; WORDS], TypeId)], counts: &[usize; WORDS]) -> Option<TypeId>
    ensures { result ≡ meant_in table.now counts.now }
{
    for (words, place) in table {
        if counts == words {
            return Some(*place);
        }
    }
    None
}

/// The place of the basic type that the words among the specifiers form.
fn word_type(parts: &[Part]) -> Option<TypeId>
    ensures { (t : Table) → result ≡ option_map basic_place (meant (words_in (parts_seen t parts.now))) }
{
    find(&TABLE, &counts(parts))
}

/// The first type that stands among the specifiers by itself.
fn first_whole(parts: &[Part]) -> Option<TypeId>
    ensures { result ≡ first_whole parts.now }
{
    for part in parts {
        if let Part::Whole(of) = part {
            return Some(*of);
        }
    }
    None
}

/// How many types stand among the specifiers by themselves.
fn whole_count(parts: &[Part]) -> usize
    ensures { result ≡ count_by is_whole parts.now }
{
    parts
        .iter()
        .filter(|part| matches!(part, Part::Whole(_)))
        .count()
}

/// How many words stand among the specifiers.
fn word_count(parts: &[Part]) -> usize
    ensures { result ≡ count_by is_any_word parts.now }
{
    parts
        .iter()
        .filter(|part| matches!(part, Part::Word(_)))
        .count()
}

/// The type that the specifiers form: that of their words, or the one that stands alone.
fn formed_type(types: &TypeTable, parts: &[Part]) -> Option<TypeId>
    requires { ArePartsIn (length types.now.forms) parts.now }
    ensures means { option_map (type_at types.now) result ≡ type_among (wholes_in (parts_seen types.now parts.now)) (words_in (parts_seen types.now parts.now)) }
    ensures within { IfSome result (λ of. of < length types.now.forms) }
{
    match first_whole(parts) {
        Some(of) if whole_count(parts) == 1 && word_count(parts) == 0 => Some(of),
        Some(_) => None,
        None => Some(types.basic_type(word_type(parts)?)),
    }
}

/// The qualifier that the specifier is, if it is one.
fn qualifier(part: &Part) -> Qualifiers
    ensures { result.0 ≡ qualifier_in part.now }
{
    match part {
        Part::Qualified(Qualifier::Const) => Qualifiers::CONST,
        Part::Qualified(Qualifier::Volatile) => Qualifiers::VOLATILE,
        _ => Qualifiers::none(),
    }
}

/// The qualifiers among the specifiers.
fn qualifiers(parts: &[Part]) -> Qualifiers
    ensures { result.0 ≡ qualifiers_among parts.now }
{
    let mut all = Qualifiers::none();
    for part in parts {
        all = all.with(qualifier(part));
    }
    all
}

/// The storage classes among the specifiers.
fn classes(alloc: Global, parts: &[Part]) -> Result<Items<Storage>, Memory>
    ensures { IfOk result (λ all. all ≡ classes_among parts.now) }
{
    let mut all = Items::new(alloc);
    for part in parts {
        if let Part::Stored(class) = part {
            all.push(*class)?;
        }
    }
    Ok(all)
}

/// What the specifiers of a list say together.
pub fn specified(
    alloc: Global,
    types: &mut TypeTable,
    line: u32,
    parts: &[Part],
) -> Result<Specified, CheckFault>
    requires { ArePartsIn (length types.old.forms) parts.now }
    ensures ok { IfOk result (λ b. (s : State) → s.tags ≡ tags types.old → at s line (node.Typing (node.Specifiers (parts_seen types.old parts.now))) s (row (parts_seen types.old parts.now)) ≡ Fine s (specified_seen types.new b)) }
    ensures err { IfErr result (λ e. (s : State) → s.tags ≡ tags types.old → Tells e (at s line (node.Typing (node.Specifiers (parts_seen types.old parts.now))) s (row (parts_seen types.old parts.now)))) }
    ensures within { IfOk result (λ b. b.of < length types.new.forms) }
    ensures grows { Grows types.old types.new }
{
    if has_floating(parts) {
        return Err(CheckFault::Constraint { number: 1, line });
    }
    let Some(of) = formed_type(types, parts) else {
        return Err(CheckFault::Constraint { number: 2, line });
    };
    let classes = classes(alloc, parts)?;
    if classes.len() > 1 {
        return Err(CheckFault::Constraint { number: 3, line });
    }
    let of = types.qualified(of, qualifiers(parts))?;
    Ok(Specified { classes, of })
}
