//! Nodes of names and constants (C89 3.3.1).
ghost use Rattle.std.specs.Prelude.{◌≡◌, ◌<◌, ◌++◌, ◌∷◌, [], None, false, length, IfOk, IfErr, IfSome, OnOk};
ghost use Rattle.objects.specs.Arithmetic.{word_of};
ghost use Rattle.c_symbols.specs.Scoping.{found, symbol_named};
ghost use Rattle.c_types.specs.Table.{Grows, basic_forms, type_at, type_in, types_of};
ghost use Rattle.c_meaning.specs.CoreTrees.{IsIn, seen};
ghost use Rattle.c_meaning.specs.ExprConstraints.{differs_from_int_function};
ghost use Rattle.c_meaning.specs.Nodes as node;
ghost use Rattle.c_meaning.specs.Rows.{constant_type as type_of_constant, joined as joined_texts, kind_meant, nat_of, row, word_or_zero};
ghost use Rattle.c_meaning.specs.State.{external, int_function as function_of_int, link_or_next, with_function, with_link};
ghost use Rattle.c_meaning.specs.Typing.{Fine, at, at_expr};
ghost use Rattle.c_check_expr.specs.AtNode.{Becomes, IsRefused, Tells};
ghost use Rattle.c_check_expr.specs.Known.{AreSymbolsIn, state_of};
ghost use Rattle.c_check_expr.specs.Redeclared.{IsRedeclared};

use crate::outline;
use c_ast::IntKind;
use c_meaning::{CoreExpr, CoreKind, LiteralText};
use c_symbols::{Scopes, Storage, Symbol, SymbolId};
use c_types::{TypeForm, TypeId, TypeTable};
use c_values::CheckFault;
use c_values::basic_places::{CHAR, INT, LONG, UNSIGNED, UNSIGNED_LONG};
use c_values::forming::leaf;
use lcc_base::{Bytes, Items, Memory, Which};
use std::alloc::Global;

/// The greatest size of a type, in bytes.
const LARGEST: usize = outline::LARGEST as usize;

/// A name.
pub(crate) fn name(
    alloc: Global,
    scopes: &Scopes,
    types: &TypeTable,
    line: u32,
    name: &[u8],
) -> Result<CoreExpr, CheckFault>
    requires { AreSymbolsIn (length types.now.forms) scopes.now.symbols }
    ensures ok { IfOk result (λ core. at_expr (state_of scopes.now types.now) line (node.Name name.now) ≡ Fine (state_of scopes.now types.now) (seen (type_at types.now) core)) }
    ensures err { IfErr result (λ e. Tells e (at_expr (state_of scopes.now types.now) line (node.Name name.now))) }
    ensures within { IfOk result (λ core. IsIn (length types.now.forms) core) }
{
    let Some(id) = scopes.find(name) else {
        return Err(CheckFault::Constraint { number: 28, line });
    };
    types.types_are_within_limits();
    let symbol = scopes.symbol(id);
    match meaning(symbol, id) {
        Some(what) => Ok(leaf(alloc, what, symbol.of, line)),
        None => Err(CheckFault::Memory),
    }
}

/// What a symbol stands for. None where its value isn't one that declarations give: an enumerator's
/// number is an int, and a place in a function is less than 2^32.
fn meaning(symbol: &Symbol, id: SymbolId) -> Option<CoreKind>
    ensures { IfSome result (λ what. what ≡ kind_meant symbol.now.class symbol.now.value id) }
{
    match symbol.class {
        Storage::Enumerator => Some(CoreKind::Number(word(symbol.value)?)),
        Storage::Auto => Some(CoreKind::Local {
            place: u32::try_from(number(symbol.value, 0)).ok()?,
            register: false,
        }),
        Storage::Register => Some(CoreKind::Local {
            place: u32::try_from(number(symbol.value, 0)).ok()?,
            register: true,
        }),
        _ => Some(CoreKind::Symbol(number(symbol.value, id))),
    }
}

/// The magnitude of the value, or the other number where there is none.
fn number(value: Option<i64>, other: usize) -> usize
    ensures { result ≡ nat_of value other }
{
    match value {
        Some(n) => n.unsigned_abs() as usize,
        None => other,
    }
}

/// The word of an int, 0 where there is none.
fn word(value: Option<i64>) -> Option<u32>
    ensures { IfSome result (λ n. n ≡ word_or_zero value) }
{
    match value {
        Some(n) => Some(int_word(i32::try_from(n).ok()?)),
        None => Some(0),
    }
}

/// A name that is called and isn't declared: the call declares it as `extern int name()` in the
/// innermost scope (C89 3.3.2.2).
pub(crate) fn new_function(
    alloc: Global,
    scopes: &mut Scopes,
    types: &mut TypeTable,
    line: u32,
    name: &[u8],
) -> Result<CoreExpr, CheckFault>
    requires symbols { AreSymbolsIn (length types.old.forms) scopes.old.symbols }
    requires undeclared { found (scopes.old.outer ++ scopes.old.inner ∷ []) name.now ≡ None }
    ensures ok { IfOk result (λ core. at (state_of scopes.old types.old) line (node.Expression (node.NewFunction name.now)) (with_function (state_of scopes.old types.old) line name.now) (row (state_of scopes.old types.old) line (node.NewFunction name.now)) ≡ Fine (state_of scopes.new types.new) (seen (type_at types.new) core)) }
    ensures err { IfErr result (λ e. Tells e (at (state_of scopes.old types.old) line (node.Expression (node.NewFunction name.now)) (with_function (state_of scopes.old types.old) line name.now) (row (state_of scopes.old types.old) line (node.NewFunction name.now)))) }
    ensures within { IfOk result (λ core. IsIn (length types.new.forms) core) }
    ensures symbols { AreSymbolsIn (length types.new.forms) scopes.new.symbols }
    ensures outer { scopes.new.outer ≡ scopes.old.outer }
    ensures grows { Grows types.old types.new }
{
    let of = int_function(types)?;
    let id = linked(scopes, types, line, name, of)?;
    let (Ok(level), Ok(value)) = (u32::try_from(scopes.level()), i64::try_from(id)) else {
        // No source opens so many scopes or declares so many names.
        return Err(CheckFault::Memory);
    };
    let symbol = Symbol {
        class: Storage::Extern,
        of,
        line,
        level,
        value: Some(value),
    };
    match scopes.declare(name, symbol) {
        Ok(_) => Ok(leaf(alloc, CoreKind::Symbol(id), of, line)),
        // No scope has the name.
        Err(_) => Err(CheckFault::Memory),
    }
}

/// The place of a function with open parameters and result int.
fn int_function(types: &mut TypeTable) -> Result<TypeId, Memory>
    ensures means { IfOk result (λ id. type_at types.new id ≡ function_of_int) }
    ensures within { IfOk result (λ id. id < length types.new.forms) }
    ensures grows { Grows types.old types.new }
{
    let form = TypeForm::Function {
        result: types.basic_type(INT),
        parameters: None,
        more: false,
    };
    match types.add(form) {
        Ok(id) => Ok(id),
        // It passes no limit.
        Err(_) => Err(Memory),
    }
}

/// The symbol of all declarations of a name with linkage, one of which calls it as a function of this
/// type, with result int.
fn linked(
    scopes: &mut Scopes,
    types: &TypeTable,
    line: u32,
    name: &[u8],
    of: TypeId,
) -> Result<SymbolId, CheckFault>
    requires symbols { AreSymbolsIn (length types.now.forms) scopes.old.symbols }
    requires within { of < length types.now.forms }
    requires function { type_at types.now of ≡ function_of_int }
    ensures id { IfOk result (λ id. id ≡ link_or_next (state_of scopes.old types.now) name.now) }
    ensures fits { OnOk result (differs_from_int_function (state_of scopes.old types.now) (symbol_named scopes.old.links name.now) ≡ false) }
    ensures err { IfErr result (λ e. IsRedeclared e line (differs_from_int_function (state_of scopes.old types.now) (symbol_named scopes.old.links name.now))) }
    ensures state { OnOk result (state_of scopes.new types.now ≡ with_link (state_of scopes.old types.now) name.now (symbol_named scopes.old.links name.now) (external line 0 None)) }
    ensures outer { scopes.new.outer ≡ scopes.old.outer }
    ensures symbols { AreSymbolsIn (length types.now.forms) scopes.new.symbols }
{
    match scopes.linked(name) {
        Some(id) => {
            if types.compatible(scopes.symbol(id).of, of) {
                Ok(id)
            } else {
                Err(CheckFault::Constraint { number: 6, line })
            }
        }
        None => {
            let symbol = Symbol {
                class: Storage::Extern,
                of,
                line,
                level: 0,
                value: None,
            };
            match scopes.link(name, symbol) {
                Ok(id) => Ok(id),
                // It had none.
                Err(_) => Err(CheckFault::Memory),
            }
        }
    }
}

/// An integer constant.
pub(crate) fn integer(
    alloc: Global,
    types: &TypeTable,
    line: u32,
    value: u32,
    kind: IntKind,
) -> Result<CoreExpr, CheckFault>
    ensures ok { IfOk result (λ core. Becomes types.now line (node.Integer value kind) types.now core) }
    ensures err { IfErr result (λ e. IsRefused types.now line (node.Integer value kind) e) }
    ensures within { IfOk result (λ core. IsIn (length types.now.forms) core) }
{
    let of = types.basic_type(constant_type(kind));
    Ok(leaf(alloc, CoreKind::Number(value), of, line))
}

/// The place of the type of constants of this kind.
fn constant_type(kind: IntKind) -> TypeId
    ensures within { result < 10 }
    ensures means { type_in (types_of basic_forms) result ≡ type_of_constant kind }
{
    match kind {
        IntKind::Int => INT,
        IntKind::Unsigned => UNSIGNED,
        IntKind::Long => LONG,
        IntKind::UnsignedLong => UNSIGNED_LONG,
    }
}

/// A character constant.
pub(crate) fn character(
    alloc: Global,
    types: &TypeTable,
    line: u32,
    value: i32,
) -> Result<CoreExpr, CheckFault>
    ensures ok { IfOk result (λ core. Becomes types.now line (node.Character value) types.now core) }
    ensures err { IfErr result (λ e. IsRefused types.now line (node.Character value) e) }
    ensures within { IfOk result (λ core. IsIn (length types.now.forms) core) }
{
    let of = types.basic_type(INT);
    Ok(leaf(alloc, CoreKind::Number(int_word(value)), of, line))
}

/// The word of an int.
fn int_word(value: i32) -> u32
    ensures { result ≡ word_of value }
{
    value.cast_unsigned()
}

/// Adjacent string literals.
pub(crate) fn text(
    alloc: Global,
    types: &mut TypeTable,
    line: u32,
    texts: &Items<Bytes>,
) -> Result<CoreExpr, CheckFault>
    ensures ok { IfOk result (λ core. Becomes types.old line (node.Text texts.now) types.new core) }
    ensures err { IfErr result (λ e. IsRefused types.old line (node.Text texts.now) e) }
    ensures within { IfOk result (λ core. IsIn (length types.new.forms) core) }
    ensures grows { Grows types.old types.new }
{
    let bytes = joined(alloc, texts)?;
    let length = bytes.len();
    if length >= LARGEST {
        return Err(CheckFault::Limit {
            which: Which::Object,
            line,
        });
    }
    let of = types.basic_type(CHAR);
    let length = Some(length as u32 + 1);
    match types.add(TypeForm::Array { of, length }) {
        Ok(of) => {
            let text = LiteralText::new(alloc, bytes)?;
            Ok(leaf(alloc, CoreKind::Literal(text), of, line))
        }
        // So many chars pass no limit.
        Err(_) => Err(CheckFault::Memory),
    }
}

/// The bytes of all the literals.
fn joined(alloc: Global, texts: &Items<Bytes>) -> Result<Bytes, Memory>
    ensures { IfOk result (λ bytes. bytes ≡ joined_texts texts.now) }
{
    let mut bytes = Bytes::new(alloc);
    for text in texts.as_slice() {
        bytes.extend(text.as_slice())?;
    }
    Ok(bytes)
}
