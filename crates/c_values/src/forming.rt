//! Values formed: decay, reads, conversions and promotions (C89 3.2).
ghost use Rattle.std.specs.Prelude.{◌≡◌, ◌≢◌, ◌<◌, ◌∷◌, [], ℕ, length, true, false, nat_lt, IfOk, IfErr, OnOk};
ghost use Rattle.c_types.specs.CType.{depth};
ghost use Rattle.c_types.specs.Conversions.{is_integer as integer};
ghost use Rattle.c_types.specs.Table.{Grows, Table, type_at};
ghost use Rattle.c_meaning.specs.CoreTrees.{AreIn, Core, IsIn, cores_of, line_of, seen, all_seen, type_of};
ghost use Rattle.c_meaning.specs.Types.{is_array, pointer_to};
ghost use Rattle.c_meaning.specs.Values.{value, value_type as type_of_value, converted as as_type, promoted_type as promotion, promoted_value as promotion_of, usual_type as common_type, read_width as width_read, is_narrow as narrow};
ghost use Rattle.c_values.specs.declared.check_fault.CheckFault.TheVariants.{Limit, Memory as NoMemory};
ghost use Rattle.c_types.specs.declared.type_fault.TypeFault.TheVariants.{TooDeep, TooLarge};
ghost use Rattle.lcc_base.specs.declared.which.Which.TheVariants.{Depth, Object};
ghost use Rattle.c_values.specs.TooDeep.{IsTooDeep};
ghost use Rattle.c_values.specs.Valued.{qualified_in};

use crate::basic_places::INT;
use crate::check_fault::CheckFault;
use crate::kinds;
use crate::places::{is_lvalue, is_place, width};
use crate::value_type::QualifiedType;
use crate::values::plain;
use c_meaning::{CoreExpr, CoreKind};
use c_types::{TypeFault, TypeForm, TypeId, TypeTable};
use lcc_base::{Items, Memory, Which};
use std::alloc::Global;

/// An expression without parts.
pub fn leaf(alloc: Global, what: CoreKind, of: TypeId, line: u32) -> CoreExpr
    ensures { result ≡ Core what of line (cores_of []) }
{
    CoreExpr {
        what,
        of,
        line,
        kids: Items::new(alloc),
    }
}

/// An expression with one part.
pub fn with_one(
    alloc: Global,
    what: CoreKind,
    of: TypeId,
    line: u32,
    a: CoreExpr,
) -> Result<CoreExpr, Memory>
    ensures { IfOk result (λ c. c ≡ Core what of line (cores_of (a ∷ []))) }
{
    let mut kids = Items::with_capacity(alloc, 1)?;
    kids.push(a)?;
    Ok(CoreExpr {
        what,
        of,
        line,
        kids,
    })
}

/// An expression with two parts.
pub fn with_two(
    alloc: Global,
    what: CoreKind,
    of: TypeId,
    line: u32,
    parts: (CoreExpr, CoreExpr),
) -> Result<CoreExpr, Memory>
    ensures { IfOk result (λ c. c ≡ Core what of line (cores_of (parts.0 ∷ parts.1 ∷ []))) }
{
    let mut kids = Items::with_capacity(alloc, 2)?;
    kids.push(parts.0)?;
    kids.push(parts.1)?;
    Ok(CoreExpr {
        what,
        of,
        line,
        kids,
    })
}

/// An expression with three parts.
pub fn with_three(
    alloc: Global,
    what: CoreKind,
    of: TypeId,
    line: u32,
    parts: (CoreExpr, CoreExpr, CoreExpr),
) -> Result<CoreExpr, Memory>
    ensures { IfOk result (λ c. c ≡ Core what of line (cores_of (parts.0 ∷ parts.1 ∷ parts.2 ∷ []))) }
{
    let mut kids = Items::with_capacity(alloc, 3)?;
    kids.push(parts.0)?;
    kids.push(parts.1)?;
    kids.push(parts.2)?;
    Ok(CoreExpr {
        what,
        of,
        line,
        kids,
    })
}

/// As what the refusal of a type is told at a construct on this line.
pub fn type_refusal(fault: TypeFault, line: u32) -> CheckFault
    ensures large { fault ≡ TooLarge → result ≡ Limit Object line }
    ensures deep { fault ≡ TooDeep → result ≡ Limit Depth line }
    ensures other { fault ≢ TooLarge → fault ≢ TooDeep → result ≡ NoMemory }
{
    match fault {
        TypeFault::TooLarge => CheckFault::Limit {
            which: Which::Object,
            line,
        },
        TypeFault::TooDeep => CheckFault::Limit {
            which: Which::Depth,
            line,
        },
        // What is incomplete was told before as a constraint that is broken.
        TypeFault::Incomplete | TypeFault::Memory => CheckFault::Memory,
    }
}

/// The place of a pointer to the type, at a construct on this line.
pub fn pointer_type(
    types: &mut TypeTable,
    line: u32,
    to: QualifiedType,
) -> Result<TypeId, CheckFault>
    requires { to.of < length types.old.forms }
    ensures means { IfOk result (λ id. type_at types.new id ≡ pointer_to (qualified_in types.old to)) }
    ensures within { IfOk result (λ id. id < length types.new.forms) }
    ensures shallow { OnOk result (nat_lt 500 (depth (pointer_to (qualified_in types.old to))) ≡ false) }
    ensures deep { IfErr result (λ e. IsTooDeep e line (pointer_to (qualified_in types.old to))) }
    ensures grows { Grows types.old types.new }
{
    let of = types.qualified(to.of, to.qualifiers)?;
    match types.add(TypeForm::Pointer { to: of }) {
        Ok(id) => Ok(id),
        Err(fault) => Err(type_refusal(fault, line)),
    }
}

/// The value of an expression: an array that is an lvalue becomes a pointer to its first element, a
/// function a pointer to it, and the place of a scalar is read (C89 3.2.2.1). The line is that of the
/// construct that uses the value.
pub fn into_value(
    alloc: Global,
    types: &mut TypeTable,
    line: u32,
    c: CoreExpr,
) -> Result<CoreExpr, CheckFault>
    requires { IsIn (length types.old.forms) c }
    ensures means { IfOk result (λ v. seen (type_at types.new) v ≡ value (seen (type_at types.old) c)) }
    ensures within { IfOk result (λ v. IsIn (length types.new.forms) v) }
    ensures shallow { OnOk result (nat_lt 500 (depth (type_of_value (seen (type_at types.old) c))) ≡ false) }
    ensures deep { IfErr result (λ e. IsTooDeep e line (type_of_value (seen (type_at types.old) c))) }
    ensures grows { Grows types.old types.new }
{
    types.types_are_within_limits();
    match kinds::element(types, c.of) {
        Some(element) if is_lvalue(&c) => {
            let of = pointer_type(types, line, element)?;
            decayed(alloc, CoreKind::First, of, c)
        }
        Some(_) => Ok(c),
        None => into_read(alloc, types, line, c),
    }
}

/// A pointer to a place or a function, on its line.
fn decayed(alloc: Global, what: CoreKind, of: TypeId, c: CoreExpr) -> Result<CoreExpr, CheckFault>
    ensures ok { IfOk result (λ v. v ≡ Core what of (line_of c) (cores_of (c ∷ []))) }
    ensures err { IfErr result (λ e. e ≡ NoMemory) }
{
    let line = c.line;
    let v = with_one(alloc, what, of, line, c)?;
    Ok(v)
}

/// What is read of an expression that is no array.
fn into_read(
    alloc: Global,
    types: &mut TypeTable,
    line: u32,
    c: CoreExpr,
) -> Result<CoreExpr, CheckFault>
    requires within { IsIn (length types.old.forms) c }
    requires kind { is_array (type_at types.old (type_of c)) ≡ false }
    ensures means { IfOk result (λ v. seen (type_at types.new) v ≡ value (seen (type_at types.old) c)) }
    ensures within { IfOk result (λ v. IsIn (length types.new.forms) v) }
    ensures shallow { OnOk result (nat_lt 500 (depth (type_of_value (seen (type_at types.old) c))) ≡ false) }
    ensures deep { IfErr result (λ e. IsTooDeep e line (type_of_value (seen (type_at types.old) c))) }
    ensures grows { Grows types.old types.new }
{
    types.types_are_within_limits();
    if kinds::is_function(types, c.of) {
        let of = pointer_type(types, line, plain(c.of))?;
        decayed(alloc, CoreKind::Address, of, c)
    } else if is_place(&c) && kinds::is_scalar(types, c.of) {
        let of = kinds::unqualified_type(types, c.of);
        decayed(alloc, CoreKind::Read, of, c)
    } else {
        Ok(c)
    }
}

/// The value at a type: converted, where it isn't of this simple type.
pub fn converted(
    alloc: Global,
    types: &TypeTable,
    to: TypeId,
    v: CoreExpr,
) -> Result<CoreExpr, Memory>
    requires to { to < length types.now.forms }
    requires within { IsIn (length types.now.forms) v }
    ensures means { IfOk result (λ c. seen (type_at types.now) c ≡ as_type (type_at types.now to) (seen (type_at types.now) v)) }
    ensures within { IfOk result (λ c. IsIn (length types.now.forms) c) }
{
    if kinds::is_same_simple(types, to, v.of) {
        return Ok(v);
    }
    let what = CoreKind::Convert(kinds::conversion(types, to));
    let line = v.line;
    with_one(alloc, what, to, line, v)
}

/// The width of the bit-field that is read. 0 of anything else.
fn read_width(v: &CoreExpr) -> u8
    ensures { (t : Table) → result ≡ width_read (seen (type_at t) v.now) }
{
    match (&v.what, v.kids.as_slice()) {
        (CoreKind::Read, [a, ..]) => width(a),
        _ => 0,
    }
}

/// The type to which the integral promotions (C89 3.2.1.1) bring an integer.
pub fn promoted_type(types: &TypeTable, v: &CoreExpr) -> TypeId
    requires within { IsIn (length types.now.forms) v.now }
    requires integer { integer (type_at types.now (type_of v.now)) ≡ true }
    ensures means { type_at types.now result ≡ promotion (seen (type_at types.now) v.now) }
    ensures within { result < length types.now.forms }
{
    let width = read_width(v);
    if width > 0 && width < 32 {
        types.basic_type(INT)
    } else {
        let promoted = types.promote(v.of);
        types.basic_type(promoted)
    }
}

/// An integer, promoted.
pub fn promoted(alloc: Global, types: &TypeTable, v: CoreExpr) -> Result<CoreExpr, Memory>
    requires within { IsIn (length types.now.forms) v }
    requires integer { integer (type_at types.now (type_of v)) ≡ true }
    ensures means { IfOk result (λ c. seen (type_at types.now) c ≡ promotion_of (seen (type_at types.now) v)) }
    ensures within { IfOk result (λ c. IsIn (length types.now.forms) c) }
{
    let to = promoted_type(types, &v);
    converted(alloc, types, to, v)
}

/// The type to which the usual arithmetic conversions (C89 3.2.1.5) bring two integers.
pub fn usual_type(types: &TypeTable, v: &CoreExpr, w: &CoreExpr) -> TypeId
    requires first { IsIn (length types.now.forms) v.now }
    requires first_integer { integer (type_at types.now (type_of v.now)) ≡ true }
    requires second { IsIn (length types.now.forms) w.now }
    requires second_integer { integer (type_at types.now (type_of w.now)) ≡ true }
    ensures means { type_at types.now result ≡ common_type (seen (type_at types.now) v.now) (seen (type_at types.now) w.now) }
    ensures within { result < length types.now.forms }
{
    let common = types.usual(promoted_type(types, v), promoted_type(types, w));
    types.basic_type(common)
}
