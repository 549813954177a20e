//! Composite types, formed of two compatible ones.
ghost use Rattle.std.specs.Prelude.{◌≡◌, ◌<◌, ◌≤◌, Bool, None, drop, length, false, true, IfOk, IfSome, IfNone};
ghost use Rattle.c_types.specs.declared.type_form.TypeForm.TheVariants as form;
ghost use Rattle.c_types.specs.CType.{Array as ArrayTree, Function, Plain, depth, kind_of, qualify, unqualified};
ghost use Rattle.c_types.specs.Compatible.{all_compatible, compatible, kind_compatible};
ghost use Rattle.c_types.specs.Composite.{all_composite, composite, known_length, parameters_composite};
ghost use Rattle.c_types.specs.Facts.{AreListsCompatible, AreMade, ArePartsBelow, first_compatible, first_composite, function_of, items_of, more_of};
ghost use Rattle.c_types.specs.Readings.{is_array, is_function, is_pointer};
ghost use Rattle.c_types.specs.Table.{AreBelow, AreSomeBelow, Grows, IsOver, excess_of, form_at, form_refusal, formed, is_qualified, is_tagged, parameters_in, tagged, tags, type_at, types, types_in};

use crate::conversions::INT;
use crate::form_key::copied;
use crate::notes::Composites;
use crate::qualifiers::Qualifiers;
use crate::type_fault::TypeFault;
use crate::type_form::{TypeForm, TypeId};
use crate::type_table::TypeTable;
use lcc_base::{Items, Memory};

/// What a function's type is formed from.
#[derive(Drop)]
pub(crate) struct FunctionParts {
    result: TypeId,
    parameters: Option<Vec<TypeId>>,
    more: bool,
}

/// The size of an array that is known, of the first where both are.
fn known_length(a: Option<u32>, b: Option<u32>) -> Option<u32>
    ensures { result ≡ known_length a b }
{
    match a {
        Some(length) => Some(length),
        None => b,
    }
}

/// Whether `...` stands behind the parameters: of the first function where it lists them, else of the
/// second.
fn more_of(parameters: &Option<Vec<TypeId>>, more: bool, other: bool) -> bool
    ensures { result ≡ more_of parameters.now more other }
{
    match parameters {
        Some(_) => more,
        None => other,
    }
}

impl TypeTable {
    /// The composite type (C89 3.1.2.6) of two compatible types, which passes no limit. Memory comes
    /// only where an allocation is refused: the table may then hold more types, and keeps those that
    /// it had.
    pub fn composite(&mut self, a: TypeId, b: TypeId) -> Result<TypeId, Memory>
        requires a { a < length self.old.forms }
        requires b { b < length self.old.forms }
        requires compatible { compatible (type_at self.old a) (type_at self.old b) ≡ true }
        ensures means { IfOk result (λ id. type_at self.new id ≡ composite (type_at self.old a) (type_at self.old b)) }
        ensures within { IfOk result (λ id. id < length self.new.forms) }
        ensures accepted { excess_of (tags self.old) (composite (type_at self.old a) (type_at self.old b)) ≡ None }
        ensures grows { Grows self.old self.new }
    {
        let mut made = Composites::new(self.alloc);
        self.composite_under((a, Qualifiers::none()), (b, Qualifiers::none()), &mut made)
    }

    /// The composite of the types under the qualifiers that stand before them.
    #[cycle(composite)]
    fn composite_under(
        &mut self,
        a: (TypeId, Qualifiers),
        b: (TypeId, Qualifiers),
        made: &mut Composites,
    ) -> Result<TypeId, Memory>
        requires a { a.0 < length self.old.forms }
        requires b { b.0 < length self.old.forms }
        requires compatible { compatible (qualify a.1.0 (type_at self.old a.0)) (qualify b.1.0 (type_at self.old b.0)) ≡ true }
        requires made { AreMade self.old made.old }
        ensures means { IfOk result (λ id. type_at self.new id ≡ composite (qualify a.1.0 (type_at self.old a.0)) (qualify b.1.0 (type_at self.old b.0))) }
        ensures within { IfOk result (λ id. id < length self.new.forms) }
        ensures grows { Grows self.old self.new }
        ensures made { AreMade self.new made.new }
    {
        let (x, p) = self.under(a.0, a.1);
        let (y, q) = self.under(b.0, b.1);
        if x == y {
            return self.qualified(x, p);
        }
        match self.array_of(x) {
            Some((of, length)) => match self.array_of(y) {
                Some((other, count)) => {
                    let of = self.composite_under((of, p), (other, q), made)?;
                    self.array_place(of, known_length(length, count))
                }
                None => self.qualified(x, p),
            },
            None => {
                let id = self.noted_composite(x, y, made)?;
                self.qualified(id, p)
            }
        }
    }

    /// The same as `kinds_composite`. A composite that is noted isn't made again, and one that is made
    /// is noted.
    #[cycle(composite)]
    fn noted_composite(
        &mut self,
        x: TypeId,
        y: TypeId,
        made: &mut Composites,
    ) -> Result<TypeId, Memory>
        requires x { x < length self.old.forms }
        requires y { y < length self.old.forms }
        requires plain { is_qualified (form_at self.old x) ≡ false }
        requires bare { is_qualified (form_at self.old y) ≡ false }
        requires kind { is_array (type_at self.old x) ≡ false }
        requires compatible { kind_compatible (kind_of (type_at self.old x)) (type_at self.old y) ≡ true }
        requires first { depth (type_at self.old x) ≤ 500 }
        requires second { depth (type_at self.old y) ≤ 500 }
        requires made { AreMade self.old made.old }
        ensures means { IfOk result (λ id. type_at self.new id ≡ composite (type_at self.old x) (type_at self.old y)) }
        ensures within { IfOk result (λ id. id < length self.new.forms) }
        ensures grows { Grows self.old self.new }
        ensures made { AreMade self.new made.new }
    {
        match made.get(x, y) {
            Some(id) => Ok(id),
            None => {
                let id = self.kinds_composite(x, y, made)?;
                made.note(x, y, id);
                Ok(id)
            }
        }
    }

    /// The composite of the types at two places, which aren't qualified, and the first of which is no
    /// array.
    #[cycle(composite)]
    fn kinds_composite(
        &mut self,
        x: TypeId,
        y: TypeId,
        made: &mut Composites,
    ) -> Result<TypeId, Memory>
        requires x { x < length self.old.forms }
        requires y { y < length self.old.forms }
        requires plain { is_qualified (form_at self.old x) ≡ false }
        requires bare { is_qualified (form_at self.old y) ≡ false }
        requires kind { is_array (type_at self.old x) ≡ false }
        requires compatible { kind_compatible (kind_of (type_at self.old x)) (type_at self.old y) ≡ true }
        requires first { depth (type_at self.old x) ≤ 500 }
        requires second { depth (type_at self.old y) ≤ 500 }
        requires made { AreMade self.old made.old }
        ensures means { IfOk result (λ id. type_at self.new id ≡ composite (type_at self.old x) (type_at self.old y)) }
        ensures within { IfOk result (λ id. id < length self.new.forms) }
        ensures grows { Grows self.old self.new }
        ensures made { AreMade self.new made.new }
    {
        match self.pointer_to(x) {
            Some(to) => match self.pointer_to(y) {
                Some(other) => {
                    let to = self.composite_under(
                        (to, Qualifiers::none()),
                        (other, Qualifiers::none()),
                        made,
                    )?;
                    self.form_place(TypeForm::Pointer { to })
                }
                None => Ok(x),
            },
            None => match self.function_parts(x)? {
                Some(of) => match self.function_parts(y)? {
                    Some(other) => self.functions_composite(of, other, made),
                    None => Ok(x),
                },
                None => Ok(self.simple_composite(x, y)),
            },
        }
    }

    /// The composite of the types at two places, which aren't qualified, and the first of which is no
    /// array, pointer or function: an enumeration beside int, else the first.
    fn simple_composite(&self, x: TypeId, y: TypeId) -> TypeId
        requires x { x < length self.now.forms }
        requires y { y < length self.now.forms }
        requires plain { is_qualified (form_at self.now x) ≡ false }
        requires bare { is_qualified (form_at self.now y) ≡ false }
        requires array { is_array (type_at self.now x) ≡ false }
        requires pointer { is_pointer (type_at self.now x) ≡ false }
        requires function { is_function (type_at self.now x) ≡ false }
        ensures means { type_at self.now result ≡ composite (type_at self.now x) (type_at self.now y) }
        ensures within { result < length self.now.forms }
    {
        // A field is named, so that what the table keeps is known here.
        let _basic = &self.basic;
        if x != INT {
            return x;
        }
        match self.form(y) {
            TypeForm::Enumeration { .. } => y,
            _ => x,
        }
    }

    /// What the type at a place is formed from, if it is a function and isn't qualified.
    fn function_parts(&self, id: TypeId) -> Result<Option<FunctionParts>, Memory>
        requires within { id < length self.now.forms }
        requires plain { is_qualified (form_at self.now id) ≡ false }
        ensures some { IfOk result (λ o. IfSome o (λ f. type_at self.now id ≡ function_of self.now f)) }
        ensures below { IfOk result (λ o. IfSome o (ArePartsBelow (length self.now.forms))) }
        ensures none { IfOk result (λ o. IfNone o (is_function (type_at self.now id) ≡ false)) }
    {
        match self.form(id) {
            TypeForm::Function {
                result: of,
                parameters,
                more,
            } => {
                let parameters = copied(self.alloc, parameters)?;
                Ok(Some(FunctionParts {
                    result: *of,
                    parameters,
                    more: *more,
                }))
            }
            _ => Ok(None),
        }
    }

    /// The composite of two functions.
    #[cycle(composite)]
    fn functions_composite(
        &mut self,
        a: FunctionParts,
        b: FunctionParts,
        made: &mut Composites,
    ) -> Result<TypeId, Memory>
        requires a { ArePartsBelow (length self.old.forms) a }
        requires b { ArePartsBelow (length self.old.forms) b }
        requires compatible { kind_compatible (kind_of (function_of self.old a)) (function_of self.old b) ≡ true }
        requires first { depth (function_of self.old a) ≤ 500 }
        requires second { depth (function_of self.old b) ≤ 500 }
        requires made { AreMade self.old made.old }
        ensures means { IfOk result (λ id. type_at self.new id ≡ composite (function_of self.old a) (function_of self.old b)) }
        ensures within { IfOk result (λ id. id < length self.new.forms) }
        ensures grows { Grows self.old self.new }
        ensures made { AreMade self.new made.new }
    {
        let of = self.composite_under(
            (a.result, Qualifiers::none()),
            (b.result, Qualifiers::none()),
            made,
        )?;
        let more = more_of(&a.parameters, a.more, b.more);
        let parameters = self.parameters_composite(a.parameters, b.parameters, made)?;
        self.function_place(of, parameters, more)
    }

    /// The place of the function of these parts.
    fn function_place(
        &mut self,
        of: TypeId,
        parameters: Option<Vec<TypeId>>,
        more: bool,
    ) -> Result<TypeId, Memory>
        requires of { of < length self.old.forms }
        requires parameters { AreSomeBelow (length self.old.forms) (items_of parameters) }
        requires accepted { form_refusal self.old (form.Function of (items_of parameters) more) ≡ None }
        ensures means { IfOk result (λ id. type_at self.new id ≡ Plain 0 (Function (type_at self.old of) (parameters_in (types self.old) (items_of parameters) more))) }
        ensures within { IfOk result (λ id. id < length self.new.forms) }
        ensures grows { Grows self.old self.new }
    {
        match parameters {
            None => self.form_place(TypeForm::Function {
                result: of,
                parameters: None,
                more,
            }),
            Some(ids) => self.form_place(TypeForm::Function {
                result: of,
                parameters: Some(Items::from_vec(ids)),
                more,
            }),
        }
    }

    /// The composite of the parameters of two functions.
    #[cycle(composite)]
    fn parameters_composite(
        &mut self,
        a: Option<Vec<TypeId>>,
        b: Option<Vec<TypeId>>,
        made: &mut Composites,
    ) -> Result<Option<Vec<TypeId>>, Memory>
        requires a { AreSomeBelow (length self.old.forms) (items_of a) }
        requires b { AreSomeBelow (length self.old.forms) (items_of b) }
        requires compatible { AreListsCompatible self.old (items_of a) (items_of b) }
        requires made { AreMade self.old made.old }
        ensures means { IfOk result (λ o. (m n : Bool) → parameters_in (types self.new) (items_of o) (more_of a m n) ≡ parameters_composite (parameters_in (types self.old) (items_of a) m) (parameters_in (types self.old) (items_of b) n)) }
        ensures below { IfOk result (λ o. AreSomeBelow (length self.new.forms) (items_of o)) }
        ensures grows { Grows self.old self.new }
        ensures made { AreMade self.new made.new }
    {
        match (a, b) {
            (None, b) => Ok(b),
            (Some(a), None) => Ok(Some(a)),
            (Some(a), Some(b)) => {
                let ids = self.all_composite(a.as_slice(), b.as_slice(), made)?;
                Ok(Some(ids))
            }
        }
    }

    /// The composites of parameters in order, as many as the first list has.
    #[cycle(composite)]
    fn all_composite(
        &mut self,
        a: &[TypeId],
        b: &[TypeId],
        made: &mut Composites,
    ) -> Result<Vec<TypeId>, Memory>
        requires a { AreBelow (length self.old.forms) a.now }
        requires b { AreBelow (length self.old.forms) b.now }
        requires compatible { all_compatible (types_in (types self.old) a.now) (types_in (types self.old) b.now) ≡ true }
        requires made { AreMade self.old made.old }
        ensures means { IfOk result (λ v. types_in (types self.new) v.items ≡ all_composite (types_in (types self.old) a.now) (types_in (types self.old) b.now)) }
        ensures below { IfOk result (λ v. AreBelow (length self.new.forms) v.items) }
        ensures grows { Grows self.old self.new }
        ensures made { AreMade self.new made.new }
    {
        let mut ids = Vec::new(self.alloc);
        for i in 0..a.len() {
            let id = self.parameter_composite(a[i], b, i, made)?;
            ids.push(id)?;
        }
        Ok(ids)
    }

    /// The composite of a parameter and the one at a place of a list, if that is so long.
    #[cycle(composite)]
    fn parameter_composite(
        &mut self,
        a: TypeId,
        b: &[TypeId],
        i: usize,
        made: &mut Composites,
    ) -> Result<TypeId, Memory>
        requires a { a < length self.old.forms }
        requires b { AreBelow (length self.old.forms) b.now }
        requires compatible { first_compatible (unqualified (type_at self.old a)) (types_in (types self.old) (drop i b.now)) ≡ true }
        requires made { AreMade self.old made.old }
        ensures means { IfOk result (λ id. unqualified (type_at self.new id) ≡ first_composite (unqualified (type_at self.old a)) (types_in (types self.old) (drop i b.now))) }
        ensures within { IfOk result (λ id. id < length self.new.forms) }
        ensures grows { Grows self.old self.new }
        ensures made { AreMade self.new made.new }
    {
        if i < b.len() {
            let (a, b) = (self.parameter(a), self.parameter(b[i]));
            self.composite_under(a, b, made)
        } else {
            Ok(a)
        }
    }

    /// The type at the place with these qualifiers beside its own. It passes no limit. Memory comes only
    /// where an allocation is refused.
    pub fn qualified(&mut self, of: TypeId, qualifiers: Qualifiers) -> Result<TypeId, Memory>
        requires { of < length self.old.forms }
        ensures means { IfOk result (λ id. type_at self.new id ≡ qualify qualifiers.0 (type_at self.old of)) }
        ensures within { IfOk result (λ id. id < length self.new.forms) }
        ensures grows { Grows self.old self.new }
    {
        // A field is named, so that what the table keeps is known here.
        let _basic = &self.basic;
        if qualifiers.number() == 0 {
            return Ok(of);
        }
        self.form_place(TypeForm::Qualified { of, qualifiers })
    }

    /// The place of the array of so many.
    fn array_place(&mut self, of: TypeId, count: Option<u32>) -> Result<TypeId, Memory>
        requires of { of < length self.old.forms }
        requires accepted { form_refusal self.old (form.Array of count) ≡ None }
        ensures means { IfOk result (λ id. type_at self.new id ≡ ArrayTree (type_at self.old of) count) }
        ensures within { IfOk result (λ id. id < length self.new.forms) }
        ensures grows { Grows self.old self.new }
    {
        self.form_place(TypeForm::Array { of, length: count })
    }

    /// The place of a form that passes no limit, and that isn't a type by itself.
    fn form_place(&mut self, form: TypeForm) -> Result<TypeId, Memory>
        requires over { IsOver (length self.old.forms) form }
        requires untagged { is_tagged form ≡ false }
        requires accepted { form_refusal self.old form ≡ None }
        ensures means { IfOk result (λ id. type_at self.new id ≡ formed (types self.old) (tagged self.old.forms) form) }
        ensures within { IfOk result (λ id. id < length self.new.forms) }
        ensures grows { Grows self.old self.new }
    {
        match self.add(form) {
            Ok(id) => Ok(id),
            Err(TypeFault::Memory) => Err(Memory),
            Err(_) => unreachable!(),
        }
    }
}
