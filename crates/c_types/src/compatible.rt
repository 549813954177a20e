//! Compatibility of types in the table, and what a type is an array of, points to or returns.
ghost use Rattle.std.specs.Prelude.{◌≡◌, ◌≢◌, ◌<◌, All, length, Some, None, false, true, slice_get, IfSome, IfNone};
ghost use Rattle.c_types.specs.CType.{Array, Plain, Pointer, Function, kind_of, qualify, unqualified};
ghost use Rattle.c_types.specs.Compatible.{all_compatible, all_kept, compatible, is_kept, kind_compatible, lengths_fit, parameters_compatible};
ghost use Rattle.c_types.specs.Table.{AreBelow, AreSomeBelow, form_at, is_qualified, is_tagged, parameters_in, tags, type_at, types, types_in};
ghost use Rattle.c_types.specs.Layout.{known};
ghost use Rattle.c_types.specs.Facts.{IsFound, IsWithin};
ghost use Rattle.c_types.specs.Readings.{is_array, is_function, is_pointer};

use crate::conversions::INT;
use crate::notes::CompatiblePairs;
use crate::qualifiers::Qualifiers;
use crate::type_form::{TypeForm, TypeId};
use crate::type_table::{BASIC, TypeTable};
use lcc_base::Items;

/// Whether both sizes of arrays are the same, where both are known.
fn lengths_fit(a: Option<u32>, b: Option<u32>) -> bool
    ensures { result ≡ lengths_fit a b }
{
    match (a, b) {
        (Some(a), Some(b)) => a == b,
        _ => true,
    }
}

impl TypeTable {
    /// Whether two types are compatible (C89 3.1.2.6).
    pub fn compatible(&self, a: TypeId, b: TypeId) -> bool
        requires a { a < length self.now.forms }
        requires b { b < length self.now.forms }
        ensures { result ≡ compatible (type_at self.now a) (type_at self.now b) }
    {
        let mut found = CompatiblePairs::new(self.alloc);
        self.are_compatible((a, Qualifiers::none()), (b, Qualifiers::none()), &mut found)
    }

    /// Whether the types are compatible under the qualifiers that stand before them.
    #[cycle(compatible)]
    fn are_compatible(
        &self,
        a: (TypeId, Qualifiers),
        b: (TypeId, Qualifiers),
        found: &mut CompatiblePairs,
    ) -> bool
        requires a { a.0 < length self.now.forms }
        requires b { b.0 < length self.now.forms }
        requires found { All (IsFound self.now) found.old }
        ensures is { result ≡ compatible (qualify a.1.0 (type_at self.now a.0)) (qualify b.1.0 (type_at self.now b.0)) }
        ensures found { All (IsFound self.now) found.new }
    {
        // A field is named, so that what the table keeps is known here.
        let _basic = &self.basic;
        let (x, p) = self.under(a.0, a.1);
        let (y, q) = self.under(b.0, b.1);
        match self.array_of(x) {
            Some((of, count)) => match self.array_of(y) {
                Some((other, others)) => {
                    lengths_fit(count, others) && self.are_compatible((of, p), (other, q), found)
                }
                None => false,
            },
            None => {
                p.number() == q.number() && (x == y || self.are_found_compatible(x, y, found))
            }
        }
    }

    /// The type's place without qualifiers, and its own beside these. That type is within the limits.
    pub fn under(&self, id: TypeId, qualifiers: Qualifiers) -> (TypeId, Qualifiers)
        requires { id < length self.now.forms }
        ensures within { result.0 < length self.now.forms }
        ensures means { qualify qualifiers.0 (type_at self.now id) ≡ qualify result.1.0 (type_at self.now result.0) }
        ensures form { is_qualified (form_at self.now result.0) ≡ false }
        ensures limits { IsWithin (known (tags self.now)) (type_at self.now result.0) }
    {
        // A field is named, so that what the table keeps is known here.
        let _basic = &self.basic;
        let (base, own) = self.unqualified(id);
        (base, own.with(qualifiers))
    }

    /// The same as `are_kinds_compatible`. A pair that is noted isn't asked about again, and one that
    /// is found compatible is noted.
    #[cycle(compatible)]
    fn are_found_compatible(&self, a: TypeId, b: TypeId, found: &mut CompatiblePairs) -> bool
        requires a { a < length self.now.forms }
        requires b { b < length self.now.forms }
        requires plain { is_qualified (form_at self.now a) ≡ false }
        requires bare { is_qualified (form_at self.now b) ≡ false }
        requires kind { is_array (type_at self.now a) ≡ false }
        requires apart { a ≢ b }
        requires found { All (IsFound self.now) found.old }
        ensures is { result ≡ kind_compatible (kind_of (type_at self.now a)) (type_at self.now b) }
        ensures found { All (IsFound self.now) found.new }
    {
        if found.has(a, b) {
            return true;
        }
        if !self.are_kinds_compatible(a, b, found) {
            return false;
        }
        found.note(a, b);
        true
    }

    /// Whether two types are compatible of which neither is qualified and the first is no array. They
    /// have different places.
    #[cycle(compatible)]
    fn are_kinds_compatible(&self, a: TypeId, b: TypeId, found: &mut CompatiblePairs) -> bool
        requires a { a < length self.now.forms }
        requires b { b < length self.now.forms }
        requires plain { is_qualified (form_at self.now a) ≡ false }
        requires bare { is_qualified (form_at self.now b) ≡ false }
        requires kind { is_array (type_at self.now a) ≡ false }
        requires apart { a ≢ b }
        requires found { All (IsFound self.now) found.old }
        ensures is { result ≡ kind_compatible (kind_of (type_at self.now a)) (type_at self.now b) }
        ensures found { All (IsFound self.now) found.new }
    {
        // A field is named, so that what the table keeps is known here.
        let _basic = &self.basic;
        if a < BASIC {
            return self.is_basic_compatible(a, b);
        }
        match self.form(a) {
            TypeForm::Pointer { to } => match self.pointer_to(b) {
                Some(other) => self.are_compatible(
                    (*to, Qualifiers::none()),
                    (other, Qualifiers::none()),
                    found,
                ),
                None => false,
            },
            TypeForm::Function {
                result: of,
                parameters,
                more,
            } => match self.function_of(b) {
                Some((other, others, and_more)) => {
                    self.are_compatible(
                        (*of, Qualifiers::none()),
                        (other, Qualifiers::none()),
                        found,
                    ) && self.are_parameters_compatible(parameters, *more, others, and_more, found)
                }
                None => false,
            },
            _ => self.is_tag_compatible(a, b),
        }
    }

    /// Whether a basic type is compatible with a type at another place, which isn't qualified: only int is,
    /// with each enumeration.
    fn is_basic_compatible(&self, a: TypeId, b: TypeId) -> bool
        requires a { a < 10 }
        requires b { b < length self.now.forms }
        requires bare { is_qualified (form_at self.now b) ≡ false }
        requires apart { a ≢ b }
        ensures { result ≡ kind_compatible (kind_of (type_at self.now a)) (type_at self.now b) }
    {
        // A field is named, so that what the table keeps is known here.
        let _basic = &self.basic;
        let a = self.basic_type(a);
        match self.form(b) {
            TypeForm::Enumeration { .. } => a == INT,
            _ => false,
        }
    }

    /// Whether a structure, union or enumeration is compatible with a type at another place, which isn't
    /// qualified: only an enumeration is, with int.
    fn is_tag_compatible(&self, a: TypeId, b: TypeId) -> bool
        requires a { a < length self.now.forms }
        requires b { b < length self.now.forms }
        requires tag { is_tagged (form_at self.now a) ≡ true }
        requires bare { is_qualified (form_at self.now b) ≡ false }
        requires apart { a ≢ b }
        ensures { result ≡ kind_compatible (kind_of (type_at self.now a)) (type_at self.now b) }
    {
        // A field is named, so that what the table keeps is known here.
        let _basic = &self.basic;
        match self.form(a) {
            TypeForm::Enumeration { .. } => b == INT,
            _ => false,
        }
    }

    /// Whether the parameters of two functions are compatible.
    #[cycle(compatible)]
    fn are_parameters_compatible(
        &self,
        a: &Option<Items<TypeId>>,
        more: bool,
        b: &Option<Items<TypeId>>,
        and_more: bool,
        found: &mut CompatiblePairs,
    ) -> bool
        requires a { AreSomeBelow (length self.now.forms) a.now }
        requires b { AreSomeBelow (length self.now.forms) b.now }
        requires found { All (IsFound self.now) found.old }
        ensures is { result ≡ parameters_compatible (parameters_in (types self.now) a.now more) (parameters_in (types self.now) b.now and_more) }
        ensures found { All (IsFound self.now) found.new }
    {
        match (a, b) {
            (None, None) => true,
            (Some(a), None) => !more && self.are_kept(a.as_slice()),
            (None, Some(b)) => !and_more && self.are_kept(b.as_slice()),
            (Some(a), Some(b)) => {
                more == and_more && self.are_all_compatible(a.as_slice(), b.as_slice(), found)
            }
        }
    }

    /// Whether the default argument promotions keep the type.
    fn is_kept(&self, id: TypeId) -> bool
        requires { id < length self.now.forms }
        ensures { result ≡ is_kept (unqualified (type_at self.now id)) }
    {
        let (base, _) = self.unqualified(id);
        match self.form(base) {
            TypeForm::Char
            | TypeForm::SignedChar
            | TypeForm::UnsignedChar
            | TypeForm::Short
            | TypeForm::UnsignedShort => false,
            _ => true,
        }
    }

    /// Whether the default argument promotions keep each of the types.
    fn are_kept(&self, ids: &[TypeId]) -> bool
        requires { AreBelow (length self.now.forms) ids.now }
        ensures { result ≡ all_kept (types_in (types self.now) ids.now) }
    {
        for id in ids {
            if !self.is_kept(*id) {
                return false;
            }
        }
        true
    }

    /// Whether the parameters' types are as many and compatible in order.
    #[cycle(compatible)]
    fn are_all_compatible(&self, a: &[TypeId], b: &[TypeId], found: &mut CompatiblePairs) -> bool
        requires a { AreBelow (length self.now.forms) a.now }
        requires b { AreBelow (length self.now.forms) b.now }
        requires found { All (IsFound self.now) found.old }
        ensures is { result ≡ all_compatible (types_in (types self.now) a.now) (types_in (types self.now) b.now) }
        ensures found { All (IsFound self.now) found.new }
    {
        if a.len() != b.len() {
            return false;
        }
        for i in 0..a.len() {
            if !self.are_compatible(self.parameter(a[i]), self.parameter(b[i]), found) {
                return false;
            }
        }
        true
    }

    /// A parameter's type without its own qualifiers, and those of its elements.
    pub(crate) fn parameter(&self, id: TypeId) -> (TypeId, Qualifiers)
        requires { id < length self.now.forms }
        ensures within { result.0 < length self.now.forms }
        ensures means { qualify result.1.0 (type_at self.now result.0) ≡ unqualified (type_at self.now id) }
    {
        let (base, qualifiers) = self.unqualified(id);
        match self.form(base) {
            TypeForm::Array { .. } => (base, qualifiers),
            _ => (base, Qualifiers::none()),
        }
    }

    /// The type under these qualifiers, without its own and these: the place of the type and the
    /// qualifiers that stay, those of an array's elements (C89 3.5.3).
    pub fn bare(&self, id: TypeId, qualifiers: Qualifiers) -> (TypeId, Qualifiers)
        requires { id < length self.now.forms }
        ensures within { result.0 < length self.now.forms }
        ensures means { qualify result.1.0 (type_at self.now result.0) ≡ unqualified (qualify qualifiers.0 (type_at self.now id)) }
        ensures form { is_qualified (form_at self.now result.0) ≡ false }
    {
        let (base, all) = self.under(id, qualifiers);
        match self.form(base) {
            TypeForm::Array { .. } => (base, all),
            _ => (base, Qualifiers::none()),
        }
    }

    /// Whether two types under these qualifiers are compatible when their own are left away.
    pub fn alike(&self, a: (TypeId, Qualifiers), b: (TypeId, Qualifiers)) -> bool
        requires a { a.0 < length self.now.forms }
        requires b { b.0 < length self.now.forms }
        ensures { result ≡ compatible (unqualified (qualify a.1.0 (type_at self.now a.0))) (unqualified (qualify b.1.0 (type_at self.now b.0))) }
    {
        let mut found = CompatiblePairs::new(self.alloc);
        self.are_compatible(self.bare(a.0, a.1), self.bare(b.0, b.1), &mut found)
    }

    /// The element and the size of the type, if it is an array.
    pub fn array_of(&self, id: TypeId) -> Option<(TypeId, Option<u32>)>
        requires within { id < length self.now.forms }
        requires plain { is_qualified (form_at self.now id) ≡ false }
        ensures some { IfSome result (λ r. type_at self.now id ≡ Array (type_at self.now r.0) r.1) }
        ensures place { IfSome result (λ r. r.0 < length self.now.forms) }
        ensures none { IfNone result (is_array (type_at self.now id) ≡ false) }
    {
        match self.form(id) {
            TypeForm::Array { of, length } => Some((*of, *length)),
            _ => None,
        }
    }

    /// What the type points to, if it is a pointer.
    pub fn pointer_to(&self, id: TypeId) -> Option<TypeId>
        requires within { id < length self.now.forms }
        requires plain { is_qualified (form_at self.now id) ≡ false }
        ensures some { IfSome result (λ r. type_at self.now id ≡ Plain 0 (Pointer (type_at self.now r))) }
        ensures place { IfSome result (λ r. r < length self.now.forms) }
        ensures none { IfNone result (is_pointer (type_at self.now id) ≡ false) }
    {
        match self.form(id) {
            TypeForm::Pointer { to } => Some(*to),
            _ => None,
        }
    }

    /// The result and the parameters of the type, if it is a function.
    pub fn function_of(&self, id: TypeId) -> Option<(TypeId, &Option<Items<TypeId>>, bool)>
        requires within { id < length self.now.forms }
        requires plain { is_qualified (form_at self.now id) ≡ false }
        ensures some { IfSome result (λ r. type_at self.now id ≡ Plain 0 (Function (type_at self.now r.0) (parameters_in (types self.now) r.1.now r.2))) }
        ensures place { IfSome result (λ r. r.0 < length self.now.forms) }
        ensures places { IfSome result (λ r. AreSomeBelow (length self.now.forms) r.1.now) }
        ensures none { IfNone result (is_function (type_at self.now id) ≡ false) }
    {
        match self.form(id) {
            TypeForm::Function {
                result: of,
                parameters,
                more,
            } => Some((*of, parameters, *more)),
            _ => None,
        }
    }
}
