//! Keys by which the type table finds a form that it has already.
ghost use Rattle.std.specs.Prelude.{◌≡◌, IfOk};
ghost use Rattle.std.specs.Option.{option_map};
ghost use Rattle.c_types.specs.Keeps.{IsKeyOf};

use crate::type_form::{TypeForm, TypeId};
use lcc_base::{Items, Memory};
use std::alloc::Global;

/// A form as the table looks it up. What is a type by itself is known by its place.
#[derive(PartialEq, Eq, Hash, Debug, Drop)]
pub(crate) enum FormKey {
    Alone {
        place: TypeId,
    },
    Pointer {
        to: TypeId,
    },
    Array {
        of: TypeId,
        length: Option<u32>,
    },
    Function {
        result: TypeId,
        parameters: Option<Vec<TypeId>>,
        more: bool,
    },
    Qualified {
        of: TypeId,
        qualifiers: u8,
    },
}

/// A copy of the parameters' places.
pub(crate) fn copied(
    alloc: Global,
    parameters: &Option<Items<TypeId>>,
) -> Result<Option<Vec<TypeId>>, Memory>
    ensures { IfOk result (λ o. option_map (λ v. v.items) o ≡ parameters.now) }
{
    match parameters {
        None => Ok(None),
        Some(ids) => {
            let mut copy = Vec::new(alloc);
            copy.extend_from_slice(ids.as_slice())?;
            Ok(Some(copy))
        }
    }
}

impl FormKey {
    /// The key of a form that has or would have this place.
    pub(crate) fn of(alloc: Global, form: &TypeForm, place: TypeId) -> Result<Self, Memory>
        ensures { IfOk result (IsKeyOf place form.now) }
    {
        match form {
            TypeForm::Pointer { to } => Ok(FormKey::Pointer { to: *to }),
            TypeForm::Array { of, length } => Ok(FormKey::Array {
                of: *of,
                length: *length,
            }),
            TypeForm::Function {
                result,
                parameters,
                more,
            } => {
                let parameters = copied(alloc, parameters)?;
                Ok(FormKey::Function {
                    result: *result,
                    parameters,
                    more: *more,
                })
            }
            TypeForm::Qualified { of, qualifiers } => Ok(FormKey::Qualified {
                of: *of,
                qualifiers: qualifiers.number(),
            }),
            _ => Ok(FormKey::Alone { place }),
        }
    }
}
