//! Kinds of expressions, copied.
ghost use Rattle.std.specs.Prelude.{◌≡◌, IfOk};

use c_meaning::{CoreKind, LiteralText};
use lcc_base::{Bytes, Memory};
use std::alloc::Global;

/// The same kind again.
pub(crate) fn copied(alloc: Global, what: &CoreKind) -> Result<CoreKind, Memory>
    ensures { IfOk result (λ k. k ≡ what.now) }
{
    match what {
        CoreKind::Literal(text) => {
            let bytes = Bytes::copied(alloc, text.as_slice())?;
            Ok(CoreKind::Literal(LiteralText::new(alloc, bytes)?))
        }
        CoreKind::Local { place, register } => Ok(CoreKind::Local {
            place: *place,
            register: *register,
        }),
        CoreKind::Object(place) => Ok(CoreKind::Object(*place)),
        CoreKind::Text(place) => Ok(CoreKind::Text(*place)),
        CoreKind::Symbol(id) => Ok(CoreKind::Symbol(*id)),
        CoreKind::Function(place) => Ok(CoreKind::Function(*place)),
        CoreKind::BuiltIn(built_in) => Ok(CoreKind::BuiltIn(*built_in)),
        CoreKind::Member {
            offset,
            first,
            width,
        } => Ok(CoreKind::Member {
            offset: *offset,
            first: *first,
            width: *width,
        }),
        CoreKind::Number(number) => Ok(CoreKind::Number(*number)),
        CoreKind::Pointed => Ok(CoreKind::Pointed),
        CoreKind::Read => Ok(CoreKind::Read),
        CoreKind::Address => Ok(CoreKind::Address),
        CoreKind::First => Ok(CoreKind::First),
        CoreKind::Convert(conversion) => Ok(CoreKind::Convert(*conversion)),
        CoreKind::Unary(operator) => Ok(CoreKind::Unary(*operator)),
        CoreKind::Not => Ok(CoreKind::Not),
        CoreKind::Binary { operator, signed } => Ok(CoreKind::Binary {
            operator: *operator,
            signed: *signed,
        }),
        CoreKind::Compare { operator, signed } => Ok(CoreKind::Compare {
            operator: *operator,
            signed: *signed,
        }),
        CoreKind::Move { size, back } => Ok(CoreKind::Move {
            size: *size,
            back: *back,
        }),
        CoreKind::Difference { size } => Ok(CoreKind::Difference { size: *size }),
        CoreKind::And => Ok(CoreKind::And),
        CoreKind::Or => Ok(CoreKind::Or),
        CoreKind::Conditional => Ok(CoreKind::Conditional),
        CoreKind::Comma => Ok(CoreKind::Comma),
        CoreKind::Assign => Ok(CoreKind::Assign),
        CoreKind::Change(change) => Ok(CoreKind::Change(*change)),
        CoreKind::Postfix(change) => Ok(CoreKind::Postfix(*change)),
        CoreKind::Call { copies } => Ok(CoreKind::Call { copies: *copies }),
    }
}
