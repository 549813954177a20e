//! Plain expressions: those in which no function is called.
ghost use Rattle.std.specs.Prelude.{◌≡◌};
ghost use Rattle.c_meaning.specs.CoreTrees.{cores_of};
ghost use Rattle.c_plain.specs.Plain.{are_plain, is_plain};

use c_meaning::{CoreExpr, CoreKind};

/// Whether an expression calls nothing.
#[cycle(plain)]
pub fn is_plain(e: &CoreExpr) -> bool
    ensures { result ≡ is_plain e.now }
{
    match e.what {
        CoreKind::Call { .. } => false,
        _ => are_plain(e.kids.as_slice()),
    }
}

/// Whether each calls nothing.
#[cycle(plain)]
fn are_plain(list: &[CoreExpr]) -> bool
    ensures { result ≡ are_plain (cores_of list.now) }
{
    for e in list {
        if !is_plain(e) {
            return false;
        }
    }
    true
}
