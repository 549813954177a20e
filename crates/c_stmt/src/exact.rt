//! Lists that take no more memory than their items need.
ghost use Rattle.std.specs.Prelude.{◌≡◌};

use lcc_base::Items;

/// The same items, without room for others.
pub(crate) fn exact<T>(items: Items<T>) -> Items<T>
    ensures { result ≡ items }
{
    let mut items = items.into_vec();
    items.shrink_to_fit();
    Items::from_vec(items)
}
