//! Size, alignment and nesting of types.
ghost use Rattle.std.specs.Prelude.{◌≡◌, ◌≤◌, ◌<◌, Some};
ghost use Rattle.c_types.specs.Layout.{scalar, no_object, array_extent};
ghost use Rattle.c_types.specs.Bounds.{IsBounded};

/// What a type's objects take: the size in bytes, None where the type is incomplete or a
/// function; the alignment in bytes; and the nesting, one more than the greatest of its parts for
/// an array or a complete structure or union, and else 1.
#[derive(Clone, Copy, Debug, PartialEq, Eq)]
pub struct Extent {
    pub size: Option<u32>,
    pub align: u32,
    pub nesting: u32,
}

impl Extent {
    /// That of a scalar type, which is aligned to its size.
    pub(crate) fn scalar(size: u32) -> Self
        ensures { result ≡ scalar size }
    {
        Extent {
            size: Some(size),
            align: size,
            nesting: 1,
        }
    }

    /// That of a function, and of a type that is incomplete.
    pub(crate) fn no_object() -> Self
        ensures { result ≡ no_object }
    {
        Extent {
            size: None,
            align: 1,
            nesting: 1,
        }
    }
}
