//! The places that the basic types have in each table.
use c_types::TypeId;

pub const VOID: TypeId = 0;

pub const CHAR: TypeId = 1;

pub const SIGNED_CHAR: TypeId = 2;

pub const UNSIGNED_CHAR: TypeId = 3;

pub const SHORT: TypeId = 4;

pub const UNSIGNED_SHORT: TypeId = 5;

pub const INT: TypeId = 6;

pub const UNSIGNED: TypeId = 7;

pub const LONG: TypeId = 8;

pub const UNSIGNED_LONG: TypeId = 9;
