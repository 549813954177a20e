//! A name as a declaration introduces it: storage class, type and linkage.
use crate::linkage::Linkage;
use c_ast::Storage;
use c_types::TypeId;
use lcc_base::Bytes;

/// A declared name (C89 3.5, 3.5.4).
#[derive(Drop)]
pub struct Naming {
    /// The storage class that it is declared with.
    pub class: Option<Storage>,
    pub name: Bytes,
    /// Its type.
    pub of: TypeId,
    pub linkage: Linkage,
}
