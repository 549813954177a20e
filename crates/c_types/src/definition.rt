//! Definitions of structures and unions: their members, and where these are laid.
use crate::extent::Extent;
use crate::type_form::{Member, MemberPlace};
use indexmap::IndexMap;
use lcc_base::Items;

/// What completed a structure or union.
#[derive(Drop)]
pub(crate) struct Definition {
    pub(crate) members: Items<Member>,
    /// The place of the first member of each name.
    pub(crate) places: IndexMap<Vec<u8>, MemberPlace>,
    /// The places of the members with names, in order.
    pub(crate) named: Items<MemberPlace>,
    pub(crate) extent: Extent,
    /// Whether something of one of the members is const.
    pub(crate) constant: bool,
}
