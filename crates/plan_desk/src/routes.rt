//! The routes: each reads from the book and decides a call. Nothing is written here.

pub(crate) mod binds;
pub(crate) mod imports;
pub(crate) mod lists;
pub(crate) mod office;
pub(crate) mod plans;
pub(crate) mod queries;
