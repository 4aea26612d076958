// The area of a process.
use crate::Span;
use crate::ops::Rights;

/// A span of pages that a process may touch, and what it may do there: a `vm_area_struct` of private
/// anonymous memory (include/linux/mm_types.h).
#[derive(Clone, Copy, PartialEq, Eq)]
pub struct Area {
    pub span: Span,
    pub rights: Rights,
}
