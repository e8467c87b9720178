//! The conditions on names.

/// A condition of a source of constraints on a name.
#[derive(Clone, Copy)]
pub(crate) enum Condition {
    /// No constraint is on names of the name's form, unless this profile processes them.
    Supported,
    /// The name lies in one of the subtrees of its form that are permitted, if there is one.
    Permitted,
    /// The name lies in no subtree that is excluded.
    NotExcluded,
}
