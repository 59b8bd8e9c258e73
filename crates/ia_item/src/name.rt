//! Names of symbols, which borrow the source: whole ones, and those of local labels, which belong to the label before
//! them.

ghost use Rattle.std.specs.Prelude.{◌≡◌, ◌++◌};
ghost use Rattle.ia_item.specs.Digests.{new_hasher, given_more, name_digest};

use std::hash::DefaultHasher;

/// The label that local labels belong to, with its digest so far: a local label's digest goes on from there, so that
/// it costs what the local label's own name costs, however long the label is.
#[derive(Clone, Copy)]
pub struct Scope<'a> {
    /// The label, empty where there is none.
    pub text: &'a [u8],
    /// A hasher that was given the label.
    pub hasher: DefaultHasher,
    pub ghost given: { hasher ≡ given_more new_hasher text.now },
}

/// A symbol's name. The name of a local label begins with a dot and belongs to the label before it, whose name is the
/// scope; of any other name the scope is empty. The whole name is the scope and the own name behind it, and names are
/// equal where their whole names are.
#[derive(Clone, Copy)]
pub struct Name<'a> {
    /// The name of the label that a local label belongs to, else empty.
    pub scope: &'a [u8],
    /// The name as it is written.
    pub own: &'a [u8],
    /// The digest of the whole name.
    pub digest: u64,
    pub ghost digested: { digest ≡ name_digest (scope.now ++ own.now) },
}
