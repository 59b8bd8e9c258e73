//! The names of a source so far: each part has a number, by the number of what stands before it. One table for all, so
//! that a name costs the time of its own letters.

ghost use Rattle.std.specs.Prelude.{◌≡◌, ◌<◌, [], get_or, length};
ghost use Rattle.ia_names.specs.Tries.{wholes, IsTree};

use crate::node::Node;
use ia_item::Scope;
use indexmap::IndexSet;

/// The names of a source so far, each by a number, and the label that local labels belong to.
#[derive(Drop)]
pub struct Names<'a> {
    // The parts of the names: the name of number 0 has no letters, and that of number n + 1 ends with the n-th of
    // these.
    pub(crate) nodes: IndexSet<Node<'a>>,
    // How many parts there may be.
    pub(crate) most: usize,
    // The number of the label's name.
    pub(crate) number: usize,
    /// The last label that is not local.
    pub scope: Scope<'a>,
    pub ghost tree: { ∥ IsTree nodes.keys ∥₁ },
    pub ghost known: { number < length (wholes nodes.keys) },
    pub ghost scoped: { get_or (wholes nodes.keys) number [] ≡ scope.text.now },
}
