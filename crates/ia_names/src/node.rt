//! The nodes of the tree of names.

ghost use Rattle.std.specs.Prelude.{◌≡◌};
ghost use Rattle.std.specs.Hash as fed;
ghost use Rattle.std.proofs.Common.{ap};
ghost use Rattle.std.specs.Cmp.Lexicographic.{bytes_decides, nat_list_eq_equiv};
ghost use Rattle.std.specs.Cmp.{partial_equiv_from_equiv, on_per, on_equiv};
ghost use Rattle.ia_names.specs.Nodes.{node_key, same_node, node_digest, key_digest};

use std::hash::{DefaultHasher, Hash, Hasher};

/// A part of a name, behind the name of a number.
#[derive(Clone, Copy, Debug)]
pub struct Node<'a> {
    /// The number of what stands before it.
    pub parent: usize,
    /// The part: the name's first letters, or its letters from a dot on.
    pub part: &'a [u8],
}

impl PartialEq for Node<'_> {
    ghost eq = { same_node };

    ghost laws = { on_per node_key (partial_equiv_from_equiv nat_list_eq_equiv) };

    fn eq(&self, other: &Self) -> bool {
        self.parent == other.parent && self.part == other.part
    }
}

impl Eq for Node<'_> {
    ghost laws = { on_equiv node_key nat_list_eq_equiv };
}

/// The digest of a node.
#[tactic(auto, unfolding(crate::specs::Nodes::node_digest))]
fn digest(parent: usize, part: &[u8]) -> u64
    ensures { result ≡ node_digest parent part.now }
{
    let mut hasher = DefaultHasher::new();
    hasher.write_usize(parent);
    hasher.write(part);
    hasher.finish()
}

impl Hash for Node<'_> {
    ghost hash_input = { λ n. fed.u64 (key_digest (node_key n)) };

    ghost respects_eq = { λ x y e. ap (λ k. fed.u64 (key_digest k))
        ((bytes_decides (node_key x) (node_key y)).0 e) };

    fn hash<H: Hasher>(&self, state: &mut H) {
        state.write_u64(digest(self.parent, self.part));
    }
}
