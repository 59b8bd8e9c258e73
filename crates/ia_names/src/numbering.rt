//! The numbers of names, part by part from the left: what stands before has a number, and with the part it has the next
//! one, found or new.

ghost use Rattle.std.specs.Prelude.{◌≡◌, ◌<◌, ◌++◌, [], true, get_or, length, IfOk};
ghost use Rattle.ia_names.specs.Tries.{wholes, is_part, may_follow, IsTree, AreKept};

use crate::cut::part_length;
use crate::node::Node;
use indexmap::IndexSet;
use std::alloc::AllocError;

/// The number of a part behind the name of a number. A part that is new is refused where there are `most`.
fn child<'a>(
    nodes: &mut IndexSet<Node<'a>>,
    most: usize,
    parent: usize,
    part: &'a [u8],
) -> Result<usize, AllocError>
    requires tree { ∥ IsTree nodes.old.keys ∥₁ }
    requires known { parent < length (wholes nodes.old.keys) }
    requires part { is_part (get_or (wholes nodes.old.keys) parent []) part.now ≡ true }
    ensures tree { ∥ IsTree nodes.new.keys ∥₁ }
    ensures kept { AreKept nodes.old.keys nodes.new.keys }
    ensures known { IfOk result (λ n. n < length (wholes nodes.new.keys)) }
    ensures named { IfOk result (λ n. get_or (wholes nodes.new.keys) n []
        ≡ get_or (wholes nodes.old.keys) parent [] ++ part.now) }
{
    let node = Node { parent, part };
    if nodes.len() >= most && !nodes.contains(&node) {
        return Err(AllocError);
    }
    let (index, _) = nodes.insert_full(node)?;
    // There are more nodes than the index says, so that one more than it is no overflow.
    let _count = nodes.len();
    Ok(index + 1)
}

/// The number of a name that goes on behind the name of a number, where no more than `most` parts are needed.
pub fn descend<'a>(
    nodes: &mut IndexSet<Node<'a>>,
    most: usize,
    from: usize,
    name: &'a [u8],
) -> Result<usize, AllocError>
    requires tree { ∥ IsTree nodes.old.keys ∥₁ }
    requires known { from < length (wholes nodes.old.keys) }
    requires follows { may_follow (get_or (wholes nodes.old.keys) from []) name.now ≡ true }
    ensures tree { ∥ IsTree nodes.new.keys ∥₁ }
    ensures kept { AreKept nodes.old.keys nodes.new.keys }
    ensures known { IfOk result (λ n. n < length (wholes nodes.new.keys)) }
    ensures named { IfOk result (λ n. get_or (wholes nodes.new.keys) n []
        ≡ get_or (wholes nodes.old.keys) from [] ++ name.now) }
{
    let mut number = from;
    let mut place = 0;
    while place < name.len() {
        let rest = &name[place..];
        let long = part_length(rest);
        number = child(nodes, most, number, &rest[..long])?;
        place += long;
    }
    Ok(number)
}
