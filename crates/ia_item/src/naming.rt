//! Making, comparing and hashing names. A local label's name is never put together: its parts are compared and hashed
//! one behind the other, so that both ways of writing it are one name.

ghost use Rattle.std.specs.Prelude.{◌≡◌, ◌++◌, ◌≤◌, length};
ghost use Rattle.std.specs.Hash as fed;
ghost use Rattle.std.proofs.Common.{ap};
ghost use Rattle.std.specs.Cmp.Lexicographic.{bytes_decides, nat_list_eq_equiv};
ghost use Rattle.std.specs.Cmp.{partial_equiv_from_equiv, on_per, on_equiv};
ghost use Rattle.std.specs.Str.{bytes_eq};
ghost use Rattle.ia_item.specs.Names.{whole_name, same_name};
ghost use Rattle.ia_item.specs.Digests.{new_hasher, given_more, name_digest};

use crate::name::{Name, Scope};
use std::hash::{DefaultHasher, Hash, Hasher};

/// A hasher that is given more bytes.
fn given(hasher: DefaultHasher, bytes: &[u8]) -> DefaultHasher
    ensures { result ≡ given_more hasher bytes.now }
{
    let mut hasher = hasher;
    hasher.write(bytes);
    hasher
}

impl<'a> Scope<'a> {
    /// The label of this name; none where it is empty.
    pub fn new(text: &'a [u8]) -> Scope<'a>
        ensures { result.text.now ≡ text.now }
    {
        Scope {
            text,
            hasher: given(DefaultHasher::new(), text),
        }
    }
}

impl<'a> Name<'a> {
    /// The name that is written whole.
    #[tactic(auto, unfolding(crate::specs::Digests::name_digest))]
    pub fn new(own: &'a [u8]) -> Name<'a>
        ensures { whole_name result ≡ own.now }
    {
        Name {
            scope: b"",
            own,
            digest: given(DefaultHasher::new(), own).finish(),
        }
    }

    /// The name of a local label behind that label.
    #[tactic(auto, using(crate::proofs::Fed::in_two), unfolding(crate::specs::Digests::name_digest))]
    pub fn local(scope: &Scope<'a>, own: &'a [u8]) -> Name<'a>
        ensures { whole_name result ≡ scope.now.text.now ++ own.now }
    {
        Name {
            scope: scope.text,
            own,
            digest: given(scope.hasher, own).finish(),
        }
    }
}

/// Whether two parts, one behind the other, are the text.
#[tactic(auto, using(crate::proofs::Joins::joins))]
fn is_joined(front: &[u8], back: &[u8], text: &[u8]) -> bool
    ensures { result ≡ bytes_eq (front.now ++ back.now) text.now }
{
    if text.len() < front.len() {
        return false;
    }
    let (first, rest) = text.split_at(front.len());
    front == first && back == rest
}

/// Whether the whole names are the same, where the first scope is no longer than the second.
#[tactic(auto, using(crate::proofs::Joins::parted, crate::proofs::Joins::parted_apart))]
fn is_same(short: &Name, long: &Name) -> bool
    requires { length short.now.scope.now ≤ length long.now.scope.now }
    ensures { result ≡ same_name short.now long.now }
{
    let (first, rest) = long.scope.split_at(short.scope.len());
    short.scope == first && is_joined(rest, long.own, short.own)
}

impl PartialEq for Name<'_> {
    ghost eq = { same_name };

    ghost laws = { on_per whole_name (partial_equiv_from_equiv nat_list_eq_equiv) };

    #[tactic(auto, using(crate::proofs::Fed::apart))]
    fn eq(&self, other: &Self) -> bool {
        if self.digest != other.digest {
            return false;
        }
        if self.scope.len() <= other.scope.len() {
            is_same(self, other)
        } else {
            is_same(other, self)
        }
    }
}

impl Eq for Name<'_> {
    ghost laws = { on_equiv whole_name nat_list_eq_equiv };
}

impl Hash for Name<'_> {
    ghost hash_input = { λ n. fed.u64 (name_digest (whole_name n)) };

    ghost respects_eq = { λ x y e. ap (λ t. fed.u64 (name_digest t))
        ((bytes_decides (whole_name x) (whole_name y)).0 e) };

    fn hash<H: Hasher>(&self, state: &mut H) {
        state.write_u64(self.digest);
    }
}
