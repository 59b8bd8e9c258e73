//! What the reasons of a history are told by.

use elide_places::Places;

/// What the reasons of a history are told by: the places of the program, and whether code where the subset ends is
/// named.
#[derive(Drop)]
pub struct NamedPlaces {
    /// The places.
    pub places: Places,
    /// Whether it is told of such code what it is, as `16-bit move`.
    pub names: bool,
}
