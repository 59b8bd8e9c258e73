//! What is checked of a machine: that some conditions all hold, or that they do not.
//!
//! [`Check::is_violated`] asks of the machine as it stands; at which moments it is asked is decided by who
//! searches. Checks of a whole run, which may count its outcomes, are `tm_check`'s, and the text of both is read in
//! `elide_checks`.

ghost use Rattle.std.specs.Prelude.{◌↔◌, IsTrue};
ghost use Rattle.tm_condition.specs.Conditions.{Violates, seen_of};

use crate::clause::{Clause, all_hold};
use tm_core::Machine;

/// What is checked of a machine. What is not there meets no condition.
#[derive(Debug, Drop)]
pub enum Check {
    /// All of these conditions hold.
    Demanded(Vec<Clause>),
    /// Not all of these conditions hold.
    Forbidden(Vec<Clause>),
}

impl Check {
    /// Whether it is violated.
    pub fn is_violated(&self, machine: &Machine) -> bool
        ensures { IsTrue result ↔ Violates (seen_of machine.now) self.now }
    {
        match self {
            Check::Demanded(clauses) => !all_hold(clauses.as_slice(), machine),
            Check::Forbidden(clauses) => all_hold(clauses.as_slice(), machine),
        }
    }
}
