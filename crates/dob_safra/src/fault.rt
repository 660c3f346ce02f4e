// The fault of a ring that would have too many nodes or none, as boards, worlds and builds give it.
ghost use Rattle.std.specs.Prelude.{Some};
ghost use Rattle.dob_safra.specs.Faults.{nodes_text};

use std::fmt;

/// E9: the number of nodes isn't 1 to 16.
pub struct Nodes;

impl fmt::Display for Nodes {
    ghost output = { λ _. Some nodes_text };

    fn fmt<W: fmt::Write>(&self, f: &mut fmt::Formatter<W>) -> fmt::Result {
        write!(f, "E9 Nodes")
    }
}
