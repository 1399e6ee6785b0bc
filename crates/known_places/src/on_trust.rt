use std::marker::Model;

/// What is left on trust of a statement: the addresses, in bytes, of the words whose stated class is on
/// trust, and of the headers of the loops whose bound is.
#[derive(Drop)]
pub struct OnTrust {
    pub classes: Vec<u32>,
    pub loops: Vec<u32>,
}

impl Model for OnTrust {
    ghost use Rattle.known_places.specs.OnTrust.{OnTrust};

    ghost Value = { OnTrust };

    ghost view = { λ t. record { classes = t.classes.items; loops = t.loops.items } };
}
