// What every board shares: the queue kinds, a packet's place, and what the rule of moves answers.
#![tactic(auto)]

// The three queues of a node.
#[derive(Clone, Copy)]
pub enum Kind {
    Waiting,
    A,
    B,
}

// A packet's place: its node, as the address byte that a slot holds, with a queue kind.
#[derive(Clone, Copy)]
pub struct Place {
    pub node: u8,
    pub kind: Kind,
}

// Where a move leads: a hop keeps the kind, a turn keeps the node, a delivered packet leaves the network. `NotOffered` is one of the rule's four answers, and
// no Option round three: the theorem `published_is` and the promises name all four.
#[derive(Clone, Copy)]
pub enum Lead {
    Hop(u8),
    Turn(Kind),
    Out,
    NotOffered,
}
