// Ids and nodes.
ghost use Rattle.std.specs.Prelude.{◌≡◌, if◌then◌else◌};

/// The number of a node in its arena; 0 and 1 are the constants false and true.
#[derive(Clone, Copy, Debug, PartialEq, Eq, Hash)]
pub struct NodeId(pub u32);

impl NodeId {
    /// The constant false.
    pub const FALSE: NodeId = NodeId(0);

    /// The constant true.
    pub const TRUE: NodeId = NodeId(1);
}

/// A node: the variable that it tests, and where a walk goes on when that is false or true.
#[derive(Clone, Copy, Debug, PartialEq, Eq)]
pub struct Node {
    pub variable: u32,
    pub low: NodeId,
    pub high: NodeId,
}

impl Node {
    /// Where a walk goes on, by the variable's value.
    pub fn child(self, value: bool) -> NodeId
        ensures { result.0 ≡ (if value then self.high.0 else self.low.0) }
    {
        if value { self.high } else { self.low }
    }
}
