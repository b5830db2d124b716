#![tactic(auto)]

ghost use Rattle.std.specs.Prelude.{◌≡◌};
ghost use Rattle.labels.specs.Values.{values as values_of, push as pushed};

use nodes::Form;

// The values of the replicators around an event, outermost first. There are at most three.
#[derive(Clone, Copy, Debug, PartialEq, Eq)]
pub struct Values {
    pub count: usize,
    pub first: usize,
    pub second: usize,
    pub third: usize,
}

impl Values {
    // Outside every replicator.
    pub fn none() -> Values
        ensures { result ≡ values_of 0 0 0 0 }
    {
        Values {
            count: 0,
            first: 0,
            second: 0,
            third: 0,
        }
    }

    // A value after the others.
    #[tactic(auto, unfolding(crate::specs::Values::push))]
    pub fn push(self, x: usize) -> Values
        ensures { result ≡ pushed self x }
    {
        match self.count {
            0 => Values {
                count: 1,
                first: x,
                second: 0,
                third: 0,
            },
            1 => Values {
                count: 2,
                second: x,
                third: 0,
                ..self
            },
            2 => Values {
                count: 3,
                third: x,
                ..self
            },
            _ => self,
        }
    }
}

// What an event number stands for, a leaf copy or a reset: the place in the text of the leaf's name, or of the flow's that is reset, and the values.
#[derive(Clone, Copy, Debug, PartialEq, Eq)]
pub struct Spot {
    pub reset: bool,
    pub place: usize,
    pub values: Values,
}

// A node as the search reads it: its form, its depth, the place of its name, and how many events one copy of it has.
#[derive(Clone, Copy, Debug, PartialEq, Eq)]
pub struct SearchNode {
    pub form: Form,
    pub depth: usize,
    pub place: usize,
    pub weight: usize,
}

// A search for an event below a node: the depth of that node, how many of its events come before the one looked for, and the values so far.
#[derive(Clone, Copy, Debug, PartialEq, Eq)]
pub struct Search {
    pub above: usize,
    pub rest: usize,
    pub values: Values,
}
