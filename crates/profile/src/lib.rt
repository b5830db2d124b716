#![tactic(auto)]

ghost use Rattle.std.specs.Prelude.{◌≡◌, map, take};
ghost use Rattle.diagram.specs.TreeNodes.{copying};
ghost use Rattle.labels.specs.SearchNodes.{search_node};
ghost use Rattle.labels.specs.Seeks.{spot_of};
ghost use Rattle.labels.specs.Weights.{weigh as weigh_nodes};
ghost use Rattle.profile.specs.code.Profiles.{copies as copies_of, outside_of, variable as variable_of, Names};

use diagram::{Diagram, Kind};
use labels::{SearchNode, Spot};
use variables::Variable;

// Whether a node is a replicator.
fn replicates(kind: Kind) -> bool
    ensures { result ≡ copying kind }
{
    matches!(kind, Kind::All(_) | Kind::Some(_) | Kind::One(_))
}

// Whether one of the nodes is a replicator.
fn copies(d: &Diagram) -> bool
    ensures { result ≡ copies_of d.now }
{
    nodes::counted(d).iter().any(|n| replicates(n.kind))
}

// Whether a diagram is outside the profile: a replicator in it, or over 32 events.
pub fn outside(d: &Diagram) -> bool
    ensures { result ≡ outside_of d.now }
{
    copies(d) || 32 < d.events
}

// Past the last event.
const NONE: Variable = Variable {
    place: 0,
    reset: false,
};

// The variable of the event that stands here.
fn variable(spot: Option<Spot>) -> Variable
    ensures { result ≡ variable_of spot }
{
    match spot {
        Some(s) => Variable {
            place: s.place,
            reset: s.reset,
        },
        None => NONE,
    }
}

// The variable of an event, by the nodes with how many events each has.
#[tactic(auto, unfolding(labels::specs::Seeks::spot_of))]
fn named(d: &Diagram, nodes: &[SearchNode], event: usize) -> Variable
    requires { take d.now.count nodes.now ≡ weigh_nodes (map search_node (take d.now.count d.now.nodes)) }
    ensures { result ≡ variable_of (spot_of d.now event) }
{
    variable(search::seek(nodes.get(..d.count).unwrap_or(nodes), event))
}

// Where the name of each event stands, and which events are resets: of the first 32.
pub fn names(d: &Diagram) -> [Variable; 32]
    ensures { Names d.now result }
{
    let nodes = search::weigh(d);
    let mut variables = [NONE; 32];
    for e in 0..32 {
        variables[e] = named(d, &nodes, e);
    }
    variables
}
