ghost use Rattle.std.specs.Prelude.{◌≡◌, ◌<◌, ◌≤◌, ◌+◌, ◌^◌, ℕ, length, All, MatchOption, slice_index};
ghost use Rattle.clos_topology.specs.declared.graph.Edge.{Edge};
ghost use Rattle.edge_colouring.specs.Degrees.{racks_on, degree_on, IsFirstOf};

use clos_topology::RackGraph;

/// A rack with too many edges on a side, and how many it has.
#[derive(Clone, Copy, Debug, PartialEq, Eq)]
pub struct Degree {
    pub left: bool,
    pub rack: u16,
    pub degree: u16,
}

/// An edge's rack on a side.
pub(crate) fn rack_of(graph: &RackGraph, left: bool, at: u16) -> u16
    requires { at < length graph.now.edges }
    ensures { result ≡ slice_index (racks_on left graph.now.edges) at }
{
    let (_, sends, receives) = graph.edge(at as usize);
    if left { sends } else { receives }
}

/// Writes each rack's degree on a side.
pub(crate) fn count_degrees(graph: &RackGraph, left: bool, degrees: &mut [u16])
    requires { All (λ rack. rack < length degrees.old) (racks_on left graph.now.edges) }
    ensures { (rack : ℕ) → rack < length degrees.old → slice_index degrees.new rack ≡ degree_on left rack graph.now.edges }
{
    degrees.fill(0);
    for at in 0..graph.len() as u16 {
        degrees[rack_of(graph, left, at) as usize] += 1;
    }
}

/// The first degree above this number, on a side.
pub(crate) fn first_excess(degrees: &[u16], left: bool, most: u16) -> Option<Degree>
    requires { length degrees.now ≤ 2 ^ 16 }
    ensures { MatchOption result (All (λ degree. degree ≤ most) degrees.now) (IsFirstOf most left degrees.now) }
{
    for (rack, degree) in degrees.iter().enumerate() {
        if *degree > most {
            return Some(Degree {
                left,
                rack: rack as u16,
                degree: *degree,
            });
        }
    }
    None
}
