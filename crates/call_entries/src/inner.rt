// A block of a tree, field by field.
// Functions that only this crate calls.
ghost use Rattle.std.specs.Prelude.{◌≡◌, ◌≤◌, min, length, take};
ghost use Rattle.leaf.specs.LentNeeds.{padded};
ghost use Rattle.leaf.specs.LeafForms.{leaf_of};
ghost use Rattle.call_entries.specs.Node.{leaf_node};

use leaf::svq1_enc_leaf::LeafCode;

// A block: 0 not reached, 1 split, 2 skip, 3 coded with its mean and as many stage indices as `count` says; zeros for the rest.
#[repr(C)]
#[derive(Clone, Copy)]
pub struct NodePart {
    pub mean: i16,
    pub kind: u8,
    pub count: u8,
    pub stages: [u8; 6],
}

// Six stands for every count above it.
fn most_six(count: u8) -> u8
    ensures { (result ≡ min 6 count) × (result ≤ 6) }
{
    count.min(6)
}

// The first `count` stage indices, and zeros behind them.
fn front_of(stages: [u8; 6], count: usize) -> [u8; 6]
    requires { count ≤ 6 }
    ensures { (result ≡ padded (take count stages)) × (length stages ≡ 6) }
{
    let mut front = [0u8; 6];
    front[..count].copy_from_slice(&stages[..count]);
    front
}

// A leaf.
pub fn leaf_node(code: LeafCode, stages: [u8; 6]) -> NodePart
    ensures { result ≡ leaf_node (leaf_of code stages) }
{
    match code {
        LeafCode::Skip => NodePart {
            mean: 0,
            kind: 2,
            count: 0,
            stages: [0u8; 6],
        },
        LeafCode::Coded { mean, count } => {
            let count = most_six(count);
            let front = front_of(stages, count as usize);
            NodePart {
                mean,
                kind: 3,
                count,
                stages: front,
            }
        }
    }
}
