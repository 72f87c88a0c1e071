// What Highest and Lowest look over: a price of each bar, or a slot.
ghost use Rattle.std.specs.Prelude.{◌≡◌};
ghost use Rattle.table.specs.Series.{series_by, series_in};

use crate::kinds::{OperandClass, kind_of};
use crate::nodes::{Node, node_at};

#[derive(Clone, Copy)]
pub enum Series {
    Price(u8),
    Slot(u64),
}

// The series that a node is, by the class of its kind. A node that is none counts as the open.
#[tactic(auto, unfolding(crate::specs::Series::series_by))]
fn series_by(class: OperandClass, node: Node) -> Series
    ensures { result ≡ series_by class node }
{
    match class {
        OperandClass::Ref => Series::Slot(node.n),
        OperandClass::Price => Series::Price(node.selector),
        OperandClass::Const
        | OperandClass::Prev
        | OperandClass::Arith
        | OperandClass::Extreme
        | OperandClass::NoOperand => Series::Price(0),
    }
}

// The series at node i.
#[tactic(auto, unfolding(crate::specs::Series::series_in))]
pub fn series_in(t: &[u8], i: usize) -> Series
    ensures { result ≡ series_in t.now i }
{
    let node = node_at(t, i);
    let row = kind_of(node.kind);
    let class = row.operand;
    series_by(class, node)
}
