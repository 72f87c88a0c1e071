// How a node of the table is made up: its kind's data, and the nodes where its children begin. The class of its kind, in the
// table of kinds, says which. The first child comes right after its node, each further one at the end of the one before. The
// evaluator and the translator go by this.
// A table and the ends of its subtrees travel as two parameters: in a struct of two references each contract would say `whole.t.now` and
// `whole.ends.now`, or `whole.entry.t.now` of what is returned, and be longer.
ghost use Rattle.std.specs.Prelude.{◌≡◌};
ghost use Rattle.rules.specs.Shapes.{end_in, operand_of, condition_of, operand_shape, condition_shape};

use table::kinds::{ConditionClass, OperandClass, kind_of};
use table::nodes::{Node, node_at};

#[derive(Clone, Copy)]
pub enum OperandShape {
    Const(u64),
    Ref(u64),
    Price(u8),
    Prev(usize, u64),
    Arith(u8, usize, usize),
    Extreme(u8, usize, u64),
    NoOperand,
}

#[derive(Clone, Copy)]
pub enum ConditionShape {
    Compare(u8, usize, usize),
    Cross(u8, usize, usize),
    Between(usize, usize, usize),
    Trend(u8, usize, u64),
    Group(bool, usize, usize),
    Not(usize),
    InPosition(bool),
    BarsSince(u8, u64),
    NoCondition,
}

// The end of the subtree at a node, 0 past the last.
pub fn end_in(ends: &[usize; 256], i: usize) -> usize
    ensures { result ≡ end_in ends.now i }
{
    if i < 256 { ends[i] } else { 0 }
}

// The shape of an operand's node by the class of its kind: `first` and `second` are the nodes where its children begin.
fn operand_of(class: OperandClass, node: Node, first: usize, second: usize) -> OperandShape
    ensures { result ≡ operand_of class node first second }
{
    match class {
        OperandClass::Const => OperandShape::Const(node.constant),
        OperandClass::Ref => OperandShape::Ref(node.n),
        OperandClass::Price => OperandShape::Price(node.selector),
        OperandClass::Prev => OperandShape::Prev(first, node.n),
        OperandClass::Arith => OperandShape::Arith(node.kind, first, second),
        OperandClass::Extreme => OperandShape::Extreme(node.kind, first, node.n),
        OperandClass::NoOperand => OperandShape::NoOperand,
    }
}

// The same of a condition's node.
fn condition_of(
    class: ConditionClass,
    node: Node,
    first: usize,
    second: usize,
    third: usize,
) -> ConditionShape
    ensures { result ≡ condition_of class node first second third }
{
    match class {
        ConditionClass::Compare => ConditionShape::Compare(node.kind, first, second),
        ConditionClass::Cross => ConditionShape::Cross(node.kind, first, second),
        ConditionClass::Between => ConditionShape::Between(first, second, third),
        ConditionClass::Trend => ConditionShape::Trend(node.kind, first, node.n),
        ConditionClass::All => ConditionShape::Group(true, node.children, first),
        ConditionClass::Any => ConditionShape::Group(false, node.children, first),
        ConditionClass::Not => ConditionShape::Not(first),
        ConditionClass::InPosition => ConditionShape::InPosition(node.selector == 1),
        ConditionClass::BarsSince => ConditionShape::BarsSince(node.selector, node.n),
        ConditionClass::NoCondition => ConditionShape::NoCondition,
    }
}

// The node at i as an operand. A node that is none has a shape of its own; so has a place past the 256.
pub fn operand_shape(t: &[u8], ends: &[usize; 256], i: usize) -> OperandShape
    ensures { result ≡ operand_shape t.now ends.now i }
{
    if 256 <= i {
        return OperandShape::NoOperand;
    }
    let second = end_in(ends, i + 1);
    let node = node_at(t, i);
    let row = kind_of(node.kind);
    let class = row.operand;
    operand_of(class, node, i + 1, second)
}

// The node at i as a condition.
pub fn condition_shape(t: &[u8], ends: &[usize; 256], i: usize) -> ConditionShape
    ensures { result ≡ condition_shape t.now ends.now i }
{
    if 256 <= i {
        return ConditionShape::NoCondition;
    }
    let second = end_in(ends, i + 1);
    let third = end_in(ends, second);
    let node = node_at(t, i);
    let row = kind_of(node.kind);
    let class = row.condition;
    condition_of(class, node, i + 1, second, third)
}
