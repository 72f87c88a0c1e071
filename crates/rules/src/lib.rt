#![tactic(auto)]
// What a rule means, and the evaluator that answers it over a table and rows: the port of rules.rs.
pub mod answers;
pub mod conditions;
pub mod operands;
pub mod position;
pub mod shapes;
pub mod values;
