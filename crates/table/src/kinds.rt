// The kinds of nodes by name, and the constant table of kinds: what a node of each kind takes. Checker, reach, evaluator and
// translator read it.
ghost use Rattle.std.specs.Prelude.{◌≡◌};
ghost use Rattle.table.specs.Kinds.{kind_of, row_named, since_of, is_series, takes_series};

// The kinds, by number.
// No enum: document 01 has a number for the operation, and the definitions `combine` and `tested` and the laws on kinds are over that number.
pub const CONST: u8 = 1;

pub const REF: u8 = 2;

pub const PRICE: u8 = 3;

pub const PREV: u8 = 4;

pub const ADD: u8 = 5;

pub const SUB: u8 = 6;

pub const MUL: u8 = 7;

pub const DIV: u8 = 8;

pub const HIGHEST: u8 = 9;

pub const LOWEST: u8 = 10;

pub const GT: u8 = 16;

pub const LT: u8 = 17;

pub const GE: u8 = 18;

pub const LE: u8 = 19;

pub const EQ: u8 = 20;

pub const NE: u8 = 21;

pub const CROSS_ABOVE: u8 = 22;

pub const CROSS_BELOW: u8 = 23;

pub const BETWEEN: u8 = 24;

pub const RISING: u8 = 25;

pub const FALLING: u8 = 26;

pub const ALL: u8 = 27;

pub const ANY: u8 = 28;

pub const NOT: u8 = 29;

pub const IN_POSITION: u8 = 30;

pub const BARS_SINCE_ENTRY: u8 = 31;

// How an operand's node is made up, and a condition's. Kinds of one class differ in what is done with their operands alone.
#[derive(Clone, Copy)]
pub enum OperandClass {
    NoOperand,
    Const,
    Ref,
    Price,
    Prev,
    Arith,
    Extreme,
}

#[derive(Clone, Copy)]
pub enum ConditionClass {
    NoCondition,
    Compare,
    Cross,
    Between,
    Trend,
    All,
    Any,
    Not,
    InPosition,
    BarsSince,
}

// How many children a node takes: so many, or as many as its own field says.
#[derive(Clone, Copy, PartialEq, Eq, Debug)]
pub enum Children {
    Exactly(u8),
    AsWritten,
}

// What n is: unused and so zero, a slot below K, any number, or how many bars: 1 to 4,095.
#[derive(Clone, Copy, PartialEq, Eq, Debug)]
pub enum NumberUse {
    Unused,
    Slot,
    AnyNumber,
    BarCount,
}

// What the node adds to the reach: nothing, its n, one bar, or one bar less than its n.
#[derive(Clone, Copy, PartialEq, Eq, Debug)]
pub enum Back {
    Nothing,
    ItsN,
    OneBar,
    BarsBefore,
}

// Whether the node is a series, a number of each row as it stands there, or takes one as its child.
#[derive(Clone, Copy, PartialEq, Eq, Debug)]
pub enum SeriesRole {
    Neither,
    Series,
    OverSeries,
}

impl SeriesRole {
    // Whether the node is a series.
    pub(crate) fn is_series(self) -> bool
        ensures { result ≡ is_series self }
    {
        matches!(self, SeriesRole::Series)
    }

    // Whether the node takes a series as its child.
    pub(crate) fn takes_series(self) -> bool
        ensures { result ≡ takes_series self }
    {
        matches!(self, SeriesRole::OverSeries)
    }
}

// What a kind takes: a row of the table of kinds.
#[derive(Clone, Copy)]
pub struct Kind {
    pub operand: OperandClass,
    pub condition: ConditionClass,
    pub sort: u8,
    pub children: Children,
    pub below: u8,
    pub selectors: u8,
    pub n: NumberUse,
    pub constant: bool,
    pub back: Back,
    pub series: SeriesRole,
}

// Sorts.
// No enum: the definitions `sorts`, `Sorted` and `child_fits_at` and the laws of the crate roundtrip are over the number.
pub const OPERAND: u8 = 1;

pub const CONDITION: u8 = 2;

const UNKNOWN_ROW: Kind = Kind {
    operand: OperandClass::NoOperand,
    condition: ConditionClass::NoCondition,
    sort: 0,
    children: Children::Exactly(0),
    below: 0,
    selectors: 0,
    n: NumberUse::Unused,
    constant: false,
    back: Back::Nothing,
    series: SeriesRole::Neither,
};

const CONST_ROW: Kind = Kind {
    operand: OperandClass::Const,
    condition: ConditionClass::NoCondition,
    sort: OPERAND,
    children: Children::Exactly(0),
    below: 0,
    selectors: 1,
    n: NumberUse::Unused,
    constant: true,
    back: Back::Nothing,
    series: SeriesRole::Neither,
};

const REF_ROW: Kind = Kind {
    operand: OperandClass::Ref,
    condition: ConditionClass::NoCondition,
    sort: OPERAND,
    children: Children::Exactly(0),
    below: 0,
    selectors: 1,
    n: NumberUse::Slot,
    constant: false,
    back: Back::Nothing,
    series: SeriesRole::Series,
};

const PRICE_ROW: Kind = Kind {
    operand: OperandClass::Price,
    condition: ConditionClass::NoCondition,
    sort: OPERAND,
    children: Children::Exactly(0),
    below: 0,
    selectors: 7,
    n: NumberUse::Unused,
    constant: false,
    back: Back::Nothing,
    series: SeriesRole::Series,
};

const PREV_ROW: Kind = Kind {
    operand: OperandClass::Prev,
    condition: ConditionClass::NoCondition,
    sort: OPERAND,
    children: Children::Exactly(1),
    below: OPERAND,
    selectors: 1,
    n: NumberUse::AnyNumber,
    constant: false,
    back: Back::ItsN,
    series: SeriesRole::Neither,
};

const ARITH_ROW: Kind = Kind {
    operand: OperandClass::Arith,
    condition: ConditionClass::NoCondition,
    sort: OPERAND,
    children: Children::Exactly(2),
    below: OPERAND,
    selectors: 1,
    n: NumberUse::Unused,
    constant: false,
    back: Back::Nothing,
    series: SeriesRole::Neither,
};

const EXTREME_ROW: Kind = Kind {
    operand: OperandClass::Extreme,
    condition: ConditionClass::NoCondition,
    sort: OPERAND,
    children: Children::Exactly(1),
    below: OPERAND,
    selectors: 1,
    n: NumberUse::BarCount,
    constant: false,
    back: Back::BarsBefore,
    series: SeriesRole::OverSeries,
};

const COMPARE_ROW: Kind = Kind {
    operand: OperandClass::NoOperand,
    condition: ConditionClass::Compare,
    sort: CONDITION,
    children: Children::Exactly(2),
    below: OPERAND,
    selectors: 1,
    n: NumberUse::Unused,
    constant: false,
    back: Back::Nothing,
    series: SeriesRole::Neither,
};

const CROSS_ROW: Kind = Kind {
    operand: OperandClass::NoOperand,
    condition: ConditionClass::Cross,
    sort: CONDITION,
    children: Children::Exactly(2),
    below: OPERAND,
    selectors: 1,
    n: NumberUse::Unused,
    constant: false,
    back: Back::OneBar,
    series: SeriesRole::Neither,
};

const BETWEEN_ROW: Kind = Kind {
    operand: OperandClass::NoOperand,
    condition: ConditionClass::Between,
    sort: CONDITION,
    children: Children::Exactly(3),
    below: OPERAND,
    selectors: 1,
    n: NumberUse::Unused,
    constant: false,
    back: Back::Nothing,
    series: SeriesRole::Neither,
};

const TREND_ROW: Kind = Kind {
    operand: OperandClass::NoOperand,
    condition: ConditionClass::Trend,
    sort: CONDITION,
    children: Children::Exactly(1),
    below: OPERAND,
    selectors: 1,
    n: NumberUse::AnyNumber,
    constant: false,
    back: Back::ItsN,
    series: SeriesRole::Neither,
};

const ALL_ROW: Kind = Kind {
    operand: OperandClass::NoOperand,
    condition: ConditionClass::All,
    sort: CONDITION,
    children: Children::AsWritten,
    below: CONDITION,
    selectors: 1,
    n: NumberUse::Unused,
    constant: false,
    back: Back::Nothing,
    series: SeriesRole::Neither,
};

const ANY_ROW: Kind = Kind {
    operand: OperandClass::NoOperand,
    condition: ConditionClass::Any,
    sort: CONDITION,
    children: Children::AsWritten,
    below: CONDITION,
    selectors: 1,
    n: NumberUse::Unused,
    constant: false,
    back: Back::Nothing,
    series: SeriesRole::Neither,
};

const NOT_ROW: Kind = Kind {
    operand: OperandClass::NoOperand,
    condition: ConditionClass::Not,
    sort: CONDITION,
    children: Children::Exactly(1),
    below: CONDITION,
    selectors: 1,
    n: NumberUse::Unused,
    constant: false,
    back: Back::Nothing,
    series: SeriesRole::Neither,
};

const IN_POSITION_ROW: Kind = Kind {
    operand: OperandClass::NoOperand,
    condition: ConditionClass::InPosition,
    sort: CONDITION,
    children: Children::Exactly(0),
    below: 0,
    selectors: 2,
    n: NumberUse::Unused,
    constant: false,
    back: Back::Nothing,
    series: SeriesRole::Neither,
};

const BARS_SINCE_ROW: Kind = Kind {
    operand: OperandClass::NoOperand,
    condition: ConditionClass::BarsSince,
    sort: CONDITION,
    children: Children::Exactly(0),
    below: 0,
    selectors: 5,
    n: NumberUse::AnyNumber,
    constant: false,
    back: Back::Nothing,
    series: SeriesRole::Neither,
};

// The rows by name, so that the table of kinds is one byte a kind: an array of rows would be copied whole at each look-up.
#[derive(Clone, Copy)]
pub enum Row {
    Unknown,
    Const,
    Ref,
    Price,
    Prev,
    Arith,
    Extreme,
    Compare,
    Cross,
    Between,
    Trend,
    All,
    Any,
    Not,
    InPosition,
    BarsSince,
}

// The names of rows 0 to 31.
const KINDS: [Row; 32] = [
    Row::Unknown,
    Row::Const,
    Row::Ref,
    Row::Price,
    Row::Prev,
    Row::Arith,
    Row::Arith,
    Row::Arith,
    Row::Arith,
    Row::Extreme,
    Row::Extreme,
    Row::Unknown,
    Row::Unknown,
    Row::Unknown,
    Row::Unknown,
    Row::Unknown,
    Row::Compare,
    Row::Compare,
    Row::Compare,
    Row::Compare,
    Row::Compare,
    Row::Compare,
    Row::Cross,
    Row::Cross,
    Row::Between,
    Row::Trend,
    Row::Trend,
    Row::All,
    Row::Any,
    Row::Not,
    Row::InPosition,
    Row::BarsSince,
];

// The row of a name.
#[tactic(auto, unfolding(crate::specs::Kinds::row_named))]
fn row_named(name: Row) -> Kind
    ensures { result ≡ row_named name }
{
    match name {
        Row::Unknown => UNKNOWN_ROW,
        Row::Const => CONST_ROW,
        Row::Ref => REF_ROW,
        Row::Price => PRICE_ROW,
        Row::Prev => PREV_ROW,
        Row::Arith => ARITH_ROW,
        Row::Extreme => EXTREME_ROW,
        Row::Compare => COMPARE_ROW,
        Row::Cross => CROSS_ROW,
        Row::Between => BETWEEN_ROW,
        Row::Trend => TREND_ROW,
        Row::All => ALL_ROW,
        Row::Any => ANY_ROW,
        Row::Not => NOT_ROW,
        Row::InPosition => IN_POSITION_ROW,
        Row::BarsSince => BARS_SINCE_ROW,
    }
}

// The row of a kind; a kind from 32 on has the row of an unknown one.
pub fn kind_of(k: u8) -> Kind
    ensures { result ≡ kind_of k }
{
    let i = k as usize;
    if i < 32 {
        row_named(KINDS[i])
    } else {
        UNKNOWN_ROW
    }
}

// The version of the table that a kind came with, none for an unknown one: a number, as in a header. It is no part of a row, so that kinds of one row may
// come with different versions.
const NONE: u8 = 0;

const FIRST: u8 = 1;

pub const SECOND: u8 = 2;

// The versions of kinds 0 to 31.
const SINCE: [u8; 32] = [
    NONE, FIRST, FIRST, FIRST, FIRST, FIRST, FIRST, FIRST, FIRST, SECOND, SECOND, NONE, NONE, NONE,
    NONE, NONE, FIRST, FIRST, FIRST, FIRST, FIRST, FIRST, FIRST, FIRST, FIRST, FIRST, FIRST, FIRST,
    FIRST, FIRST, FIRST, FIRST,
];

// The version that a kind came with.
pub fn since_of(k: u8) -> u8
    ensures { result ≡ since_of k }
{
    let i = k as usize;
    if i < 32 { SINCE[i] } else { NONE }
}
