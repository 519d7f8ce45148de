//! The table of the operators, row by row: operator, whether the field is mandatory, whether there is an initial value, the content of the
//! stream, and the result if the entry is undefined, is empty, holds a value of the field's type, and holds one of another type.

use fast_tree::Operator;
use fast_value::Code::{self, D4, D5, D6};

/// The presence of a field: mandatory or optional.
#[derive(Clone, Copy, PartialEq)]
pub enum Presence {
    /// The field is mandatory.
    Mandatory,
    /// The field is optional.
    Optional,
}

/// The presence of an initial value in the instruction.
#[derive(Clone, Copy, PartialEq)]
pub enum Start {
    /// The instruction has an initial value.
    With,
    /// The instruction has none.
    Without,
}

/// The content of the stream.
#[derive(Clone, Copy, PartialEq)]
pub enum Way {
    /// Nothing, with the presence bit clear.
    Unsent,
    /// Nothing, with the presence bit set.
    Set,
    /// NULL.
    Null,
    /// A value, a delta or a tail.
    Item,
}

/// One of the sample values of a type.
#[derive(Clone, Copy, PartialEq)]
pub enum Sample {
    /// The value that is sent.
    Sent,
    /// The initial value.
    Initial,
    /// The previous value.
    Previous,
    /// One more than the previous value.
    Raised,
    /// The delta or the tail on the previous value.
    OnPrevious,
    /// The delta or the tail on the initial value.
    OnInitial,
    /// The delta or the tail on 0 or the empty string.
    OnNothing,
}

/// The result of a row.
#[derive(Clone, Copy, PartialEq)]
pub enum Then {
    /// The value, which the entry then holds.
    Kept(Sample),
    /// The value, and the entry is unchanged.
    Given(Sample),
    /// Absent, and the entry is unchanged.
    AsItWas,
    /// Absent, and the entry is empty.
    Emptied,
    /// A fault.
    Fault(Code),
}

use Presence::{Mandatory, Optional};
use Sample::{Initial, OnInitial, OnNothing, OnPrevious, Previous, Raised, Sent};
use Start::{With, Without};
use Then::{AsItWas, Emptied, Fault, Given, Kept};

/// A row of the table.
pub type Row = (Operator, Presence, Start, Way, Thens);

/// The results under an entry that is undefined, that is empty, with a value of the field's type, with another.
pub type Thens = (Then, Then, Then, Then);

/// The rows.
#[rattlefmt::skip]
pub static ROWS: [Row; 50] = [
    (Operator::None, Mandatory, Without, Way::Item, (Given(Sent), Given(Sent), Given(Sent), Given(Sent))),
    (Operator::None, Optional, Without, Way::Item, (Given(Sent), Given(Sent), Given(Sent), Given(Sent))),
    (Operator::None, Optional, Without, Way::Null, (AsItWas, AsItWas, AsItWas, AsItWas)),
    (Operator::Constant, Mandatory, With, Way::Set, (Given(Initial), Given(Initial), Given(Initial), Given(Initial))),
    (Operator::Constant, Optional, With, Way::Set, (Given(Initial), Given(Initial), Given(Initial), Given(Initial))),
    (Operator::Constant, Optional, With, Way::Unsent, (AsItWas, AsItWas, AsItWas, AsItWas)),
    (Operator::Default, Mandatory, With, Way::Item, (Given(Sent), Given(Sent), Given(Sent), Given(Sent))),
    (Operator::Default, Mandatory, With, Way::Unsent, (Given(Initial), Given(Initial), Given(Initial), Given(Initial))),
    (Operator::Default, Optional, With, Way::Item, (Given(Sent), Given(Sent), Given(Sent), Given(Sent))),
    (Operator::Default, Optional, With, Way::Null, (AsItWas, AsItWas, AsItWas, AsItWas)),
    (Operator::Default, Optional, With, Way::Unsent, (Given(Initial), Given(Initial), Given(Initial), Given(Initial))),
    (Operator::Default, Optional, Without, Way::Item, (Given(Sent), Given(Sent), Given(Sent), Given(Sent))),
    (Operator::Default, Optional, Without, Way::Null, (AsItWas, AsItWas, AsItWas, AsItWas)),
    (Operator::Default, Optional, Without, Way::Unsent, (AsItWas, AsItWas, AsItWas, AsItWas)),
    (Operator::Copy, Mandatory, With, Way::Item, (Kept(Sent), Kept(Sent), Kept(Sent), Kept(Sent))),
    (Operator::Copy, Mandatory, With, Way::Unsent, (Kept(Initial), Fault(D6), Kept(Previous), Fault(D4))),
    (Operator::Copy, Mandatory, Without, Way::Item, (Kept(Sent), Kept(Sent), Kept(Sent), Kept(Sent))),
    (Operator::Copy, Mandatory, Without, Way::Unsent, (Fault(D5), Fault(D6), Kept(Previous), Fault(D4))),
    (Operator::Copy, Optional, With, Way::Item, (Kept(Sent), Kept(Sent), Kept(Sent), Kept(Sent))),
    (Operator::Copy, Optional, With, Way::Null, (Emptied, Emptied, Emptied, Emptied)),
    (Operator::Copy, Optional, With, Way::Unsent, (Kept(Initial), Emptied, Kept(Previous), Fault(D4))),
    (Operator::Copy, Optional, Without, Way::Item, (Kept(Sent), Kept(Sent), Kept(Sent), Kept(Sent))),
    (Operator::Copy, Optional, Without, Way::Null, (Emptied, Emptied, Emptied, Emptied)),
    (Operator::Copy, Optional, Without, Way::Unsent, (Emptied, Emptied, Kept(Previous), Fault(D4))),
    (Operator::Increment, Mandatory, With, Way::Item, (Kept(Sent), Kept(Sent), Kept(Sent), Kept(Sent))),
    (Operator::Increment, Mandatory, With, Way::Unsent, (Kept(Initial), Fault(D6), Kept(Raised), Fault(D4))),
    (Operator::Increment, Mandatory, Without, Way::Item, (Kept(Sent), Kept(Sent), Kept(Sent), Kept(Sent))),
    (Operator::Increment, Mandatory, Without, Way::Unsent, (Fault(D5), Fault(D6), Kept(Raised), Fault(D4))),
    (Operator::Increment, Optional, With, Way::Item, (Kept(Sent), Kept(Sent), Kept(Sent), Kept(Sent))),
    (Operator::Increment, Optional, With, Way::Null, (Emptied, Emptied, Emptied, Emptied)),
    (Operator::Increment, Optional, With, Way::Unsent, (Kept(Initial), Emptied, Kept(Raised), Fault(D4))),
    (Operator::Increment, Optional, Without, Way::Item, (Kept(Sent), Kept(Sent), Kept(Sent), Kept(Sent))),
    (Operator::Increment, Optional, Without, Way::Null, (Emptied, Emptied, Emptied, Emptied)),
    (Operator::Increment, Optional, Without, Way::Unsent, (Emptied, Emptied, Kept(Raised), Fault(D4))),
    (Operator::Tail, Mandatory, With, Way::Item, (Kept(OnInitial), Kept(OnInitial), Kept(OnPrevious), Fault(D4))),
    (Operator::Tail, Mandatory, With, Way::Unsent, (Kept(Initial), Fault(D6), Kept(Previous), Fault(D4))),
    (Operator::Tail, Mandatory, Without, Way::Item, (Kept(OnNothing), Kept(OnNothing), Kept(OnPrevious), Fault(D4))),
    (Operator::Tail, Mandatory, Without, Way::Unsent, (Fault(D5), Fault(D6), Kept(Previous), Fault(D4))),
    (Operator::Tail, Optional, With, Way::Item, (Kept(OnInitial), Kept(OnInitial), Kept(OnPrevious), Fault(D4))),
    (Operator::Tail, Optional, With, Way::Null, (Emptied, Emptied, Emptied, Emptied)),
    (Operator::Tail, Optional, With, Way::Unsent, (Kept(Initial), Emptied, Kept(Previous), Fault(D4))),
    (Operator::Tail, Optional, Without, Way::Item, (Kept(OnNothing), Kept(OnNothing), Kept(OnPrevious), Fault(D4))),
    (Operator::Tail, Optional, Without, Way::Null, (Emptied, Emptied, Emptied, Emptied)),
    (Operator::Tail, Optional, Without, Way::Unsent, (Emptied, Emptied, Kept(Previous), Fault(D4))),
    (Operator::Delta, Mandatory, With, Way::Item, (Kept(OnInitial), Fault(D6), Kept(OnPrevious), Fault(D4))),
    (Operator::Delta, Mandatory, Without, Way::Item, (Kept(OnNothing), Fault(D6), Kept(OnPrevious), Fault(D4))),
    (Operator::Delta, Optional, With, Way::Item, (Kept(OnInitial), Fault(D6), Kept(OnPrevious), Fault(D4))),
    (Operator::Delta, Optional, With, Way::Null, (AsItWas, AsItWas, AsItWas, AsItWas)),
    (Operator::Delta, Optional, Without, Way::Item, (Kept(OnNothing), Fault(D6), Kept(OnPrevious), Fault(D4))),
    (Operator::Delta, Optional, Without, Way::Null, (AsItWas, AsItWas, AsItWas, AsItWas)),
];
