use dw_base::Text;
use dw_key::DType;

/// How often a value of a field was taken in for the events of one day and type: a row of what discovery
/// lists, in the order of value, day and type.
#[derive(Debug, Drop)]
pub struct ValueCount {
    /// The normal form of the value.
    pub value: Text,
    /// Eight digits.
    pub day: Text,
    pub dtype: DType,
    pub count: u64,
}

/// The row after which a list of values goes on.
#[derive(Debug, Drop)]
pub struct After {
    pub value: Text,
    pub day: Text,
    pub dtype: DType,
}
