//! Values of measurements.

ghost use Rattle.std.specs.Prelude.{◌≡◌, map, option_map, unwrap_or};
ghost use Rattle.ar_value.specs.Value.{nil, value_at, value_named};
ghost use Rattle.ar_value.specs.View.{fields_view, value_view};

use crate::decimal::Decimal;
use crate::indices::Indices;
use crate::names::Names;
use crate::text::Text;

/// A value of a measurement. Contracts see it by `value_view` of `specs/View`.
#[cycle(value)]
#[derive(Drop)]
pub enum Value {
    Nil,
    Bool(bool),
    Whole(i64),
    Decimal(Decimal),
    Text(Text),
    List(Values),
    Object(Box<Fields>),
}

/// The items of a list.
#[cycle(value)]
#[derive(Drop)]
pub struct Values {
    pub items: Vec<Value>,
}

/// The fields of a record, in the order of their names. Those that are nil need no value.
#[cycle(value)]
#[derive(Drop)]
pub struct Fields {
    pub names: Names,
    /// The indices, among the names, of the fields that have a value.
    pub indices: Indices,
    /// Their values.
    pub values: Vec<Value>,
}

impl Fields {
    /// The value of the field of a name: `Some(None)` is nil.
    pub fn get(&self, name: &str) -> Option<Option<&Value>>
        ensures { option_map (λ found. unwrap_or (option_map (λ value. value_view value.now) found) nil) result
            ≡ value_named name.now (fields_view self.now) }
    {
        let index = self.names.index_of(name)?;
        Some(value_at(&self.indices, &self.values, index))
    }
}

/// The value with an index, of values with an index each. `None` is nil.
pub fn value_at<'values>(
    indices: &Indices,
    values: &'values [Value],
    index: usize,
) -> Option<&'values Value>
    ensures { unwrap_or (option_map (λ value. value_view value.now) result) nil
        ≡ value_at index indices.now (map value_view values.now) }
{
    values.get(indices.index_of(index)?)
}
