//! Lists of a case.

use cases_of_values::fault::CaseFault;
use serde_json::Value as Json;
use std::alloc::Global;

/// What a list of a case has as its items.
pub(crate) trait Item: Drop {
    fn read(alloc: Global, json: &Json) -> Result<Self, CaseFault>;
}

pub(crate) fn read_all<T: Item>(alloc: Global, list: &[Json]) -> Result<Vec<T>, CaseFault> {
    let mut items = Vec::new(alloc);
    for json in list {
        items.push(T::read(alloc, json)?)?;
    }
    Ok(items)
}

/// The number that a member or an item is.
pub(crate) fn number_in(json: Option<&Json>) -> Option<usize> {
    usize::try_from(json.and_then(Json::as_u64)?).ok()
}
