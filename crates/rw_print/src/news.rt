//! What left the kept lists and what entered them, as values.

ghost use Rattle.std.specs.Prelude.{◌≡◌, IfOk, map};
ghost use Rattle.serde_json.specs.View.{view};
ghost use Rattle.rw_lists.specs.News.{lists_of_news, lists_of_entry};
ghost use Rattle.rw_print.specs.Lines.{news_data};

use crate::matches::tuple_values;
use rw_lists::ListNews;
use serde_json::{Value, json};
use std::alloc::{AllocError, Global};

/// `[number,gone,new]`
fn news_value(alloc: Global, number: u32, news: &ListNews) -> Result<Value, AllocError>
    ensures { IfOk result (λ value. view value ≡ news_data (number, lists_of_news news.now)) }
{
    let gone = Value::Array(tuple_values(alloc, news.gone.as_slice())?);
    let new = Value::Array(tuple_values(alloc, news.new.as_slice())?);
    json!(in alloc; [number, gone, new])
}

/// The lists that changed, as a list of values.
pub(crate) fn news_values(
    alloc: Global,
    lists: &[(u32, ListNews)],
) -> Result<Vec<Value>, AllocError>
    ensures { IfOk result (λ values. map view values.items ≡ map news_data (map lists_of_entry lists.now)) }
{
    let mut values = Vec::new(alloc);
    for (number, news) in lists {
        values.push(news_value(alloc, *number, news)?)?;
    }
    Ok(values)
}
