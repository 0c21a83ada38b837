//! The differences of kept lists.

ghost use Rattle.std.specs.Prelude.{◌≡◌, ◌<◌, ◌^◌, ◌++◌, ◌&&◌, IfOk, OnOk, length, map};
ghost use Rattle.rw_lists.specs.News.{is_in as is_in_list, without as without_list, has_none, numbered, difference as difference_of, differences as differences_of, lists_of_news, lists_of_entry, numbered_lists};

use crate::{ListNews, ListsNews};
use rw_pattern::Tuple;
use rw_schema::OutOfMemory;
use std::alloc::Global;

/// The differences of lists before and after a step. There is one list after for each list before. The time is
/// quadratic in the length of a list.
pub fn differences(
    alloc: Global,
    before: &[Vec<Tuple>],
    after: &[Vec<Tuple>],
) -> Result<ListsNews, OutOfMemory>
    requires lists { length after.now ≡ length before.now }
    requires few { length before.now < 2 ^ 32 }
    ensures { IfOk result (λ news. numbered_lists news ≡ differences_of (map (λ list. list.items) before.now) (map (λ list. list.items) after.now)) }
{
    let mut lists = Vec::new(alloc);
    for (number, list) in before.iter().enumerate() {
        let news = difference(alloc, list.as_slice(), after[number].as_slice())?;
        push_changed(&mut lists, number as u32, news)?;
    }
    Ok(ListsNews { lists })
}

/// Puts the list's number and its difference behind the others, unless the list stayed as it was.
fn push_changed(
    lists: &mut Vec<(u32, ListNews)>,
    number: u32,
    news: ListNews,
) -> Result<(), OutOfMemory>
    ensures { OnOk result (map lists_of_entry lists.new.items ≡ map lists_of_entry lists.old.items ++ numbered number (lists_of_news news)) }
{
    if !is_unchanged(&news) {
        lists.push((number, news))?;
    }
    Ok(())
}

/// Whether no tuple left the list and none entered it.
fn is_unchanged(news: &ListNews) -> bool
    ensures { result ≡ has_none news.now.gone.items && has_none news.now.new.items }
{
    news.gone.is_empty() && news.new.is_empty()
}

/// What left the list, and what entered it.
fn difference(alloc: Global, before: &[Tuple], after: &[Tuple]) -> Result<ListNews, OutOfMemory>
    ensures { IfOk result (λ news. lists_of_news news ≡ difference_of before.now after.now) }
{
    let gone = without(alloc, before, after)?;
    let new = without(alloc, after, before)?;
    Ok(ListNews { gone, new })
}

/// The tuples that are not among the others, in order.
fn without(alloc: Global, tuples: &[Tuple], others: &[Tuple]) -> Result<Vec<Tuple>, OutOfMemory>
    ensures { IfOk result (λ rest. rest.items ≡ without_list tuples.now others.now) }
{
    let mut rest = Vec::new(alloc);
    for tuple in tuples {
        if !is_in(others, tuple) {
            rest.push(tuple.copy(alloc)?)?;
        }
    }
    Ok(rest)
}

/// Whether the tuple is among the others.
fn is_in(tuples: &[Tuple], tuple: &Tuple) -> bool
    ensures { result ≡ is_in_list tuples.now tuple.now }
{
    tuples.iter().any(|other| tuple.names() == other.names())
}
