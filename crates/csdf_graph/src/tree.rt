//! What the tables of a file hold, or what stands there in its place.

ghost use Rattle.std.specs.Prelude.{◌≡◌, map, option_map, is_none, is_ok};
ghost use Rattle.toml.specs.Data.{as_str, as_integer, as_table, get_member};
ghost use Rattle.toml.specs.View.{view, table_view};
ghost use Rattle.csdf_graph.specs.Passes.{Finds, Reads, itself};
ghost use Rattle.csdf_graph.specs.Tree.{is_among, has_only, all_some, text_at, integer_or, optional_integer_at, elements_of, array_at, array_or_none};
ghost use Rattle.csdf_graph.specs.Tree.{integers_at, integers_or_none, optional_integers_at, tables_at, tables_or_none, texts_or_none};

use crate::fault::Unfit;
use crate::misfit::{Found, Misfit};
use std::alloc::Global;
use toml::{Table, Value};

/// The keys of the file itself.
pub(crate) const FILE_KEYS: [&str; 4] = ["actor", "channel", "script", "cells"];

const TEXT: &str = "a string";

const INTEGER: &str = "an integer";

const INTEGERS: &str = "an array of integers";

const TEXTS: &str = "an array of strings";

const TABLES: &str = "an array of tables";

/// Whether the key is one of these.
fn is_among(key: &str, keys: &[&str]) -> bool
    ensures { result ≡ is_among (map (λ k. k.now) keys.now) key.now }
{
    keys.contains(&key)
}

/// The first key of the table that is none of these.
fn unlisted<'a>(table: &'a Table, keys: &[&str]) -> Option<&'a str>
    ensures { is_none result ≡ has_only (map (λ k. k.now) keys.now) (table_view table.now) }
{
    match table.keys().find(|key| !is_among(key.as_str(), keys)) {
        Some(key) => Some(key.as_str()),
        None => None,
    }
}

/// What is wanted in place of a key that a table has not, whose own keys are these in words: a key
/// of the file stands above all tables.
fn wanted_for(key: &str, words: &'static str) -> &'static str {
    if is_among(key, &FILE_KEYS) {
        "it at the top of the file, above all tables"
    } else {
        words
    }
}

/// Checks that the table has no key but these, which are the words.
pub(crate) fn has_only<'a>(
    table: &'a Table,
    keys: &[&str],
    words: &'static str,
) -> Result<(), Misfit<'a>>
    ensures { is_ok result ≡ has_only (map (λ k. k.now) keys.now) (table_view table.now) }
{
    match unlisted(table, keys) {
        Some(key) => Err(Misfit::new(key, Found::Unlisted, wanted_for(key, words))),
        None => Ok(()),
    }
}

/// The value at a key.
pub(crate) fn value_at<'a>(table: &'a Table, key: &str) -> Option<&'a Value>
    ensures { option_map (λ v. view v.now) result ≡ get_member key.now (table_view table.now) }
{
    table.get(key)
}

/// A value of another kind than is wanted.
pub(crate) fn of_kind<'a>(key: &'a str, value: &Value, words: &'static str) -> Misfit<'a> {
    Misfit::new(key, Found::Kind(value.type_str()), words)
}

/// An array with an entry of another kind than is wanted.
fn with_entry<'a>(key: &'a str, entry: &Value, words: &'static str) -> Misfit<'a> {
    Misfit::new(key, Found::Entry(entry.type_str()), words)
}

/// The value at a key that is not to be absent.
fn needed_at<'a>(
    table: &'a Table,
    key: &'static str,
    words: &'static str,
) -> Result<&'a Value, Misfit<'a>>
    ensures { Finds (λ v. view v.now) result (get_member key.now (table_view table.now)) }
{
    match value_at(table, key) {
        Some(value) => Ok(value),
        None => Err(Misfit::new(key, Found::Nothing, words)),
    }
}

/// The text at a key.
pub(crate) fn text_at<'a>(table: &'a Table, key: &'static str) -> Result<&'a str, Misfit<'a>>
    ensures { Finds (λ t. t.now) result (text_at key.now (table_view table.now)) }
{
    let value = needed_at(table, key, TEXT)?;
    match value.as_str() {
        Some(text) => Ok(text),
        None => Err(of_kind(key, value, TEXT)),
    }
}

/// A value as an integer.
fn integer_of<'a>(key: &'a str, value: &Value) -> Result<i64, Misfit<'a>>
    ensures { Finds itself result (as_integer (view value.now)) }
{
    match value.as_integer() {
        Some(integer) => Ok(integer),
        None => Err(of_kind(key, value, INTEGER)),
    }
}

/// The integer at a key, or this one where the key is absent.
pub(crate) fn integer_or<'a>(
    default: i64,
    table: &'a Table,
    key: &'static str,
) -> Result<i64, Misfit<'a>>
    ensures { Finds itself result (integer_or default key.now (table_view table.now)) }
{
    match value_at(table, key) {
        Some(value) => integer_of(key, value),
        None => Ok(default),
    }
}

/// The integer at a key that may be absent.
pub(crate) fn optional_integer_at<'a>(
    table: &'a Table,
    key: &'static str,
) -> Result<Option<i64>, Misfit<'a>>
    ensures { Finds itself result (optional_integer_at key.now (table_view table.now)) }
{
    match value_at(table, key) {
        Some(value) => Ok(Some(integer_of(key, value)?)),
        None => Ok(None),
    }
}

/// The elements of a value that is to be an array of what the words say.
#[tactic(auto, using(crate::proofs::TreeLemmas::data_of_items))]
fn elements_of<'a>(
    key: &'static str,
    value: &'a Value,
    words: &'static str,
) -> Result<&'a [Value], Misfit<'a>>
    ensures { Finds (λ values. map view values.now) result (elements_of (view value.now)) }
{
    match value.as_array() {
        Some(array) => Ok(array.as_slice()),
        None => Err(of_kind(key, value, words)),
    }
}

/// The elements of the array at a key.
fn array_at<'a>(
    table: &'a Table,
    key: &'static str,
    words: &'static str,
) -> Result<&'a [Value], Misfit<'a>>
    ensures { Finds (λ values. map view values.now) result (array_at key.now (table_view table.now)) }
{
    let value = needed_at(table, key, words)?;
    elements_of(key, value, words)
}

/// The elements of the array at a key, none where the key is absent.
fn array_or_none<'a>(
    table: &'a Table,
    key: &'static str,
    words: &'static str,
) -> Result<&'a [Value], Misfit<'a>>
    ensures { Finds (λ values. map view values.now) result (array_or_none key.now (table_view table.now)) }
{
    match value_at(table, key) {
        Some(value) => elements_of(key, value, words),
        None => Ok(&[]),
    }
}

/// The entries of the array at a key, none where there is no array.
pub(crate) fn entries_at<'a>(table: &'a Table, key: &str) -> &'a [Value] {
    match table.get(key) {
        Some(Value::Array(entries)) => entries.as_slice(),
        _ => &[],
    }
}

/// The integers of an array that has nothing else.
fn integers_of<'a>(
    alloc: Global,
    key: &'static str,
    values: &'a [Value],
) -> Result<Vec<i64>, Unfit<'a>>
    ensures { Reads (λ v. v.items) result (all_some as_integer (map view values.now)) }
{
    let mut integers = Vec::new(alloc);
    for value in values {
        match value.as_integer() {
            Some(integer) => integers.push(integer)?,
            None => return Err(Unfit::Fault(with_entry(key, value, INTEGERS))),
        }
    }
    Ok(integers)
}

/// The tables of an array that has nothing else.
fn tables_of<'a>(
    alloc: Global,
    key: &'static str,
    values: &'a [Value],
) -> Result<Vec<&'a Table>, Unfit<'a>>
    ensures { Reads (λ v. map (λ t. table_view t.now) v.items) result (all_some as_table (map view values.now)) }
{
    let mut tables = Vec::new(alloc);
    for value in values {
        match value.as_table() {
            Some(table) => tables.push(table)?,
            None => return Err(Unfit::Fault(with_entry(key, value, TABLES))),
        }
    }
    Ok(tables)
}

/// The texts of an array that has nothing else.
fn texts_of<'a>(
    alloc: Global,
    key: &'static str,
    values: &'a [Value],
) -> Result<Vec<&'a str>, Unfit<'a>>
    ensures { Reads (λ v. map (λ t. t.now) v.items) result (all_some as_str (map view values.now)) }
{
    let mut texts = Vec::new(alloc);
    for value in values {
        match value.as_str() {
            Some(text) => texts.push(text)?,
            None => return Err(Unfit::Fault(with_entry(key, value, TEXTS))),
        }
    }
    Ok(texts)
}

/// The integers of the array at a key.
pub(crate) fn integers_at<'a>(
    alloc: Global,
    table: &'a Table,
    key: &'static str,
) -> Result<Vec<i64>, Unfit<'a>>
    ensures { Reads (λ v. v.items) result (integers_at key.now (table_view table.now)) }
{
    let values = array_at(table, key, INTEGERS)?;
    integers_of(alloc, key, values)
}

/// The integers of the array at a key, none where the key is absent.
pub(crate) fn integers_or_none<'a>(
    alloc: Global,
    table: &'a Table,
    key: &'static str,
) -> Result<Vec<i64>, Unfit<'a>>
    ensures { Reads (λ v. v.items) result (integers_or_none key.now (table_view table.now)) }
{
    let values = array_or_none(table, key, INTEGERS)?;
    integers_of(alloc, key, values)
}

/// The integers of an array at a key that may be absent.
pub(crate) fn optional_integers_at<'a>(
    alloc: Global,
    table: &'a Table,
    key: &'static str,
) -> Result<Option<Vec<i64>>, Unfit<'a>>
    ensures { Reads (option_map (λ v. v.items)) result (optional_integers_at key.now (table_view table.now)) }
{
    let Some(value) = value_at(table, key) else {
        return Ok(None);
    };
    let values = elements_of(key, value, INTEGERS)?;
    let integers = integers_of(alloc, key, values)?;
    Ok(Some(integers))
}

/// The tables of the array at a key.
pub(crate) fn tables_at<'a>(
    alloc: Global,
    table: &'a Table,
    key: &'static str,
) -> Result<Vec<&'a Table>, Unfit<'a>>
    ensures { Reads (λ v. map (λ t. table_view t.now) v.items) result (tables_at key.now (table_view table.now)) }
{
    let values = array_at(table, key, TABLES)?;
    tables_of(alloc, key, values)
}

/// The tables of the array at a key, none where the key is absent.
pub(crate) fn tables_or_none<'a>(
    alloc: Global,
    table: &'a Table,
    key: &'static str,
) -> Result<Vec<&'a Table>, Unfit<'a>>
    ensures { Reads (λ v. map (λ t. table_view t.now) v.items) result (tables_or_none key.now (table_view table.now)) }
{
    let values = array_or_none(table, key, TABLES)?;
    tables_of(alloc, key, values)
}

/// The texts of the array at a key, none where the key is absent.
pub(crate) fn texts_or_none<'a>(
    alloc: Global,
    table: &'a Table,
    key: &'static str,
) -> Result<Vec<&'a str>, Unfit<'a>>
    ensures { Reads (λ v. map (λ t. t.now) v.items) result (texts_or_none key.now (table_view table.now)) }
{
    let values = array_or_none(table, key, TEXTS)?;
    texts_of(alloc, key, values)
}
