//! The script of a text.

ghost use Rattle.std.specs.Prelude.{◌≡◌, map, option_and_then, string_bytes, IfOk};
ghost use Rattle.toml.specs.View.{table_view};
ghost use Rattle.csdf_graph.specs.Passes.{Finds, Gives, Reads, itself};
ghost use Rattle.csdf_graph.specs.ScriptText.{script_table, script_draft, draft_view, script_view, optional_within, script_within, script_of, script_in};

use crate::fault::{At, GraphFault, Unfit};
use crate::misfit::Misfit;
use crate::notes::Notes;
use crate::ranges::checked;
use crate::read::file_of;
use crate::script::Script;
use crate::tree::{has_only, integer_or, of_kind, optional_integer_at, texts_or_none, value_at};
use csdf_model::{MAX_FIRINGS, MAX_SCRIPT_LIMIT, MAX_SCRIPT_LINES, MAX_SCRIPT_SUPPLY};
use std::alloc::{AllocError, Global};
use toml::Table;

/// A script with its numbers as they stand in the file.
#[derive(Drop)]
struct ScriptDraft<'a> {
    limit: i64,
    supply: i64,
    firings: Option<i64>,
    lines: Vec<&'a str>,
}

/// The limit of a script that sets none.
const DEFAULT_LIMIT: i64 = MAX_SCRIPT_LIMIT as i64;

/// The tokens of each source of a script that says no number.
const DEFAULT_SUPPLY: i64 = MAX_SCRIPT_SUPPLY as i64;

const SCRIPT_KEYS: [&str; 4] = ["limit", "supply", "firings", "moves"];

#[tactic(auto, unfolding(crate::specs::ScriptText::script_draft))]
fn draft_of(alloc: Global, table: &Table) -> Result<ScriptDraft<'_>, Unfit<'_>>
    ensures { Reads draft_view result (script_draft (table_view table.now)) }
{
    has_only(table, &SCRIPT_KEYS, "limit, supply, firings or moves")?;
    let limit = integer_or(DEFAULT_LIMIT, table, "limit")?;
    let supply = integer_or(DEFAULT_SUPPLY, table, "supply")?;
    let firings = optional_integer_at(table, "firings")?;
    let lines = texts_or_none(alloc, table, "moves")?;
    Ok(ScriptDraft {
        limit,
        supply,
        firings,
        lines,
    })
}

/// The script of a file, with its numbers as they stand there.
#[tactic(auto, unfolding(crate::specs::ScriptText::script_draft))]
fn file_draft(alloc: Global, file: &Table) -> Result<ScriptDraft<'_>, Unfit<'_>>
    ensures { Reads draft_view result (option_and_then script_draft (script_table (table_view file.now))) }
{
    let Some(value) = value_at(file, "script") else {
        return Ok(ScriptDraft {
            limit: DEFAULT_LIMIT,
            supply: DEFAULT_SUPPLY,
            firings: None,
            lines: Vec::new(alloc),
        });
    };
    match value.as_table() {
        Some(table) => draft_of(alloc, table),
        None => Err(Unfit::Fault(of_kind("script", value, "a table"))),
    }
}

/// A number at a key that may be absent, else from 0 to `high`.
fn optional_within(
    key: &'static str,
    high: u32,
    number: Option<i64>,
) -> Result<Option<u32>, Misfit<'static>>
    ensures { Finds itself result (optional_within high number) }
{
    match number {
        Some(number) => Ok(Some(checked(key, 0, high, number)?)),
        None => Ok(None),
    }
}

/// The texts in memory of their own.
fn owned(alloc: Global, texts: &[&str]) -> Result<Vec<String>, AllocError>
    ensures { IfOk result (λ v. map string_bytes v.items ≡ map (λ t. t.now) texts.now) }
{
    let mut strings = Vec::new(alloc);
    for text in texts {
        strings.push(String::from_str(alloc, text)?)?;
    }
    Ok(strings)
}

/// The script, where its numbers and the count of its lines are within their limits.
#[tactic(auto, unfolding(crate::specs::ScriptText::script_within))]
fn script_within(alloc: Global, draft: &ScriptDraft<'_>) -> Result<Script, Unfit<'static>>
    ensures { Reads script_view result (script_within (draft_view draft.now)) }
{
    let limit = checked("limit", 0, MAX_SCRIPT_LIMIT, draft.limit)?;
    let supply = checked("supply", 0, MAX_SCRIPT_SUPPLY, draft.supply)?;
    let firings = optional_within("firings", MAX_FIRINGS, draft.firings)?;
    let (count, most) = (draft.lines.len(), MAX_SCRIPT_LINES);
    if count > most {
        return Err(Unfit::Fault(Misfit::counted("moves", count, 0, most as i64)));
    }
    let lines = owned(alloc, &draft.lines)?;
    Ok(Script {
        limit,
        supply,
        firings,
        lines,
    })
}

/// The script of a file.
#[tactic(auto, unfolding(crate::specs::ScriptText::script_in), using(crate::proofs::PassLemmas::gives_read))]
pub(crate) fn script_in(
    alloc: Global,
    file: &Table,
    notes: &mut Notes,
) -> Result<Script, GraphFault>
    ensures { Gives script_view result (script_in (table_view file.now)) }
{
    let shape = GraphFault::Shape(At::Script);
    let draft = notes.answer_of(alloc, shape, file_draft(alloc, file))?;
    let range = GraphFault::Range(At::Script);
    notes.answer_of(alloc, range, script_within(alloc, &draft))
}

/// Reads the table `script` of a graph file, and looks at nothing else of it.
///
/// Without such a table, `limit` and `supply` are 1,000,000 and there are no lines. The error is
/// the first of [`GraphFault::NotToml`], [`GraphFault::Shape`] and [`GraphFault::Range`] that the
/// text has; or [`GraphFault::Memory`], which says nothing of it.
pub fn read_script(alloc: Global, bytes: &[u8]) -> Result<Script, GraphFault>
    ensures { Gives script_view result (script_of bytes.now) }
{
    let mut notes = Notes::unasked(alloc);
    let file = file_of(alloc, bytes, &mut notes)?;
    script_in(alloc, &file, &mut notes)
}
