//! Columns with the resources and the predecessors of activities.

ghost use Rattle.std.specs.Prelude.{◌≡◌, ◌<◌, length, map, IfOk, OnOk};
ghost use Rattle.plan_net.specs.Network.{IsActivity};
ghost use Rattle.plan_table.specs.Names.{first_name as named, name_of};
ghost use Rattle.plan_formats.specs.Columns.{column_of};
ghost use Rattle.plan_formats.specs.Tables.{table_of};
ghost use Rattle.plan_views.specs.LinkColumns as spec;

use crate::predecessors::{predecessor_words, word_lines};
use plan_formats::{Column, Layout, Table, characters, with_column};
use plan_sgs::Instance;
use plan_table::{NameLine, first_name};
use std::alloc::{AllocError, Global};

/// The resources and the predecessors of an activity, as texts: `crew 2, digger 1` and `A, B`.
#[derive(Drop)]
pub struct ActivityLinks {
    pub number: u64,
    pub resources: Vec<u8>,
    pub predecessors: Vec<u8>,
}

// Appends a word that isn't empty, behind a comma if it isn't the first one.
fn push_word(text: &mut Vec<u8>, word: &[u8]) -> Result<(), AllocError>
    ensures { OnOk result (text.new.items ≡ spec.joined text.old.items word.now) }
{
    if word.is_empty() {
        return Ok(());
    }
    if !text.is_empty() {
        text.extend_from_slice(b", ")?;
    }
    text.extend_from_slice(word)
}

// Returns the name of a resource, or `R` and its number.
fn resource_name(alloc: Global, names: &[NameLine<'_>], number: u64) -> Result<Vec<u8>, AllocError>
    ensures { IfOk result (λ name. name.items
        ≡ spec.resource_name (named number (map name_of names.now)) number) }
{
    let Some(name) = first_name(names, number) else {
        return Ok(format!(in alloc; "R{number}")?.into_bytes());
    };
    let mut text = Vec::new(alloc);
    text.extend_from_slice(name)?;
    Ok(text)
}

// Returns a resource and the amount that is needed of it; nothing if none is needed.
fn need_word(
    alloc: Global,
    names: &[NameLine<'_>],
    number: u64,
    need: u64,
) -> Result<Vec<u8>, AllocError>
    ensures { IfOk result (λ word.
        word.items ≡ spec.need_word (map name_of names.now) number need) }
{
    if need == 0 {
        return Ok(Vec::new(alloc));
    }
    let mut word = resource_name(alloc, names, number)?;
    let amount = format!(in alloc; " {need}")?;
    word.extend_from_slice(amount.as_bytes())?;
    Ok(word)
}

// Appends the need of the resource at index `k`.
fn push_need(
    alloc: Global,
    text: &mut Vec<u8>,
    names: &[NameLine<'_>],
    needs: &[u64],
    k: usize,
) -> Result<(), AllocError>
    requires { k < length needs.now }
    ensures { OnOk result (text.new.items
        ≡ spec.with_need (map name_of names.now) needs.now text.old.items k) }
{
    let word = need_word(alloc, names, k as u64 + 1, needs[k])?;
    push_word(text, &word)
}

/// Returns the needs of an activity by the names of the resources, such as `crew 2, digger 1`.
pub fn needs_text(
    alloc: Global,
    names: &[NameLine<'_>],
    needs: &[u64],
) -> Result<Vec<u8>, AllocError>
    ensures { IfOk result (λ text.
        text.items ≡ spec.needs_text (map name_of names.now) needs.now) }
{
    let mut text = Vec::new(alloc);
    for k in 0..needs.len() {
        push_need(alloc, &mut text, names, needs, k)?;
    }
    Ok(text)
}

// Returns the id of the predecessor in an arc to activity `j`; nothing for another arc.
fn arc_word<'a>(ids: &[NameLine<'a>], j: u32, arc: (u32, u32)) -> &'a [u8]
    ensures { result.now ≡ spec.arc_word (map name_of ids.now) j arc }
{
    if arc.1 != j {
        return b"";
    }
    match first_name(ids, arc.0 as u64) {
        Some(id) => id,
        None => b"",
    }
}

/// Returns the ids of the predecessors of activity `j` in the order of the arcs, such as `A, B`.
pub fn predecessors_text(
    alloc: Global,
    ids: &[NameLine<'_>],
    j: u32,
    arcs: &[(u32, u32)],
) -> Result<Vec<u8>, AllocError>
    ensures { IfOk result (λ text.
        text.items ≡ spec.predecessors_text (map name_of ids.now) j arcs.now) }
{
    let mut text = Vec::new(alloc);
    for &arc in arcs {
        push_word(&mut text, arc_word(ids, j, arc))?;
    }
    Ok(text)
}

// Returns the resources and the predecessors of activity `j`, which have these words.
fn links_at(
    alloc: Global,
    instance: &Instance<'_>,
    resources: &[NameLine<'_>],
    words: &[NameLine<'_>],
    j: u32,
) -> Result<ActivityLinks, AllocError>
    requires { IsActivity instance.now.project.network j }
    ensures { IfOk result (λ links. spec.links_of links ≡ spec.links_at instance.now
        (map name_of resources.now) (map name_of words.now) j) }
{
    let needs = instance.needs(j);
    let arcs = instance.network().arcs();
    Ok(ActivityLinks {
        number: j as u64,
        resources: needs_text(alloc, resources, needs)?,
        predecessors: predecessors_text(alloc, words, j, arcs)?,
    })
}

// Returns the same for an activity that has an id; no text for another one.
fn links_if(
    alloc: Global,
    instance: &Instance<'_>,
    resources: &[NameLine<'_>],
    ids: &[NameLine<'_>],
    words: &[NameLine<'_>],
    j: u32,
) -> Result<ActivityLinks, AllocError>
    requires { IsActivity instance.now.project.network j }
    ensures { IfOk result (λ links. spec.links_of links ≡ spec.links_if
        (named j (map name_of ids.now)) instance.now
        (map name_of resources.now) (map name_of words.now) j) }
{
    if first_name(ids, j as u64).is_some() {
        return links_at(alloc, instance, resources, words, j);
    }
    Ok(ActivityLinks {
        number: j as u64,
        resources: Vec::new(alloc),
        predecessors: Vec::new(alloc),
    })
}

// Returns the resources and the predecessors of each activity of a project, which have these words.
fn links_by(
    alloc: Global,
    instance: &Instance<'_>,
    resources: &[NameLine<'_>],
    ids: &[NameLine<'_>],
    words: &[NameLine<'_>],
) -> Result<Vec<ActivityLinks>, AllocError>
    ensures { IfOk result (λ links. map spec.links_of links.items ≡ spec.links_by instance.now
        (map name_of resources.now) (map name_of ids.now) (map name_of words.now)) }
{
    let mut links = Vec::new(alloc);
    for k in 0..instance.network().len() {
        links.push(links_if(alloc, instance, resources, ids, words, k as u32 + 1)?)?;
    }
    Ok(links)
}

/// Returns the resources and the predecessors of each activity of a project as texts, by the names
/// of its resources and the ids of its activities. A resource without a name is `R` and its number;
/// resources of which nothing is needed are left out. A wait is `A+2`, and other predecessors without
/// an id are left out. An activity without an id has no text.
pub fn project_links(
    alloc: Global,
    instance: &Instance<'_>,
    resources: &[NameLine<'_>],
    ids: &[NameLine<'_>],
) -> Result<Vec<ActivityLinks>, AllocError>
    ensures { IfOk result (λ links. map spec.links_of links.items ≡ spec.project_links instance.now
        (map name_of resources.now) (map name_of ids.now)) }
{
    let words = predecessor_words(alloc, ids, instance.network())?;
    let lines = word_lines(alloc, &words)?;
    links_by(alloc, instance, resources, ids, &lines)
}

// Returns the resources by the numbers of the activities.
fn resource_lines<'a>(
    alloc: Global,
    links: &'a [ActivityLinks],
) -> Result<Vec<NameLine<'a>>, AllocError>
    ensures { IfOk result (λ lines. map name_of lines.items
        ≡ map spec.resource_line (map spec.links_of links.now)) }
{
    let mut lines = Vec::new(alloc);
    for link in links {
        lines.push(NameLine {
            number: link.number,
            name: &link.resources,
        })?;
    }
    Ok(lines)
}

// Returns the predecessors by the numbers of the activities.
fn predecessor_lines<'a>(
    alloc: Global,
    links: &'a [ActivityLinks],
) -> Result<Vec<NameLine<'a>>, AllocError>
    ensures { IfOk result (λ lines. map name_of lines.items
        ≡ map spec.predecessor_line (map spec.links_of links.now)) }
{
    let mut lines = Vec::new(alloc);
    for link in links {
        lines.push(NameLine {
            number: link.number,
            name: &link.predecessors,
        })?;
    }
    Ok(lines)
}

// Returns the characters of the longest of some texts and of a heading.
fn longest(heading: &str, texts: &[NameLine<'_>]) -> usize
    ensures { result ≡ spec.longest heading.now (map name_of texts.now) }
{
    let mut most = characters(heading.as_bytes());
    for text in texts {
        most = most.max(characters(text.name));
    }
    most
}

/// Returns a column of texts, which has as many characters in the text as the longest of them or as
/// the heading.
pub fn texts_column(word: &'static str, texts: &[NameLine<'_>]) -> Column
    ensures { column_of result ≡ spec.texts_column word.now (map name_of texts.now) }
{
    Column {
        heading: word,
        word,
        layout: Layout::Words(longest(word, texts)),
    }
}

// Returns the layout of a mark that columns follow, and another layout as it is.
fn wide(layout: Layout) -> Layout
    ensures { result ≡ spec.wide layout }
{
    match layout {
        Layout::Mark => Layout::WideMark,
        other => other,
    }
}

// Returns a column; columns can follow its mark.
fn wide_column(column: &Column) -> Column
    ensures { column_of result ≡ spec.wide_column (column_of column.now) }
{
    Column {
        heading: column.heading,
        word: column.word,
        layout: wide(column.layout),
    }
}

// Returns columns whose marks columns can follow.
fn wide_columns(alloc: Global, columns: &[Column]) -> Result<Vec<Column>, AllocError>
    ensures { IfOk result (λ made. map column_of made.items
        ≡ map spec.wide_column (map column_of columns.now)) }
{
    let mut made = Vec::new(alloc);
    for column in columns {
        made.push(wide_column(column))?;
    }
    Ok(made)
}

// Returns a table whose marks columns can follow.
fn with_wide_marks<'a>(alloc: Global, table: Table<'a>) -> Result<Table<'a>, AllocError>
    ensures { IfOk result (λ made.
        table_of made ≡ spec.with_wide_marks (table_of table.entry)) }
{
    let columns = wide_columns(alloc, &table.columns)?;
    Ok(Table {
        above: table.above,
        columns,
        rows: table.rows,
        below: table.below,
    })
}

// Returns a table with the resources of its activities.
fn with_resources<'a>(
    alloc: Global,
    table: Table<'a>,
    links: &'a [ActivityLinks],
) -> Result<Table<'a>, AllocError>
    ensures { IfOk result (λ made. table_of made
        ≡ spec.with_resources (map spec.links_of links.now) (table_of table.entry)) }
{
    let lines = resource_lines(alloc, links)?;
    let column = texts_column("resources", &lines);
    with_column(alloc, table, column, &lines)
}

/// Returns a table with two more columns, `resources` and `predecessors`: for each row the texts of
/// the activity whose number is in its first cell.
pub fn with_links<'a>(
    alloc: Global,
    table: Table<'a>,
    links: &'a [ActivityLinks],
) -> Result<Table<'a>, AllocError>
    ensures { IfOk result (λ made. table_of made
        ≡ spec.with_links (map spec.links_of links.now) (table_of table.entry)) }
{
    let lines = predecessor_lines(alloc, links)?;
    let marked = with_wide_marks(alloc, table)?;
    let table = with_resources(alloc, marked, links)?;
    let column = texts_column("predecessors", &lines);
    with_column(alloc, table, column, &lines)
}
