// Which texts make a view that has exactly the tiles of a layout's tables.
ghost use Rattle.std.specs.Prelude.{◌≡◌, IfOk};
ghost use Rattle.mb_reading.specs.Common.{table_text};
ghost use Rattle.mb_reading.specs.Views.{are_joined, has_shown, is_alone, is_bare, is_column, is_name, is_own_column, is_plain, is_plain_core, is_query, is_source, is_table, is_view_text, joins, links, makes, shows, shows_tiles, takes_all};

use base_values::OutOfMemory;
use mb_tables::{MbtType, TableName};
use sqlite_ast::{Binary, Core, Expr, Origin, Select, Shown, Source, Statement};
use sqlite_items::Boxed;
use sqlite_syntax::error::ParseError;
use sqlite_syntax::parse;
use sqlite_value::value::Bytes;
use std::alloc::Global;

// Whether a text is a name, in any ASCII case.
fn is_name(text: &Bytes, name: &str) -> bool
    ensures { result ≡ is_name text.now name.now }
{
    text.as_slice().eq_ignore_ascii_case(name.as_bytes())
}

// Whether an expression is a column of a table, which it names.
#[tactic(auto, unfolding(crate::specs::Views::is_own_column))]
fn is_own_column(table: TableName, name: &str, expr: &Expr) -> bool
    ensures { result ≡ is_own_column table name.now expr.now }
{
    match expr {
        Expr::Column(Some(of), column) => is_name(of, table.name()) && is_name(column, name),
        _ => false,
    }
}

// Whether an expression is a column of a table, which it may name.
#[tactic(auto, unfolding(crate::specs::Views::is_column))]
fn is_column(table: TableName, name: &str, expr: &Expr) -> bool
    ensures { result ≡ is_column table name.now expr.now }
{
    match expr {
        Expr::Column(Some(of), column) => is_name(of, table.name()) && is_name(column, name),
        Expr::Column(None, column) => is_name(column, name),
        _ => false,
    }
}

// Whether such a column is shown under its own name.
#[tactic(auto, unfolding(crate::specs::Views::shows))]
fn shows(table: TableName, name: &str, shown: &Shown) -> bool
    ensures { result ≡ shows table name.now shown.now }
{
    match shown {
        Shown::One(expr, None, _) => is_column(table, name, expr),
        Shown::One(expr, Some(alias), _) => is_name(alias, name) && is_column(table, name, expr),
        _ => false,
    }
}

fn has_shown(table: TableName, name: &str, columns: &[Shown]) -> bool
    ensures { result ≡ has_shown table name.now columns.now }
{
    columns.iter().any(|shown| shows(table, name, shown))
}

// Whether the place of a tile and its contents are shown, and nothing else.
#[tactic(auto, unfolding(crate::specs::Views::shows_tiles))]
fn shows_tiles(places: TableName, contents: TableName, columns: &[Shown]) -> bool
    ensures { result ≡ shows_tiles places contents columns.now }
{
    columns.len() == 4
        && has_shown(places, "zoom_level", columns)
        && has_shown(places, "tile_column", columns)
        && has_shown(places, "tile_row", columns)
        && has_shown(contents, "tile_data", columns)
}

fn is_table(table: TableName, origin: &Origin<Boxed<Select>>) -> bool
    ensures { result ≡ is_table table origin.now }
{
    match origin {
        Origin::Table(name) => is_name(name, table.name()),
        Origin::Query(_) => false,
    }
}

// Whether a table is read under its own name, and no LEFT JOIN adds it.
#[tactic(auto, unfolding(crate::specs::Views::is_source))]
fn is_source(table: TableName, source: &Source) -> bool
    ensures { result ≡ is_source table source.now }
{
    !source.is_left && !source.alias.is_some() && is_table(table, &source.origin)
}

// Whether it has neither ON nor USING.
#[tactic(auto, unfolding(crate::specs::Views::is_bare))]
fn is_bare(source: &Source) -> bool
    ensures { result ≡ is_bare source.now }
{
    !source.on.is_some() && source.using.len() == 0
}

// Whether an expression says that the ids of places and contents are equal.
#[tactic(auto, unfolding(crate::specs::Views::links))]
fn links(places: TableName, contents: TableName, id: &str, expr: &Expr) -> bool
    ensures { result ≡ links places contents id.now expr.now }
{
    match expr {
        Expr::Binary(Binary::Eq, left, right) => {
            let (left, right) = (left.get(), right.get());
            (is_own_column(places, id, left) && is_own_column(contents, id, right))
                || (is_own_column(contents, id, left) && is_own_column(places, id, right))
        }
        _ => false,
    }
}

// Whether a table is joined by the id.
#[tactic(auto, unfolding(crate::specs::Views::joins))]
fn joins(places: TableName, contents: TableName, id: &str, source: &Source) -> bool
    ensures { result ≡ joins places contents id.now source.now }
{
    match &source.on {
        Some(expr) => links(places, contents, id, expr.get()),
        None => match source.using.as_slice() {
            [name] => is_name(name, id),
            _ => false,
        },
    }
}

// Whether a table is read alone.
fn is_alone(table: TableName, sources: &[Source]) -> bool
    ensures { result ≡ is_alone table sources.now }
{
    match sources {
        [source] => is_source(table, source) && is_bare(source),
        _ => false,
    }
}

// Whether the tables of places and of contents are read, joined by the id.
fn are_joined(places: TableName, contents: TableName, id: &str, sources: &[Source]) -> bool
    ensures { result ≡ are_joined places contents id.now sources.now }
{
    match sources {
        [first, second] => {
            ((is_source(places, first) && is_source(contents, second))
                || (is_source(contents, first) && is_source(places, second)))
                && is_bare(first)
                && joins(places, contents, id, second)
        }
        _ => false,
    }
}

// Whether a query has SELECT and FROM alone.
#[tactic(auto, unfolding(crate::specs::Views::is_plain_core))]
fn is_plain_core(core: &Core) -> bool
    ensures { result ≡ is_plain_core core.now }
{
    !core.distinct && !core.filter.is_some() && core.group.len() == 0 && !core.having.is_some()
}

#[tactic(auto, unfolding(crate::specs::Views::is_plain))]
fn is_plain(query: &Select) -> bool
    ensures { result ≡ is_plain query.now }
{
    query.with.len() == 0
        && query.others.len() == 0
        && query.order.len() == 0
        && !query.limit.is_some()
        && !query.offset.is_some()
        && is_plain_core(&query.first)
}

// Whether it takes all rows of the tables of a layout, each once.
fn takes_all(layout: MbtType, core: &Core) -> bool
    ensures { result ≡ takes_all layout core.now }
{
    let (columns, sources) = (core.shown.as_slice(), core.from.as_slice());
    match layout {
        MbtType::FlatWithHash => {
            let table = TableName::TilesWithHash;
            shows_tiles(table, table, columns) && is_alone(table, sources)
        }
        MbtType::Normalized { schema, .. } => {
            let (places, contents) = (schema.places(), schema.contents());
            shows_tiles(places, contents, columns)
                && are_joined(places, contents, schema.tile_id_column(), sources)
        }
        MbtType::Flat | MbtType::Cache => false,
    }
}

#[tactic(auto, unfolding(crate::specs::Views::is_query))]
fn is_query(layout: MbtType, query: &Select) -> bool
    ensures { result ≡ is_query layout query.now }
{
    is_plain(query) && takes_all(layout, &query.first)
}

// Whether a statement makes a view of exactly the tiles of a layout's tables.
fn makes(layout: MbtType, statement: &Statement) -> bool
    ensures { result ≡ makes layout statement.now }
{
    match statement {
        Statement::CreateView(_, _, columns, query) => {
            columns.len() == 0 && is_query(layout, query.get())
        }
        _ => false,
    }
}

// Whether a text does. One that isn't understood doesn't.
#[tactic(auto, unfolding(crate::specs::Views::is_view_text))]
pub(crate) fn is_view_text(alloc: Global, layout: MbtType, text: &[u8]) -> Result<bool, OutOfMemory>
    ensures { IfOk result (λ is. is ≡ is_view_text layout text.now) }
{
    match parse(alloc, text) {
        Ok(parsed) => Ok(makes(layout, &parsed.statement)),
        Err(ParseError::OutOfMemory) => Err(OutOfMemory),
        Err(_) => Ok(false),
    }
}
