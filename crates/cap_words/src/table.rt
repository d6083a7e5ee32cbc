//! The table of the queues of settings, with the limits of the cluster under it (`queue_table`).
ghost use Rattle.std.specs.Prelude.{◌≡◌, ◌++◌, ◌-◌, IfOk, OnOk, length, replicate, string_bytes};
ghost use Rattle.std.specs.List.{flat_map};
ghost use Rattle.cap_words.specs.Table.{table, header, title, cell_words, maximum_words, width_of, widths_of, padded, row_words, state_words, allocation_line, applications_line, limits_words};

use crate::amounts::{put_amounts, put_number};
use crate::text::text_of;
use cap_base::{NoMemory, RESOURCES};
use cap_config::{Config, QueueRow};
use cap_vector::AMOUNT_MAX;
use std::alloc::{AllocError, Global};

/// A column whose cells have blanks up to its width. The state of a queue follows them, at the end of its line.
#[derive(Clone, Copy)]
pub enum Column {
    Path,
    Guarantee,
    Maximum,
    Factor,
}

/// How wide the columns are, in bytes.
#[derive(Clone, Copy)]
pub struct Widths {
    path: usize,
    guarantee: usize,
    maximum: usize,
    factor: usize,
}

/// A table of the queues of these settings, and their limits in three more lines. Each line ends with a line feed.
///
/// After a header there is a line for each queue, in the order of the settings, with columns under one another: its path; its
/// guarantee, and the maximum capacity that it has of its own or from a queue above, in MiB, vcores and GPUs, or `-` where there
/// is none; its user limit factor; and its own state, RUNNING or STOPPED. The limits are the minimum and the maximum allocation
/// of a container, in MiB, vcores and GPUs, and how many applications may be active at once. GPUs are not named where they are 0,
/// nor in a maximum allocation of the most that there may be. `NoMemory` if an allocation fails.
pub fn queue_table(alloc: Global, config: &Config<RESOURCES>) -> Result<String, NoMemory>
    ensures { IfOk result (λ words. string_bytes words ≡ table config.now) }
{
    match table(alloc, config) {
        Ok(words) => Ok(words),
        Err(_) => Err(NoMemory),
    }
}

#[tactic(auto, unfolding(crate::specs::Table::table))]
fn table(alloc: Global, config: &Config<RESOURCES>) -> Result<String, AllocError>
    ensures { IfOk result (λ words. string_bytes words ≡ table config.now) }
{
    let widths = widths_of(alloc, config.queues())?;
    let mut words = String::new(alloc);
    put_header(&mut words, &widths)?;
    put_rows(alloc, &mut words, &widths, config.queues())?;
    put_limits(&mut words, config)?;
    Ok(words)
}

fn widths_of(alloc: Global, rows: &[QueueRow<RESOURCES>]) -> Result<Widths, AllocError>
    ensures { IfOk result (λ widths. widths ≡ widths_of rows.now) }
{
    Ok(Widths {
        path: width_of(alloc, Column::Path, rows)?,
        guarantee: width_of(alloc, Column::Guarantee, rows)?,
        maximum: width_of(alloc, Column::Maximum, rows)?,
        factor: width_of(alloc, Column::Factor, rows)?,
    })
}

/// How wide a column is: as its title or its widest cell.
fn width_of(
    alloc: Global,
    column: Column,
    rows: &[QueueRow<RESOURCES>],
) -> Result<usize, AllocError>
    ensures { IfOk result (λ width. width ≡ width_of column rows.now) }
{
    let mut width = title(column).len();
    for row in rows {
        let cell = cell(alloc, column, row)?;
        width = width.max(cell.as_str().len());
    }
    Ok(width)
}

/// The title of a column.
fn title(column: Column) -> &'static str
    ensures { result.now ≡ title column }
{
    match column {
        Column::Path => "queue",
        Column::Guarantee => "guarantee",
        Column::Maximum => "maximum",
        Column::Factor => "user-limit-factor",
    }
}

/// What a queue has in a column.
fn cell(alloc: Global, column: Column, row: &QueueRow<RESOURCES>) -> Result<String, AllocError>
    ensures { IfOk result (λ cell. string_bytes cell ≡ cell_words column row.now) }
{
    let mut cell = String::new(alloc);
    match column {
        Column::Path => cell.push_str(text_of(&row.path()))?,
        Column::Guarantee => put_amounts(&mut cell, 0, row.guaranteed().amounts())?,
        Column::Maximum => put_maximum(&mut cell, row)?,
        Column::Factor => put_number(&mut cell, row.factor())?,
    }
    Ok(cell)
}

fn put_maximum(cell: &mut String, row: &QueueRow<RESOURCES>) -> Result<(), AllocError>
    ensures { OnOk result (string_bytes cell.new
        ≡ string_bytes cell.old ++ maximum_words row.now.maximum) }
{
    match row.maximum() {
        Some(most) => put_amounts(cell, 0, most.amounts()),
        None => cell.push_str("-"),
    }
}

/// Adds a cell with blanks up to the width of its column, and two between columns.
fn put_padded(words: &mut String, width: usize, cell: &str) -> Result<(), AllocError>
    ensures { OnOk result (string_bytes words.new
        ≡ string_bytes words.old ++ padded width cell.now) }
{
    words.push_str(cell)?;
    put_blanks(words, width.saturating_sub(cell.len()))?;
    words.push_str("  ")
}

fn put_blanks(words: &mut String, count: usize) -> Result<(), AllocError>
    ensures { OnOk result (string_bytes words.new
        ≡ string_bytes words.old ++ replicate count 32) }
{
    let mut left = count;
    while left > 0 {
        words.push_str(" ")?;
        left -= 1;
    }
    Ok(())
}

fn put_header(words: &mut String, widths: &Widths) -> Result<(), AllocError>
    ensures { OnOk result (string_bytes words.new
        ≡ string_bytes words.old ++ header widths.now) }
{
    put_padded(words, widths.path, title(Column::Path))?;
    put_padded(words, widths.guarantee, title(Column::Guarantee))?;
    put_padded(words, widths.maximum, title(Column::Maximum))?;
    put_padded(words, widths.factor, title(Column::Factor))?;
    words.push_str("state\n")
}

fn put_rows(
    alloc: Global,
    words: &mut String,
    widths: &Widths,
    rows: &[QueueRow<RESOURCES>],
) -> Result<(), AllocError>
    ensures { OnOk result (string_bytes words.new
        ≡ string_bytes words.old ++ flat_map (row_words widths.now) rows.now) }
{
    for row in rows {
        put_row(alloc, words, widths, row)?;
    }
    Ok(())
}

/// Adds the line of a queue.
fn put_row(
    alloc: Global,
    words: &mut String,
    widths: &Widths,
    row: &QueueRow<RESOURCES>,
) -> Result<(), AllocError>
    ensures { OnOk result (string_bytes words.new
        ≡ string_bytes words.old ++ row_words widths.now row.now) }
{
    put_cell(alloc, words, widths.path, Column::Path, row)?;
    put_cell(alloc, words, widths.guarantee, Column::Guarantee, row)?;
    put_cell(alloc, words, widths.maximum, Column::Maximum, row)?;
    put_cell(alloc, words, widths.factor, Column::Factor, row)?;
    words.push_str(state_words(row.is_running()))
}

/// Adds what a queue has in a column of this width.
fn put_cell(
    alloc: Global,
    words: &mut String,
    width: usize,
    column: Column,
    row: &QueueRow<RESOURCES>,
) -> Result<(), AllocError>
    ensures { OnOk result (string_bytes words.new
        ≡ string_bytes words.old ++ padded width (cell_words column row.now)) }
{
    let cell = cell(alloc, column, row)?;
    put_padded(words, width, cell.as_str())
}

fn state_words(running: bool) -> &'static str
    ensures { result.now ≡ state_words running }
{
    if running { "RUNNING\n" } else { "STOPPED\n" }
}

/// Adds the lines of the limits.
fn put_limits(words: &mut String, config: &Config<RESOURCES>) -> Result<(), AllocError>
    ensures { OnOk result (string_bytes words.new
        ≡ string_bytes words.old ++ limits_words config.now) }
{
    let least = config.minimum_allocation().amounts();
    let most = config.maximum_allocation().amounts();
    put_allocation(words, "minimum allocation: ", 0, least)?;
    put_allocation(words, "maximum allocation: ", AMOUNT_MAX, most)?;
    put_applications(words, config.application_limit())
}

/// Adds the line of a bound of one container, after its name. So many GPUs go without saying.
#[tactic(auto, unfolding(crate::specs::Table::allocation_line))]
fn put_allocation(
    words: &mut String,
    name: &str,
    unsaid: u64,
    amounts: [u64; RESOURCES],
) -> Result<(), AllocError>
    ensures { OnOk result (string_bytes words.new
        ≡ string_bytes words.old ++ allocation_line name.now unsaid amounts) }
{
    words.push_str(name)?;
    put_amounts(words, unsaid, amounts)?;
    words.push_str("\n")
}

/// Adds the line of how many applications may be active.
#[tactic(auto, unfolding(crate::specs::Table::applications_line))]
fn put_applications(words: &mut String, limit: u64) -> Result<(), AllocError>
    ensures { OnOk result (string_bytes words.new
        ≡ string_bytes words.old ++ applications_line limit) }
{
    words.push_str("maximum applications: ")?;
    put_number(words, limit)?;
    words.push_str("\n")
}
