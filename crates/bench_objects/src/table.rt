//! A table of figures, and how it is printed.

use crate::case::{Case, Plan, spreads_of};
use crate::fault::Fault;
use crate::run::Machine;
use crate::spread::Spread;
use std::alloc::{AllocError, Global};

/// A table: its title, the heads of its columns and its rows, each with the cases of its columns.
#[derive(Drop)]
pub struct Table {
    pub title: &'static str,
    pub columns: &'static [&'static str],
    pub rows: &'static [&'static str],
    pub cases: Vec<Case>,
}

/// Adds the best, the median and the worst of a column.
fn add_figures(line: &mut String, spread: &Option<Spread>) -> Result<(), AllocError> {
    match spread {
        Some(s) => write!(line, " |{:>6} {:>6} {:>6}", s.best, s.median, s.worst),
        None => line.push_str(" |     -      -      -"),
    }
}

/// A line of the table: the best, the median and the worst of each column.
pub fn line_of(
    alloc: Global,
    name: &str,
    spreads: &[Option<Spread>],
) -> Result<String, AllocError> {
    let mut line = format!(in alloc; "{name:<20}")?;
    for spread in spreads {
        add_figures(&mut line, spread)?;
    }
    Ok(line)
}

/// The line over the others: the title, and the heads of the columns.
fn heads_of(alloc: Global, table: &Table) -> Result<String, AllocError> {
    let mut line = format!(in alloc; "{:<20}", table.title)?;
    for column in table.columns {
        write!(line, " |{column:>20}")?;
    }
    Ok(line)
}

/// Prints this text and the end of a line.
pub fn print_line<R: Print>(rt: &R, line: Result<String, AllocError>) -> Result<(), Fault> {
    println!(rt; "{}", line?)?;
    Ok(())
}

impl Table {
    /// Prints the rows, of which these are the times of the cases.
    fn print_rows<R: Print>(
        &self,
        rt: &R,
        alloc: Global,
        spreads: &[Option<Spread>],
    ) -> Result<(), Fault> {
        let width = self.columns.len().max(1);
        for (name, row) in self.rows.iter().zip(spreads.chunks(width)) {
            print_line(rt, line_of(alloc, name, row))?;
        }
        Ok(())
    }

    /// Measures all cases and prints the table.
    pub fn print<R: Machine + Print>(
        &self,
        rt: &R,
        alloc: Global,
        plan: Plan,
    ) -> Result<(), Fault> {
        let spreads = spreads_of(rt, alloc, self.cases.as_slice(), plan)?;
        println!(rt; "")?;
        print_line(rt, heads_of(alloc, self))?;
        self.print_rows(rt, alloc, spreads.as_slice())
    }
}
