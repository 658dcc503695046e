// A table whose columns are as wide as their widest cell.
use std::alloc::{AllocError, Global};
use std::io;

pub(crate) type Row = Vec<String>;

#[derive(Drop)]
pub(crate) struct Grid {
    rows: Vec<Row>,
    widths: Vec<usize>,
}

impl Grid {
    pub(crate) fn new(alloc: Global, head: Row) -> Result<Grid, AllocError> {
        Ok(Grid {
            widths: head.iter().map(|cell| cell.len()).collect(alloc)?,
            rows: vec![in alloc; head]?,
        })
    }

    // A row has no more cells than the head.
    pub(crate) fn push(&mut self, row: Row) -> Result<(), AllocError> {
        for (width, cell) in self.widths.iter_mut().zip(&row) {
            *width = cell.len().max(*width);
        }
        self.rows.push(row)?;
        Ok(())
    }

    pub(crate) fn print(&self, rt: &impl Print) -> io::Result<()> {
        for row in &self.rows {
            for (cell, width) in row.iter().zip(&self.widths) {
                print!(rt; "  {cell:>width$}", width = *width)?;
            }
            println!(rt)?;
        }
        Ok(())
    }
}
