// The sheet: what a round asks of the jobs, a row of nine numbers for each job.
ghost use Rattle.std.specs.Prelude.{◌≡◌, ℕ, List, ◌+◌, ◌*◌, ◌<◌, length, replicate};
ghost use Rattle.planner.specs.Sheet.{rolling_in};
ghost use Rattle.planner.specs.Columns.{number_of, cell_in};
ghost use Rattle.planner.specs.Putting.{put};

use std::marker::Model;

// The numbers of a row, in their order.
#[derive(Clone, Copy)]
pub(crate) enum Column {
    Run, // run time left
    Rollback, // rollback time, or NEVER
    Hold, // how long the job that this one waits for runs until what this one requests is free
    Undo, // how long it rolls back until then
    Waits, // whom this one waits for: a job, or NOBODY
    Mode, // 1 in rollback, else 0
    End, // where its curve's termination stands in the book
    Pieces, // how many pieces stand before that
    Asks, // what it requests: a resource, or that of Request::NONE
}

// As a number of the sheet.
pub(crate) const NEVER: u32 = job::NEVER as u32;

// All rows in one array; the proofs see the list of its numbers. A row is a plain number, as a job is, and each method asks that it be below 32: a
// type for it would be made and taken apart wherever a job's number also stands for a place in an array of jobs.
#[derive(Clone, Copy)]
pub struct Sheet {
    cells: [u32; 288],
}

impl Model for Sheet {
    ghost Value = { List ℕ };

    ghost view = { λ s. s.cells };

    ghost inverse = { λ cells. record { cells = cells } };
}

fn place(row: usize, column: Column) -> usize
    requires { row < 32 }
    ensures { result ≡ 9 * row + number_of column }
{
    9 * row + column as usize
}

impl Sheet {
    pub(crate) fn blank() -> Sheet
        ensures { result ≡ replicate 288 0 }
    {
        Sheet { cells: [0; 288] }
    }

    pub(crate) fn cell(&self, row: usize, column: Column) -> u32
        requires { row < 32 }
        ensures value { result ≡ cell_in column self.now row }
        ensures whole { length self.now ≡ 288 }
    {
        self.cells[place(row, column)]
    }

    pub(crate) fn put(&mut self, row: usize, column: Column, n: u32)
        requires { row < 32 }
        ensures { self.new ≡ put (number_of column) row n self.old }
    {
        self.cells[place(row, column)] = n;
    }

    pub(crate) fn rolls(&self, row: usize) -> bool
        requires { row < 32 }
        ensures { result ≡ rolling_in self.now row }
    {
        self.cell(row, Column::Mode) == 1
    }
}
