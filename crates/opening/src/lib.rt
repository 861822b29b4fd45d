// From the bytes of an accepted book to its jobs. That these are the jobs of the book's records, and what holds of them, is in specs/.
// Bytes and a place stay two parameters: each call has another place, so a struct of the two would be made for one call.
#![tactic(auto)]

mod field; // field.rt: one field that is there, and one entry
pub mod head; // head.rt: a record's first eleven bytes
pub mod held; // held.rt: a record's held list
pub mod record; // record.rt: a record's job
pub mod start; // start.rt: the jobs of all records
