// The numbers of the sheet, each constant or row handed out by a function that says which list it equals.
#![tactic(auto)]

pub mod rows; // rows.rt: the inverse rows
pub mod books; // books.rt: the spectrum books
