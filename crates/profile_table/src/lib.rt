// Which profile a board gets, by its device id and firmware version: a table of rows, checked before it is taken, and looked
// up; and lines in which rows and look-ups are read and answered.
#![tactic(auto)]

pub mod answer;
pub mod entry;
pub mod fault;
pub mod kept;
pub mod row;
pub mod table;
pub mod talk;
pub mod turn;
