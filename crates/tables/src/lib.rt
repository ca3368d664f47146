// What every function over lent tables is made of. All of it is inner (decision 4 of docs/DECISIONS.md).
//     place    the sizes in range, and where a record, a link, a register and a log stand in their tables
//     mark     marks in words of 64 bits
//     flag     one flag of a table of flags
//     lent     the twelve tables, lent together
//     count    a record's count, that falls or rises
#![tactic(auto)]

pub mod count;
pub mod flag;
pub mod lent;
pub mod mark;
pub mod place;
