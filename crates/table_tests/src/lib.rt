// Tables whose rows hold ranges: pools, and the reservations and owners of every kind but inputs. Which rows meet, and the test of one table.
#![tactic(auto)]

pub mod input;
pub mod limits;
pub mod pool;
pub mod range;
pub mod table;
