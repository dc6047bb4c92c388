// What the program `table_vectors` prints of walks along the chains of a table. It promises only that it is safe and ends. It stands on `streams`,
// `tables`, `table_reader` and `walks`.
#![tactic(auto)]

pub mod walking;
