// A map from pages to words in six levels of tables, as the page tables of mm/memory.c are (`__pte_alloc`).
#![tactic(auto)]

mod last_table;
mod level_tables;
mod levels;
mod radix;
mod row_numbers;
mod word_rows;

pub use radix::Radix;
